//! The encoding of refusals as numbers for C.

ghost use Rattle.std.specs.Prelude.{◌≡◌, Some, None, option_map, slice_get};
ghost use Rattle.ltl_syntax.specs.ParserView.{kind_of};
ghost use Rattle.ltl_hoa.specs.TokenView as hoa;
ghost use Rattle.ltl_cli.specs.Refusals.{refusal_of};
ghost use Rattle.ltl_c.specs.Codes.{automaton_fault_number, automaton_faults, code_for, code_with, formula_fault_number, formula_faults, refusal_in};

use ltl_cli::Refusal;
use ltl_hoa::HoaFaultKind;
use ltl_syntax::FaultKind;

/// Why a call was refused: in C `struct ltl2ba_refusal`.
#[derive(Clone, Copy, Debug)]
#[repr(C)]
pub struct RefusalCode {
    /// The number of the refusal, or 0 for none.
    pub kind: u32,
    /// The number of the error in a formula or an automaton; 0 for other refusals.
    pub fault: u32,
    /// The offset of the error in a formula or a word, in bytes from 0; or its line in an automaton, from 1. It is 0 for other refusals.
    pub place: usize,
}

/// The errors of a formula by number.
const FORMULA_FAULTS: [FaultKind; 4] = [
    FaultKind::UnexpectedByte,
    FaultKind::ExpectedOperand,
    FaultKind::ExpectedOperatorOrEnd,
    FaultKind::ExpectedCloseOrOperator,
];

/// The errors of an automaton by number.
const AUTOMATON_FAULTS: [HoaFaultKind; 11] = [
    HoaFaultKind::NotHoaVersion1,
    HoaFaultKind::BadToken,
    HoaFaultKind::ItemTwice,
    HoaFaultKind::ItemMissing,
    HoaFaultKind::UnknownItem,
    HoaFaultKind::Unsupported,
    HoaFaultKind::NumberOutOfRange,
    HoaFaultKind::BadPropositionList,
    HoaFaultKind::StateDefinedTwice,
    HoaFaultKind::TextAfterEnd,
    HoaFaultKind::LimitPassed,
];

/// The number of a syntax error in a formula: its index in `FORMULA_FAULTS`.
fn formula_fault(kind: FaultKind) -> u32
    ensures { result ≡ formula_fault_number (kind_of kind) }
{
    kind as u32
}

/// The number of an error in an automaton: its index in `AUTOMATON_FAULTS`.
fn automaton_fault(kind: HoaFaultKind) -> u32
    ensures { result ≡ automaton_fault_number (hoa.kind_of kind) }
{
    kind as u32
}

/// The code with this number, without an error and a place.
fn plain(kind: u32) -> RefusalCode
    ensures { result ≡ code_with kind 0 0 }
{
    RefusalCode {
        kind,
        fault: 0,
        place: 0,
    }
}

/// The code for no refusal.
pub(crate) fn no_refusal() -> RefusalCode
    ensures { result ≡ code_for None }
{
    plain(0)
}

/// The code of a refusal.
pub(crate) fn code_of(refusal: Refusal) -> RefusalCode
    ensures { result ≡ code_for (Some (refusal_of refusal)) }
{
    match refusal {
        Refusal::Usage => plain(1),
        Refusal::OutOfMemory => plain(2),
        Refusal::LongFormula => plain(3),
        Refusal::BadFormula(place, kind) => RefusalCode {
            kind: 4,
            fault: formula_fault(kind),
            place,
        },
        Refusal::TooManyPropositions => plain(5),
        Refusal::TooManyRows => plain(6),
        Refusal::TooManyElementaryRows => plain(7),
        Refusal::LargeAutomaton => plain(8),
        Refusal::LongWord => plain(9),
        Refusal::BadWord(place) => RefusalCode {
            kind: 10,
            fault: 0,
            place,
        },
        Refusal::BadAutomaton(line, kind) => RefusalCode {
            kind: 11,
            fault: automaton_fault(kind),
            place: line,
        },
        Refusal::LargeProduct => plain(12),
        Refusal::CannotOpen => plain(13),
        Refusal::CannotRead => plain(14),
        Refusal::CannotWrite => plain(15),
    }
}

/// The syntax error of a formula with this number.
fn formula_fault_at(number: u32) -> Option<FaultKind>
    ensures { option_map kind_of result ≡ slice_get formula_faults number }
{
    FORMULA_FAULTS.get(number as usize).copied()
}

/// The error of an automaton with this number.
fn automaton_fault_at(number: u32) -> Option<HoaFaultKind>
    ensures { option_map hoa.kind_of result ≡ slice_get automaton_faults number }
{
    AUTOMATON_FAULTS.get(number as usize).copied()
}

/// The refusal with this code, if there is one.
pub(crate) fn refusal_at(code: &RefusalCode) -> Option<Refusal>
    ensures { option_map refusal_of result ≡ refusal_in code.now }
{
    match code.kind {
        1 => Some(Refusal::Usage),
        2 => Some(Refusal::OutOfMemory),
        3 => Some(Refusal::LongFormula),
        4 => match formula_fault_at(code.fault) {
            Some(kind) => Some(Refusal::BadFormula(code.place, kind)),
            None => None,
        },
        5 => Some(Refusal::TooManyPropositions),
        6 => Some(Refusal::TooManyRows),
        7 => Some(Refusal::TooManyElementaryRows),
        8 => Some(Refusal::LargeAutomaton),
        9 => Some(Refusal::LongWord),
        10 => Some(Refusal::BadWord(code.place)),
        11 => match automaton_fault_at(code.fault) {
            Some(kind) => Some(Refusal::BadAutomaton(code.place, kind)),
            None => None,
        },
        12 => Some(Refusal::LargeProduct),
        13 => Some(Refusal::CannotOpen),
        14 => Some(Refusal::CannotRead),
        15 => Some(Refusal::CannotWrite),
        _ => None,
    }
}
