//! Tests of the `Display` texts of faults, which no contract fixes. Each has to be the text of the refusal that a program makes of the fault, which is
//! proved to be that of the definition (`put_text`).

use ltl_buchi::BaFault;
use ltl_check::CheckFault;
use ltl_cli::{Refusal, put_text};
use ltl_formula::BuildFault;
use ltl_hoa::{HoaFault, HoaFaultKind};
use ltl_streams::{WriteFault, WriterSink};
use ltl_syntax::{FaultKind, ReadFault};
use ltl_word::WordFault;
use ltl_words::{PlanFault, Tool};
use std::alloc::Global;
use std::error::Error;
use std::fmt::InlineText;

/// The `Display` text of an error.
fn shown<E: Error>(error: E) -> InlineText<64> {
    InlineText::of(error)
}

/// Whether the fault and its refusal have the text of the definition.
fn agree<E: Error>(alloc: Global, fault: E, refusal: Refusal) -> bool {
    let mut text = Vec::new(alloc);
    let written = put_text(Tool::Translator, refusal, &mut WriterSink::new(&mut text));
    let wanted = text.as_slice();
    written.is_ok()
        && shown(fault).as_str().as_bytes() == wanted
        && shown(refusal).as_str().as_bytes() == wanted
}

/// Compares each of these faults with its refusal.
macro_rules! all_agree {
    ($rt:ident, $($fault:expr),+) => {{
        $(assert!($rt; agree($rt.alloc(), $fault, Refusal::from($fault)), "{}", $fault);)+
    }};
}

#[test]
fn of_formulas(rt: HostRuntime) {
    for kind in [
        FaultKind::UnexpectedByte,
        FaultKind::ExpectedOperand,
        FaultKind::ExpectedOperatorOrEnd,
        FaultKind::ExpectedCloseOrOperator,
    ] {
        all_agree!(rt, ReadFault::AtByte(7, kind));
    }
    all_agree!(
        rt,
        ReadFault::TooLong,
        ReadFault::TooManyPropositions,
        ReadFault::OutOfMemory,
        BuildFault::TooManyRows,
        BuildFault::TooManyElementaryRows,
        BuildFault::OutOfMemory
    );
}

#[test]
fn of_automata(rt: HostRuntime) {
    for kind in [
        HoaFaultKind::NotHoaVersion1,
        HoaFaultKind::BadToken,
        HoaFaultKind::ItemTwice,
        HoaFaultKind::ItemMissing,
        HoaFaultKind::UnknownItem,
        HoaFaultKind::Unsupported,
        HoaFaultKind::NumberOutOfRange,
        HoaFaultKind::BadPropositionList,
        HoaFaultKind::StateDefinedTwice,
        HoaFaultKind::TextAfterEnd,
        HoaFaultKind::LimitPassed,
    ] {
        all_agree!(rt, HoaFault::AtLine(12, kind));
    }
    all_agree!(
        rt,
        HoaFault::CannotRead,
        HoaFault::OutOfMemory,
        BaFault::TooLarge,
        BaFault::OutOfMemory,
        CheckFault::TooManyPropositions,
        CheckFault::ProductTooLarge,
        CheckFault::OutOfMemory
    );
}

#[test]
fn of_words_and_programs(rt: HostRuntime) {
    all_agree!(
        rt,
        WordFault::TooLong,
        WordFault::BadWord(4),
        WordFault::TooManyPropositions,
        WordFault::OutOfMemory,
        WriteFault
    );
    let opening = Refusal::CannotOpen;
    assert!(rt; agree(rt.alloc(), opening, opening));
    assert!(rt; agree(rt.alloc(), PlanFault::OutOfMemory, Refusal::OutOfMemory));
    // The message of a usage error goes on with the program's synopsis.
    assert_eq!(rt; shown(PlanFault::Usage).as_str(), "usage");
    assert_eq!(rt; shown(Refusal::Usage).as_str(), "usage");
}
