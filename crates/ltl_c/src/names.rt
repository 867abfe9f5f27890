//! The C call `ltl2ba_names`: the names of a formula's propositions.

ghost use Rattle.std.specs.Prelude.{◌≡◌, IfOk};
ghost use Rattle.ltl_cli.specs.Refusals.{TakesStep};
ghost use Rattle.ltl_c.specs.Names.{HandsNames, NamesOf, names_text};

use crate::buffer::deliver;
use crate::refusal_code::{RefusalCode, code_of, no_refusal};
use ltl_cli::{Refusal, formula_of};
use ltl_syntax::Formula;
use std::alloc::{AllocError, Allocator, Global};

/// The names in the order of their numbers, each followed by a zero byte.
fn listed<'a, A: Allocator>(
    alloc: &'a A,
    formula: &Formula<'_, A>,
) -> Result<Vec<u8, &'a A>, AllocError>
    ensures { IfOk result (λ v. v.items ≡ names_text formula.now.names) }
{
    let mut text = Vec::new(alloc);
    for p in 0..formula.name_count() {
        text.extend_from_slice(formula.name(p).as_bytes())?;
        text.push(0)?;
    }
    Ok(text)
}

/// Reads a formula, and lists the names of its propositions.
fn names_of<'a, A: Allocator>(alloc: &'a A, text: &[u8]) -> Result<Vec<u8, &'a A>, Refusal>
    ensures { TakesStep (NamesOf text.now) (λ v. v.items) result }
{
    let formula = formula_of(alloc, text)?;
    let names = listed(alloc, &formula)?;
    Ok(names)
}

/// Writes the names of a formula's propositions into the buffer, in the order of their numbers, each followed by a zero byte. The result is 0, or 6 if the
/// buffer is too short; `count` is the length in bytes of all names with their zero bytes. For a refusal the result is the exit status of `ltl2ba`, `count`
/// is 0, and `refusal` has the code.
#[unsafe(no_mangle)]
pub extern "C" fn ltl2ba_names(
    alloc: Global,
    formula: &[u8],
    buffer: &mut [u8],
    count: &mut usize,
    refusal: &mut RefusalCode,
) -> u8
    ensures { HandsNames formula.now refusal.new buffer.old buffer.new count.new result }
{
    match names_of(&alloc, formula) {
        Ok(names) => {
            *refusal = no_refusal();
            deliver(0, names.as_slice(), buffer, count)
        }
        Err(reason) => {
            *refusal = code_of(reason);
            deliver(reason.status().number(), b"", buffer, count)
        }
    }
}
