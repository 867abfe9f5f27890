//! The list of the propositions of an automaton.

ghost use Rattle.std.specs.Prelude.{◌≡◌, ◌++◌, ◌∷◌, [], map, string_bytes, true, OnOk, OnErr};
ghost use Rattle.std.specs.List.{list_any};
ghost use Rattle.ltl_spec.specs.Formulas.Tokens as tokens;
ghost use Rattle.ltl_spec.specs.Formulas.Names as spec_names;

use std::alloc::{AllocError, Allocator};

/// Whether the name is in the list.
pub(crate) fn is_listed<A: Allocator>(names: &[String<&A>], name: &[u8]) -> bool
    ensures { result ≡ list_any (tokens.same_name name.now) (map string_bytes names.now) }
{
    'names: for other in names {
        if name == other.as_bytes() {
            return true;
        }
    }
    false
}

/// Appends a copy of the name.
pub(crate) fn list_name<'a, A: Allocator>(
    alloc: &'a A,
    names: &mut Vec<String<&'a A>, &'a A>,
    name: &[u8],
) -> Result<(), AllocError>
    requires { spec_names.is_proposition name.now ≡ true }
    ensures listed { OnOk result (map string_bytes names.new.items ≡ map string_bytes names.old.items ++ name.now ∷ []) }
    ensures kept { OnErr result (names.new.items ≡ names.old.items) }
{
    let name = match str::from_utf8(name) {
        Ok(name) => String::from_str(alloc, name)?,
        Err(_) => unreachable!(),
    };
    names.push(name)?;
    Ok(())
}
