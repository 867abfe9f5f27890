//! Where the names of propositions come from: a formula, or a list.

ghost use Rattle.std.specs.Prelude.{◌≡◌, ◌<◌, [], length, map, slice_index_or, string_bytes};
ghost use Rattle.ltl_text.specs.NameLists.{names_in};

use ltl_syntax::Formula;
use std::alloc::Allocator;

/// A name of a list.
fn listed<'f, A: Allocator>(names: &'f [String<&A>], i: usize) -> &'f str
    requires { i < length names.now }
    ensures { result.now ≡ slice_index_or (map string_bytes names.now) i [] }
{
    names[i].as_str()
}

/// The names of propositions, by their numbers.
#[derive(Drop)]
pub enum Names<'f, 'a, A: Allocator> {
    /// Those of a formula.
    OfFormula(&'f Formula<'a, A>),
    /// Those of a list.
    Listed(&'f [String<&'a A>]),
}

impl<'f, 'a, A: Allocator> Names<'f, 'a, A> {
    /// The number of names.
    pub(crate) fn count(&self) -> usize
        ensures { result ≡ length (names_in self.now) }
    {
        match self {
            Names::OfFormula(formula) => formula.name_count(),
            Names::Listed(names) => names.len(),
        }
    }

    /// The name of a proposition.
    pub(crate) fn name(&self, i: usize) -> &str
        requires { i < length (names_in self.now) }
        ensures { result.now ≡ slice_index_or (names_in self.now) i [] }
    {
        match *self {
            Names::OfFormula(formula) => formula.name(i),
            Names::Listed(names) => listed(names, i),
        }
    }
}
