//! The options of a translation, in C's layout.

ghost use Rattle.std.specs.Prelude.{◌≡◌, option_map};
ghost use Rattle.ltl_words.specs.Plans.{layout_in};
ghost use Rattle.ltl_c.specs.Calls.{layout_numbered};

use ltl_words::Layout;

/// The options of a translation: in C `struct ltl2ba_options`.
#[derive(Clone, Copy, Debug)]
#[repr(C)]
pub struct TextOptions {
    /// The normal form isn't rewritten (`-l`).
    pub no_rewrite: bool,
    /// Transitions that another one implies are kept (`-o`).
    pub keep_implied: bool,
    /// States with the same edges as another one are kept (`-p`).
    pub keep_equal: bool,
    /// 0 for a never claim, 1 for a Büchi automaton in the Hanoi Omega-Automata format (HOA v1), 2 for a generalized Büchi automaton in HOA. Another number
    /// is a usage error.
    pub layout: u32,
}

/// The layout with this number.
pub(crate) fn layout_at(number: u32) -> Option<Layout>
    ensures { option_map layout_in result ≡ layout_numbered number }
{
    match number {
        0 => Some(Layout::Claim),
        1 => Some(Layout::Hoa),
        2 => Some(Layout::Generalized),
        _ => None,
    }
}
