//! Implicit graphs whose states are numbers, with accepting states.

ghost use Rattle.std.specs.Prelude.{◌≡◌, ℕ, ◌+◌, ◌-◌, ◌<◌, ◌^◌, IfSome, min};
ghost use Rattle.ltl_check.specs.Nets.{Net};

use crate::graph::Step;

/// A graph whose states are numbers. A look at a candidate edge is counted.
pub trait Numbered {
    type Looks;

    ghost net: { Self → Net };

    ghost looked_of: { Self.Looks → ℕ };

    fn count(&self) -> usize
        ensures { result ≡ (net self.now).count };

    fn start(&self) -> usize
        ensures is { result ≡ (net self.now).start }
        ensures below { result < (net self.now).count };

    fn pairs_at(&self, n: usize) -> usize
        requires { n < (net self.now).count }
        ensures { result ≡ (net self.now).pairs n };

    fn accepts(&self, n: usize) -> bool
        requires { n < (net self.now).count }
        ensures { result ≡ (net self.now).accepts n };

    fn look(&self, n: usize, k: usize, looks: &mut Self::Looks) -> Option<Step<usize>>
        requires own { n < (net self.now).count }
        requires inside { k < (net self.now).pairs n }
        ensures found { result ≡ (net self.now).successor n k }
        ensures below { IfSome result (λ t. t.target < (net self.now).count) }
        ensures counted { looked_of looks.new ≡ min (looked_of looks.old + 1) (2 ^ 128 - 1) };
}
