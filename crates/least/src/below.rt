//! Relations on values that need elements and lack others.

ghost use Rattle.std.specs.Prelude.{◌≡◌, ℕ, Bool, true, false};
ghost use Rattle.ltl_spec.specs.Collections.Sets.{Has};

use crate::elements::Elements;

/// A relation, as inclusion is one on sets: `a` is below `b` only if `b` needs each element that `a` needs, and `a` lacks none that `b` asks for.
pub trait Below: Elements {
    ghost below: { Self → Self → Bool };

    /// Whether this value is below the other.
    fn is_below(&self, other: &Self) -> bool
        ensures { result ≡ below self.now other.now };

    ghost needed: { (a b : Self) (k e : ℕ) → below a b ≡ true → Has (Self.needs a k) e → Has (Self.needs b k) e };

    ghost lacked: { (a b : Self) (k e : ℕ) → below a b ≡ true → Has (Self.asks b k) e → Self.lacking a k e ≡ false };
}
