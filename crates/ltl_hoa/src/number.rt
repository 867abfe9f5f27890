//! Numbers in decimal digits, of any length.

ghost use Rattle.std.specs.Prelude.{◌≡◌};
ghost use Rattle.ltl_spec.specs.Hoa.HoaToken.{number_of};
ghost use Rattle.ltl_hoa.specs.NumberView.{capped};

/// A number above every count that may be read. Greater numbers are read as this one.
pub(crate) const MOST_NUMBER: usize = 4_294_967_295;

/// The value of the digits, but at most `MOST_NUMBER`.
pub(crate) fn number(digits: &[u8]) -> usize
    ensures { result ≡ capped (number_of digits.now) }
{
    let mut number = 0usize;
    'digits: for digit in digits {
        number = (10 * number + usize::from(*digit).saturating_sub(48)).min(MOST_NUMBER);
    }
    number
}
