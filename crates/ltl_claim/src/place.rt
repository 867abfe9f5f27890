//! Lines and columns of a text.

ghost use Rattle.std.specs.Prelude.{◌≡◌, ◌≤◌, ◌<◌, ◌^◌, length};
ghost use Rattle.ltl_claim.specs.ClaimAnswer.{place_of};

/// The line and the column of the byte at this offset, both counted from 1.
pub(crate) fn place_of(text: &[u8], at: usize) -> (usize, usize)
    requires within { at ≤ length text.now }
    requires few { length text.now < 4_294_967_296 }
    ensures { result ≡ place_of text.now at }
{
    let mut line = 1usize;
    let mut column = 1usize;
    let before = &text[..at];
    'bytes: for byte in before {
        if *byte == b'\n' {
            line += 1;
            column = 1;
        } else {
            column += 1;
        }
    }
    (line, column)
}
