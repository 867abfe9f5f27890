//! Writing of texts into the caller's buffer.

ghost use Rattle.ltl_c.specs.Calls.{Delivers};

/// The status of a call whose buffer or array is too short.
pub(crate) const TOO_SHORT: u8 = 6;

/// Copies the text to the beginning of the buffer and returns `ended`, or returns `TOO_SHORT` if the buffer is too short. `count` is the length of the text
/// in bytes in both cases.
pub(crate) fn deliver(ended: u8, text: &[u8], buffer: &mut [u8], count: &mut usize) -> u8
    ensures { Delivers ended text.now buffer.old buffer.new count.new result }
{
    *count = text.len();
    if text.len() > buffer.len() {
        return TOO_SHORT;
    }
    buffer[..text.len()].copy_from_slice(text);
    ended
}
