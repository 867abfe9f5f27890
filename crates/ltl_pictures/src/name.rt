//! Names of automata and of states, as text within the quoted strings of the DOT language.

ghost use Rattle.std.specs.Prelude.{◌≡◌, ◌<◌, flat_map, length};
ghost use Rattle.ltl_pictures.specs.NameText as text;
ghost use Rattle.ltl_streams.specs.Printing.{Prints};

use ltl_streams::{ByteSink, Printer};

/// The greatest length of a name that is written as a whole.
const LONGEST: usize = 80;

/// A longer name is cut before the character that has the byte with this index. So it has at most `LONGEST` bytes with the dots.
const CUT: usize = 77;

/// Whether a byte is a continuation byte of UTF-8, that is, another one than the first of its character.
fn is_continuation(byte: u8) -> bool
    ensures { result ≡ text.is_continuation byte }
{
    byte > 127 && byte < 192
}

/// The index of the first byte of the character that the byte at this place belongs to.
fn character_start(bytes: &[u8], place: usize) -> usize
    requires { place < length bytes.now }
    ensures { result ≡ text.character_start bytes.now place }
{
    let mut start = place;
    'bytes: while start > 0 && is_continuation(bytes[start]) {
        start -= 1;
    }
    start
}

/// Writes a byte of a name. A quote and a backslash get a backslash before them. `&` is written as the entity for it. A control character is a blank.
fn put_byte<S: ByteSink>(byte: u8, out: &mut Printer<'_, S>)
    ensures { Prints S.state out.old out.new (text.shown_byte byte) }
{
    match byte {
        b'"' | b'\\' => out.put(&[b'\\', byte]),
        b'&' => out.put(b"&amp;"),
        0..=31 | 127 => out.put(b" "),
        _ => out.put(&[byte]),
    }
}

/// Writes each of the bytes.
fn put_bytes<S: ByteSink>(bytes: &[u8], out: &mut Printer<'_, S>)
    ensures { Prints S.state out.old out.new (flat_map text.shown_byte bytes.now) }
{
    for byte in bytes {
        put_byte(*byte, out);
    }
}

/// Writes a name for use within quotes, which aren't written. A name of more than 80 bytes is cut, between two characters, and ends in `...`. Bytes that
/// aren't UTF-8 are written as they are. `dot` doesn't refuse them. It reads most of them as Latin-1, with a warning. Others, as a continuation byte alone,
/// it copies into its image, which isn't well-formed then.
pub(crate) fn put_name<S: ByteSink>(name: &[u8], out: &mut Printer<'_, S>)
    ensures { Prints S.state out.old out.new (text.name_text name.now) }
{
    if name.len() > LONGEST {
        put_bytes(&name[..character_start(name, CUT)], out);
        out.put(b"...");
    } else {
        put_bytes(name, out);
    }
}
