//! The reader of a word's text, an automaton over bytes. Each step returns the next place, or `None` if no word begins with the text up to this byte.

ghost use Rattle.std.specs.Prelude.{◌≡◌, ℕ, ◌+◌, ◌<◌, ◌≤◌, List, [], ◌∷◌, ◌++◌, if◌then◌else◌, ◌==◌, length, slice_index, IfOk, IfSome, Some, None, MatchResult};
ghost use Rattle.std.specs.Option.{option_map};
ghost use Rattle.ltl_spec.specs.Formulas.Tokens.{is_lower};
ghost use Rattle.ltl_spec.specs.Words.LassoMachine as machine;
ghost use Rattle.ltl_word.specs.WrittenView.{WrittenView, NextIs, IsInside, after, place_of};
ghost use Rattle.ltl_word.specs.declared.place.WordPlace.TheVariants as places;
ghost use Rattle.ltl_word.specs.ReadText.{IsWritten, RefusesLetters};

use crate::fault::WordFault;
use crate::place::WordPlace;
use crate::written::Written;
use ltl_names::{is_lower, is_name_byte, is_proposition};
use std::alloc::{AllocError, Allocator};

/// The step where a letter or `cycle ` may begin.
fn at_letter(in_cycle: bool, byte: u8) -> Option<WordPlace>
    ensures next { (text : List ℕ) (at : ℕ) (v : WrittenView) → v.in_cycle ≡ in_cycle → NextIs text at byte places.Letter v result v }
    ensures inside { (at : ℕ) → IfSome result (IsInside at) }
{
    if byte == b'{' {
        return Some(WordPlace::FirstName);
    }
    if byte == b'c' && !in_cycle {
        return Some(WordPlace::InWord(b"ycle "));
    }
    None
}

/// The step where a name has to begin.
fn at_name(text: &[u8], at: usize) -> Option<WordPlace>
    requires { at < length text.now }
    ensures next { (v : WrittenView) → NextIs text.now at (slice_index text.now at) places.Name v result v }
    ensures inside { IfSome result (IsInside (at + 1)) }
{
    if is_lower(text[at]) {
        Some(WordPlace::InName(at))
    } else {
        None
    }
}

/// The step where the byte `wanted` has to come.
fn expect(byte: u8, wanted: u8, place: WordPlace) -> Option<WordPlace>
    ensures { result ≡ (if byte == wanted then Some place else None) }
{
    if byte == wanted { Some(place) } else { None }
}

/// The step inside `cycle `.
fn in_word<A: Allocator>(
    written: &mut Written<'_, '_, A>,
    rest: &'static [u8],
    byte: u8,
) -> Option<WordPlace>
    ensures next { (text : List ℕ) (at : ℕ) → NextIs text at byte (places.InWord rest.entry) written.old result written.new }
    ensures inside { (at : ℕ) → IfSome result (IsInside at) }
{
    let [first, rest @ ..] = rest else {
        return None;
    };
    if byte != *first {
        return None;
    }
    if rest.is_empty() {
        written.turn();
        return Some(WordPlace::Letter);
    }
    Some(WordPlace::InWord(rest))
}

/// The step after a complete name.
fn end_name<'t, A: Allocator>(
    written: &mut Written<'t, '_, A>,
    name: &'t [u8],
    byte: u8,
) -> Result<Option<WordPlace>, AllocError>
    ensures next { IfOk result (λ next. (text : List ℕ) (at : ℕ) (b : machine.WordPlace)
        → machine.end_name (record (after text at places.Name written.old) { place = b }) (written.old.letter ++ name.now ∷ []) byte
        ≡ option_map (λ p. after text (at + 1) p written.new) next) }
    ensures inside { IfOk result (λ next. (at : ℕ) → IfSome next (IsInside at)) }
{
    if byte == b',' {
        written.push(name)?;
        return Ok(Some(WordPlace::Name));
    }
    if byte == b'}' {
        written.push(name)?;
        written.close()?;
        return Ok(Some(WordPlace::AfterLetter));
    }
    Ok(None)
}

/// The step after `{`: the letter ends, or its first name begins.
fn at_first_name<A: Allocator>(
    written: &mut Written<'_, '_, A>,
    text: &[u8],
    at: usize,
) -> Result<Option<WordPlace>, AllocError>
    requires { at < length text.now }
    ensures next { IfOk result (λ next. NextIs text.now at (slice_index text.now at) places.FirstName written.old next written.new) }
    ensures inside { IfOk result (λ next. IfSome next (IsInside (at + 1))) }
{
    if text[at] == b'}' {
        written.clear();
        written.close()?;
        return Ok(Some(WordPlace::AfterLetter));
    }
    Ok(at_name(text, at))
}

/// The step inside a name that begins at `start`, or after it.
fn in_name<'t, A: Allocator>(
    written: &mut Written<'t, '_, A>,
    text: &'t [u8],
    at: usize,
    start: usize,
) -> Result<Option<WordPlace>, AllocError>
    requires within { at < length text.now }
    requires begins { start ≤ at }
    ensures next { IfOk result (λ next. NextIs text.now at (slice_index text.now at) (places.InName start) written.old next written.new) }
    ensures inside { IfOk result (λ next. IfSome next (IsInside (at + 1))) }
{
    let byte = text[at];
    if is_name_byte(byte) {
        return Ok(Some(WordPlace::InName(start)));
    }
    let name = &text[start..at];
    if is_proposition(name) {
        return end_name(written, name, byte);
    }
    Ok(None)
}

/// Takes the byte at `at`, and returns what may come next.
fn step<'t, A: Allocator>(
    written: &mut Written<'t, '_, A>,
    text: &'t [u8],
    at: usize,
    place: WordPlace,
) -> Result<Option<WordPlace>, AllocError>
    requires within { at < length text.now }
    requires inside { IsInside at place }
    ensures next { IfOk result (λ next. NextIs text.now at (slice_index text.now at) place written.old next written.new) }
    ensures inside { IfOk result (λ next. IfSome next (IsInside (at + 1))) }
{
    let byte = text[at];
    match place {
        WordPlace::Letter => Ok(at_letter(written.in_cycle, byte)),
        WordPlace::FirstName => at_first_name(written, text, at),
        WordPlace::Name => Ok(at_name(text, at)),
        WordPlace::InName(start) => in_name(written, text, at, start),
        WordPlace::AfterLetter => Ok(expect(byte, b';', WordPlace::Blank)),
        WordPlace::Blank => Ok(expect(byte, b' ', WordPlace::Letter)),
        WordPlace::InWord(rest) => Ok(in_word(written, rest, byte)),
    }
}

/// Whether the text may end here.
fn is_finished(place: WordPlace, in_cycle: bool) -> bool
    ensures { (text : List ℕ) (at : ℕ) → result ≡ machine.is_finished (place_of text at place) in_cycle }
{
    match place {
        WordPlace::AfterLetter => in_cycle,
        _ => false,
    }
}

/// The letters of a word's text.
pub(crate) fn read_letters<'t, 'a, A: Allocator>(
    alloc: &'a A,
    text: &'t [u8],
) -> Result<Written<'t, 'a, A>, WordFault>
    ensures { MatchResult result (IsWritten text.now) (RefusesLetters text.now) }
{
    let mut written = Written::new(alloc);
    let mut place = WordPlace::Letter;
    let mut at = 0;
    'bytes: while at < text.len() {
        match step(&mut written, text, at, place)? {
            Some(next) => place = next,
            None => return Err(WordFault::BadWord(at)),
        }
        at += 1;
    }
    if is_finished(place, written.in_cycle) {
        Ok(written)
    } else {
        Err(WordFault::BadWord(at))
    }
}
