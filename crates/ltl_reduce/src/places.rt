//! Lists of numbers that are read and written at any place.

ghost use Rattle.std.specs.Prelude.{◌≡◌, ◌&&◌, nat_eq, nat_lt, length, slice_index_or};

/// What stands where no number is.
pub(crate) const NOWHERE: usize = usize::MAX;

/// The number at a place; `NOWHERE` if there is none.
#[inline(always)]
pub(crate) fn at(numbers: &[usize], place: usize) -> usize
    ensures { result ≡ slice_index_or numbers.now place 18446744073709551615 }
{
    if place < numbers.len() {
        numbers[place]
    } else {
        NOWHERE
    }
}

/// Whether this number stands at a place.
#[inline(always)]
pub(crate) fn is_at(numbers: &[usize], place: usize, number: usize) -> bool
    ensures { result ≡ (nat_lt place (length numbers.now) && nat_eq (slice_index_or numbers.now place 0) number) }
{
    place < numbers.len() && numbers[place] == number
}

/// Replaces the number at a place, if there is one.
#[inline(always)]
pub(crate) fn put(numbers: &mut [usize], place: usize, number: usize) {
    if place < numbers.len() {
        numbers[place] = number;
    }
}

/// Whether the place is there and marked.
#[inline(always)]
pub(crate) fn is_set(flags: &[bool], place: usize) -> bool {
    place < flags.len() && flags[place]
}

/// Marks a place, if it is there, or removes its mark.
#[inline(always)]
pub(crate) fn set(flags: &mut [bool], place: usize, flag: bool) {
    if place < flags.len() {
        flags[place] = flag;
    }
}
