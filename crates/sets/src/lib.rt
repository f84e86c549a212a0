// Sets of letters: which letters a set has, what a column's side sees of the pairs' letters by them, and that no set has a letter above L.

#![tactic(auto)]

pub mod sides;

ghost use Rattle.std.specs.Prelude.{◌≡◌, ◌||◌, [], ◌<◌, ◌≤◌, get_or, length};
ghost use Rattle.model.specs.Lists.{every, bit};
ghost use Rattle.model.specs.Blocks.{record_at};
ghost use Rattle.model.specs.RuleTables.{letter_sets, in_set, is_set, names_set};
ghost use Rattle.image.specs.Header.{header_of};
ghost use Rattle.image.specs.Laid.{Laid};
ghost use Rattle.sets.specs.Sides.{sides_of};
ghost use Rattle.sets.specs.Seen.{seen_by, Seen};

use crate::sides::Sides;
use image::kinds::Kind;
use image::{Header, kinds};

// What a side that names a set sees of a letter that the set has not: no such side. It is no `Option`, so that the compiler takes many letters at once.
const UNSEEN: u8 = 254;

#[tactic(auto, using(std::proofs::lemmas::Nat::Bits::shr_and_one, crate::proofs::Bits::bit_shifted))]
fn has_bit(byte: u8, i: usize) -> bool
    requires { i < 8 }
    ensures { result ≡ bit byte i }
{
    byte >> i & 1 == 1
}

// The 16 bytes of set i.
fn set_at(image: &[u8], h: Header, i: usize) -> &[u8]
    requires laid { Laid image.now (header_of h) }
    requires i_bound { i < h.sets }
    ensures { (result.now ≡ record_at image.now 7 i) × (length result.now ≡ 16) }
{
    let from = kinds::record_start(h, Kind::Sets, i);
    &image[from..from + 16]
}

// Whether set i has a letter. A set that is missing has none.
fn has_letter(image: &[u8], h: Header, i: usize, letter: u8) -> bool
    requires { Laid image.now (header_of h) }
    ensures { result ≡ in_set (get_or (letter_sets image.now) i []) letter }
{
    let letter = usize::from(letter);
    if h.sets <= i || 128 <= letter {
        return false;
    }
    has_bit(set_at(image, h, i)[letter / 8], letter % 8)
}

fn names_set(side: u8) -> bool
    ensures { result ≡ names_set side }
{
    (128..=158).contains(&side)
}

// Whether either side of a column names a set.
pub fn has_set(column: Sides) -> bool
    ensures { result ≡ (names_set (sides_of column).lexical || names_set (sides_of column).surface) }
{
    names_set(column.lexical.0) || names_set(column.surface.0)
}

// What a side sees of a letter.
fn seen_letter(image: &[u8], h: Header, side: u8, letter: u8) -> u8
    requires { Laid image.now (header_of h) }
    ensures { result ≡ seen_by (letter_sets image.now) side letter }
{
    if !names_set(side) {
        return letter;
    }
    if has_letter(image, h, usize::from(side - 128), letter) {
        side
    } else {
        UNSEEN
    }
}

// What a side sees of the first letters: where it names no set, all as they are.
pub fn seen(image: &[u8], h: Header, side: u8, letters: &[u8; 256], n: usize) -> [u8; 256]
    requires laid { Laid image.now (header_of h) }
    requires n_bound { n ≤ 256 }
    ensures { Seen (letter_sets image.now) side letters.now n result }
{
    if !names_set(side) {
        return *letters;
    }
    let mut out = [UNSEEN; 256];
    for p in 0..n {
        out[p] = seen_letter(image, h, side, letters[p]);
    }
    out
}

// A set has no letter above L: no bit after L's in its byte, and none in the bytes after it.
fn is_set(set: &[u8], letters: usize) -> bool
    requires size { length set.now ≡ 16 }
    requires letters_bound { letters < 128 }
    ensures { result ≡ is_set letters set.now }
{
    let last = letters / 8;
    set[last] >> (letters % 8) <= 1 && image::is_blank(set, last + 1, 16)
}

// No set has.
pub fn right_sets(image: &[u8], h: Header) -> bool
    requires { Laid image.now (header_of h) }
    ensures { result ≡ every (is_set h.letters) (letter_sets image.now) }
{
    for i in 0..h.sets {
        if !is_set(set_at(image, h, i), h.letters) {
            return false;
        }
    }
    true
}
