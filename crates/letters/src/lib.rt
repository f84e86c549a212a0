// Letters and pairs of an image: tests 4 and 5 of the image check, and the two sides of a pair, each level by a type of its own.

#![tactic(auto)]

ghost use Rattle.std.specs.Prelude.{◌≡◌, ◌||◌, not, ◌+◌, ◌<◌, ◌≤◌, length, get_or, take, drop, eqb};
ghost use Rattle.model.specs.Lists.{byte, every, any, distinct, within, is_zero};
ghost use Rattle.model.specs.Blocks.{header, record_width, record_start};
ghost use Rattle.model.specs.RuleTables.{code_points, is_code_point, pairs, boundary_pair, is_pair, same_pair};
ghost use Rattle.model.specs.Refusals.{right_letters, right_pairs};
ghost use Rattle.image.specs.Header.{header_of};
ghost use Rattle.image.specs.Laid.{Limited, Laid};
ghost use Rattle.letters.specs.Pairs.{pair_of};

use image::kinds::Kind;
use image::{Header, kinds};

pub mod marks;

// A letter of the lexical level.
#[derive(Clone, Copy, PartialEq, Eq)]
pub struct Lexical(pub u8);

// A letter of the surface level: with the same number as a lexical letter, it is still another.
#[derive(Clone, Copy, PartialEq, Eq)]
pub struct Surface(pub u8);

// A pair: on each level a letter or the null.
#[derive(Clone, Copy, PartialEq, Eq)]
pub struct Pair {
    pub lexical: Lexical,
    pub surface: Surface,
}

// A byte of an image or of a word as a letter of its level.
pub fn lexical_at(bytes: &[u8], at: usize) -> Lexical
    requires { at < length bytes.now }
    ensures { result.0 ≡ byte bytes.now at }
{
    Lexical(bytes[at])
}

// A twin of the other level, here and below: so no letter of one level is taken for one of the other.
pub fn surface_at(bytes: &[u8], at: usize) -> Surface
    requires { at < length bytes.now }
    ensures { result.0 ≡ byte bytes.now at }
{
    Surface(bytes[at])
}

// The code point of letter i + 1: the list begins with letter 1.
pub fn code_point(image: &[u8], i: usize) -> usize
    requires { Laid image.now (header image.now) × (i < (header image.now).letters) }
    ensures { result ≡ get_or (code_points image.now) i 0 }
{
    image::number_at(image, kinds::LETTERS_START + kinds::LETTER_WIDTH * i)
}

#[tactic(auto, unfolding(model::specs::RuleTables::is_code_point))]
fn is_code_point(n: usize) -> bool
    ensures { result ≡ is_code_point n }
{
    n != 0 && !(55296..=57343).contains(&n)
}

fn each_code_point(image: &[u8], h: Header) -> bool
    requires { Laid image.now (header_of h) }
    ensures { result ≡ every is_code_point (code_points image.now) }
{
    for i in 0..h.letters {
        if !is_code_point(code_point(image, i)) {
            return false;
        }
    }
    true
}

// No letter after the one at i has its code point.
fn letter_alone(image: &[u8], h: Header, i: usize) -> bool
    requires { Laid image.now (header_of h) × (i < h.letters) }
    ensures { result ≡ not (any (eqb (get_or (code_points image.now) i 0)) (drop (i + 1) (code_points image.now))) }
{
    let own = code_point(image, i);
    for j in i + 1..h.letters {
        if own == code_point(image, j) {
            return false;
        }
    }
    true
}

fn letters_differ(image: &[u8], h: Header) -> bool
    requires { Laid image.now (header_of h) }
    ensures { result ≡ distinct eqb (code_points image.now) }
{
    for i in 0..h.letters {
        if !letter_alone(image, h, i) {
            return false;
        }
    }
    true
}

// Test 4: a code point that is none, and then one that stands twice.
#[tactic(auto, unfolding(model::specs::Refusals::right_letters))]
pub fn right_letters(image: &[u8], h: Header) -> bool
    requires { Laid image.now (header_of h) }
    ensures { result ≡ right_letters image.now }
{
    each_code_point(image, h) && letters_differ(image, h)
}

// Whether each byte from `from` up to `end` is a letter, as in a word.
pub fn are_letters(bytes: &[u8], from: usize, end: usize, letters: usize) -> bool
    requires { (from ≤ end) × (end ≤ length bytes.now) }
    ensures { result ≡ every (within 2 letters) (drop from (take end bytes.now)) }
{
    bytes[from..end]
        .iter()
        .all(|&letter| (2..=letters).contains(&usize::from(letter)))
}

// The bytes of a pair's record.
const LEXICAL_BYTE: usize = 0;

const SURFACE_BYTE: usize = 1;

// Where byte `side` of pair p stands: pairs stand in one block, so from its start on.
fn side_start(h: Header, p: usize, side: usize) -> usize
    requires limited { Limited (header_of h) }
    requires p_lt_pairs { (p < h.pairs) × (side < record_width (header_of h) 3) }
    ensures { result ≡ record_start (header_of h) 3 p + side }
{
    kinds::PAIRS_START + kinds::width(h, Kind::Pairs) * p + side
}

// The lexical side of pair p.
pub fn lexical_side(image: &[u8], h: Header, p: usize) -> Lexical
    requires { Laid image.now (header_of h) × (p < h.pairs) }
    ensures { result.0 ≡ (get_or (pairs image.now) p boundary_pair).lexical }
{
    lexical_at(image, side_start(h, p, LEXICAL_BYTE))
}

// The surface side of pair p.
pub fn surface_side(image: &[u8], h: Header, p: usize) -> Surface
    requires { Laid image.now (header_of h) × (p < h.pairs) }
    ensures { result.0 ≡ (get_or (pairs image.now) p boundary_pair).surface }
{
    surface_at(image, side_start(h, p, SURFACE_BYTE))
}

// Pair p.
pub fn pair_at(image: &[u8], h: Header, p: usize) -> Pair
    requires { Laid image.now (header_of h) × (p < h.pairs) }
    ensures { pair_of result ≡ get_or (pairs image.now) p boundary_pair }
{
    Pair {
        lexical: lexical_side(image, h, p),
        surface: surface_side(image, h, p),
    }
}

// Letters are compared within a level only.
pub fn same_lexical(a: Lexical, b: Lexical) -> bool
    ensures { result ≡ eqb a.0 b.0 }
{
    a == b
}

pub fn same_surface(a: Surface, b: Surface) -> bool
    ensures { result ≡ eqb a.0 b.0 }
{
    a == b
}

// What a side may be: the null, or a letter from 2 on.
fn is_side(side: u8, letters: usize) -> bool
    ensures { result ≡ (is_zero side || within 2 letters side) }
{
    side == 0 || (2..=letters).contains(&usize::from(side))
}

#[tactic(auto, unfolding(model::specs::RuleTables::is_pair))]
fn is_pair(pair: Pair, letters: usize) -> bool
    ensures { result ≡ is_pair letters (pair_of pair) }
{
    is_side(pair.lexical.0, letters)
        && is_side(pair.surface.0, letters)
        && (pair.lexical.0 != 0 || pair.surface.0 != 0)
}

// As over letters, here and below: shared, the loops would need a contract that speaks of any test.
fn each_pair(image: &[u8], h: Header) -> bool
    requires { Laid image.now (header_of h) }
    ensures { result ≡ every (is_pair (header image.now).letters) (pairs image.now) }
{
    for p in 0..h.pairs {
        if !is_pair(pair_at(image, h, p), h.letters) {
            return false;
        }
    }
    true
}

// No pair after pair p has its two sides.
fn pair_alone(image: &[u8], h: Header, p: usize) -> bool
    requires { Laid image.now (header_of h) × (p < h.pairs) }
    ensures { result ≡ not (any (same_pair (get_or (pairs image.now) p boundary_pair)) (drop (p + 1) (pairs image.now))) }
{
    let own = pair_at(image, h, p);
    for q in p + 1..h.pairs {
        if own == pair_at(image, h, q) {
            return false;
        }
    }
    true
}

fn pairs_differ(image: &[u8], h: Header) -> bool
    requires { Laid image.now (header_of h) }
    ensures { result ≡ distinct same_pair (pairs image.now) }
{
    for p in 0..h.pairs {
        if !pair_alone(image, h, p) {
            return false;
        }
    }
    true
}

// Test 5: a pair that breaks its rule, and then one that stands twice.
#[tactic(auto, unfolding(model::specs::Refusals::right_pairs))]
pub fn right_pairs(image: &[u8], h: Header) -> bool
    requires { Laid image.now (header_of h) }
    ensures { result ≡ right_pairs image.now }
{
    each_pair(image, h) && pairs_differ(image, h)
}
