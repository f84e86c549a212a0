// Which entries may open at a place: those of the lexicons that come next, and where a path is asked for the one that it names.
ghost use Rattle.std.specs.Prelude.{◌≡◌, Bool, false, ◌⊎◌, ℕ, ◌+◌, ◌*◌, ◌/◌, ◌<◌, ◌≤◌};
ghost use Rattle.model.specs.Blocks.{header};
ghost use Rattle.model.specs.Lexicon.{first_entry, entry_count};
ghost use Rattle.image.specs.Header.{header_of};
ghost use Rattle.image.specs.Accepted.{Accepted};
ghost use Rattle.image.specs.Index.{index_of};
ghost use Rattle.rules.specs.Paths.{in_some};
ghost use Rattle.listing.specs.Asked.{path_pattern};
ghost use Rattle.listing.specs.Places.{root, ways_after};
ghost use Rattle.listing.specs.Opening.{may_enter, may_enter_some, Known, SetOf, WaysOf, NextWays};

use crate::asked::PathAsked;
use crate::place::ROOT;
use image::Header;

// Entries from low up to high.
#[derive(Clone, Copy)]
pub struct Range {
    pub low: usize,
    pub high: usize,
}

// The entries of lexicon x.
pub fn lexicon_range(image: &[u8], index: &[u8], h: Header, x: usize) -> Range
    requires accepted { Accepted image.now (header_of h) }
    requires index_value { index.now ≡ index_of image.now }
    requires x_lt_lexicons { x < h.lexicons }
    ensures { (result.low ≡ first_entry image.now x) × (result.high ≡ first_entry image.now x + entry_count image.now x) }
{
    let at = 39168 + 2 * x;
    Range {
        low: image::number_at(index, at),
        high: image::number_at(index, at + 2),
    }
}

// Entries that may open: those from low up to high, and then those of the lexicons of a set. What comes before low has been passed.
#[derive(Clone, Copy)]
pub struct Ways {
    pub low: usize,
    pub high: usize,
    pub rest: u64,
}

// The next of them, and those from it on.
#[derive(Clone, Copy)]
pub struct Next {
    pub entry: usize,
    pub ways: Ways,
}

// The first entry of a set's lexicons from one on: lexicon after lexicon, from the lowest up, as entries are numbered.
fn next_of_set(image: &[u8], index: &[u8], h: Header, bits: u64, from: usize) -> Next
    requires accepted { Accepted image.now (header_of h) }
    requires index_value { index.now ≡ index_of image.now }
    requires known { Known bits (header image.now).lexicons × (from ≤ h.entries) }
    ensures { NextWays image.now (in_some image.now (header image.now).lexicons bits) from result }
{
    // A set whose lowest lexicon goes at each turn: no index is counted.
    let mut rest = bits;
    while rest != 0 {
        let x = digits::lowest(rest);
        rest = digits::without(rest, x);
        let range = lexicon_range(image, index, h, x);
        let first = from.max(range.low);
        if first < range.high {
            return Next {
                entry: first,
                ways: Ways {
                    low: first,
                    high: range.high,
                    rest,
                },
            };
        }
    }
    Next {
        entry: h.entries,
        ways: Ways {
            low: h.entries,
            high: h.entries,
            rest: 0,
        },
    }
}

// The next entry that may open, from one on that is not before the first of them; the number of entries where there is none.
pub fn next_entry(image: &[u8], index: &[u8], h: Header, ways: Ways, from: usize) -> Next
    requires accepted { Accepted image.now (header_of h) }
    requires index_value { index.now ≡ index_of image.now }
    requires known { Known ways.rest (header image.now).lexicons }
    requires low_le_from { (ways.low ≤ from) × (from ≤ h.entries) }
    ensures { (may : ℕ → Bool) → WaysOf image.now may ways → NextWays image.now may from result }
{
    if from < ways.high {
        return Next {
            entry: from,
            ways: Ways { low: from, ..ways },
        };
    }
    next_of_set(image, index, h, ways.rest, from)
}

// The lexicons that come next after entry `last`, or first, as a set.
pub fn set_on(image: &[u8], h: Header, last: usize) -> u64
    requires accepted { Accepted image.now (header_of h) }
    requires fact { (last ≡ root) ⊎ (last < h.entries) }
    ensures { SetOf image.now (ways_after image.now last) result }
{
    if last == ROOT {
        return 1;
    }
    lexicon::ways::ways_of(image, h, last).bits
}

// Those of a set's lexicons that may open with n entries read.
fn open_ways(
    image: &[u8],
    index: &[u8],
    h: Header,
    asked: PathAsked,
    path: &[u8],
    bits: u64,
    n: usize,
) -> Ways
    requires accepted { Accepted image.now (header_of h) }
    requires index_value { index.now ≡ index_of image.now }
    requires known { Known bits (header image.now).lexicons }
    ensures ways { WaysOf image.now (may_enter_some image.now (path_pattern asked path.now) bits n) result }
    ensures before { (e : ℕ) → e < result.low → may_enter_some image.now (path_pattern asked path.now) bits n e ≡ false }
{
    match asked {
        PathAsked::Anything => Ways {
            low: 0,
            high: 0,
            rest: bits,
        },
        PathAsked::Exactly => {
            let none = Ways {
                low: 0,
                high: 0,
                rest: 0,
            };
            if path.len() / 2 <= n {
                return none;
            }
            let e = image::number_at(path, 2 * n);
            if h.entries <= e {
                return none;
            }
            let first = next_of_set(image, index, h, bits, e);
            if first.entry != e {
                return none;
            }
            Ways {
                low: e,
                high: e + 1,
                rest: 0,
            }
        }
    }
}

// Those that may open after entry `last`, or first: what is the same for every entry at a place is found once there.
pub fn ways_on(
    image: &[u8],
    index: &[u8],
    h: Header,
    asked: PathAsked,
    path: &[u8],
    last: usize,
    n: usize,
) -> Ways
    requires accepted { Accepted image.now (header_of h) }
    requires index_value { index.now ≡ index_of image.now }
    requires fact { (last ≡ root) ⊎ (last < h.entries) }
    ensures ways { WaysOf image.now (may_enter image.now (path_pattern asked path.now) last n) result }
    ensures before { (e : ℕ) → e < result.low → may_enter image.now (path_pattern asked path.now) last n e ≡ false }
{
    let bits = set_on(image, h, last);
    open_ways(image, index, h, asked, path, bits, n)
}
