// The lexicons of an image: how many entries each has, where an entry stands, and tests 8 and 14 of the image check.

#![tactic(auto)]

mod bounds;
pub mod ways;

ghost use Rattle.std.specs.Prelude.{◌≡◌, ◌&&◌, ◌||◌, not, ◌+◌, ◌*◌, ◌<◌, ◌≤◌, length, take, drop, T};
ghost use Rattle.model.specs.Lists.{every};
ghost use Rattle.model.specs.Blocks.{entry_width, record_start};
ghost use Rattle.model.specs.Lexicon.{entry_count, first_entry, entry, form_length, is_entry_of};
ghost use Rattle.model.specs.Refusals.{right_pairs, right_entries, right_forms};
ghost use Rattle.image.specs.Header.{header_of};
ghost use Rattle.image.specs.Laid.{Limited, Laid};
ghost use Rattle.letters.specs.Marks.{is_marked};
ghost use Rattle.lexicon.specs.Entries.{MarkedLetters, are_entries_of, is_lexicon_of};
ghost use Rattle.lexicon.specs.Bounds.{Bounds};

use image::kinds::Kind;
use image::{Header, kinds};
use letters::marks;

// How many entries lexicon x has.
pub fn entry_count(image: &[u8], h: Header, x: usize) -> usize
    requires laid { Laid image.now (header_of h) }
    requires x_lt_lexicons { x < h.lexicons }
    ensures { (result ≡ entry_count image.now x) × (result < 65536) }
{
    image::number_at(
        image,
        512 * kinds::first_block(h, Kind::Lexicons) + (4 + kinds::LEXICON_WIDTH * x),
    )
}

// The first entry of lexicon x: all the entries of those before it, added up.
pub fn first_entry(image: &[u8], h: Header, x: usize) -> usize
    requires laid { Laid image.now (header_of h) }
    requires x_le_lexicons { x ≤ h.lexicons }
    ensures { (result ≡ first_entry image.now x) × (result ≤ 65535 * x) }
{
    let mut sum: usize = 0;
    for i in 0..x {
        sum += entry_count(image, h, i);
    }
    sum
}

// Where entry e begins in the image.
pub fn entry_start(h: Header, e: usize) -> usize
    requires limited { Limited (header_of h) }
    requires e_lt_entries { e < h.entries }
    ensures { (result ≡ record_start (header_of h) 6 e) × (result < 65536) }
{
    kinds::record_start(h, Kind::Entries, e)
}

// How many letters the form of entry e has.
pub fn form_length(image: &[u8], h: Header, e: usize) -> usize
    requires laid { Laid image.now (header_of h) }
    requires e_lt_entries { e < h.entries }
    ensures { (result ≡ form_length (entry image.now e)) × (result < 256) }
{
    image::byte_at(image, entry_start(h, e))
}

// Whether the letters of a form are all marked, or whether it is known that they are: `look` says that it is not. It stands beside the marks, and they are in no
// `Option`, since what is promised speaks of the marks in either case.
fn is_form(image: &[u8], from: usize, end: usize, marked: &[u8; 256], look: bool) -> bool
    requires { (from ≤ end) × (end ≤ length image.now) }
    ensures { result ≡ (not look || every (is_marked marked.now) (drop from (take end image.now))) }
{
    !look || marks::are_marked(image, from, end, marked)
}

// Whether the bytes from `at` on are laid out as an entry whose letters are all marked. All that the form's length says of its twelve letters is looked up
// at once; the marks only where `look` says that they are fewer than the letters.
fn is_entry(
    image: &[u8],
    at: usize,
    h: Header,
    low: &[u8; 208],
    high: &[u8; 208],
    marked: &[u8; 256],
    look: bool,
) -> bool
    requires form_in_bounds { (at + entry_width h.form < length image.now) × (h.lexicons ≤ 64) }
    requires bounds { Bounds 2 0 low.now }
    requires bounds_2 { Bounds h.letters 255 high.now }
    requires marked_letters { MarkedLetters marked.now h.letters look }
    ensures { result ≡ is_entry_of (drop at image.now) h.form (is_marked marked.now) h.lexicons }
{
    let form_length = image::byte_at(image, at);
    if form_length > 12 {
        return false;
    }
    bounds::in_bounds(image, at + 1, low, high, 16 * form_length)
        && is_form(image, at + 1, at + (1 + form_length), marked, look)
        && ways::are_right(image, at, h)
}

// Whether every entry is laid out as one whose letters are all marked.
fn are_entries(image: &[u8], h: Header, marked: &[u8; 256], look: bool) -> bool
    requires laid { Laid image.now (header_of h) }
    requires marked_letters { MarkedLetters marked.now h.letters look }
    ensures { result ≡ are_entries_of (is_marked marked.now) image.now (header_of h) }
{
    let wide = kinds::width(h, Kind::Entries);
    let most = kinds::per_block(h, Kind::Entries);
    // From the end of a block's last entry to the next block's first: unused bytes, the check, and the next block's number, kind and count.
    let between = 512 - wide * most;
    let low = bounds::bounds_of(2, 0);
    let high = bounds::bounds_of(h.letters as u8, 255);
    let mut at = entry_start(h, 0);
    let mut room = most;
    'entries: for _ in 0..h.entries {
        if !is_entry(image, at, h, &low, &high, marked, look) {
            return false;
        }
        at += wide;
        room -= 1;
        if room == 0 {
            room = most;
            at += between;
        }
    }
    true
}

// Whether the lexicons' counts add to E, and every entry is laid out as one whose letters are all marked.
fn is_lexicon(image: &[u8], h: Header, marked: &[u8; 256], look: bool) -> bool
    requires laid { Laid image.now (header_of h) }
    requires marked_letters { MarkedLetters marked.now h.letters look }
    ensures { result ≡ is_lexicon_of (is_marked marked.now) image.now (header_of h) }
{
    first_entry(image, h, h.lexicons) == h.entries && are_entries(image, h, marked, look)
}

// Test 8 of the image check.
pub fn right_entries(image: &[u8], h: Header) -> bool
    requires { Laid image.now (header_of h) }
    ensures { result ≡ right_entries image.now }
{
    let marked = marks::letter_marks(h.letters);
    is_lexicon(image, h, &marked, false)
}

// Tests 8 and 14 in one walk over the entries: a letter that some pair has on its lexical side is one of 2 to L.
pub fn right_lexicon(image: &[u8], h: Header) -> bool
    requires laid { Laid image.now (header_of h) }
    requires t { T (right_pairs image.now) }
    ensures { result ≡ (right_entries image.now && right_forms image.now) }
{
    let marked = marks::lexical_marks(image, h);
    let look = !marks::each_marked(&marked, h.letters);
    is_lexicon(image, h, &marked, look)
}
