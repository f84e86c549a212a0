// The ways on of an entry: the lexicons that it names, as binary digits of a number, and whether a path may stop at it.
ghost use Rattle.std.specs.Prelude.{◌≡◌, ◌||◌, [], ◌+◌, ◌<◌, ◌≤◌, ◌^◌, length, drop, ltb, eqb};
ghost use Rattle.model.specs.Lists.{byte};
ghost use Rattle.model.specs.Blocks.{entry_width};
ghost use Rattle.model.specs.RuleTables.{in_set};
ghost use Rattle.model.specs.Lexicon.{entry, may_stop, goes_to, right_ways};
ghost use Rattle.image.specs.Header.{header_of};
ghost use Rattle.image.specs.Laid.{Laid};
ghost use Rattle.digits.specs.Ways.{Names};
ghost use Rattle.lexicon.specs.Sole.{Sole, WayOf};

use image::Header;

#[derive(Clone, Copy)]
pub struct Ways {
    pub bits: u64,
    pub stop: bool,
}

// The set in the eight bytes from `at` on.
fn bits_at(image: &[u8], at: usize) -> u64
    requires { at + 8 ≤ length image.now }
    ensures { Names (in_set (drop at image.now)) result }
{
    u64::from_le_bytes([
        image[at],
        image[at + 1],
        image[at + 2],
        image[at + 3],
        image[at + 4],
        image[at + 5],
        image[at + 6],
        image[at + 7],
    ])
}

// Whether a continuation is a lexicon or 255, the end of a path.
fn is_continuation(continuation: usize, lexicons: usize) -> bool
    ensures { result ≡ (ltb continuation lexicons || eqb continuation 255) }
{
    continuation < lexicons || continuation == 255
}

// Whether a set names lexicons that there are, and no other.
fn are_named(bits: u64, lexicons: usize) -> bool
    requires { lexicons ≤ 64 }
    ensures { result ≡ ltb bits (2 ^ lexicons) }
{
    lexicons >= 64 || bits < (1u64 << lexicons)
}

// What test 8 asks of the ways on of the entry that begins at `at`, of form 2: a mark of 0 or 1, lexicons that there are, and one of them or the mark.
fn are_right_many(image: &[u8], at: usize, lexicons: usize) -> bool
    requires { (at + 24 < length image.now) × (lexicons ≤ 64) }
    ensures { result ≡ right_ways (drop at image.now) 2 lexicons }
{
    let mark = image::byte_at(image, at + 13);
    let bits = bits_at(image, at + 16);
    mark <= 1 && are_named(bits, lexicons) && (mark == 1 || bits != 0)
}

// The same of either form.
pub fn are_right(image: &[u8], at: usize, h: Header) -> bool
    requires form_in_bounds { at + entry_width h.form < length image.now }
    requires lexicons_bound { h.lexicons ≤ 64 }
    ensures { result ≡ right_ways (drop at image.now) h.form h.lexicons }
{
    if h.form == 2 {
        return are_right_many(image, at, h.lexicons);
    }
    is_continuation(image::byte_at(image, at + 13), h.lexicons)
}

// The ways on of entry e.
pub fn ways_of(image: &[u8], h: Header, e: usize) -> Ways
    requires laid { Laid image.now (header_of h) }
    requires e_lt_entries { e < h.entries }
    ensures stop { result.stop ≡ may_stop (entry image.now e) h.form }
    ensures bits { Names (goes_to (entry image.now e) h.form) result.bits }
{
    let at = crate::entry_start(h, e);
    let byte = image::byte_at(image, at + 13);
    if h.form == 2 {
        return Ways {
            bits: bits_at(image, at + 16),
            stop: byte == 1,
        };
    }
    if byte == 255 {
        return Ways {
            bits: 0,
            stop: true,
        };
    }
    if byte < 64 {
        return Ways {
            bits: 1u64 << byte,
            stop: false,
        };
    }
    Ways {
        bits: 0,
        stop: false,
    }
}

// An entry's ways on in one number, where it has one: 255 where a path can only end at it, a lexicon where it can only go on with that one; 254 where that is
// not said. The number is a byte of a slot of the index of forms, so that 254 and 255 take the place of an enum there.
pub fn sole_way(ways: Ways) -> usize
    ensures { Sole ways.bits ways.stop result }
{
    let bits = ways.bits;
    if ways.stop {
        if bits == 0 {
            return 255;
        }
        return 254;
    }
    if bits == 0 {
        return 254;
    }
    let x = digits::lowest(bits);
    if digits::without(bits, x) != 0 {
        return 254;
    }
    x
}

// The same of entry e.
pub fn way_of(image: &[u8], h: Header, e: usize) -> usize
    requires laid { Laid image.now (header_of h) }
    requires e_lt_entries { e < h.entries }
    ensures { WayOf (entry image.now e) h.form result }
{
    sole_way(ways_of(image, h, e))
}
