// Entries: how many ways on they have, and one entry in the other form.
ghost use Rattle.std.specs.Prelude.{◌≡◌, false, cond, ◌++◌, ◌+◌, ◌-◌, ◌<◌, ◌≤◌, length, take, T, leb, eqb};
ghost use Rattle.model.specs.Blocks.{entry_width};
ghost use Rattle.model.specs.Lexicon.{entry};
ghost use Rattle.image.specs.Header.{header_of};
ghost use Rattle.image.specs.Laid.{Laid};
ghost use Rattle.conversion.specs.Conversion.{way_bytes, other_entry, one_ways};
ghost use Rattle.model.specs.Lists.{below, any, count, first, bit};
ghost use Rattle.converter.specs.Answers.{OneWay};

use image::Header;
use lexicon::ways;

// One way on at most, an ending counted as a way.
fn few_ways(bits: u64, stop: bool) -> bool
    ensures { result ≡ leb (count (bit bits) (below 64) + cond stop 1 0) 1 }
{
    bits.count_ones() + u32::from(stop) <= 1
}

// Test 15: no entry of an image of form 2 has more.
pub fn one_ways(image: &[u8], h: Header) -> bool
    requires { Laid image.now (header_of h) }
    ensures { result ≡ one_ways image.now }
{
    if h.form != 2 {
        return true;
    }
    for e in 0..h.entries {
        let ways = ways::ways_of(image, h, e);
        if !few_ways(ways.bits, ways.stop) {
            return false;
        }
    }
    true
}

// Byte 13 in the other form: the end mark, or the one way on.
fn mark_of(form: usize, bits: u64, stop: bool) -> u8
    requires { form ≡ 2 → stop ≡ false → T (any (bit bits) (below 64)) × (count (bit bits) (below 64) ≤ 1) }
    ensures { result ≡ cond (eqb form 2) (cond stop 255 (first (bit bits) (below 64) 0)) (cond stop 1 0) }
{
    if form == 2 {
        if stop {
            return 255;
        }
        return bits.trailing_zeros() as u8;
    }
    u8::from(stop)
}

// The lexicons of a set, as the last eight bytes of an entry.
fn put_ways(bits: u64, out: &mut [u8])
    requires { length out.old ≡ 24 }
    ensures { out.new ≡ take 16 out.old ++ way_bytes (bit bits) }
{
    out[16..].copy_from_slice(&bits.to_le_bytes());
}

// Entry e in the other form.
pub fn put_entry(image: &[u8], h: Header, e: usize, out: &mut [u8])
    requires laid { Laid image.now (header_of h) }
    requires e_lt_entries { (e < h.entries) × (length out.old ≡ entry_width (3 - h.form)) }
    requires one_way { OneWay image.now h.form h.lexicons e }
    ensures { out.new ≡ other_entry h.form (entry image.now e) }
{
    let at = lexicon::entry_start(h, e);
    let ways = ways::ways_of(image, h, e);
    out[..16].copy_from_slice(&image[at..at + 16]);
    out[13] = mark_of(h.form, ways.bits, ways.stop);
    if h.form == 1 {
        put_ways(ways.bits, out);
    }
}
