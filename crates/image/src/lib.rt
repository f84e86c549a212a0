// An image's bytes and two-byte numbers, the check of a block, the header, and sealing.

#![tactic(auto)]

ghost use Rattle.std.specs.Prelude.{◌≡◌, ◌&&◌, ◌+◌, ◌/◌, ◌%◌, ◌<◌, ◌≤◌, length, take, drop, eqb};
ghost use Rattle.model.specs.Lists.{every, within, is_zero, byte, number};
ghost use Rattle.model.specs.Blocks.{check_of, header};
ghost use Rattle.image.specs.Header.{header_of};

pub mod kinds;
pub mod seal;

// A byte as a number.
pub fn byte_at(bytes: &[u8], at: usize) -> usize
    requires { at < length bytes.now }
    ensures { (result ≡ byte bytes.now at) × (result < 256) }
{
    usize::from(bytes[at])
}

// A two-byte number, the low byte first.
pub fn number_at(bytes: &[u8], at: usize) -> usize
    requires { at + 1 < length bytes.now }
    ensures { (result ≡ number bytes.now at) × (result < 65536) }
{
    usize::from(u16::from_le_bytes([bytes[at], bytes[at + 1]]))
}

// Whether so many bytes are whole two-byte numbers, from 1 of them to `most`.
pub fn right_count(bytes: usize, most: usize) -> bool
    ensures { result ≡ (eqb (bytes % 2) 0 && within 1 most (bytes / 2)) }
{
    bytes % 2 == 0 && (1..=most).contains(&(bytes / 2))
}

// Whether each byte from `from` up to `end` is 0, as in the rest of a block. Every byte is looked at, so that the compiler takes many at once.
pub fn is_blank(block: &[u8], from: usize, end: usize) -> bool
    requires { end ≤ length block.now }
    ensures { result ≡ every is_zero (drop from (take end block.now)) }
{
    let mut blank = true;
    // An index: `from` may lie past `end`, where a slice may not.
    for i in from..end {
        if block[i] != 0 {
            blank = false;
        }
    }
    blank
}

// The check that a block must have.
pub fn check_of(block: &[u8]) -> usize
    requires { 510 ≤ length block.now }
    ensures { (result ≡ check_of block.now) × (result < 65521) }
{
    ((1 + sum::weighted_sum(block)) % 65521) as usize
}

// The counts in an image's first block.
#[derive(Clone, Copy)]
pub struct Header {
    pub form: usize,
    pub letters: usize,
    pub pairs: usize,
    pub rules: usize,
    pub lexicons: usize,
    pub entries: usize,
    pub sets: usize,
}

pub fn read_header(image: &[u8]) -> Header
    requires { 512 ≤ length image.now }
    ensures { header_of result ≡ header image.now }
{
    Header {
        form: number_at(image, 4),
        letters: number_at(image, 6),
        pairs: number_at(image, 8),
        rules: number_at(image, 10),
        lexicons: number_at(image, 12),
        entries: number_at(image, 14),
        sets: number_at(image, 16),
    }
}
