// The lexicons whose reach is worth finding, in the order in which it is best found: those that some entry goes on to, of at most 256 entries, their own
// continuations first where that can be. The order is one of speed alone.
ghost use Rattle.std.specs.Prelude.{◌≡◌, ◌<◌, ◌≤◌, length};
ghost use Rattle.image.specs.Header.{header_of};
ghost use Rattle.image.specs.Accepted.{Accepted};
ghost use Rattle.orders.specs.Orders.{Ordered};

use image::Header;

// Lexicon x at the end of the row, while there is room.
fn append(row: &mut [u8], x: usize, lexicons: usize)
    requires ordered { Ordered row.old lexicons }
    requires x_lt_lexicons { (x < lexicons) × (lexicons ≤ 64) }
    ensures { Ordered row.new lexicons }
{
    let n = image::byte_at(row, 0);
    if n < 64 {
        row[n + 1] = x as u8;
        row[0] = (n + 1) as u8;
    }
}

// The lexicons that some entry goes on to, as a set.
fn followed(image: &[u8], h: Header) -> u64
    requires { Accepted image.now (header_of h) }
{
    let mut all: u64 = 0;
    for e in 0..h.entries {
        all |= lexicon::ways::ways_of(image, h, e).bits;
    }
    all
}

// Whether all lexicons that entries low up to high go on to are taken.
fn is_ready(image: &[u8], h: Header, low: usize, high: usize, taken: u64) -> bool
    requires accepted { Accepted image.now (header_of h) }
    requires high_le_entries { high ≤ h.entries }
{
    for e in low..high {
        let bits = lexicon::ways::ways_of(image, h, e).bits;
        if bits & taken != bits {
            return false;
        }
    }
    true
}

fn has(set: u64, x: usize) -> bool
    requires { x < 64 }
{
    (set >> x) % 2 == 1
}

// Whether lexicon x is to be taken now: at the last round without a look at its continuations.
fn is_due(image: &[u8], h: Header, x: usize, last: bool, wanted: u64, taken: u64) -> bool
    requires accepted { Accepted image.now (header_of h) }
    requires x_lt_lexicons { x < h.lexicons }
{
    let many = lexicon::entry_count(image, h, x);
    if !has(wanted, x) || has(taken, x) || many > 256 {
        return false;
    }
    if last {
        return true;
    }
    let low = lexicon::first_entry(image, h, x);
    is_ready(image, h, low, low + many, taken)
}

// One round over the lexicons, from the last to the first: those that are taken after it.
fn take_round(image: &[u8], h: Header, last: bool, wanted: u64, taken: u64, row: &mut [u8]) -> u64
    requires accepted { Accepted image.now (header_of h) }
    requires ordered { Ordered row.old h.lexicons }
    ensures { Ordered row.new h.lexicons }
{
    let mut now = taken;
    for x in (0..h.lexicons).rev() {
        if is_due(image, h, x, last, wanted, now) {
            append(row, x, h.lexicons);
            now |= 1u64 << x;
        }
    }
    now
}

// The whole row.
pub fn fill_order(image: &[u8], h: Header, row: &mut [u8])
    requires accepted { Accepted image.now (header_of h) }
    requires row_len { length row.old ≡ 128 }
    ensures { Ordered row.new h.lexicons }
{
    row[0] = 0;
    let wanted = followed(image, h);
    let mut taken: u64 = 0;
    for _ in 0..h.lexicons {
        let more = take_round(image, h, false, wanted, taken, row);
        if more == taken {
            break;
        }
        taken = more;
    }
    let _ = take_round(image, h, true, wanted, taken, row);
}
