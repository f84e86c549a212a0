// Nodes of the search from which nothing is found, kept in a lent table: a slot has the numbers of a node, and a node is looked up before it is searched.

#![tactic(auto)]

ghost use Rattle.std.specs.Prelude.{true, false, ◌≡◌, List, ℕ, ◌+◌, ◌*◌, ◌<◌, ◌≤◌, length, take};
ghost use Rattle.model.specs.Query.{Query};
ghost use Rattle.image.specs.Header.{header_of};
ghost use Rattle.image.specs.Accepted.{Accepted};
ghost use Rattle.listing.specs.Places.{Standing};
ghost use Rattle.dead.specs.Dead.{DeadAt, Remembered, Narrow, set_left, Tells, width_of, KeyOf};

use image::Header;
use listing::place::{ENDED, Place};

// How many nodes are counted before a search without a slot gives up.
pub const LIMIT: u16 = 4000;

// A search comes to a node. Without a slot the nodes are counted, in the table's first place, and false says that there are too many.
pub fn count(table: &mut [u16]) -> bool
    requires { 1 ≤ length table.old }
    ensures few { result ≡ false → length table.old < 40 }
    ensures kept { (image : List ℕ) (q : Query) → Remembered image q table.old → Remembered image q table.new }
{
    if 40 <= table.len() {
        return true;
    }
    let met = table[0];
    if LIMIT <= met {
        return false;
    }
    table[0] = met + 1;
    true
}

// What is left of the entry that is open: its letters and the entry, or where no letter is left what may come next.
#[derive(Clone, Copy)]
pub struct Left {
    pub from: usize,
    pub to: usize,
    pub last: usize,
}

// The ways on of an entry that has several, as the digits of three numbers: whether a path may stop, and the lexicons.
fn left_by(bits: u64, stop: bool) -> Left
    requires { bits < 35184372088832 }
    ensures { result ≡ set_left bits stop }
{
    let high = bits / 32768;
    Left {
        from: (32768 + high % 32768) as usize,
        to: (bits % 32768) as usize,
        last: (2 * (high / 32768)) as usize + usize::from(stop),
    }
}

fn left_of(image: &[u8], h: Header, place: Place) -> Left
    requires accepted { Accepted image.now (header_of h) }
    requires standing { Standing image.now place }
    ensures { Tells image.now place result }
{
    let Place { from, to, last, .. } = place;
    if from < to {
        return Left { from, to, last };
    }
    if last < ENDED {
        let ways = lexicon::ways::ways_of(image, h, last);
        let way = lexicon::ways::sole_way(ways);
        // `sole_way` answers 254 where it names no sole way.
        if way != 254 {
            return Left {
                from: 1,
                to: 0,
                last: way,
            };
        }
        if ways.bits < 35184372088832 {
            return left_by(ways.bits, ways.stop);
        }
        return Left {
            from: 1,
            to: 0,
            last: 256 + last,
        };
    }
    Left {
        from: 0,
        to: 0,
        last,
    }
}

// A node's numbers in a row, all that decides what is found from it: eight, and the state of each rule. The rest is 0.
fn key_of(image: &[u8], h: Header, place: Place, entries: usize, pairs: usize) -> [usize; 40]
    requires accepted { Accepted image.now (header_of h) }
    requires standing { Standing image.now place }
    requires pairs_bound { pairs ≤ 40 }
    ensures { KeyOf image.now place entries pairs (take (width_of image.now) result) }
{
    let left = left_of(image, h, place);
    let mut key = [0usize; 40];
    key[0] = pairs + 1;
    key[1] = entries;
    key[2] = left.from;
    key[3] = left.to;
    key[4] = left.last;
    key[5] = place.nulls;
    key[6] = place.surface.letters;
    key[7] = place.surface.nulls;
    // An index: each turn reads a place of one array and writes one of the other.
    for i in 0..h.rules {
        key[i + 8] = usize::from(place.states[i]);
    }
    key
}

// A hash with one number more: the middle of a product.
fn mix(x: usize, y: usize) -> usize
    requires { x < 4294967296 }
    ensures { result < 4294967296 }
{
    (x + y % 65536) * 2654435769 / 65536 % 4294967296
}

fn hash_of(key: &[usize]) -> usize {
    let mut x = 0;
    for &n in key {
        x = mix(x, n);
    }
    x
}

// Which slot of a table of this size is the node's. A slot is as wide as its key.
fn slot_of(size: usize, key: &[usize]) -> usize
    requires { (1 ≤ length key.now) × (length key.now ≤ size) }
    ensures { length key.now * result + length key.now ≤ size }
{
    hash_of(key) % (size / key.len())
}

// Whether the slot has the node's numbers, each of them.
fn same(slot: &[u16], key: &[usize]) -> bool
    requires { length slot.now ≡ length key.now }
    ensures { result ≡ true → slot.now ≡ key.now }
{
    slot.iter().zip(key).all(|(&x, &n)| usize::from(x) == n)
}

// Whether the node's slot has its numbers.
fn recall(
    image: &[u8],
    h: Header,
    table: &[u16],
    place: Place,
    entries: usize,
    pairs: usize,
) -> bool
    requires accepted { Accepted image.now (header_of h) }
    requires standing { Standing image.now place }
    requires in_bounds { (40 ≤ length table.now) × (pairs ≤ 40) }
    ensures { (q : Query) → Remembered image.now q table.now → result ≡ true → DeadAt image.now q place entries pairs }
{
    let numbers = key_of(image, h, place, entries, pairs);
    let key = &numbers[..8 + h.rules];
    let at = key.len() * slot_of(table.len(), key);
    same(&table[at..at + key.len()], key)
}

// Whether nothing is found from this node, as far as the table tells.
pub fn is_dead(
    image: &[u8],
    h: Header,
    table: &[u16],
    place: Place,
    entries: usize,
    pairs: usize,
) -> bool
    requires accepted { Accepted image.now (header_of h) }
    requires standing { Standing image.now place }
    requires pairs_bound { pairs ≤ 40 }
    ensures { (q : Query) → Remembered image.now q table.now → result ≡ true → DeadAt image.now q place entries pairs }
{
    40 <= table.len() && recall(image, h, table, place, entries, pairs)
}

// Whether the table has room for each of the numbers.
fn is_narrow(key: &[usize]) -> bool
    ensures { result ≡ true → Narrow (length key.now) key.now }
{
    key.iter().all(|&n| n < 65536)
}

fn store(slot: &mut [u16], key: &[usize])
    requires long { length slot.old ≡ length key.now }
    requires narrow { Narrow (length key.now) key.now }
    ensures { slot.new ≡ key.now }
{
    // An index: each turn reads a place of one list and writes the same of the other.
    for at in 0..slot.len() {
        slot[at] = key[at] as u16;
    }
}

// The node takes the place of what its slot had. Where one of its numbers has no room, it is not kept.
fn keep(image: &[u8], h: Header, table: &mut [u16], place: Place, entries: usize, pairs: usize)
    requires accepted { Accepted image.now (header_of h) }
    requires standing { Standing image.now place }
    requires in_bounds { (40 ≤ length table.old) × (pairs ≤ 40) }
    ensures { (q : Query) → Remembered image.now q table.old → DeadAt image.now q place entries pairs → Remembered image.now q table.new }
{
    let numbers = key_of(image, h, place, entries, pairs);
    let key = &numbers[..8 + h.rules];
    if !is_narrow(key) {
        return;
    }
    let at = key.len() * slot_of(table.len(), key);
    store(&mut table[at..at + key.len()], key);
}

// A node from which nothing is found is kept, where there is a slot.
pub fn remember(
    image: &[u8],
    h: Header,
    table: &mut [u16],
    place: Place,
    entries: usize,
    pairs: usize,
)
    requires accepted { Accepted image.now (header_of h) }
    requires standing { Standing image.now place }
    requires pairs_bound { pairs ≤ 40 }
    ensures { (q : Query) → Remembered image.now q table.old → DeadAt image.now q place entries pairs → Remembered image.now q table.new }
{
    if table.len() < 40 {
        return;
    }
    keep(image, h, table, place, entries, pairs);
}
