// The slots of the index: the entries in the order of their keys, how many letters each shares with the one before, and where to go on where a beginning fails.
ghost use Rattle.std.specs.Prelude.{◌≡◌, ℕ, ◌+◌, ◌*◌, ◌<◌, ◌≤◌, length, get_or};
ghost use Rattle.image.specs.Header.{header_of};
ghost use Rattle.image.specs.Laid.{Laid};
ghost use Rattle.image.specs.Accepted.{Accepted};
ghost use Rattle.forms.specs.Slots.{slot_length};
ghost use Rattle.orders.specs.Orders.{ArrangedTo};
ghost use Rattle.forms.specs.Filling.{SlotPut, SlotsOf, Shares, SharedOf, FirstsCleared, SkipAt, SkipsOf, Held, Sharing};

use image::Header;

// Entry e in slot i.
fn put_slot(image: &[u8], h: Header, e: usize, slots: &mut [u8], i: usize)
    requires laid { Laid image.now (header_of h) }
    requires e_lt_entries { (e < h.entries) × ((length slots.old ≡ 45056) × (i < 2816)) }
    ensures { SlotPut image.now slots.old slots.new i e }
{
    let at = lexicon::entry_start(h, e);
    slots[16 * i..16 * i + 13].copy_from_slice(&image[at..at + 13]);
    let way = lexicon::ways::way_of(image, h, e);
    slots[16 * i + 13] = way as u8;
    image::seal::put_number(slots, 16 * i + 14, e);
}

// All slots.
fn fill_slots(image: &[u8], h: Header, keys: &[u64], slots: &mut [u8])
    requires accepted { Accepted image.now (header_of h) }
    requires arranged_to { ArrangedTo image.now keys.now h.lexicons }
    requires slots_len { length slots.old ≡ 45056 }
    ensures { SlotsOf image.now keys.now slots.new h.entries }
{
    for i in 0..h.entries {
        put_slot(image, h, (keys[i] % 4096) as usize, slots, i);
    }
}

// The entries of all lexicons in their slots.
pub fn hold(image: &[u8], h: Header, slots: &mut [u8])
    requires accepted { Accepted image.now (header_of h) }
    requires slots_len { length slots.old ≡ 45056 }
    ensures { Held image.now slots.new h.lexicons h.entries }
{
    let mut keys = [0u64; 2816];
    orders::keys::arrange(image, h, &mut keys);
    fill_slots(image, h, &keys, slots);
}

// How many of the first n bytes from a on and from b on are the same.
fn common(bytes: &[u8], a: usize, b: usize, n: usize) -> usize
    requires { (a + n ≤ length bytes.now) × (b + n ≤ length bytes.now) }
    ensures { (result ≤ n) × ((k : ℕ) → k < result → get_or bytes.now (b + k) 0 ≡ get_or bytes.now (a + k) 0) }
{
    for k in 0..n {
        if bytes[a + k] != bytes[b + k] {
            return k;
        }
    }
    n
}

// How many letters slots i and i + 1 share.
fn shared_by(slots: &[u8], i: usize) -> usize
    requires slots_len { (length slots.now ≡ 45056) × (i + 1 < 2816) }
    requires i_bound { (slot_length slots.now i ≤ 12) × (slot_length slots.now (i + 1) ≤ 12) }
    ensures { Shares slots.now i result }
{
    let a = 16 * i;
    let n = image::byte_at(slots, a);
    let m = image::byte_at(slots, a + 16);
    common(slots, a + 1, a + 17, n.min(m))
}

// How many letters each of the first n slots shares with the one before.
fn fill_shared(slots: &[u8], n: usize, shared: &mut [u8])
    requires slots_len { (length slots.now ≡ 45056) × ((n ≤ 2816) × (length shared.old ≡ 2816)) }
    requires by_index { (i : ℕ) → i < n → slot_length slots.now i ≤ 12 }
    ensures { SharedOf slots.now shared.new n }
{
    for i in 1..n {
        shared[i] = shared_by(slots, i - 1) as u8;
    }
}

// The first slot of a lexicon shares nothing.
fn clear_firsts(image: &[u8], h: Header, shared: &mut [u8])
    requires accepted { Accepted image.now (header_of h) }
    requires shared_len { length shared.old ≡ 2816 }
    ensures { FirstsCleared image.now shared.old shared.new h.lexicons }
{
    let mut first: usize = 0;
    for x in 0..h.lexicons {
        shared[first] = 0;
        first += lexicon::entry_count(image, h, x);
    }
}

// What each slot shares with the one before, within its lexicon.
pub fn share<'a>(image: &'a [u8], h: Header, slots: &'a [u8], shared: &mut [u8])
    requires accepted { Accepted image.now (header_of h) }
    requires held { Held image.now slots.now h.lexicons h.entries }
    requires shared_len { length shared.old ≡ 2816 }
    ensures { Sharing image.now slots.now shared.new h.lexicons h.entries }
{
    fill_shared(slots, h.entries, shared);
    clear_firsts(image, h, shared);
}

// Where slot i, of n, goes on where its letter at depth d fails, by where slot i + 1 does.
fn skip_of<'a>(shared: &'a [u8], skips: &'a [u8], n: usize, i: usize, d: usize) -> usize
    requires i_lt_n { (i < n) × ((n ≤ 2816) × ((d < 12) × (length shared.now ≡ 2816))) }
    requires skips_of { SkipsOf shared.now skips.now n (i + 1) }
    ensures { SkipAt shared.now n i d result }
{
    let next = i + 1;
    if next == n || image::byte_at(shared, next) <= d {
        return next;
    }
    image::number_at(skips, 24 * next + 2 * d)
}

// All skips of slot i.
fn put_skips(shared: &[u8], skips: &mut [u8], n: usize, i: usize)
    requires i_lt_n { (i < n) × ((n ≤ 2816) × (length shared.now ≡ 2816)) }
    requires skips_of { SkipsOf shared.now skips.old n (i + 1) }
    ensures { SkipsOf shared.now skips.new n i }
{
    for d in 0..12 {
        let to = skip_of(shared, skips, n, i, d);
        image::seal::put_number(skips, 24 * i + 2 * d, to);
    }
}

// The skips of the first n slots, from the last to the first.
pub fn fill_skips(shared: &[u8], n: usize, skips: &mut [u8])
    requires { (n ≤ 2816) × ((length shared.now ≡ 2816) × (length skips.old ≡ 67584)) }
    ensures { SkipsOf shared.now skips.new n 0 }
{
    for i in (0..n).rev() {
        put_skips(shared, skips, n, i);
    }
}
