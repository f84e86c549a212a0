// What a slot says, and where to go on from it: no other crate's code knows where its bytes stand.
ghost use Rattle.std.specs.Prelude.{◌≡◌, ◌+◌, ◌*◌, ◌<◌, ◌≤◌, length, get_or};
ghost use Rattle.forms.specs.Slots.{slot_length, slot_onward, slot_entry, skip_to};

// How many letters its form has.
pub fn letters(slots: &[u8], i: usize) -> usize
    requires { (i < 65536) × (16 * i + 15 < length slots.now) }
    ensures { result ≡ slot_length slots.now i }
{
    image::byte_at(slots, 16 * i)
}

// Where they begin.
pub fn form_start(i: usize) -> usize
    requires { i < 65536 }
    ensures { result ≡ 16 * i + 1 }
{
    16 * i + 1
}

// Letter d of it.
pub fn letter(slots: &[u8], i: usize, d: usize) -> usize
    requires { ((i < 65536) × (d < 12)) × (16 * i + 15 < length slots.now) }
    ensures { result ≡ get_or slots.now (16 * i + 1 + d) 0 }
{
    image::byte_at(slots, 16 * i + 1 + d)
}

// The entry's sole way on, or 254.
pub fn onward(slots: &[u8], i: usize) -> usize
    requires { (i < 65536) × (16 * i + 15 < length slots.now) }
    ensures { result ≡ slot_onward slots.now i }
{
    image::byte_at(slots, 16 * i + 13)
}

// The entry's number.
pub fn entry(slots: &[u8], i: usize) -> usize
    requires { (i < 65536) × (16 * i + 15 < length slots.now) }
    ensures { (result ≡ slot_entry slots.now i) × (result < 65536) }
{
    image::number_at(slots, 16 * i + 14)
}

// Where to go on if nothing is left after the letter at depth d.
pub fn skip(skips: &[u8], i: usize, d: usize) -> usize
    requires { ((i < 65536) × (d < 12)) × (24 * i + 24 ≤ length skips.now) }
    ensures { result ≡ skip_to skips.now i d }
{
    image::number_at(skips, 24 * i + 2 * d)
}
