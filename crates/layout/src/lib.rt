// Tests 2 and 3 of the image check: block numbers and checks, and which block holds what.

#![tactic(auto)]

ghost use Rattle.std.specs.Prelude.{◌≡◌, true, ◌&&◌, ◌+◌, ◌*◌, ◌<◌, ◌≤◌, length, eqb};
ghost use Rattle.model.specs.Lists.{below, every, within};
ghost use Rattle.model.specs.Blocks.{block, block_count, block_number, block_check, check_of, per_block, records_at, laid_out, within_limits, block_total};
ghost use Rattle.model.specs.Refusals.{right_length, right_checks, right_layout};
ghost use Rattle.image.specs.Header.{header_of};
ghost use Rattle.image.specs.Kinds.{kind_number};
ghost use Rattle.image.specs.Laid.{Counted, Limited};
ghost use Rattle.layout.specs.Placed.{Placed};

use image::kinds::Kind;
use image::{Header, kinds};

fn right_block(block: &[u8], k: usize) -> bool
    requires { length block.now ≡ 512 }
    ensures { result ≡ (eqb (block_number block.now) k && eqb (block_check block.now) (check_of block.now)) }
{
    image::number_at(block, 0) == k && image::number_at(block, 510) == image::check_of(block)
}

// Test 2.
pub fn right_checks(image: &[u8]) -> bool
    requires { right_length image.now ≡ true }
    ensures { result ≡ right_checks image.now }
{
    let blocks = image.len() / 512;
    // An index: a proof knows the part of a slice that is named by its bounds, and not its chunks.
    for k in 0..blocks {
        let from = 512 * k;
        if !right_block(&image[from..from + 512], k) {
            return false;
        }
    }
    true
}

// The form is one that there is.
fn right_form(h: Header) -> bool
    ensures { result ≡ within 1 2 h.form }
{
    (1..=2).contains(&h.form)
}

// The counts are within their limits.
#[tactic(auto, unfolding(model::specs::Blocks::within_limits))]
fn within_limits(h: Header) -> bool
    ensures { result ≡ within_limits (header_of h) }
{
    (2..=120).contains(&h.letters)
        && (1..=250).contains(&h.pairs)
        && h.rules <= 32
        && (1..=64).contains(&h.lexicons)
        && (1..=2800).contains(&h.entries)
        && h.sets <= 31
}

// The kind of block k.
fn kind_at(h: Header, k: usize) -> Kind
    requires counted { Counted (header_of h) }
    requires k_bound { k < block_total (header_of h) }
    ensures { Placed (header_of h) k (kind_number result) }
{
    if k == 0 {
        return Kind::Header;
    }
    if k == 1 {
        return Kind::Letters;
    }
    if k == 2 {
        return Kind::Pairs;
    }
    if k < kinds::first_block(h, Kind::Tables) {
        return Kind::Sets;
    }
    if k < kinds::first_block(h, Kind::Lexicons) {
        return Kind::Tables;
    }
    if k < kinds::first_block(h, Kind::Entries) {
        return Kind::Lexicons;
    }
    Kind::Entries
}

// How many records block k holds: those of its kind that the blocks before it have left, as many as a block holds.
pub fn records_at(h: Header, kind: Kind, k: usize) -> usize
    requires counted { Counted (header_of h) }
    requires placed { Placed (header_of h) k (kind_number kind) × (k < 128) }
    ensures { (result ≡ records_at (header_of h) k) × (result ≤ per_block (header_of h) (kind_number kind)) }
{
    let most = kinds::per_block(h, kind);
    let all = kinds::in_all(h, kind);
    let before = most * (k - kinds::first_block(h, kind));
    most.min(all.saturating_sub(before))
}

// Block k's kind, its record count, and 0 in every unused byte.
#[tactic(auto, unfolding(model::specs::Blocks::laid_out))]
fn laid_out(block: &[u8], h: Header, k: usize) -> bool
    requires block_len { length block.now ≡ 512 }
    requires limited { Limited (header_of h) }
    requires k_bound { k < block_total (header_of h) }
    ensures { result ≡ laid_out (header_of h) k block.now }
{
    let kind = kind_at(h, k);
    let records = records_at(h, kind, k);
    image::byte_at(block, 2) == kind.number()
        && image::byte_at(block, 3) == records
        && image::is_blank(block, 4 + kinds::width(h, kind) * records, 510)
}

fn all_laid_out(image: &[u8], h: Header) -> bool
    requires image_value { right_length image.now ≡ true }
    requires limited { Limited (header_of h) }
    requires image_value_2 { block_count image.now ≡ block_total (header_of h) }
    ensures { result ≡ every (λ k. laid_out (header_of h) k (block image.now k)) (below (block_count image.now)) }
{
    // As in `right_checks`: shared, the loop would need a contract that speaks of any test.
    for k in 0..image.len() / 512 {
        let from = 512 * k;
        if !laid_out(&image[from..from + 512], h, k) {
            return false;
        }
    }
    true
}

// The number of blocks that the counts ask for.
pub fn block_total(h: Header) -> usize
    requires { Counted (header_of h) }
    ensures { result ≡ block_total (header_of h) }
{
    kinds::first_block(h, Kind::Entries) + h.entries.div_ceil(kinds::per_block(h, Kind::Entries))
}

// Test 3.
#[tactic(auto, unfolding(model::specs::Refusals::right_layout))]
pub fn right_layout(image: &[u8]) -> bool
    requires { right_length image.now ≡ true }
    ensures { result ≡ right_layout image.now }
{
    let h = image::read_header(image);
    right_form(h)
        && within_limits(h)
        && image.len() / 512 == block_total(h)
        && all_laid_out(image, h)
}
