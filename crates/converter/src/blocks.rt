// The converted image, block by block. The entries stand last, so that every block before them keeps its number.
ghost use Rattle.std.specs.Prelude.{◌≡◌, [], ◌∷◌, ◌+◌, ◌*◌, ◌<◌, ◌≤◌, length, replicate};
ghost use Rattle.model.specs.Blocks.{first_block, block_total, sealed_block};
ghost use Rattle.image.specs.Header.{header_of};
ghost use Rattle.built.specs.Built.{built_block};
ghost use Rattle.conversion.specs.Conversion.{other_header, other_records, converted_image};
ghost use Rattle.converter.specs.Answers.{Converting};

use crate::entries;
use image::kinds::Kind;
use image::{Header, kinds, seal};

// The counts of the image in the other form.
pub fn other_header(h: Header) -> Header
    requires { h.form ≤ 3 }
    ensures { header_of result ≡ other_header (header_of h) }
{
    Header {
        form: 3 - h.form,
        ..h
    }
}

// Block k, one before the entries: as it stands, and in the first one the other form.
fn put_same(image: &[u8], h: Header, o: Header, k: usize, block: &mut [u8])
    requires converting { Converting image.now (header_of h) (header_of o) }
    requires block_len { (length block.old ≡ 512) × (k < first_block (header_of o) 6) }
    ensures { sealed_block k block.new ≡ sealed_block k (built_block (header_of o) (other_records image.now) k) }
{
    let from = 512 * k;
    block.copy_from_slice(&image[from..from + 512]);
    if k == 0 {
        seal::put_number(block, 4, o.form);
    }
}

// A block of n entries with none written yet.
fn open_block(block: &mut [u8], n: usize)
    requires { (length block.old ≡ 512) × (n < 256) }
    ensures { block.new ≡ 0 ∷ 0 ∷ 6 ∷ n ∷ replicate 508 0 }
{
    block.fill(0);
    block[2] = 6;
    block[3] = n as u8;
}

// Block k, one of entries: record by record.
fn put_entries(image: &[u8], h: Header, o: Header, k: usize, block: &mut [u8])
    requires converting { Converting image.now (header_of h) (header_of o) }
    requires block_len { length block.old ≡ 512 }
    requires o_bound { (first_block (header_of o) 6 ≤ k) × (k < block_total (header_of o)) }
    ensures { block.new ≡ built_block (header_of o) (other_records image.now) k }
{
    let wide = kinds::width(o, Kind::Entries);
    let before = kinds::per_block(o, Kind::Entries) * (k - kinds::first_block(o, Kind::Entries));
    let n = layout::records_at(o, Kind::Entries, k);
    open_block(block, n);
    for i in 0..n {
        let from = 4 + wide * i;
        entries::put_entry(image, h, before + i, &mut block[from..from + wide]);
    }
}

// Block k of the converted image.
fn put_block(image: &[u8], h: Header, o: Header, k: usize, block: &mut [u8])
    requires converting { Converting image.now (header_of h) (header_of o) }
    requires block_len { (length block.old ≡ 512) × (k < block_total (header_of o)) }
    ensures { block.new ≡ sealed_block k (built_block (header_of o) (other_records image.now) k) }
{
    if k < kinds::first_block(o, Kind::Entries) {
        put_same(image, h, o, k, block);
    } else {
        put_entries(image, h, o, k, block);
    }
    seal::seal_block(block, k);
}

// All of them.
pub fn put_blocks(image: &[u8], h: Header, o: Header, target: &mut [u8])
    requires converting { Converting image.now (header_of h) (header_of o) }
    requires target_len { length target.old ≡ 512 * block_total (header_of o) }
    ensures { target.new ≡ converted_image image.now }
{
    let total = target.len() / 512;
    for k in 0..total {
        let from = 512 * k;
        put_block(image, h, o, k, &mut target[from..from + 512]);
    }
}
