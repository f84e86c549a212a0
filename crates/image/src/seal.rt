// Sealing: the block's number and its check, written into every block of a lent image.
ghost use Rattle.std.specs.Prelude.{◌≡◌, ◌&&◌, ◌+◌, ◌<◌, ◌/◌, ◌%◌, length, set, eqb};
ghost use Rattle.model.specs.Lists.{within};
ghost use Rattle.model.specs.Blocks.{sealed_block};
ghost use Rattle.model.specs.Calls.{sealing_reply, after_sealing};
ghost use Rattle.image.specs.Sealing.{sealing_of};

use refusal::Refusal;

// Test 1: an image's length.
pub fn right_length(n: usize) -> bool
    ensures { result ≡ (within 1 65536 n && eqb (n % 512) 0) }
{
    (1..=65536).contains(&n) && n % 512 == 0
}

// A number in two bytes.
pub fn put_number(bytes: &mut [u8], at: usize, n: usize)
    requires { at + 1 < length bytes.old }
    ensures { bytes.new ≡ set (set bytes.old at (n % 256)) (at + 1) (n / 256 % 256) }
{
    bytes[at] = (n % 256) as u8;
    bytes[at + 1] = (n / 256 % 256) as u8;
}

pub fn seal_block(block: &mut [u8], k: usize)
    requires { length block.old ≡ 512 }
    ensures { block.new ≡ sealed_block k block.old }
{
    put_number(block, 0, k);
    let check = crate::check_of(block);
    put_number(block, 510, check);
}

// A refusal writes nothing.
pub fn seal(image: &mut [u8]) -> Result<(), Refusal>
    ensures { (sealing_of result ≡ sealing_reply image.old) × (image.new ≡ after_sealing image.old) }
{
    if !right_length(image.len()) {
        return Err(Refusal::ImageLength);
    }
    // An index: of chunks that were lent out, a proof keeps the length and not what was written.
    for k in 0..image.len() / 512 {
        let from = 512 * k;
        seal_block(&mut image[from..from + 512], k);
    }
    Ok(())
}
