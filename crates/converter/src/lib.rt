// The converter: an image of form 1 as one of form 2, and back, into a lent target.

#![tactic(auto)]

mod blocks;
mod entries;

ghost use Rattle.std.specs.Prelude.{◌≡◌, length};
ghost use Rattle.conversion.specs.Conversion.{conversion_reply, after_conversion};
ghost use Rattle.converter.specs.Answers.{conversion_of};

use refusal::Refusal;

// The tests of the image, then 15, 16 and 17; a refusal writes nothing.
pub fn convert(image: &[u8], target: &mut [u8]) -> Result<(), Refusal>
    ensures reply { conversion_of result ≡ conversion_reply image.now (length target.old) }
    ensures target { target.new ≡ after_conversion image.now target.old }
{
    grammar::check(image)?;
    let h = image::read_header(image);
    if !entries::one_ways(image, h) {
        return Err(Refusal::SeveralWays);
    }
    let o = blocks::other_header(h);
    let total = layout::block_total(o);
    if 128 < total {
        return Err(Refusal::TooManyBlocks);
    }
    if target.len() != 512 * total {
        return Err(Refusal::TargetLength);
    }
    blocks::put_blocks(image, h, o, target);
    Ok(())
}
