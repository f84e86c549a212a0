// Document 01's small example for each of refusals 1 to 8, made from the luz image, and the verdict on each. Those of 6 and 7 are about another table;
// the like is done to luz's. Then the typing slip of refusal 14.

#![tactic(auto)]

ghost use Rattle.std.specs.Prelude.{◌<◌};

use std::fs::File;
use std::io;
use std::io::Read;

fn changed(image: [u8; 3072], at: usize, value: u8) -> [u8; 3072]
    requires { at < 3072 }
{
    let mut other = image;
    other[at] = value;
    other
}

// The verdict on the first 511 bytes.
fn print_short<R: Print>(rt: &R, image: &[u8]) -> io::Result<()> {
    if 511 <= image.len() {
        show::print_verdict(rt, grammar::check(&image[..511]))?;
    }
    Ok(())
}

// The verdict on the image once it is sealed again.
fn print_sealed<R: Print>(rt: &R, image: [u8; 3072]) -> io::Result<()> {
    let mut other = image;
    let _ = image::seal::seal(&mut other);
    show::print_verdict(rt, grammar::check(&other))
}

fn main(rt: HostRuntime) -> io::Result<()> {
    let mut image = [0u8; 3072];
    File::open(&rt, "luz.img")?.read_exact(&mut image)?;
    show::print_verdict(&rt, grammar::check(&image))?;
    // 511 bytes
    print_short(&rt, &image)?;
    // byte 7 of block 0 altered
    show::print_verdict(&rt, grammar::check(&changed(image, 7, 1)))?;
    // L = 1
    print_sealed(&rt, changed(image, 6, 1))?;
    // letters 2 and 3 both 99
    print_sealed(&rt, changed(image, 518, 99))?;
    // 0:0
    print_sealed(&rt, changed(image, 1028, 0))?;
    // S = 5, next state 6
    print_sealed(&rt, changed(image, 1557, 6))?;
    // e:any and any:e for e:e only
    let one = changed(image, 1546, 255);
    let two = changed(one, 1547, 4);
    print_sealed(&rt, changed(two, 1549, 255))?;
    // form length 13
    print_sealed(&rt, changed(image, 2564, 13))?;
    // luz for luZ
    print_sealed(&rt, changed(image, 2567, 8))
}
