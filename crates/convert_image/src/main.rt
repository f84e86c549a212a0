// The luz image to form 2 and back: the replies, the checks of the converted blocks, and whether the bytes that come back are the same. Then a target of
// another length, and a converted image in which entry 0 ends and goes on.

#![tactic(auto)]

ghost use Rattle.std.specs.Prelude.{◌<◌};

use refusal::Refusal;
use std::fs::File;
use std::io;
use std::io::Read;

fn print_conversion<R: Print>(rt: &R, c: Result<(), Refusal>) -> io::Result<()> {
    match c {
        Ok(()) => println!(rt; "converted"),
        Err(refusal) => println!(rt; "{refusal}"),
    }
}

// The number of two bytes.
fn print_number<R: Print>(rt: &R, image: [u8; 3072], at: usize) -> io::Result<()>
    requires { at < 3071 }
{
    let number = image::number_at(&image, at);
    println!(rt; "{number}")
}

fn print_same<R: Print>(rt: &R, one: [u8; 3072], other: [u8; 3072]) -> io::Result<()> {
    if one == other {
        println!(rt; "the same bytes")
    } else {
        println!(rt; "other bytes")
    }
}

fn main(rt: HostRuntime) -> io::Result<()> {
    let mut image = [0u8; 3072];
    File::open(&rt, "luz.img")?.read_exact(&mut image)?;
    let mut target = [255u8; 3072];
    print_conversion(&rt, converter::convert(&image, &mut target))?;
    // each block's check
    for block in 0..6 {
        print_number(&rt, target, 512 * block + 510)?;
    }
    let mut back = [255u8; 3072];
    print_conversion(&rt, converter::convert(&target, &mut back))?;
    print_same(&rt, image, back)?;
    let mut short = [255u8; 2560];
    print_conversion(&rt, converter::convert(&image, &mut short))?;
    target[2577] = 1;
    let _ = image::seal::seal(&mut target);
    print_conversion(&rt, converter::convert(&target, &mut back))
}
