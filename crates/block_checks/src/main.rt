// The checks of three blocks: all zeros, byte 509 alone at 255, and all bytes at 255 (the last two of a block are its check and count for nothing).

#![tactic(auto)]

use std::io;

fn print_check<R: Print>(rt: &R, block: [u8; 512]) -> io::Result<()> {
    let check = image::check_of(&block);
    println!(rt; "{check}")
}

fn main(rt: HostRuntime) -> io::Result<()> {
    let mut block = [0u8; 512];
    print_check(&rt, block)?;
    block[509] = 255;
    print_check(&rt, block)?;
    print_check(&rt, [255u8; 512])
}
