// Prints the verdict on grammar.img in the working directory: accepted, or the refusal with its number.

#![tactic(auto)]

use std::io;

fn main(rt: HostRuntime) -> io::Result<()> {
    let mut image = [0u8; 65537];
    let n = moving::load_image(&rt, &mut image);
    show::print_verdict(&rt, grammar::check(&image[..n]))
}
