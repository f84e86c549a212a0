// The t:c table of source document 001 example 2.1 with its columns in each of their 24 orders: the judge's answers are the same.

#![tactic(auto)]

ghost use Rattle.std.specs.Prelude.{◌<◌, ◌+◌};

use std::fs::File;
use std::io;
use std::io::Read;

// The image with bytes `at` and `at + by` exchanged.
fn exchanged(image: [u8; 3072], at: usize, by: usize) -> [u8; 3072]
    requires { at + by < 3072 }
{
    let mut other = image;
    other[at] = image[at + by];
    other[at + by] = image[at];
    other
}

// The image with columns c and c + 1 of its table exchanged: both sides, and the next states of each of the three rows.
fn turned(image: [u8; 3072], c: usize) -> [u8; 3072]
    requires { c < 3 }
{
    let lexical = exchanged(image, 1542 + 2 * c, 2);
    let surface = exchanged(lexical, 1543 + 2 * c, 2);
    let row1 = exchanged(surface, 1553 + c, 1);
    let row2 = exchanged(row1, 1557 + c, 1);
    exchanged(row2, 1561 + c, 1)
}

// The columns as they stand, lexical side and surface side.
fn print_columns<R: Print>(rt: &R, image: [u8; 3072]) -> io::Result<()> {
    print!(rt; "columns")?;
    for side in &image[1542..1550] {
        print!(rt; " {side}")?;
    }
    println!(rt;)
}

// The judgements on t:c i:i, t:t i:i, t:c alone and t:t alone, once the image is sealed.
fn print_answers<R: Print>(rt: &R, image: [u8; 3072]) -> io::Result<()> {
    let mut sealed = image;
    let _ = image::seal::seal(&mut sealed);
    let ti = [0u8, 0u8];
    let t = [1u8, 0u8];
    let tc_i = [0u8, 2u8];
    let tt_i = [1u8, 2u8];
    let tc = [0u8];
    let tt = [1u8];
    print_columns(rt, sealed)?;
    show::print_judgement(rt, judge::judge(&sealed, &ti, &tc_i))?;
    show::print_judgement(rt, judge::judge(&sealed, &ti, &tt_i))?;
    show::print_judgement(rt, judge::judge(&sealed, &t, &tc))?;
    show::print_judgement(rt, judge::judge(&sealed, &t, &tt))
}

// The next order, printed.
fn next<R: Print>(rt: &R, image: [u8; 3072], c: usize) -> io::Result<[u8; 3072]>
    requires { c < 3 }
{
    let other = turned(image, c);
    print_answers(rt, other)?;
    Ok(other)
}

// The four orders in which one column goes through the others.
fn pass<R: Print>(rt: &R, image: [u8; 3072], a: usize, b: usize, c: usize) -> io::Result<[u8; 3072]>
    requires { (a < 3) × (b < 3) × (c < 3) }
{
    let first = next(rt, image, a)?;
    let second = next(rt, first, b)?;
    next(rt, second, c)
}

// Each order differs from the one before by an exchange of two neighbours.
fn main(rt: HostRuntime) -> io::Result<()> {
    let mut image = [0u8; 3072];
    File::open(&rt, "tc.img")?.read_exact(&mut image)?;
    print_answers(&rt, image)?;
    let six1 = next(&rt, pass(&rt, image, 2, 1, 0)?, 2)?;
    let six2 = next(&rt, pass(&rt, six1, 0, 1, 2)?, 0)?;
    let six3 = next(&rt, pass(&rt, six2, 2, 1, 0)?, 2)?;
    let six4 = next(&rt, pass(&rt, six3, 0, 1, 2)?, 0)?;
    let six5 = next(&rt, pass(&rt, six4, 2, 1, 0)?, 2)?;
    pass(&rt, six5, 0, 1, 2)?;
    Ok(())
}
