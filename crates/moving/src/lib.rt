// Bytes in and out by std's read and write: what each call told, what follows from it, and how many bytes have come in or gone out so far.

#![tactic(auto)]

ghost use Rattle.std.specs.Prelude.{◌≡◌, ◌+◌, ◌<◌, ◌≤◌, ◌^◌, length, IfOk};
ghost use Rattle.moving.specs.Told.{ToldBy, bytes_told, onward_of, length_read, length_after, TakenBy, TakenIn, GivenOut, IsPrefixLen};

use std::io::{Cursor, ErrorKind, Read, Write};
use std::rt::Files;
use std::{fs, io, str};

// What std's answer says of a call that was lent `part`: how many bytes it moved, or none where a signal came first.
fn told_by(answer: io::Result<usize>, part: &[u8]) -> io::Result<Option<usize>>
    ensures { ToldBy answer (length part.now) result }
{
    match answer {
        Ok(n) => Ok(Some(n.min(part.len()))),
        Err(error) if error.kind() == ErrorKind::Interrupted => Ok(None),
        Err(error) => Err(error),
    }
}

// One read into the lent part.
fn read_some<I: Read>(input: &mut I, part: &mut [u8]) -> io::Result<Option<usize>>
    ensures { bytes_told result ≤ length part.old }
{
    let answer = input.read(part);
    told_by(answer, part)
}

// One write of the lent part to standard output.
fn write_some<R: Print>(rt: &R, part: &[u8]) -> io::Result<Option<usize>>
    ensures { bytes_told result ≤ length part.now }
{
    told_by(rt.write_some(part), part)
}

// How many bytes have been moved in all after one call more, or none where nothing more comes.
fn after(done: usize, told: io::Result<Option<usize>>) -> io::Result<Option<usize>>
    requires { done + bytes_told told < 2 ^ 64 }
    ensures { result ≡ onward_of done told }
{
    let moved = told?;
    match moved {
        None => Ok(Some(done)),
        Some(0) => Ok(None),
        Some(n) => Ok(Some(done + n)),
    }
}

// How much of a file was read once nothing more comes of it, or why it can't be read: no part of it counts then.
fn all_read(done: usize, next: io::Result<Option<usize>>) -> io::Result<usize>
    ensures { length_read result ≡ length_after done next }
{
    match next {
        Ok(Some(_)) => Ok(0),
        Ok(None) => Ok(done),
        Err(failure) => Err(failure),
    }
}

// Reads a file into the buffer until it ends or the buffer is full.
fn read_image<I: Read>(file: &mut I, image: &mut [u8]) -> io::Result<usize>
    ensures { IsPrefixLen (length_read result) image.new }
{
    let mut done = 0;
    for _ in 0..u64::MAX {
        if done == image.len() {
            return Ok(done);
        }
        let told = read_some(file, &mut image[done..]);
        let next = after(done, told);
        let Ok(Some(more)) = next else {
            return all_read(done, next);
        };
        done = more;
    }
    Ok(0)
}

// Says on standard error what failed, and why in the system's words, without the number that std writes after them.
fn tell<R: Eprint>(rt: &R, what: &str, e: io::Error) {
    let mut room = Cursor::new([0u8; 512]);
    let _written = write!(room, "{e}");
    let bytes = room.into_inner();
    let text = str::from_utf8(&bytes).unwrap_or("");
    let words = match text.split_once(" (os error ") {
        Some((words, _)) => words,
        None => text.trim_end_matches('\0'),
    };
    let _told = eprintln!(rt; "{what}: {words}");
}

// The length of an image that was read. Of one that can't be read, standard error says why.
fn image_length<R: Eprint>(rt: &R, read: io::Result<usize>) -> usize
    ensures { result ≡ length_read read }
{
    match read {
        Ok(n) => n,
        Err(e) => {
            tell(rt, "grammar.img", e);
            0
        }
    }
}

// Puts the image into the buffer and answers its length: 0 where it can't be read. The buffer has one byte more than an image may have, so that a
// longer file is refused.
pub fn load_image<R: Files + Eprint>(rt: &R, image: &mut [u8]) -> usize
    requires { length image.old ≡ 65537 }
    ensures { IsPrefixLen result image.new }
{
    let read = match fs::open(rt, "grammar.img") {
        Ok(mut file) => read_image(&mut file, image),
        Err(e) => Err(e),
    };
    image_length(rt, read)
}

// How many bytes have come in, or gone out, as the calls told. Only the calls here make one.
#[derive(Clone, Copy)]
pub struct Count {
    bytes: usize,
}

pub fn none() -> Count
    ensures { result.bytes ≡ 0 }
{
    Count { bytes: 0 }
}

fn counted(before: Count, n: usize) -> Count
    requires { before.bytes + n < 2 ^ 64 }
    ensures { result.bytes ≡ before.bytes + n }
{
    Count {
        bytes: before.bytes + n,
    }
}

// What came in: so many bytes, and how many in all; the end of the input; or nothing this time.
#[derive(Clone, Copy)]
pub enum Taken {
    Bytes(usize, Count),
    End,
    Nothing,
}

// What came in by what a read told, where it did not fail.
fn taken_by(told: io::Result<Option<usize>>, before: Count) -> io::Result<Taken>
    requires { before.bytes + bytes_told told < 2 ^ 64 }
    ensures { TakenBy told before result }
{
    let came = told?;
    match came {
        None => Ok(Taken::Nothing),
        Some(0) => Ok(Taken::End),
        Some(n) => Ok(Taken::Bytes(n, counted(before, n))),
    }
}

// One read of standard input, which `input` stands for: what came in, or none where the read failed.
pub fn take_in<R: Eprint, I: Read>(
    rt: &R,
    input: &mut I,
    chunk: &mut [u8],
    before: Count,
) -> Option<Taken>
    requires { before.bytes + length chunk.old < 2 ^ 64 }
    ensures { TakenIn (length chunk.old) before result }
{
    let told = read_some(input, chunk);
    match taken_by(told, before) {
        Ok(taken) => Some(taken),
        Err(e) => {
            tell(rt, "standard input", e);
            None
        }
    }
}

// Writes a text to standard output, until all of it has gone out.
fn write_text<R: Print>(rt: &R, text: &[u8], before: Count) -> io::Result<Count>
    requires { before.bytes + length text.now < 2 ^ 64 }
    ensures { IfOk result (λ all. all.bytes ≡ before.bytes + length text.now) }
{
    let mut done = 0;
    for _ in 0..u64::MAX {
        if done == text.len() {
            return Ok(counted(before, done));
        }
        let told = write_some(rt, &text[done..]);
        let Some(next) = after(done, told)? else {
            return Err(io::Error::new(ErrorKind::WriteZero, "failed to write whole buffer"));
        };
        done = next;
    }
    Err(io::Error::new(ErrorKind::TimedOut, "gave up after 2^64 writes"))
}

// Hands a text to standard output: how many bytes have gone out in all, or none where a call failed. A reader that goes away is told of by no word: it
// wants no more.
pub fn give<R: Print + Eprint>(rt: &R, text: &[u8], before: Count) -> Option<Count>
    requires { before.bytes + length text.now < 2 ^ 64 }
    ensures { GivenOut (length text.now) before result }
{
    match write_text(rt, text, before) {
        Ok(all) => Some(all),
        Err(e) => {
            if e.kind() != ErrorKind::BrokenPipe {
                tell(rt, "standard output", e);
            }
            None
        }
    }
}
