// The input as it comes in, byte after byte: the line begun, and the answers of the lines that ended.
ghost use Rattle.std.specs.Prelude.{◌≡◌, List, ℕ, ◌+◌, ◌-◌, ◌<◌, ◌≤◌, length, take, drop};
ghost use Rattle.print.specs.Text.{Put};
ghost use Rattle.parse.specs.Fields.{Begun};
ghost use Rattle.answers.specs.Run.{IsHad};
ghost use Rattle.answers.specs.Input.{Grown, ByteRead, text_after, last_text};

use crate::line;
use crate::room::Room;
use crate::run::Run;

// How far the input is read: bytes of the line begun that are kept, and where the text ends.
#[derive(Clone, Copy)]
pub struct Reached {
    pub kept: usize,
    pub end: usize,
}

// How far the input is read after one byte more, which is the line's end or a byte of it; none where it ends a line that waits, and is not read.
fn read_byte(
    run: &Run,
    b: u8,
    line: &mut [u8; 256],
    room: &mut Room,
    out: &mut [u8],
    from: Reached,
) -> Option<Reached>
    requires had { IsHad run.now }
    requires kept_few { from.kept ≤ 256 }
    requires end_in_bounds { from.end + 22032 ≤ length out.old }
    ensures { ByteRead run.now.image.now line.old line.new out.old out.new from b result }
{
    let Reached { kept, end } = from;
    if b != b'\n' {
        return Some(Reached {
            kept: parse::add_byte(line, kept, b),
            end,
        });
    }
    let whole = &line[..kept];
    match line::answer(run, whole, &mut room.word, &mut room.rows, out, end) {
        None => None,
        Some(end) => Some(Reached { kept: 0, end }),
    }
}

// The same after some bytes of a chunk.
#[derive(Clone, Copy)]
pub struct Read {
    pub at: usize,
    pub reached: Reached,
}

// The bytes of a chunk from `at` on: all of them, or as many as leave no room in `out` for one more answer, or those before the end of a line that waits.
pub fn read_chunk(
    run: &Run,
    chunk: &[u8],
    at: usize,
    line: &mut [u8; 256],
    out: &mut [u8],
    from: Reached,
) -> Read
    requires had { IsHad run.now }
    requires at_in_bounds { at ≤ length chunk.now }
    requires kept_few { from.kept ≤ 256 }
    requires in_bounds { (22032 ≤ length out.old) × (from.end ≤ length out.old) }
    ensures line { ((l : List ℕ) → Begun line.old from.kept l → Grown line.old line.new result.reached.kept l (take (result.at - at) (drop at chunk.now))) × (result.reached.kept ≤ 256) }
    ensures text { ((l : List ℕ) → Begun line.old from.kept l → Put out.old out.new from.end result.reached.end (text_after run.now.image.now l (take (result.at - at) (drop at chunk.now)))) × (result.reached.end ≤ length out.old) }
    ensures onward { (at ≤ result.at) × ((result.at ≤ length chunk.now) × (from.end ≡ 0 → at < length chunk.now → at < result.at)) }
{
    // An answer takes at most 22032 bytes.
    let most = out.len() - 22032;
    let mut room = Room::new();
    let mut reached = from;
    for i in at..chunk.len() {
        if reached.end > most {
            return Read { at: i, reached };
        }
        let Some(next) = read_byte(run, chunk[i], line, &mut room, out, reached) else {
            return Read { at: i, reached };
        };
        reached = next;
    }
    Read {
        at: chunk.len(),
        reached,
    }
}

// The last line, where it lacks its line end: put first into `out`, so that it never waits.
pub fn read_end(run: &Run, line: &[u8; 256], out: &mut [u8], kept: usize) -> usize
    requires had { IsHad run.now }
    requires kept_few { kept ≤ 256 }
    requires in_bounds { 22032 ≤ length out.old }
    ensures { ((l : List ℕ) → Begun line.now kept l → Put out.old out.new 0 result (last_text run.now.image.now l)) × (result ≤ 22032) }
{
    if kept == 0 {
        return 0;
    }
    let mut room = Room::new();
    let answered = line::answer(run, &line[..kept], &mut room.word, &mut room.rows, out, 0);
    answered.unwrap_or(0)
}
