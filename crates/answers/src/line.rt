// The answer to a line: unread, the refusal, or the reply and the rows. Where other text is to be handed over first, a line that is long to search waits.
ghost use Rattle.std.specs.Prelude.{◌≡◌, ◌+◌, ◌<◌, ◌≤◌, length};
ghost use Rattle.model.specs.Demand.{reply_rows};
ghost use Rattle.analyser.specs.Tried.{TriedOf};
ghost use Rattle.rows.specs.Fill.{reply_of};
ghost use Rattle.prepare.specs.Had.{Prepared};
ghost use Rattle.answers.specs.Run.{IsHad};
ghost use Rattle.answers.specs.Answered.{WordAnswered, LineAnswered};

use crate::run::Run;
use analyser::indexed;
use image::Header;
use refusal::Refusal;
use rows::Reply;

// How many rows a reply tells of.
fn told_rows(r: Result<Reply, Refusal>) -> usize
    ensures { result ≡ reply_rows (reply_of r) }
{
    match r {
        Ok(reply) => match reply {
            Reply::All(n) | Reply::More(n) => n,
            Reply::None => 0,
        },
        Err(_) => 0,
    }
}

// The listing of a word of an accepted image, which is given up only where text stands before `at`.
fn list_word(
    run: &Run,
    h: Header,
    word: &[u8],
    rows: &mut [u8],
    at: usize,
) -> Option<Result<Reply, Refusal>>
    requires { Prepared run.now.image.now run.now.index.now h }
    ensures listed { TriedOf run.now.image.now word.now rows.old rows.new result }
    ensures waits { result ≡ None → 0 < at }
{
    if at == 0 {
        return Some(indexed::analyse(run.image, run.index, h, word, rows));
    }
    indexed::try_analyse(run.image, run.index, h, word, rows)
}

// The reply to a word of an accepted image, and its rows: where the text put ends, or none where the word's line waits.
fn answer_word(
    run: &Run,
    h: Header,
    word: &[u8],
    rows: &mut [u8; 7424],
    out: &mut [u8],
    at: usize,
) -> Option<usize>
    requires prepared { Prepared run.now.image.now run.now.index.now h }
    requires at_in_bounds { at + 22032 ≤ length out.old }
    ensures { WordAnswered run.now.image.now out.old out.new at word.now result }
{
    let reply = list_word(run, h, word, rows, at)?;
    let n = told_rows(reply);
    let reply_end = print::put_reply(out, at, reply);
    Some(print::put_rows(out, reply_end, rows, n))
}

// The answer to a line, given as its first 256 bytes, put into `out` from `at` on: where it ends, or none where the line waits. `word` and `rows` are room
// to work in.
pub fn answer(
    run: &Run,
    line: &[u8],
    word: &mut [u8; 128],
    rows: &mut [u8; 7424],
    out: &mut [u8],
    at: usize,
) -> Option<usize>
    requires had { IsHad run.now }
    requires at_in_bounds { at + 22032 ≤ length out.old }
    ensures { LineAnswered run.now.image.now out.old out.new at line.now result }
{
    if line.len() > 255 {
        return Some(print::put_unread(out, at));
    }
    let Some(n) = parse::read_line(line, word) else {
        return Some(print::put_unread(out, at));
    };
    match run.prepared {
        Err(refusal) => Some(print::put_reply(out, at, Err(refusal))),
        Ok(h) => answer_word(run, h, &word[..n], rows, out, at),
    }
}
