// The line program step by step: a chunk of the input taken in, its lines answered, the answers handed over, up to the end of the input.

#![tactic(auto)]

ghost use Rattle.std.specs.Prelude.{◌≡◌, List, ℕ};
ghost use Rattle.answers.specs.Run.{IsHad};
ghost use Rattle.steps.specs.Sofar.{Within, Answered, Finished, Stepped, Ended};

use answers::input;
use answers::input::Reached;
use answers::run::Run;
use moving::{Count, Taken};
use std::io::Read;

// Where the program stands: how many bytes are kept of the line begun; the bytes of the chunk, from `at` to `n`, that are not answered yet; how many
// bytes have come in and gone out.
#[derive(Clone, Copy)]
pub struct Stand {
    pub kept: usize,
    pub at: usize,
    pub n: usize,
    pub taken: Count,
    pub handed: Count,
}

// After a step in which no call failed: go on, or all is answered.
#[derive(Clone, Copy)]
pub enum Step {
    On(Stand),
    Over(Count),
}

// Answers bytes of the chunk that wait, as many as there is room for and up to a line that is long to search, and hands the answers over.
fn answer_part<R: Print + Eprint>(
    rt: &R,
    run: &Run,
    chunk: &[u8; 65536],
    line: &mut [u8; 256],
    out: &mut [u8; 65536],
    s: Stand,
) -> Option<Stand>
    requires had { IsHad run.now }
    requires within { Within s }
    ensures { Answered run.now.image.now chunk.now chunk.now line.old line.new out.new s result }
{
    let from = Reached {
        kept: s.kept,
        end: 0,
    };
    let read = input::read_chunk(run, &chunk[..s.n], s.at, line, out, from);
    let Reached { kept, end } = read.reached;
    let handed = moving::give(rt, &out[..end], s.handed)?;
    Some(Stand {
        kept,
        at: read.at,
        handed,
        ..s
    })
}

// Answers a last line without its end, where there is one.
fn answer_last<R: Print + Eprint>(
    rt: &R,
    run: &Run,
    line: &[u8; 256],
    out: &mut [u8; 65536],
    s: Stand,
) -> Option<Count>
    requires had { IsHad run.now }
    requires within { Within s × (s.at ≡ s.n) }
    ensures { (chunk chunk' : List ℕ) → Finished run.now.image.now chunk chunk' line.now line.now out.new s result }
{
    let end = input::read_end(run, line, out, s.kept);
    moving::give(rt, &out[..end], s.handed)
}

// Where nothing waits: a chunk more, or at the end of the input the last line.
fn take_chunk<R: Print + Eprint, I: Read>(
    rt: &R,
    input: &mut I,
    run: &Run,
    chunk: &mut [u8; 65536],
    line: &[u8; 256],
    out: &mut [u8; 65536],
    s: Stand,
) -> Option<Step>
    requires had { IsHad run.now }
    requires within { Within s × (s.at ≡ s.n) }
    ensures { Stepped run.now.image.now chunk.old chunk.new line.now line.now out.new s result }
{
    let came = moving::take_in(rt, input, chunk, s.taken)?;
    match came {
        Taken::Nothing => Some(Step::On(s)),
        Taken::End => Some(Step::Over(answer_last(rt, run, line, out, s)?)),
        Taken::Bytes(n, taken) => Some(Step::On(Stand {
            at: 0,
            n,
            taken,
            ..s
        })),
    }
}

fn turn<R: Print + Eprint, I: Read>(
    rt: &R,
    input: &mut I,
    run: &Run,
    chunk: &mut [u8; 65536],
    line: &mut [u8; 256],
    out: &mut [u8; 65536],
    s: Stand,
) -> Option<Step>
    requires had { IsHad run.now }
    requires within { Within s }
    ensures { Stepped run.now.image.now chunk.old chunk.new line.old line.new out.new s result }
{
    if s.at < s.n {
        return Some(Step::On(answer_part(rt, run, chunk, line, out, s)?));
    }
    take_chunk(rt, input, run, chunk, line, out, s)
}

// The whole input is answered: how many bytes came in, and how many went out.
#[derive(Clone, Copy)]
pub struct Whole {
    pub taken: Count,
    pub handed: Count,
}

// Step after step, or none where a call failed. Their number is bounded, by 2^47, so that the program ends on every input, and so that no count of bytes
// passes 64 bits.
pub fn answer_input<R: Print + Eprint, I: Read>(
    rt: &R,
    input: &mut I,
    run: &Run,
    chunk: &mut [u8; 65536],
    line: &mut [u8; 256],
    out: &mut [u8; 65536],
) -> Option<Whole>
    requires { IsHad run.now }
    ensures { Ended run.now.image.now result }
{
    let mut s = Stand {
        kept: 0,
        at: 0,
        n: 0,
        taken: moving::none(),
        handed: moving::none(),
    };
    for _turns in 0..140737488355328u64 {
        let step = turn(rt, input, run, chunk, line, out, s)?;
        match step {
            Step::On(next) => {
                s = next;
            }
            Step::Over(handed) => {
                return Some(Whole {
                    taken: s.taken,
                    handed,
                });
            }
        }
    }
    None
}
