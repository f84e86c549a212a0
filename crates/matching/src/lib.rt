// Contexts read and matched in one pass over the text, by recursion: the text left falls at each bracket.

#![tactic(auto)]

pub mod context;

ghost use Rattle.std.specs.Prelude.{◌≡◌, ◌-◌, ◌≤◌, ◌<◌, length, drop};
ghost use Rattle.contexts.specs.Context.{Context, tight, side, whole};
ghost use Rattle.contexts.specs.Reader.{starts_with, begins_atom, read_stars, read_pair, got};
ghost use Rattle.contexts.specs.Fuel.{read_text, read_atom, starred};
ghost use Rattle.contexts.specs.Meaning.{pair_number, onward};
ghost use Rattle.contexts.specs.Relation.{one};
ghost use Rattle.relations.specs.Sets.{holds};
ghost use Rattle.relations.specs.Rows.{RowsAre};
ghost use Rattle.matching.specs.Steps.{passes, Follows, Placed, Numbered};

use relations::{places, tables};

// A context that a text begins with: where the text goes on; and row by row the places where a run that begins there may end.
#[derive(Clone, Copy)]
pub struct Step {
    pub at: usize,
    pub rows: [u64; 64],
}

// The number that a byte is as a digit.
fn digit(b: u8) -> usize
    ensures { result ≡ b - 48 }
{
    usize::from(b.saturating_sub(b'0'))
}

// The number that three bytes write.
pub fn number_of(x: u8, y: u8, z: u8) -> usize
    ensures { result ≡ pair_number (x - 48) (y - 48) (z - 48) }
{
    100 * digit(x) + 10 * digit(y) + digit(z)
}

// Whether byte `b` stands at `at`.
pub fn starts(text: &[u8], at: usize, b: u8) -> bool
    requires { at ≤ length text.now }
    ensures { result ≡ starts_with b (drop at text.now) }
{
    at < text.len() && text[at] == b
}

// Whether a digit, a full stop or an opening bracket stands at `at`.
fn begins_atom(text: &[u8], at: usize) -> bool
    requires { at ≤ length text.now }
    ensures { result ≡ begins_atom (drop at text.now) }
{
    at < text.len() && matches!(text[at], b'0'..=b'9' | b'.' | b'(')
}

// Where the stars that stand at `at` end.
fn skip_stars(text: &[u8], at: usize) -> usize
    requires { at ≤ length text.now }
    ensures within { (at ≤ result) × (result ≤ length text.now) }
    ensures read { (c : Context) → read_stars c (drop at text.now) ≡ got (starred (result - at) c) (drop result text.now) }
{
    for end in at..text.len() {
        if text[end] != b'*' {
            return end;
        }
    }
    text.len()
}

// Whether a pair is the one of this number, or any where there is no number.
fn passes(number: Option<usize>, pair: u8) -> bool
    ensures { result ≡ passes number pair }
{
    match number {
        Some(n) => usize::from(pair) == n,
        None => true,
    }
}

// The places one pair on from place j.
fn pair_row(s: &[u8], number: Option<usize>, j: usize) -> u64
    requires { (j ≤ length s.now) × (length s.now < 63) }
    ensures { holds result ≡ onward (passes number) s.now (one j) }
{
    if j < s.len() && passes(number, s[j]) {
        places::with(0, j + 1)
    } else {
        0
    }
}

fn pair_rows(s: &[u8], number: Option<usize>) -> [u64; 64]
    requires { length s.now < 63 }
    ensures { RowsAre result (length s.now) (λ j. onward (passes number) s.now (one j)) }
{
    let mut rows = [0; 64];
    for j in 0..=s.len() {
        rows[j] = pair_row(s, number, j);
    }
    rows
}

// The number that three digits at `at` write, where they stand there.
pub fn pair_number(text: &[u8], at: usize) -> Option<usize>
    requires { at ≤ length text.now }
    ensures { Numbered text.now at (read_pair (drop at text.now)) result }
{
    let [x, y, z, ..] = &text[at..] else {
        return None;
    };
    if x.is_ascii_digit() && y.is_ascii_digit() && z.is_ascii_digit() {
        Some(number_of(*x, *y, *z))
    } else {
        None
    }
}

// A pair as three digits.
fn match_pair(text: &[u8], from: usize, s: &[u8]) -> Option<Step>
    requires { Placed text.now from s.now }
    ensures { Follows text.now s.now (read_pair (drop from text.now)) result }
{
    let number = pair_number(text, from)?;
    let rows = pair_rows(s, Some(number));
    Some(Step { at: from + 3, rows })
}

// A pair, a full stop, or brackets.
#[cycle(match_atom_match_side_match_tight_match_whole)]
fn match_atom(text: &[u8], from: usize, depth: usize, s: &[u8]) -> Option<Step>
    requires { Placed text.now from s.now }
    ensures { Follows text.now s.now (read_atom read_text depth (drop from text.now)) result }
{
    if starts(text, from, b'(') {
        if depth == 0 {
            return None;
        }
        let a = match_whole(text, from + 1, depth - 1, s)?;
        if !starts(text, a.at, b')') {
            return None;
        }
        let rows = a.rows;
        return Some(Step { at: a.at + 1, rows });
    }
    if starts(text, from, b'.') {
        let rows = pair_rows(s, None);
        return Some(Step { at: from + 1, rows });
    }
    match_pair(text, from, s)
}

// A pair, a full stop or brackets, with the stars after it.
#[cycle(match_atom_match_side_match_tight_match_whole)]
fn match_tight(text: &[u8], from: usize, depth: usize, s: &[u8]) -> Option<Step>
    requires { Placed text.now from s.now }
    ensures { Follows text.now s.now (read_text tight depth (drop from text.now)) result }
{
    let a = match_atom(text, from, depth, s)?;
    let end = skip_stars(text, a.at);
    if end == a.at {
        return Some(a);
    }
    let rows = tables::star(&a.rows, s.len());
    Some(Step { at: end, rows })
}

// One side of a bar: pairs, full stops and brackets, starred or not, one after the other.
#[cycle(match_atom_match_side_match_tight_match_whole)]
fn match_side(text: &[u8], from: usize, depth: usize, s: &[u8]) -> Option<Step>
    requires { Placed text.now from s.now }
    ensures { Follows text.now s.now (read_text side depth (drop from text.now)) result }
{
    let a = match_tight(text, from, depth, s)?;
    if !begins_atom(text, a.at) {
        return Some(a);
    }
    let b = match_side(text, a.at, depth, s)?;
    let rows = tables::compose(&a.rows, &b.rows, s.len());
    Some(Step { at: b.at, rows })
}

// A context: sides with bars between them.
#[cycle(match_atom_match_side_match_tight_match_whole)]
pub fn match_whole(text: &[u8], from: usize, depth: usize, s: &[u8]) -> Option<Step>
    requires { Placed text.now from s.now }
    ensures { Follows text.now s.now (read_text whole depth (drop from text.now)) result }
{
    let a = match_side(text, from, depth, s)?;
    if !starts(text, a.at, b'|') {
        return Some(a);
    }
    let others = match_whole(text, a.at + 1, depth, s)?;
    let rows = tables::either(&a.rows, &others.rows, s.len());
    Some(Step {
        at: others.at,
        rows,
    })
}
