// The columns that the pairs take: a pass over all pairs for each column, which finds how many it matches, and one more, which keeps it for the pairs that it
// is the narrowest for.

#![tactic(auto)]

ghost use Rattle.std.specs.Prelude.{◌≡◌, cond, not, ◌++◌, ◌+◌, ◌<◌, ◌≤◌, eqb, length, drop};
ghost use Rattle.model.specs.Lists.{every, count};
ghost use Rattle.model.specs.RuleTables.{letter_sets, pairs_and_boundary, matches};
ghost use Rattle.image.specs.Header.{header_of};
ghost use Rattle.image.specs.Laid.{Laid};
ghost use Rattle.letters.specs.Pairs.{pair_of};
ghost use Rattle.sets.specs.Sides.{sides_of, meets};
ghost use Rattle.columns.specs.Breadths.{Columned};
ghost use Rattle.columns.specs.Passes.{pair_in, listed, narrower, Passed, PassedBy, Chosen, front};

use image::Header;
use letters::{Lexical, Pair, Surface};
use sets::sides;
use sets::sides::Sides;

// The sides of the pairs by number; the boundary pair has number P. Each level stands by itself, so that the compiler takes many pairs at once.
#[derive(Clone, Copy)]
struct PairSides {
    lexical: [u8; 256],
    surface: [u8; 256],
}

// What the passes have kept for each pair: the narrowest column that matches, C where there is none or two are narrowest, and its breadth. Each stands by itself,
// and a number says that there is none, so that the compiler takes many pairs at once.
#[derive(Clone, Copy)]
struct Kept {
    best: [u8; 256],
    least: [u8; 256],
}

// Broader than any column: no breadth is over 251.
const BROADEST: u8 = 252;

fn pair_sides(image: &[u8], h: Header) -> PairSides
    requires { Laid image.now (header_of h) }
    ensures { listed result.lexical result.surface (h.pairs + 1) ≡ pairs_and_boundary image.now }
{
    let mut lexical = [0u8; 256];
    let mut surface = [0u8; 256];
    for p in 0..h.pairs + 1 {
        let pair = sides::pair_at(image, h, p);
        lexical[p] = pair.lexical.0;
        surface[p] = pair.surface.0;
    }
    PairSides { lexical, surface }
}

fn pair_of(pairs: &PairSides, p: usize) -> Pair
    requires { p < 256 }
    ensures { pair_of result ≡ pair_in pairs.now.lexical pairs.now.surface p }
{
    Pair {
        lexical: Lexical(pairs.lexical[p]),
        surface: Surface(pairs.surface[p]),
    }
}

// How many of the first `n` pairs a column matches.
fn breadth_of(pairs: &PairSides, n: usize, column: Sides) -> u8
    requires { n < 256 }
    ensures { result ≡ count (meets (sides_of column)) (listed pairs.now.lexical pairs.now.surface n) }
{
    let mut breadth: u8 = 0;
    for p in 0..n {
        if sides::column_matches(column, pair_of(pairs, p)) {
            breadth += 1;
        }
    }
    breadth
}

// The column kept after column c of a breadth, which matches, where `best` was kept, of breadth `least`: C where two are narrowest.
fn narrower_of(breadth: u8, c: u8, columns: u8, best: u8, least: u8) -> u8
    ensures { result ≡ narrower breadth c columns best least }
{
    if breadth < least {
        c
    } else if breadth == least {
        columns
    } else {
        best
    }
}

// A choice between two values that are both at hand. At a store an `if` becomes a store for some pairs alone, one pair at a time; this stays a store for all.
fn either(first: bool, a: u8, b: u8) -> u8
    ensures { result ≡ cond first a b }
{
    if first { a } else { b }
}

// Column c kept for the first `n` pairs that it is the narrowest for, so far. What is kept is written for every pair, so that the compiler takes many at once.
fn pass_column(
    pairs: &PairSides,
    n: usize,
    column: Sides,
    breadth: u8,
    c: u8,
    columns: u8,
    kept: &mut Kept,
)
    requires { n < 256 }
    ensures { Passed (λ p. meets (sides_of column) (pair_in pairs.now.lexical pairs.now.surface p)) n breadth c columns kept.old.best kept.old.least kept.new.best kept.new.least }
{
    for p in 0..n {
        let matched = sides::column_matches(column, pair_of(pairs, p));
        let best = kept.best[p];
        let least = kept.least[p];
        kept.best[p] = either(matched, narrower_of(breadth, c, columns, best, least), best);
        kept.least[p] = either(matched, breadth.min(least), least);
    }
}

// A column, by the letters as its sides see them.
fn keep_seen(pairs: &PairSides, n: usize, column: Sides, c: u8, columns: u8, kept: &mut Kept)
    requires { n < 256 }
    ensures { PassedBy pairs.now.lexical pairs.now.surface n (sides_of column) meets c columns kept.old.best kept.old.least kept.new.best kept.new.least }
{
    let breadth = breadth_of(pairs, n, column);
    pass_column(pairs, n, column, breadth, c, columns, kept);
}

// A column, whose sides may name sets. Where neither does, they see the letters as they are.
fn keep_column(
    image: &[u8],
    h: Header,
    pairs: &PairSides,
    n: usize,
    column: Sides,
    c: u8,
    columns: u8,
    kept: &mut Kept,
)
    requires laid { Laid image.now (header_of h) }
    requires n_bound { n < 256 }
    ensures { PassedBy pairs.now.lexical pairs.now.surface n (sides_of column) (matches (letter_sets image.now)) c columns kept.old.best kept.old.least kept.new.best kept.new.least }
{
    if !sets::has_set(column) {
        keep_seen(pairs, n, column, c, columns, kept);
        return;
    }
    let seen = PairSides {
        lexical: sets::seen(image, h, column.lexical.0, &pairs.lexical, n),
        surface: sets::seen(image, h, column.surface.0, &pairs.surface, n),
    };
    keep_seen(&seen, n, column, c, columns, kept);
}

// The column that each pair takes, C where none matches or two are narrowest.
pub fn find_columns(image: &[u8], h: Header, t: &[u8], columns: u8) -> [u8; 256]
    requires laid { Laid image.now (header_of h) }
    requires columned { Columned t.now columns }
    ensures { Chosen image.now t.now result }
{
    let pairs = pair_sides(image, h);
    let mut kept = Kept {
        best: [columns; 256],
        least: [BROADEST; 256],
    };
    for c in 0..columns {
        let column = sides::column_at(t, usize::from(c));
        keep_column(image, h, &pairs, h.pairs + 1, column, c, columns, &mut kept);
    }
    kept.best
}

// The first of them, written to the front of `out`; whether none of these is C.
pub fn put_columns(best: &[u8; 256], pairs: usize, columns: u8, out: &mut [u8]) -> bool
    requires { (pairs ≤ 256) × (pairs ≤ length out.old) }
    ensures out_after { out.new ≡ front pairs best.now ++ drop pairs out.old }
    ensures value { result ≡ every (λ c. not (eqb c columns)) (front pairs best.now) }
{
    let chosen = &best[..pairs];
    out[..pairs].copy_from_slice(chosen);
    chosen.iter().all(|&c| c != columns)
}
