// The index of an accepted image, filled row by row: after the columns that the check kept, for each lexical letter the pairs that may pair it or stand
// before it, and where each lexicon begins. It is filled once a call or once a run; a step only reads it.

#![tactic(auto)]

ghost use Rattle.std.specs.Prelude.{◌≡◌, ◌++◌, ◌≤◌, ◌<◌, replicate};
ghost use Rattle.model.specs.Lists.{below, flat_map};
ghost use Rattle.image.specs.Header.{header_of};
ghost use Rattle.image.specs.Laid.{Laid};
ghost use Rattle.image.specs.Accepted.{Accepted};
ghost use Rattle.image.specs.Index.{column_row, candidate_row, lexicon_row, index_of};
ghost use Rattle.index.specs.Candidates.{is_candidate};

use image::Header;
use letters::Lexical;

// Whether pair p has the lexical letter a or the lexical null.
fn is_candidate(image: &[u8], h: Header, a: Lexical, p: usize) -> bool
    requires { Laid image.now (header_of h) × (p < h.pairs) }
    ensures { result ≡ is_candidate image.now a.0 p }
{
    let side = letters::lexical_side(image, h, p);
    side.0 == 0 || letters::same_lexical(side, a)
}

// One row, all 0 before: how many pairs, and which, in ascending order.
fn fill_row(image: &[u8], h: Header, a: Lexical, row: &mut [u8])
    requires laid { Laid image.now (header_of h) × (a.0 ≤ h.letters) }
    requires row_value { row.old ≡ replicate 256 0 }
    ensures { row.new ≡ candidate_row image.now a.0 }
{
    let mut n: usize = 0;
    for p in 0..h.pairs {
        if is_candidate(image, h, a, p) {
            n += 1;
            row[n] = p as u8;
        }
    }
    row[0] = n as u8;
}

// The rows of all letters. `out` is the index from byte 8192 to byte 39167, all 0 before.
fn fill_candidates(image: &[u8], h: Header, out: &mut [u8])
    requires laid { Laid image.now (header_of h) }
    requires out_value { out.old ≡ replicate 30976 0 }
    ensures { out.new ≡ flat_map (candidate_row image.now) (below 121) }
{
    for a in 0..h.letters + 1 {
        fill_row(image, h, Lexical(a as u8), &mut out[256 * a..256 * a + 256]);
    }
}

// Where each lexicon begins, and after the last the count of all entries. `row` is the last of the index, all 0 before.
fn fill_lexicons(image: &[u8], h: Header, row: &mut [u8])
    requires laid { Laid image.now (header_of h) }
    requires row_value { row.old ≡ replicate 256 0 }
    ensures { row.new ≡ lexicon_row image.now }
{
    let mut first: usize = 0;
    for x in 0..h.lexicons {
        image::seal::put_number(row, 2 * x, first);
        first += lexicon::entry_count(image, h, x);
    }
    image::seal::put_number(row, 2 * h.lexicons, first);
}

// The rows after those of the rules. `out` is the index from byte 8192 on, all 0 before.
fn fill_rest(image: &[u8], h: Header, out: &mut [u8])
    requires laid { Laid image.now (header_of h) }
    requires out_value { out.old ≡ replicate 31232 0 }
    ensures { out.new ≡ flat_map (candidate_row image.now) (below 121) ++ lexicon_row image.now }
{
    fill_candidates(image, h, &mut out[0..30976]);
    fill_lexicons(image, h, &mut out[30976..31232]);
}

// The whole index. `out` has the rows of columns that the check kept, and is all 0 after them.
pub fn fill_index(image: &[u8], h: Header, out: &mut [u8])
    requires accepted { Accepted image.now (header_of h) }
    requires out_value { out.old ≡ flat_map (column_row image.now) (below 32) ++ replicate 31232 0 }
    ensures { out.new ≡ index_of image.now }
{
    fill_rest(image, h, &mut out[8192..39424]);
}
