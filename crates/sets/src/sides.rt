// The two sides of a column, and which pairs they match. A letter of one level is never compared with a letter of the other.
ghost use Rattle.std.specs.Prelude.{◌≡◌, ◌+◌, ◌<◌, ◌≤◌, length};
ghost use Rattle.model.specs.RuleTables.{column};
ghost use Rattle.image.specs.Header.{header_of};
ghost use Rattle.image.specs.Laid.{Laid};
ghost use Rattle.letters.specs.Pairs.{pair_of};
ghost use Rattle.sets.specs.Sides.{sides_of, sides_from, meets_side, meets, pair_number};

use image::Header;
use letters::{Lexical, Pair, Surface};

// What a column says of a pair: on each level its letter, 255 for any, or a number that names a set.
#[derive(Clone, Copy)]
pub struct Sides {
    pub lexical: Lexical,
    pub surface: Surface,
}

// The two sides that begin at a byte.
pub fn sides_at(bytes: &[u8], at: usize) -> Sides
    requires { at + 1 < length bytes.now }
    ensures { sides_of result ≡ sides_from bytes.now at }
{
    Sides {
        lexical: Lexical(bytes[at]),
        surface: Surface(bytes[at + 1]),
    }
}

// A side that names no set matches its own letter, or any where it is 255.
fn side_matches(side: u8, letter: u8) -> bool
    ensures { result ≡ meets_side side letter }
{
    side == 255 || side == letter
}

// A column matches a pair on both levels; where a side names a set, by what it sees.
#[tactic(auto, unfolding(crate::specs::Sides::meets))]
pub fn column_matches(column: Sides, pair: Pair) -> bool
    ensures { result ≡ meets (sides_of column) (pair_of pair) }
{
    side_matches(column.lexical.0, pair.lexical.0) && side_matches(column.surface.0, pair.surface.0)
}

// Column c of a table.
pub fn column_at(t: &[u8], c: usize) -> Sides
    requires { (c < 16) × (length t.now ≡ 506) }
    ensures { sides_of result ≡ column t.now c }
{
    sides_at(t, 2 + 2 * c)
}

// Pair p, where the boundary pair has number P.
pub fn pair_at(image: &[u8], h: Header, p: usize) -> Pair
    requires laid { Laid image.now (header_of h) }
    requires p_le_pairs { p ≤ h.pairs }
    ensures { pair_of result ≡ pair_number image.now p }
{
    if p < h.pairs {
        return letters::pair_at(image, h, p);
    }
    Pair {
        lexical: Lexical(1),
        surface: Surface(1),
    }
}
