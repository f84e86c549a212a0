// Lower case: a code point folded through a constant table.

#![tactic(auto)]

ghost use Rattle.std.specs.Prelude.{◌≡◌};
ghost use Rattle.folding.specs.Folding.{fold};

use crate::table::LOWER_CASE;

mod table;

// A code point above the table stays.
pub fn fold(c: usize) -> usize
    ensures { result ≡ fold c }
{
    if c < 384 {
        return LOWER_CASE[c] as usize;
    }
    c
}
