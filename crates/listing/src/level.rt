// The two levels as far as a search has come, and what one more pair makes of each.
ghost use Rattle.std.specs.Prelude.{false, ◌≡◌, ◌≤◌, leb, MatchOption};
ghost use Rattle.model.specs.Tree.{nulls_and};
ghost use Rattle.listing.specs.Asked.{word_pattern};
ghost use Rattle.listing.specs.Levels.{level_may_by, level_of, Bounded, Passed, Spelled};

use crate::asked::WordAsked;
use letters::{Lexical, Surface};

#[derive(Clone, Copy)]
pub struct Level {
    pub letters: usize,
    pub nulls: usize,
}

// What a level has at most.
const MOST_LETTERS: usize = 32;

const MOST_NULLS: usize = 8;

// A level after one more pair, where the pair may come next.
pub fn pass(asked: WordAsked, word: &[u8], level: Level, x: Surface) -> Option<Level>
    requires { Bounded level }
    ensures { MatchOption result (level_may_by (word_pattern asked word.now) (level_of level) x.0 ≡ false) (Passed (word_pattern asked word.now) level x.0) }
{
    if x.0 == 0 {
        if level.nulls >= MOST_NULLS {
            return None;
        }
        return Some(Level {
            nulls: level.nulls + 1,
            ..level
        });
    }
    if !crate::asked::allows_letter(asked, word, level.letters, x) {
        return None;
    }
    if level.letters >= MOST_LETTERS {
        return None;
    }
    Some(Level {
        letters: level.letters + 1,
        ..level
    })
}

// The lexical level after one more pair: where the letters left begin, and its nulls.
#[derive(Clone, Copy)]
pub struct LexicalAfter {
    pub from: usize,
    pub nulls: usize,
}

pub fn spell(from: usize, nulls: usize, x: Lexical) -> Option<LexicalAfter>
    requires { (nulls ≤ 8) × (from ≤ 65536) }
    ensures { MatchOption result (leb (nulls_and nulls x.0) 8 ≡ false) (Spelled from nulls x.0) }
{
    if x.0 != 0 {
        return Some(LexicalAfter {
            from: from + 1,
            nulls,
        });
    }
    if nulls >= MOST_NULLS {
        return None;
    }
    Some(LexicalAfter {
        from,
        nulls: nulls + 1,
    })
}
