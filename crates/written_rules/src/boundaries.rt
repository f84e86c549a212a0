// A pairing between its boundaries, and the lexical letters of its pairs.
ghost use Rattle.std.specs.Prelude.{◌≡◌, ℕ, suc, ◌+◌, ◌≤◌, ◌<◌, length, get_or, take};
ghost use Rattle.model.specs.GrammarOf.{grammar_of};
ghost use Rattle.image.specs.Header.{header_of};
ghost use Rattle.image.specs.Laid.{Laid};
ghost use Rattle.contexts.specs.Operators.{bounded};
ghost use Rattle.judge.specs.Reading.{Listed};

use image::Header;

// Pairs between their boundaries, and the lexical letter of each in the place that it has there.
#[derive(Clone, Copy)]
pub struct Bounded<'a> {
    pub pairs: &'a [u8],
    pub letters: &'a [u8],
    ghost at_both_ends: { 2 ≤ length pairs.now },
    ghost beside: { length pairs.now ≡ length letters.now },
    ghost few: { length pairs.now < 63 },
}

// The pairs, the boundary pair at both ends of them.
pub fn between(pairing: &[u8]) -> [u8; 64]
    requires { length pairing.now ≤ 40 }
    ensures { (length result ≡ 64) × (take (length pairing.now + 2) result ≡ bounded pairing.now) }
{
    let mut pairs = [255; 64];
    for (i, pair) in pairing.iter().enumerate() {
        pairs[i + 1] = *pair;
    }
    pairs
}

// The lexical letter of each pair, in the place that it has there.
pub fn lexical_letters(image: &[u8], h: Header, pairing: &[u8]) -> [u8; 64]
    requires laid { Laid image.now (header_of h) × Listed image.now pairing.now }
    requires pairing_len_bound { length pairing.now ≤ 40 }
    ensures { (length result ≡ 64) × ((i : ℕ) → i < length pairing.now → get_or result (suc i) 0 ≡ (grammar_of image.now).lexical (get_or pairing.now i 0)) }
{
    let mut letters = [0; 64];
    for (i, pair) in pairing.iter().enumerate() {
        letters[i + 1] = letters::lexical_side(image, h, usize::from(*pair)).0;
    }
    letters
}
