// Test 13, and whether a path and a pairing that passed their tests are a reading.
ghost use Rattle.std.specs.Prelude.{◌&&◌, ◌≡◌, ℕ, map, ◌<◌, ◌≤◌, ◌%◌, length, slice_index, T, ltb, eqb};
ghost use Rattle.model.specs.Lists.{every, same_list};
ghost use Rattle.model.specs.Blocks.{header};
ghost use Rattle.model.specs.Lexicon.{path_length};
ghost use Rattle.model.specs.GrammarOf.{grammar_of};
ghost use Rattle.model.specs.Readings.{nulls, spelled, is_linked, pairing_length, passes, is_reading};
ghost use Rattle.model.specs.Query.{entry_numbers};
ghost use Rattle.image.specs.Header.{header_of};
ghost use Rattle.image.specs.Accepted.{Accepted};
ghost use Rattle.image.specs.Index.{index_of};
ghost use Rattle.rules.specs.Paths.{Entered, forms_of};
ghost use Rattle.judge.specs.Reading.{Listed, NullsTold, levels_right, judged_reading};

use image::Header;

// Test 13: 1 to 40 pairs of the image.
pub fn pairing_right(h: Header, pairing: &[u8]) -> bool
    ensures { result ≡ (pairing_length pairing.now && every (λ p. ltb p h.pairs) pairing.now) }
{
    let n = pairing.len();
    if n < 1 || 40 < n {
        return false;
    }
    pairing.iter().all(|&p| usize::from(p) < h.pairs)
}

// Whether the lexical sides without nulls are the joined forms.
fn spells_forms(image: &[u8], h: Header, path: &[u8], pairing: &[u8]) -> bool
    requires accepted { Accepted image.now (header_of h) }
    requires entered { Entered image.now path.now × Listed image.now pairing.now }
    ensures { result ≡ same_list (spelled (grammar_of image.now).lexical pairing.now) (forms_of image.now path.now) }
{
    let mut t = 0;
    for &p in pairing {
        let side = letters::lexical_side(image, h, usize::from(p));
        if side.0 != 0 {
            if rules::paths::letter_at(image, h, path, t) != Some(side) {
                return false;
            }
            t += 1;
        }
    }
    rules::paths::letter_at(image, h, path, t).is_none()
}

// How many pairs have a null on one level, where `null` tells whether a pair has one there.
fn count_nulls<F: Fn(u8) -> bool>(pairing: &[u8], null: F) -> usize
    requires { (i : ℕ) → i < length pairing.now → F.pre null (slice_index pairing.now i) }
    ensures count { (side : ℕ → ℕ) → NullsTold (F.post null) side pairing.now → result ≡ nulls (map side pairing.now) }
    ensures most { result ≤ length pairing.now }
{
    let mut count = 0;
    for &p in pairing {
        if null(p) {
            count += 1;
        }
    }
    count
}

// Whether every rule, fed the boundary pair, the pairs and the boundary pair again, never reaches 0 and ends in a final state.
fn pairing_passes(image: &[u8], index: &[u8], h: Header, pairing: &[u8]) -> bool
    requires accepted { Accepted image.now (header_of h) }
    requires index_value { index.now ≡ index_of image.now }
    requires listed { Listed image.now pairing.now }
    ensures { result ≡ passes (grammar_of image.now) pairing.now }
{
    let Some(mut states) = rules::states::begin_all(image, index, h) else {
        return false;
    };
    for &p in pairing {
        let Some(next) = rules::states::step_all(image, index, h, states, usize::from(p)) else {
            return false;
        };
        states = next;
    }
    rules::states::finish_all(image, index, h, states)
}

// Whether the two levels are right: the forms are spelled, at most 8 pairs have a null on either, and the surface spells 1 to 32 letters.
fn levels_right(image: &[u8], h: Header, path: &[u8], pairing: &[u8]) -> bool
    requires accepted { Accepted image.now (header_of h) }
    requires entered { Entered image.now path.now × Listed image.now pairing.now }
    ensures { result ≡ levels_right image.now path.now pairing.now }
{
    if !spells_forms(image, h, path, pairing) {
        return false;
    }
    let lexical_nulls = count_nulls(
        pairing,
        |p| letters::lexical_side(image, h, usize::from(p)).0 == 0,
    );
    if lexical_nulls > 8 {
        return false;
    }
    let surface_nulls = count_nulls(
        pairing,
        |p| letters::surface_side(image, h, usize::from(p)).0 == 0,
    );
    let letters = pairing.len() - surface_nulls;
    if letters < 1 || 32 < letters {
        return false;
    }
    surface_nulls <= 8
}

// Whether path and pairing, which passed tests 11 to 13, are a reading of the word that they spell.
pub fn is_reading(image: &[u8], index: &[u8], h: Header, path: &[u8], pairing: &[u8]) -> bool
    requires accepted { Accepted image.now (header_of h) }
    requires index_value { index.now ≡ index_of image.now }
    requires t { T (eqb (length path.now % 2) 0 && path_length (entry_numbers path.now)) × T (is_linked (grammar_of image.now) (entry_numbers path.now)) }
    requires t_2 { T (pairing_length pairing.now && every (λ p. ltb p (header image.now).pairs) pairing.now) }
    ensures { result ≡ is_reading (grammar_of image.now) (judged_reading path.now pairing.now) }
{
    levels_right(image, h, path, pairing) && pairing_passes(image, index, h, pairing)
}
