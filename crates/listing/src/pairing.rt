// A pair taken at a place, where the rules and what is asked let it pass; and the end of a reading.
ghost use Rattle.std.specs.Prelude.{◌≡◌, ℕ, ◌<◌, get_or, T};
ghost use Rattle.model.specs.RuleTables.{pairs, boundary_pair};
ghost use Rattle.model.specs.GrammarOf.{grammar_of};
ghost use Rattle.model.specs.Query.{Pattern};
ghost use Rattle.model.specs.Tree.{spells, complete};
ghost use Rattle.image.specs.Header.{header_of};
ghost use Rattle.image.specs.Accepted.{Accepted};
ghost use Rattle.image.specs.Index.{index_of};
ghost use Rattle.listing.specs.Asked.{word_query, query_by};
ghost use Rattle.listing.specs.Places.{ended, rest_of, with_last, node_of, Standing, TookIf};

use crate::asked::{Asked, WordAsked};
use crate::place::Place;
use image::Header;

// The place after pair p, where the pair may be taken and the entry that is open is `last`.
pub fn take(
    image: &[u8],
    index: &[u8],
    h: Header,
    asked: WordAsked,
    word: &[u8],
    place: Place,
    last: usize,
    p: usize,
) -> Option<Place>
    requires accepted { Accepted image.now (header_of h) }
    requires index_value { index.now ≡ index_of image.now }
    requires standing { Standing image.now (with_last place last) }
    requires p_lt_pairs { p < h.pairs }
    requires t { T (spells (rest_of image.now place) (get_or (pairs image.now) p boundary_pair).lexical) }
    ensures { (t : Pattern) → TookIf image.now (word_query asked word.now t) (with_last place last) p result }
{
    let spelled = crate::level::spell(place.from, place.nulls, letters::lexical_side(image, h, p))?;
    let surface = crate::level::pass(
        asked,
        word,
        place.surface,
        letters::surface_side(image, h, p),
    )?;
    let states = rules::states::step_all(image, index, h, place.states, p)?;
    Some(Place {
        from: spelled.from,
        to: place.to,
        last,
        nulls: spelled.nulls,
        surface,
        states,
    })
}

// Whether a reading of n entries ends where every letter is paired, once the path has ended.
pub fn ends(
    image: &[u8],
    index: &[u8],
    h: Header,
    asked: Asked,
    path: &[u8],
    word: &[u8],
    place: Place,
    n: usize,
) -> bool
    requires accepted { Accepted image.now (header_of h) }
    requires index_value { index.now ≡ index_of image.now }
    requires standing { Standing image.now place × (place.from ≡ place.to) }
    ensures { (m : ℕ) → result ≡ complete (grammar_of image.now) (query_by asked path.now word.now) (node_of image.now (with_last place ended) n m) }
{
    if !crate::asked::ends_entries(asked.path, path, n) {
        return false;
    }
    let letters = place.surface.letters;
    if letters == 0 {
        return false;
    }
    if !crate::asked::ends_letters(asked.word, word, letters) {
        return false;
    }
    rules::states::finish_all(image, index, h, place.states)
}
