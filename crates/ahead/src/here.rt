// What the search asks of the place where it stands.
ghost use Rattle.std.specs.Prelude.{true, false, ◌⊎◌, ◌≡◌, [], ◌∷◌, ◌≤◌, ◌<◌, length, get_or};
ghost use Rattle.model.specs.Lists.{given};
ghost use Rattle.model.specs.Blocks.{header};
ghost use Rattle.model.specs.GrammarOf.{grammar_of};
ghost use Rattle.model.specs.Tree.{complete};
ghost use Rattle.image.specs.Header.{header_of};
ghost use Rattle.image.specs.Accepted.{Accepted};
ghost use Rattle.image.specs.Index.{index_of, candidates};
ghost use Rattle.rows.specs.Trail.{reading_of};
ghost use Rattle.rows.specs.Offering.{offer_all};
ghost use Rattle.rows.specs.Fill.{put, Roomy};
ghost use Rattle.listing.specs.Asked.{query_by};
ghost use Rattle.listing.specs.Places.{ended, rest_of, with_last, Standing, OnlyStops};
ghost use Rattle.listing.specs.Search.{node_at, head_of};
ghost use Rattle.ahead.specs.Here.{opens_at, Underway};

use image::Header;
use letters::Lexical;
use listing::asked::Asked;
use listing::place::{ENDED, Place};
use rows::Trail;

// Where every letter is paired: whether the search goes on with `open`. Elsewhere the path has ended, or it can only end.
pub fn goes_on(image: &[u8], h: Header, place: Place) -> bool
    requires accepted { Accepted image.now (header_of h) }
    requires standing { Standing image.now place × (place.to ≤ place.from) }
    ensures on { result ≡ true → opens_at place ≡ true }
    ensures over { result ≡ false → (place.last ≡ ended) ⊎ OnlyStops image.now place.last }
{
    place.last != ENDED && !listing::place::only_stops(image, h, place)
}

// Offers the reading that ends where every letter is paired and the path has ended, where one does.
pub fn put_ended(
    image: &[u8],
    index: &[u8],
    h: Header,
    asked: Asked,
    path: &[u8],
    word: &[u8],
    place: Place,
    trail: Trail,
    out: &mut [u8],
    capacity: usize,
    found: usize,
) -> usize
    requires underway { Underway image.now index.now (header_of h) place trail }
    requires to_le_from { place.to ≤ place.from }
    requires roomy { Roomy out.old capacity × (found ≤ capacity) }
    ensures { (out.new, result) ≡ offer_all (put capacity) (out.old, found) (given (complete (grammar_of image.now) (query_by asked path.now word.now) (node_at image.now (with_last place ended) trail)) (reading_of trail ∷ [])) }
{
    if !listing::pairing::ends(image, index, h, asked, path, word, place, trail.entries) {
        return found;
    }
    rows::offer(out, capacity, found, trail)
}

// The next letter to be paired, 0 where none is left.
pub fn next_letter(image: &[u8], place: Place) -> Lexical
    requires { Standing image.now place }
    ensures { (result.0 ≡ head_of (rest_of image.now place)) × (result.0 ≤ (header image.now).letters) }
{
    if place.from < place.to {
        return letters::lexical_at(image, place.from);
    }
    Lexical(0)
}

// How many pairs may pair the letter a or stand before it.
pub fn candidate_count(image: &[u8], index: &[u8], h: Header, a: Lexical) -> usize
    requires accepted { Accepted image.now (header_of h) }
    requires index_value { index.now ≡ index_of image.now }
    requires a_le_letters { a.0 ≤ h.letters }
    ensures { result ≡ length (candidates image.now a.0) }
{
    image::byte_at(index, 256 * (32 + a.0 as usize))
}

// Pair k of them.
pub fn candidate(image: &[u8], index: &[u8], h: Header, a: Lexical, k: usize) -> usize
    requires accepted { Accepted image.now (header_of h) }
    requires index_value { index.now ≡ index_of image.now }
    requires a_le_letters { (a.0 ≤ h.letters) × (k < length (candidates image.now a.0)) }
    ensures { (result ≡ get_or (candidates image.now a.0) k 0) × (result < h.pairs) }
{
    image::byte_at(index, 256 * (32 + a.0 as usize) + 1 + k)
}
