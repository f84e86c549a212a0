// Which entries can start where one opens: whether a pair may be taken there at once depends on the first letter of the form alone.
ghost use Rattle.std.specs.Prelude.{◌≡◌, ℕ, ◌≤◌, ◌<◌};
ghost use Rattle.model.specs.GrammarOf.{grammar_of};
ghost use Rattle.model.specs.Query.{Pattern};
ghost use Rattle.image.specs.Header.{header_of};
ghost use Rattle.image.specs.Accepted.{Accepted};
ghost use Rattle.image.specs.Index.{index_of};
ghost use Rattle.listing.specs.Asked.{word_query};
ghost use Rattle.listing.specs.Places.{rest_of, node_of, Standing};
ghost use Rattle.listing.specs.Search.{head_of};
ghost use Rattle.ahead.specs.FirstLetters.{starts_at, seen_at};

use image::Header;
use letters::Lexical;
use listing::asked::WordAsked;
use listing::place::Place;

// The first letter of the form of entry e, 0 where it has none: the bytes after a form are 0.
pub fn first_letter(image: &[u8], h: Header, e: usize) -> Lexical
    requires accepted { Accepted image.now (header_of h) }
    requires e_lt_entries { e < h.entries }
    ensures { (result.0 ≡ head_of ((grammar_of image.now).form e)) × (result.0 ≤ h.letters) }
{
    letters::lexical_at(image, lexicon::entry_start(h, e) + 1)
}

// Whether some candidate pair of the next letter may be taken here.
fn can_start(
    image: &[u8],
    index: &[u8],
    h: Header,
    asked: WordAsked,
    word: &[u8],
    place: Place,
    letter: Lexical,
) -> bool
    requires accepted { Accepted image.now (header_of h) }
    requires index_value { index.now ≡ index_of image.now }
    requires standing { Standing image.now place }
    requires letter_value { (letter.0 ≡ head_of (rest_of image.now place)) × (letter.0 ≤ h.letters) }
    ensures { (t : Pattern) (n m : ℕ) → m < 40 → result ≡ starts_at image.now (word_query asked word.now t) (node_of image.now place n m) letter.0 }
{
    let many = crate::here::candidate_count(image, index, h, letter);
    for k in 0..many {
        let p = crate::here::candidate(image, index, h, letter, k);
        let taken = listing::pairing::take(image, index, h, asked, word, place, place.last, p);
        if taken.is_some() {
            return true;
        }
    }
    false
}

// What is seen where entry e, which begins with this letter, opens: 1 where no pair may be taken, 2 where one may, or the form is empty.
pub fn look(
    image: &[u8],
    index: &[u8],
    h: Header,
    asked: WordAsked,
    word: &[u8],
    place: Place,
    e: usize,
    letter: Lexical,
) -> u8
    requires accepted { Accepted image.now (header_of h) }
    requires index_value { index.now ≡ index_of image.now }
    requires standing { Standing image.now place }
    requires e_lt_entries { (e < h.entries) × ((letter.0 ≡ head_of ((grammar_of image.now).form e)) × (letter.0 ≤ h.letters)) }
    ensures { (t : Pattern) (n m : ℕ) → m < 40 → result ≡ seen_at image.now (word_query asked word.now t) (node_of image.now place n m) e letter.0 }
{
    if letter.0 == 0 {
        return 2;
    }
    let next = listing::place::enter(image, h, place, e);
    if can_start(image, index, h, asked, word, next, letter) {
        return 2;
    }
    1
}
