// Pairs that are forced: where a letter is left and one candidate pair alone may be taken, it is taken without a call, and so on as far as that goes.
ghost use Rattle.std.specs.Prelude.{◌≡◌, length};
ghost use Rattle.model.specs.Query.{Pattern};
ghost use Rattle.image.specs.Header.{header_of};
ghost use Rattle.image.specs.Accepted.{Accepted};
ghost use Rattle.image.specs.Index.{index_of, candidates};
ghost use Rattle.listing.specs.Asked.{word_query};
ghost use Rattle.listing.specs.Places.{rest_of, Standing};
ghost use Rattle.listing.specs.Search.{head_of};
ghost use Rattle.ahead.specs.Here.{Underway};
ghost use Rattle.ahead.specs.Forced.{TriedOf, LedTo};

use image::Header;
use listing::asked::WordAsked;
use listing::place::Place;
use rows::Trail;

// What the candidates come to: none may be taken, one alone, with the place after it, or several.
#[derive(Clone, Copy)]
pub enum Tried {
    Nothing,
    One(usize, Place),
    Several,
}

pub fn try_all(
    image: &[u8],
    index: &[u8],
    h: Header,
    asked: WordAsked,
    word: &[u8],
    place: Place,
) -> Tried
    requires accepted { Accepted image.now (header_of h) }
    requires index_value { index.now ≡ index_of image.now }
    requires standing { Standing image.now place }
    ensures { (t : Pattern) → let cs = candidates image.now (head_of (rest_of image.now place)) in TriedOf image.now (word_query asked word.now t) place cs (length cs) result }
{
    let letter = crate::here::next_letter(image, place);
    let many = crate::here::candidate_count(image, index, h, letter);
    let mut tried = Tried::Nothing;
    for k in 0..many {
        let p = crate::here::candidate(image, index, h, letter, k);
        let taken = listing::pairing::take(image, index, h, asked, word, place, place.last, p);
        if let Some(next) = taken {
            let Tried::Nothing = tried else {
                return Tried::Several;
            };
            tried = Tried::One(p, next);
        }
    }
    tried
}

// Where it led: to another place and a longer trail.
#[derive(Clone, Copy)]
pub struct Led {
    pub place: Place,
    pub trail: Trail,
}

pub fn lead(
    image: &[u8],
    index: &[u8],
    h: Header,
    asked: WordAsked,
    word: &[u8],
    place: Place,
    trail: Trail,
) -> Option<Led>
    requires { Underway image.now index.now (header_of h) place trail }
    ensures { (t : Pattern) → LedTo image.now index.now (header_of h) (word_query asked word.now t) place trail result }
{
    // From place to place, as long as a pair is forced: no index is counted.
    let mut at = place;
    let mut way = trail;
    while at.from < at.to {
        if way.pairs >= 40 {
            return None;
        }
        match try_all(image, index, h, asked, word, at) {
            Tried::Nothing => return None,
            Tried::Several => break,
            Tried::One(pair, next) => {
                way.pairing[way.pairs] = pair as u8;
                way.pairs += 1;
                at = next;
            }
        }
    }
    Some(Led {
        place: at,
        trail: way,
    })
}
