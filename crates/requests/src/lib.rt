// What a call asks for: analysis the readings of a word, generation those of a path.

#![tactic(auto)]

pub mod own;

ghost use Rattle.std.specs.Prelude.{◌≡◌};
ghost use Rattle.model.specs.Refusals.{accepted, first_failing, own_tests};
ghost use Rattle.model.specs.Rows.{row_count};
ghost use Rattle.model.specs.Calls.{all_readings};
ghost use Rattle.image.specs.Header.{header_of};
ghost use Rattle.image.specs.Accepted.{Accepted};
ghost use Rattle.image.specs.Index.{index_of};
ghost use Rattle.rows.specs.Offering.{offer_all};
ghost use Rattle.rows.specs.Fill.{put};
ghost use Rattle.filter.specs.Sieve.{MayBe};
ghost use Rattle.walk.specs.Offered.{Offered};
ghost use Rattle.model.specs.Query.{analysis};
ghost use Rattle.requests.specs.Request.{request_of};

use image::Header;
use listing::asked::{Asked, PathAsked, WordAsked};

// Which listing is asked for; with the call's bytes, `request_of` makes the model's request of it.
#[derive(Clone, Copy)]
pub enum Request {
    Analysis,
    Generation,
}

// The search for it: of what it does not ask for, anything will do, and no bytes are lent.
pub fn search_for(
    image: &[u8],
    index: &[u8],
    h: Header,
    request: Request,
    asked: &[u8],
    forms: &[u8],
    out: &mut [u8],
) -> usize
    requires accepted { Accepted image.now (header_of h) }
    requires index_value { index.now ≡ index_of image.now }
    requires may_be { MayBe image.now forms.now }
    requires asked_value { first_failing (own_tests image.now (request_of request asked.now)) ≡ accepted }
    ensures { (out.new, result) ≡ offer_all (put (row_count out.old)) (out.old, 0) (all_readings image.now (request_of request asked.now)) }
{
    let capacity = out.len() / 116;
    match request {
        Request::Analysis => {
            let word = Asked {
                path: PathAsked::Anything,
                word: WordAsked::Exactly,
            };
            search::search(
                image,
                index,
                h,
                word,
                &asked[..0],
                asked,
                forms,
                out,
                capacity,
            )
        }
        Request::Generation => {
            let path = Asked {
                path: PathAsked::Exactly,
                word: WordAsked::Anything,
            };
            search::search(
                image,
                index,
                h,
                path,
                asked,
                &asked[..0],
                forms,
                out,
                capacity,
            )
        }
    }
}

// The search for a word that may give up.
pub fn try_word(
    image: &[u8],
    index: &[u8],
    h: Header,
    word: &[u8],
    forms: &[u8],
    out: &mut [u8],
) -> usize
    requires accepted { Accepted image.now (header_of h) }
    requires index_value { index.now ≡ index_of image.now }
    requires may_be { MayBe image.now forms.now }
    requires word_value { first_failing (own_tests image.now (analysis word.now)) ≡ accepted }
    ensures { Offered (row_count out.old) (out.old, 0) (all_readings image.now (analysis word.now)) (out.new, result) 1 }
{
    let capacity = out.len() / 116;
    let asked = Asked {
        path: PathAsked::Anything,
        word: WordAsked::Exactly,
    };
    search::try_search(
        image,
        index,
        h,
        asked,
        &word[..0],
        word,
        forms,
        out,
        capacity,
    )
}
