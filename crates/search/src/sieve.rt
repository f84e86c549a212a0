// What the search has of the filter.
ghost use Rattle.std.specs.Prelude.{◌≡◌, ℕ, ◌≤◌, length, take, replicate};
ghost use Rattle.model.specs.Query.{Pattern};
ghost use Rattle.image.specs.Header.{header_of};
ghost use Rattle.image.specs.Accepted.{Accepted};
ghost use Rattle.image.specs.Index.{index_of};
ghost use Rattle.listing.specs.Asked.{word_query};
ghost use Rattle.filter.specs.Sieve.{MayBe, Writable, Sieve};

use image::Header;
use listing::asked::WordAsked;

// The filter's sets, where there is an index of forms and a word is asked for: how many bytes of that index the search goes by.
pub fn prepare(
    image: &[u8],
    index: &[u8],
    h: Header,
    asked: WordAsked,
    word: &[u8],
    forms: &[u8],
    masks: &mut [u64],
    reach: &mut [u64],
) -> usize
    requires accepted { Accepted image.now (header_of h) }
    requires index_value { index.now ≡ index_of image.now }
    requires may_be { MayBe image.now forms.now × Writable word.now }
    requires masks_value { (masks.old ≡ replicate 128 0) × (length reach.old ≡ 65) }
    ensures { (result ≤ length forms.now) × ((path : Pattern) → Sieve image.now (word_query asked word.now path) (take result forms.now) masks.new reach.new) }
{
    let many = forms.len();
    if many == 0 {
        return 0;
    }
    match asked {
        WordAsked::Anything => 0,
        WordAsked::Exactly => {
            filter::prepare(image, index, h, forms, word, masks, reach);
            many
        }
    }
}
