// The search for readings, from the first lexicon on: tried first, and where that gives up once more, with dead ends remembered.

#![tactic(auto)]

pub mod sieve;

ghost use Rattle.std.specs.Prelude.{◌≡◌, ℕ, ◌≤◌, length, replicate};
ghost use Rattle.model.specs.GrammarOf.{grammar_of};
ghost use Rattle.model.specs.Tree.{readings};
ghost use Rattle.image.specs.Header.{header_of};
ghost use Rattle.image.specs.Accepted.{Accepted};
ghost use Rattle.image.specs.Index.{index_of};
ghost use Rattle.rows.specs.Offering.{offer_all};
ghost use Rattle.rows.specs.Fill.{put, Roomy};
ghost use Rattle.listing.specs.Asked.{query_by};
ghost use Rattle.filter.specs.Sieve.{MayBe, Writable};
ghost use Rattle.walk.specs.Offered.{Offered};

use image::Header;
use listing::asked::Asked;
use listing::level::Level;
use listing::place::{Place, ROOT};
use walk::basis::Basis;

// All readings, from the first lexicon on, with the states that the rules come to at the front; none where one fails there. The table is blank.
fn from_start(
    image: &[u8],
    index: &[u8],
    h: Header,
    asked: Asked,
    path: &[u8],
    word: &[u8],
    forms: &[u8],
    out: &mut [u8],
    capacity: usize,
    table: &mut [u16],
) -> usize
    requires accepted { Accepted image.now (header_of h) }
    requires index_value { index.now ≡ index_of image.now }
    requires may_be { MayBe image.now forms.now × Writable word.now }
    requires roomy { Roomy out.old capacity }
    requires by_index { (n : ℕ) × ((1 ≤ n) × (table.old ≡ replicate n 0)) }
    ensures { Offered capacity (out.old, 0) (readings (grammar_of image.now) (query_by asked path.now word.now)) (out.new, result) (length table.old) }
{
    let Some(states) = rules::states::begin_all(image, index, h) else {
        return 0;
    };
    let place = Place {
        from: 0,
        to: 0,
        last: ROOT,
        nulls: 0,
        surface: Level {
            letters: 0,
            nulls: 0,
        },
        states,
    };
    let trail = rows::no_trail();
    let mut masks = [0u64; 128];
    let mut reach = [0u64; 65];
    let many = crate::sieve::prepare(
        image, index, h, asked.word, word, forms, &mut masks, &mut reach,
    );
    let basis = Basis {
        image,
        index,
        h,
        asked,
        path,
        word,
        forms: &forms[..many],
        masks: &masks,
        reach: &reach,
    };
    walk::open(&basis, place, trail, out, capacity, 0, table)
}

// The same with a table that only counts: where that gives up, a beginning of the rows is written, and `capacity` + 2 is told.
pub fn try_search(
    image: &[u8],
    index: &[u8],
    h: Header,
    asked: Asked,
    path: &[u8],
    word: &[u8],
    forms: &[u8],
    out: &mut [u8],
    capacity: usize,
) -> usize
    requires accepted { Accepted image.now (header_of h) }
    requires index_value { index.now ≡ index_of image.now }
    requires may_be { MayBe image.now forms.now × Writable word.now }
    requires roomy { Roomy out.old capacity }
    ensures { Offered capacity (out.old, 0) (readings (grammar_of image.now) (query_by asked path.now word.now)) (out.new, result) 1 }
{
    let mut table = [0u16; 1];
    from_start(
        image, index, h, asked, path, word, forms, out, capacity, &mut table,
    )
}

// The same with a table that remembers dead ends: it does not give up.
fn search_long(
    image: &[u8],
    index: &[u8],
    h: Header,
    asked: Asked,
    path: &[u8],
    word: &[u8],
    forms: &[u8],
    out: &mut [u8],
    capacity: usize,
) -> usize
    requires accepted { Accepted image.now (header_of h) }
    requires index_value { index.now ≡ index_of image.now }
    requires may_be { MayBe image.now forms.now × Writable word.now }
    requires roomy { Roomy out.old capacity }
    ensures { (out.new, result) ≡ offer_all (put capacity) (out.old, 0) (readings (grammar_of image.now) (query_by asked path.now word.now)) }
{
    let mut table = [0u16; 20480];
    from_start(
        image, index, h, asked, path, word, forms, out, capacity, &mut table,
    )
}

// All readings: dead ends are remembered only where the search turns out long. The rows that were written before are written again.
pub fn search(
    image: &[u8],
    index: &[u8],
    h: Header,
    asked: Asked,
    path: &[u8],
    word: &[u8],
    forms: &[u8],
    out: &mut [u8],
    capacity: usize,
) -> usize
    requires accepted { Accepted image.now (header_of h) }
    requires index_value { index.now ≡ index_of image.now }
    requires may_be { MayBe image.now forms.now × Writable word.now }
    requires roomy { Roomy out.old capacity }
    ensures { (out.new, result) ≡ offer_all (put capacity) (out.old, 0) (readings (grammar_of image.now) (query_by asked path.now word.now)) }
{
    let found = try_search(image, index, h, asked, path, word, forms, out, capacity);
    if found < capacity + 2 {
        return found;
    }
    search_long(image, index, h, asked, path, word, forms, out, capacity)
}
