// What is had of an image before anything is asked of it: the refusal, or of an accepted image the header and the index. Who asks much has the index of forms too.

#![tactic(auto)]

ghost use Rattle.std.specs.Prelude.{◌≡◌, ◌++◌, ℕ, length, replicate, OnErr};
ghost use Rattle.model.specs.Lists.{below, flat_map};
ghost use Rattle.model.specs.Refusals.{accepted};
ghost use Rattle.image.specs.Header.{header_of};
ghost use Rattle.image.specs.Accepted.{Accepted};
ghost use Rattle.image.specs.Index.{column_row};
ghost use Rattle.prepare.specs.Indexed.{Indexed};
ghost use Rattle.grammar.specs.Answers.{tables_verdict};
ghost use Rattle.prepare.specs.Had.{Had};

use image::Header;
use refusal::Refusal;

// The index, and after it the index of forms. `index` has the rows of columns, and is all 0 after them.
fn fill(image: &[u8], h: Header, index: &mut [u8])
    requires accepted { Accepted image.now (header_of h) }
    requires index_value { index.old ≡ (flat_map (column_row image.now) (below 32) ++ replicate 31232 0) ++ replicate 146688 0 }
    ensures { Indexed image.now index.new }
{
    index::fill_index(image, h, &mut index[..39424]);
    filling::fill(image, h, &mut index[39424..186112]);
}

// The tests of the image that are left after 1 to 6, and of an accepted image the header and the index alone. `index` is all 0 before.
pub fn for_few(image: &[u8], index: &mut [u8]) -> Result<Header, Refusal>
    requires image_value { tables_verdict image.now ≡ accepted }
    requires index_value { index.old ≡ replicate 39424 0 }
    ensures { Had image.now index.new result }
{
    grammar::check_columns(image, index)?;
    let h = image::read_header(image);
    index::fill_index(image, h, index);
    Ok(h)
}

// The same with the larger index, which is cleared after a refusal.
pub fn for_many(image: &[u8], index: &mut [u8]) -> Result<Header, Refusal>
    requires image_value { tables_verdict image.now ≡ accepted }
    requires index_value { index.old ≡ replicate 186112 0 }
    ensures had { Had image.now index.new result }
    ensures kept { OnErr result (index.new ≡ index.old) }
{
    match grammar::check_columns(image, &mut index[..39424]) {
        Err(refusal) => {
            index.fill(0);
            Err(refusal)
        }
        Ok(_) => {
            let h = image::read_header(image);
            fill(image, h, index);
            Ok(h)
        }
    }
}

// The whole image check, and the larger index. `index` is all 0 before, and after a refusal; tests 1 to 6 leave it alone.
pub fn for_run(image: &[u8], index: &mut [u8]) -> Result<Header, Refusal>
    requires { index.old ≡ replicate 186112 0 }
    ensures had { Had image.now index.new result }
    ensures kept { OnErr result (index.new ≡ index.old) }
{
    grammar::check_tables(image)?;
    for_many(image, index)
}
