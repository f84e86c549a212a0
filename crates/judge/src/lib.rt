// The judge: whether a path and a pairing are a reading of the word that they spell, or the refusal.

#![tactic(auto)]

pub mod reading;

ghost use Rattle.std.specs.Prelude.{◌≡◌, ◌++◌, replicate};
ghost use Rattle.model.specs.Lists.{below, flat_map};
ghost use Rattle.model.specs.Refusals.{accepted};
ghost use Rattle.model.specs.Beside.{judged};
ghost use Rattle.image.specs.Header.{header_of};
ghost use Rattle.image.specs.Accepted.{Accepted};
ghost use Rattle.image.specs.Index.{column_row};
ghost use Rattle.grammar.specs.Answers.{tables_verdict};
ghost use Rattle.judge.specs.Answers.{judgement_of, judged_accepted};

use image::Header;
use refusal::Refusal;

// The image check, and then the tests of the path and the pairing. An image that tests 1 to 6 refuse costs no index.
pub fn judge(image: &[u8], path: &[u8], pairing: &[u8]) -> Result<bool, Refusal>
    ensures { judgement_of result ≡ judged image.now path.now pairing.now }
{
    grammar::check_tables(image)?;
    judge_tabled(image, path, pairing)
}

// The image's other tests, which keep the index's first rows.
fn judge_tabled(image: &[u8], path: &[u8], pairing: &[u8]) -> Result<bool, Refusal>
    requires { tables_verdict image.now ≡ accepted }
    ensures { judgement_of result ≡ judged image.now path.now pairing.now }
{
    let mut index = [0u8; 39424];
    grammar::check_columns(image, &mut index)?;
    let h = image::read_header(image);
    judge_accepted(image, h, &mut index, path, pairing)
}

// Tests 11 to 13 in order, and then the reading. The index, which has the rows of columns and is all 0 after them, is filled where they hold.
fn judge_accepted(
    image: &[u8],
    h: Header,
    index: &mut [u8],
    path: &[u8],
    pairing: &[u8],
) -> Result<bool, Refusal>
    requires accepted { Accepted image.now (header_of h) }
    requires index_value { index.old ≡ flat_map (column_row image.now) (below 32) ++ replicate 31232 0 }
    ensures { judgement_of result ≡ judged_accepted image.now path.now pairing.now }
{
    if !rules::paths::path_length_right(path) {
        return Err(Refusal::PathLength);
    }
    if !rules::paths::path_linked(image, h, path) {
        return Err(Refusal::PathLinks);
    }
    if !crate::reading::pairing_right(h, pairing) {
        return Err(Refusal::Pairing);
    }
    index::fill_index(image, h, index);
    Ok(crate::reading::is_reading(image, index, h, path, pairing))
}
