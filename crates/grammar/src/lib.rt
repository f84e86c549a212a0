// The image check with its verdict, and the view of an entry's form with its companion.

#![tactic(auto)]

ghost use Rattle.std.specs.Prelude.{◌≡◌, ◌++◌, T, replicate};
ghost use Rattle.model.specs.Lists.{below, flat_map};
ghost use Rattle.model.specs.Refusals.{accepted, right_pairs, image_verdict};
ghost use Rattle.model.specs.Beside.{letters, form_reply, viewed};
ghost use Rattle.image.specs.Header.{header_of};
ghost use Rattle.image.specs.Laid.{Laid};
ghost use Rattle.image.specs.Index.{column_row};
ghost use Rattle.grammar.specs.Answers.{verdict_of, form_reply_of, tables_verdict, records_verdict, lexicon_verdict};

use image::Header;
use refusal::Refusal;

// Tests 1 to 8 and then 14, each over the whole image before the next.
pub fn check(image: &[u8]) -> Result<(), Refusal>
    ensures { verdict_of result ≡ image_verdict image.now }
{
    check_tables(image)?;
    let h = image::read_header(image);
    if !tables::right_columns(image, h) {
        return Err(Refusal::Columns);
    }
    check_lexicon(image, h)
}

// Tests 1 to 6, which need no index: callers that go on to make one clear it only for an image that passes them.
pub fn check_tables(image: &[u8]) -> Result<(), Refusal>
    ensures { verdict_of result ≡ tables_verdict image.now }
{
    if !image::seal::right_length(image.len()) {
        return Err(Refusal::ImageLength);
    }
    if !layout::right_checks(image) {
        return Err(Refusal::Checks);
    }
    if !layout::right_layout(image) {
        return Err(Refusal::Layout);
    }
    check_records(image, image::read_header(image))
}

// The other tests, of an image that passes those: test 7 keeps the columns that it finds as the index's first rows. `index` is all 0 before; after a
// refusal it may have anything.
pub fn check_columns(image: &[u8], index: &mut [u8]) -> Result<(), Refusal>
    requires image_value { tables_verdict image.now ≡ accepted }
    requires index_value { index.old ≡ replicate 39424 0 }
    ensures verdict { verdict_of result ≡ image_verdict image.now }
    ensures rows { verdict_of result ≡ accepted → index.new ≡ flat_map (column_row image.now) (below 32) ++ replicate 31232 0 }
{
    let h = image::read_header(image);
    if !tables::keep_columns(image, h, &mut index[0..8192]) {
        return Err(Refusal::Columns);
    }
    check_lexicon(image, h)
}

// Tests 4 to 6, on an image whose blocks are laid out.
fn check_records(image: &[u8], h: Header) -> Result<(), Refusal>
    requires { Laid image.now (header_of h) }
    ensures { verdict_of result ≡ records_verdict image.now }
{
    if !letters::right_letters(image, h) {
        return Err(Refusal::Letters);
    }
    if !letters::right_pairs(image, h) {
        return Err(Refusal::Pairs);
    }
    if !tables::right_tables(image, h) {
        return Err(Refusal::Tables);
    }
    Ok(())
}

// Tests 8 and then 14, made in one walk, and told apart where one fails.
fn check_lexicon(image: &[u8], h: Header) -> Result<(), Refusal>
    requires laid { Laid image.now (header_of h) }
    requires t { T (right_pairs image.now) }
    ensures { verdict_of result ≡ lexicon_verdict image.now }
{
    if lexicon::right_lexicon(image, h) {
        return Ok(());
    }
    if !lexicon::right_entries(image, h) {
        return Err(Refusal::Entries);
    }
    Err(Refusal::FormLetters)
}

// The length of an entry's form, or the refusal.
pub fn form_reply(image: &[u8], e: usize) -> Result<usize, Refusal>
    ensures { form_reply_of result ≡ form_reply image.now e }
{
    check(image)?;
    let h = image::read_header(image);
    if h.entries <= e {
        return Err(Refusal::PathLinks);
    }
    Ok(lexicon::form_length(image, h, e))
}

// The letters of an entry's form, as the part of the image where they stand; the empty part after a refusal.
pub fn form_view(image: &[u8], e: usize) -> &[u8]
    ensures { result.now ≡ viewed image.now e }
{
    match form_reply(image, e) {
        Err(_) => &image[0..0],
        Ok(n) => form_part(image, e, n),
    }
}

// The same, for a caller that the companion has told the length.
pub fn form_part(image: &[u8], e: usize, n: usize) -> &[u8]
    requires { form_reply image.now e ≡ letters n }
    ensures { result.now ≡ viewed image.now e }
{
    let h = image::read_header(image);
    let from = lexicon::entry_start(h, e) + 1;
    &image[from..from + n]
}
