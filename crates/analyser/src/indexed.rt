// Analysis and generation for callers that have checked the image and made its index, or the larger one: same reply, same bytes.
ghost use Rattle.std.specs.Prelude.{◌≡◌};
ghost use Rattle.model.specs.Blocks.{header};
ghost use Rattle.model.specs.Query.{analysis, generation};
ghost use Rattle.model.specs.Refusals.{accepted, image_verdict};
ghost use Rattle.model.specs.Rows.{row_count};
ghost use Rattle.model.specs.Calls.{listing_reply, after_listing};
ghost use Rattle.image.specs.Header.{header_of};
ghost use Rattle.rows.specs.Fill.{reply_of};
ghost use Rattle.requests.specs.Request.{request_of};
ghost use Rattle.prepare.specs.Indexed.{Indexed};
ghost use Rattle.analyser.specs.Tried.{TriedOf};

use image::Header;
use refusal::Refusal;
use requests::Request;
use rows::Reply;

pub fn analyse(
    image: &[u8],
    index: &[u8],
    h: Header,
    word: &[u8],
    out: &mut [u8],
) -> Result<Reply, Refusal>
    requires image_value { image_verdict image.now ≡ accepted }
    requires h_value { header_of h ≡ header image.now }
    requires indexed { Indexed image.now index.now }
    ensures reply { reply_of result ≡ listing_reply image.now (analysis word.now) (row_count out.old) }
    ensures bytes { out.new ≡ after_listing image.now (analysis word.now) out.old }
{
    list(image, index, h, Request::Analysis, word, out)
}

// The same as `analyse`, or nothing: a search that turns out long is given up, and then the buffer's rows are of no use.
pub fn try_analyse(
    image: &[u8],
    index: &[u8],
    h: Header,
    word: &[u8],
    out: &mut [u8],
) -> Option<Result<Reply, Refusal>>
    requires image_value { image_verdict image.now ≡ accepted }
    requires h_value { header_of h ≡ header image.now }
    requires indexed { Indexed image.now index.now }
    ensures { TriedOf image.now word.now out.old out.new result }
{
    match requests::own::own_verdict(image, h, Request::Analysis, word) {
        Err(refusal) => Some(Err(refusal)),
        Ok(_) => {
            let capacity = out.len() / 116;
            let found = requests::try_word(image, &index[..39424], h, word, &index[39424..], out);
            if found < capacity + 2 {
                return Some(Ok(rows::reply_for(found, capacity)));
            }
            None
        }
    }
}

pub fn generate(
    image: &[u8],
    index: &[u8],
    h: Header,
    path: &[u8],
    out: &mut [u8],
) -> Result<Reply, Refusal>
    requires image_value { image_verdict image.now ≡ accepted }
    requires h_value { header_of h ≡ header image.now }
    requires indexed { Indexed image.now index.now }
    ensures reply { reply_of result ≡ listing_reply image.now (generation path.now) (row_count out.old) }
    ensures bytes { out.new ≡ after_listing image.now (generation path.now) out.old }
{
    list(image, index, h, Request::Generation, path, out)
}

// The call's own tests, and where they hold the search.
pub fn list(
    image: &[u8],
    index: &[u8],
    h: Header,
    request: Request,
    asked: &[u8],
    out: &mut [u8],
) -> Result<Reply, Refusal>
    requires image_value { image_verdict image.now ≡ accepted }
    requires h_value { header_of h ≡ header image.now }
    requires indexed { Indexed image.now index.now }
    ensures reply { reply_of result ≡ listing_reply image.now (request_of request asked.now) (row_count out.old) }
    ensures bytes { out.new ≡ after_listing image.now (request_of request asked.now) out.old }
{
    requests::own::own_verdict(image, h, request, asked)?;
    let capacity = out.len() / 116;
    let found = requests::search_for(
        image,
        &index[..39424],
        h,
        request,
        asked,
        &index[39424..],
        out,
    );
    Ok(rows::reply_for(found, capacity))
}
