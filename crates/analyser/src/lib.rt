// Analysis of a word and generation from a path: the image check, the call's own tests, the index, and the search.

#![tactic(auto)]

pub mod indexed;

ghost use Rattle.std.specs.Prelude.{◌≡◌};
ghost use Rattle.model.specs.Query.{analysis, generation};
ghost use Rattle.model.specs.Refusals.{accepted};
ghost use Rattle.model.specs.Rows.{row_count};
ghost use Rattle.model.specs.Calls.{listing_reply, after_listing};
ghost use Rattle.grammar.specs.Answers.{tables_verdict};
ghost use Rattle.rows.specs.Fill.{reply_of};
ghost use Rattle.requests.specs.Request.{request_of};

use refusal::Refusal;
use requests::Request;
use rows::Reply;

// All readings of a word, as rows in the lent buffer.
pub fn analyse(image: &[u8], word: &[u8], out: &mut [u8]) -> Result<Reply, Refusal>
    ensures reply { reply_of result ≡ listing_reply image.now (analysis word.now) (row_count out.old) }
    ensures bytes { out.new ≡ after_listing image.now (analysis word.now) out.old }
{
    list(image, Request::Analysis, word, out)
}

// All readings with a path, given as two bytes to an entry number, as rows in the lent buffer.
pub fn generate(image: &[u8], path: &[u8], out: &mut [u8]) -> Result<Reply, Refusal>
    ensures reply { reply_of result ≡ listing_reply image.now (generation path.now) (row_count out.old) }
    ensures bytes { out.new ≡ after_listing image.now (generation path.now) out.old }
{
    list(image, Request::Generation, path, out)
}

// The image check, and then the listing over the index. An image that tests 1 to 6 refuse costs no index.
fn list(image: &[u8], request: Request, asked: &[u8], out: &mut [u8]) -> Result<Reply, Refusal>
    ensures reply { reply_of result ≡ listing_reply image.now (request_of request asked.now) (row_count out.old) }
    ensures bytes { out.new ≡ after_listing image.now (request_of request asked.now) out.old }
{
    grammar::check_tables(image)?;
    list_tabled(image, request, asked, out)
}

// The image's other tests, and of an accepted image the index, over which the listing is made.
fn list_tabled(
    image: &[u8],
    request: Request,
    asked: &[u8],
    out: &mut [u8],
) -> Result<Reply, Refusal>
    requires { tables_verdict image.now ≡ accepted }
    ensures reply { reply_of result ≡ listing_reply image.now (request_of request asked.now) (row_count out.old) }
    ensures bytes { out.new ≡ after_listing image.now (request_of request asked.now) out.old }
{
    let mut index = [0u8; 39424];
    let h = prepare::for_few(image, &mut index)?;
    crate::indexed::list(image, &index, h, request, asked, out)
}
