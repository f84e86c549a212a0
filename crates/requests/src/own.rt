// A listing's own tests, after the image check: 9 and 10 of a word, 11 and 12 of a path.
ghost use Rattle.std.specs.Prelude.{◌≡◌};
ghost use Rattle.model.specs.Refusals.{first_failing, word_tests, path_tests, own_tests};
ghost use Rattle.image.specs.Header.{header_of};
ghost use Rattle.image.specs.Accepted.{Accepted};
ghost use Rattle.grammar.specs.Answers.{verdict_of};
ghost use Rattle.requests.specs.Request.{request_of};

use crate::Request;
use image::Header;
use refusal::Refusal;

// Tests 9 and 10: 1 to 32 letters, each from 2 to L.
fn word_verdict(image: &[u8], h: Header, word: &[u8]) -> Result<(), Refusal>
    requires { Accepted image.now (header_of h) }
    ensures { verdict_of result ≡ first_failing (word_tests image.now word.now) }
{
    let n = word.len();
    if n < 1 {
        return Err(Refusal::WordLength);
    }
    if n > 32 {
        return Err(Refusal::WordLength);
    }
    if !letters::are_letters(word, 0, n, h.letters) {
        return Err(Refusal::WordLetters);
    }
    Ok(())
}

// Tests 11 and 12: 1 to 16 entries, two bytes to each, linked through the lexicon.
fn path_verdict(image: &[u8], h: Header, path: &[u8]) -> Result<(), Refusal>
    requires { Accepted image.now (header_of h) }
    ensures { verdict_of result ≡ first_failing (path_tests image.now path.now) }
{
    if !rules::paths::path_length_right(path) {
        return Err(Refusal::PathLength);
    }
    if !rules::paths::path_linked(image, h, path) {
        return Err(Refusal::PathLinks);
    }
    Ok(())
}

pub fn own_verdict(image: &[u8], h: Header, request: Request, asked: &[u8]) -> Result<(), Refusal>
    requires { Accepted image.now (header_of h) }
    ensures { verdict_of result ≡ first_failing (own_tests image.now (request_of request asked.now)) }
{
    match request {
        Request::Analysis => word_verdict(image, h, asked),
        Request::Generation => path_verdict(image, h, asked),
    }
}
