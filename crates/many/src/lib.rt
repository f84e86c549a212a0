// Many words in one call: the image is checked and indexed once, for all of them.

#![tactic(auto)]

ghost use Rattle.std.specs.Prelude.{◌≡◌};
ghost use Rattle.model.specs.Refusals.{accepted};
ghost use Rattle.grammar.specs.Answers.{tables_verdict};
ghost use Rattle.shares.specs.Words.{many_reply, after_replies, after_rows};
ghost use Rattle.many.specs.Answers.{many_of};

use refusal::Refusal;

// A few words by the index alone.
fn analyse_few(
    image: &[u8],
    words: &[u8],
    replies: &mut [u8],
    out: &mut [u8],
) -> Result<usize, Refusal>
    requires { tables_verdict image.now ≡ accepted }
    ensures reply { many_of result ≡ many_reply image.now words.now replies.old }
    ensures replies { replies.new ≡ after_replies image.now words.now replies.old out.old }
    ensures rows { out.new ≡ after_rows image.now words.now replies.old out.old }
{
    let mut index = [0u8; 39424];
    let h = prepare::for_few(image, &mut index)?;
    Ok(shares::answer_all(image, &index, h, words, replies, out))
}

// More words by the index of forms as well.
fn analyse_many(
    image: &[u8],
    words: &[u8],
    replies: &mut [u8],
    out: &mut [u8],
) -> Result<usize, Refusal>
    requires { tables_verdict image.now ≡ accepted }
    ensures reply { many_of result ≡ many_reply image.now words.now replies.old }
    ensures replies { replies.new ≡ after_replies image.now words.now replies.old out.old }
    ensures rows { out.new ≡ after_rows image.now words.now replies.old out.old }
{
    let mut index = [0u8; 186112];
    let h = prepare::for_many(image, &mut index)?;
    Ok(shares::answer_all(image, &index, h, words, replies, out))
}

// From 5 words on the index of forms is worth making. An image that tests 1 to 6 refuse costs no index.
pub fn analyse_words(
    image: &[u8],
    words: &[u8],
    replies: &mut [u8],
    out: &mut [u8],
) -> Result<usize, Refusal>
    ensures reply { many_of result ≡ many_reply image.now words.now replies.old }
    ensures replies { replies.new ≡ after_replies image.now words.now replies.old out.old }
    ensures rows { out.new ≡ after_rows image.now words.now replies.old out.old }
{
    grammar::check_tables(image)?;
    if shares::word_count(words.len(), replies.len()) < 5 {
        return analyse_few(image, words, replies, out);
    }
    analyse_many(image, words, replies, out)
}
