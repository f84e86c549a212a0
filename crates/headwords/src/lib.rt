// The calls for C: every call on byte slices, every reply one number. `headwords_c` exports these functions, and `include/headwords.h` declares them.

#![tactic(auto)]

ghost use Rattle.std.specs.Prelude.{◌≡◌, length};
ghost use Rattle.model.specs.Query.{analysis, generation};
ghost use Rattle.model.specs.Refusals.{image_verdict};
ghost use Rattle.model.specs.Rows.{row_count, reply_number};
ghost use Rattle.model.specs.Calls.{sealing_reply, after_sealing, listing_reply, after_listing};
ghost use Rattle.model.specs.Beside.{judged, form_reply, viewed, spelling_reply, after_spelling};
ghost use Rattle.judge.specs.Answers.{judgement_of};
ghost use Rattle.conversion.specs.Conversion.{conversion_reply, after_conversion};
ghost use Rattle.shares.specs.Words.{many_reply, after_replies, after_rows};
ghost use Rattle.written_rules.specs.Judged.{rules_judged};
ghost use Rattle.refusal.specs.Numbers.{number_of};
ghost use Rattle.headwords.specs.Numbers.{refused_number, verdict_number, sealing_number, judgement_number, form_number, after_form, spelling_number, conversion_number, many_number};

use refusal::Refusal;

pub fn headwords_analyse(image: &[u8], word: &[u8], out: &mut [u8]) -> u64
    ensures reply { result ≡ reply_number (listing_reply image.now (analysis word.now) (row_count out.old)) }
    ensures bytes { out.new ≡ after_listing image.now (analysis word.now) out.old }
{
    rows::reply_number(analyser::analyse(image, word, out))
}

pub fn headwords_analyse_words(
    image: &[u8],
    words: &[u8],
    replies: &mut [u8],
    out: &mut [u8],
) -> u64
    ensures reply { result ≡ many_number (many_reply image.now words.now replies.old) }
    ensures replies { replies.new ≡ after_replies image.now words.now replies.old out.old }
    ensures rows { out.new ≡ after_rows image.now words.now replies.old out.old }
{
    match many::analyse_words(image, words, replies, out) {
        Ok(n) => 4 * (n as u64) + 1,
        Err(refusal) => refusal_number(refusal),
    }
}

pub fn headwords_generate(image: &[u8], path: &[u8], out: &mut [u8]) -> u64
    ensures reply { result ≡ reply_number (listing_reply image.now (generation path.now) (row_count out.old)) }
    ensures bytes { out.new ≡ after_listing image.now (generation path.now) out.old }
{
    rows::reply_number(analyser::generate(image, path, out))
}

pub fn headwords_check(image: &[u8]) -> u64
    ensures { result ≡ verdict_number (image_verdict image.now) }
{
    match grammar::check(image) {
        Ok(()) => 1,
        Err(refusal) => refusal_number(refusal),
    }
}

pub fn headwords_seal(image: &mut [u8]) -> u64
    ensures reply { result ≡ sealing_number (sealing_reply image.old) }
    ensures bytes { image.new ≡ after_sealing image.old }
{
    match image::seal::seal(image) {
        Ok(()) => 1,
        Err(refusal) => refusal_number(refusal),
    }
}

pub fn headwords_judge(image: &[u8], path: &[u8], pairing: &[u8]) -> u64
    ensures { result ≡ judgement_number (judged image.now path.now pairing.now) }
{
    judgement_number(judge::judge(image, path, pairing))
}

pub fn headwords_judge_rules(image: &[u8], pairing: &[u8], text: &[u8]) -> u64
    ensures { result ≡ judgement_number (rules_judged image.now pairing.now text.now) }
{
    judgement_number(written_rules::judge_rules(image, pairing, text))
}

pub fn headwords_form(image: &[u8], entry: usize, out: &mut [u8]) -> u64
    ensures reply { result ≡ form_number (length out.old) (form_reply image.now «entry») }
    ensures bytes { out.new ≡ after_form (viewed image.now «entry») out.old }
{
    match grammar::form_reply(image, entry) {
        Err(refusal) => refusal_number(refusal),
        Ok(n) => {
            if out.len() < n {
                return 4 * (n as u64) + 2;
            }
            out[..n].copy_from_slice(grammar::form_part(image, entry, n));
            4 * (n as u64) + 1
        }
    }
}

pub fn headwords_spell(image: &[u8], points: &[u8], letters: &mut [u8]) -> u64
    ensures reply { result ≡ spelling_number (spelling_reply image.now points.now (length letters.old)) }
    ensures bytes { letters.new ≡ after_spelling image.now points.now letters.old }
{
    match spelling::spell(image, points, letters) {
        Ok(n) => 4 * (n as u64) + 1,
        Err(refusal) => refusal_number(refusal),
    }
}

pub fn headwords_convert(image: &[u8], target: &mut [u8]) -> u64
    ensures reply { result ≡ conversion_number (conversion_reply image.now (length target.old)) }
    ensures bytes { target.new ≡ after_conversion image.now target.old }
{
    match converter::convert(image, target) {
        Ok(()) => 1,
        Err(refusal) => refusal_number(refusal),
    }
}

fn judgement_number(judgement: Result<bool, Refusal>) -> u64
    ensures { result ≡ judgement_number (judgement_of judgement) }
{
    match judgement {
        Ok(true) => 1,
        Ok(false) => 0,
        Err(refusal) => refusal_number(refusal),
    }
}

fn refusal_number(refusal: Refusal) -> u64
    ensures { result ≡ refused_number (number_of refusal) }
{
    4 * u64::from(refusal.number()) + 3
}
