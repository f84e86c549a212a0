// The calls of `headwords` for C: each hands its arguments on, under the same clauses. `include/headwords.h` declares them; a slice is there a pointer and a
// length.

#![tactic(auto)]

ghost use Rattle.std.specs.Prelude.{◌≡◌, length};
ghost use Rattle.model.specs.Query.{analysis, generation};
ghost use Rattle.model.specs.Refusals.{image_verdict};
ghost use Rattle.model.specs.Rows.{row_count, reply_number};
ghost use Rattle.model.specs.Calls.{sealing_reply, after_sealing, listing_reply, after_listing};
ghost use Rattle.model.specs.Beside.{judged, form_reply, viewed, spelling_reply, after_spelling};
ghost use Rattle.conversion.specs.Conversion.{conversion_reply, after_conversion};
ghost use Rattle.shares.specs.Words.{many_reply, after_replies, after_rows};
ghost use Rattle.written_rules.specs.Judged.{rules_judged};
ghost use Rattle.headwords.specs.Numbers.{verdict_number, sealing_number, judgement_number, form_number, after_form, spelling_number, conversion_number, many_number};

#[unsafe(no_mangle)]
pub extern "C" fn headwords_analyse(image: &[u8], word: &[u8], out: &mut [u8]) -> u64
    ensures reply { result ≡ reply_number (listing_reply image.now (analysis word.now) (row_count out.old)) }
    ensures bytes { out.new ≡ after_listing image.now (analysis word.now) out.old }
{
    headwords::headwords_analyse(image, word, out)
}

#[unsafe(no_mangle)]
pub extern "C" fn headwords_analyse_words(
    image: &[u8],
    words: &[u8],
    replies: &mut [u8],
    out: &mut [u8],
) -> u64
    ensures reply { result ≡ many_number (many_reply image.now words.now replies.old) }
    ensures replies { replies.new ≡ after_replies image.now words.now replies.old out.old }
    ensures rows { out.new ≡ after_rows image.now words.now replies.old out.old }
{
    headwords::headwords_analyse_words(image, words, replies, out)
}

#[unsafe(no_mangle)]
pub extern "C" fn headwords_generate(image: &[u8], path: &[u8], out: &mut [u8]) -> u64
    ensures reply { result ≡ reply_number (listing_reply image.now (generation path.now) (row_count out.old)) }
    ensures bytes { out.new ≡ after_listing image.now (generation path.now) out.old }
{
    headwords::headwords_generate(image, path, out)
}

#[unsafe(no_mangle)]
pub extern "C" fn headwords_check(image: &[u8]) -> u64
    ensures { result ≡ verdict_number (image_verdict image.now) }
{
    headwords::headwords_check(image)
}

#[unsafe(no_mangle)]
pub extern "C" fn headwords_seal(image: &mut [u8]) -> u64
    ensures reply { result ≡ sealing_number (sealing_reply image.old) }
    ensures bytes { image.new ≡ after_sealing image.old }
{
    headwords::headwords_seal(image)
}

#[unsafe(no_mangle)]
pub extern "C" fn headwords_judge(image: &[u8], path: &[u8], pairing: &[u8]) -> u64
    ensures { result ≡ judgement_number (judged image.now path.now pairing.now) }
{
    headwords::headwords_judge(image, path, pairing)
}

#[unsafe(no_mangle)]
pub extern "C" fn headwords_judge_rules(image: &[u8], pairing: &[u8], text: &[u8]) -> u64
    ensures { result ≡ judgement_number (rules_judged image.now pairing.now text.now) }
{
    headwords::headwords_judge_rules(image, pairing, text)
}

#[unsafe(no_mangle)]
pub extern "C" fn headwords_form(image: &[u8], entry: usize, out: &mut [u8]) -> u64
    ensures reply { result ≡ form_number (length out.old) (form_reply image.now «entry») }
    ensures bytes { out.new ≡ after_form (viewed image.now «entry») out.old }
{
    headwords::headwords_form(image, entry, out)
}

#[unsafe(no_mangle)]
pub extern "C" fn headwords_spell(image: &[u8], points: &[u8], letters: &mut [u8]) -> u64
    ensures reply { result ≡ spelling_number (spelling_reply image.now points.now (length letters.old)) }
    ensures bytes { letters.new ≡ after_spelling image.now points.now letters.old }
{
    headwords::headwords_spell(image, points, letters)
}

#[unsafe(no_mangle)]
pub extern "C" fn headwords_convert(image: &[u8], target: &mut [u8]) -> u64
    ensures reply { result ≡ conversion_number (conversion_reply image.now (length target.old)) }
    ensures bytes { target.new ≡ after_conversion image.now target.old }
{
    headwords::headwords_convert(image, target)
}
