// Spelling: code points become letters of the alphabet, a capital that is none as its lower case.

#![tactic(auto)]

ghost use Rattle.std.specs.Prelude.{◌≡◌, length, leb};
ghost use Rattle.model.specs.Lists.{every, where_room, numbers};
ghost use Rattle.model.specs.Refusals.{accepted, image_verdict};
ghost use Rattle.model.specs.Spelling.{letter_of, letter_spelled, word_spelled};
ghost use Rattle.model.specs.Beside.{spelling_reply, after_spelling};
ghost use Rattle.image.specs.Header.{header_of};
ghost use Rattle.image.specs.Laid.{Laid};
ghost use Rattle.spelling.specs.Answers.{spelling_of, if_letter, handed_over};

use image::Header;
use refusal::Refusal;

// The image check, and then the tests of the code points and of the room for them.
pub fn spell(image: &[u8], points: &[u8], out: &mut [u8]) -> Result<usize, Refusal>
    ensures reply { spelling_of result ≡ spelling_reply image.now points.now (length out.old) }
    ensures bytes { out.new ≡ after_spelling image.now points.now out.old }
{
    grammar::check(image)?;
    spell_accepted(image, points, out)
}

// Tests 9, 23 and 24 in order. The letters are found once, into a word of our own: where a test fails, nothing has been written.
fn spell_accepted(image: &[u8], points: &[u8], out: &mut [u8]) -> Result<usize, Refusal>
    requires { image_verdict image.now ≡ accepted }
    ensures reply { spelling_of result ≡ spelling_reply image.now points.now (length out.old) }
    ensures bytes { out.new ≡ after_spelling image.now points.now out.old }
{
    if !image::right_count(points.len(), 32) {
        return Err(Refusal::WordLength);
    }
    let n = points.len() / 2;
    let h = image::read_header(image);
    let mut word = [0u8; 32];
    if !spell_points(image, h, points, &mut word[0..n]) {
        return Err(Refusal::CodePoints);
    }
    hand_over(&word[0..n], out)
}

// The letter of each code point, 0 where it has none, and whether each is a letter that may stand in a word.
fn spell_points(image: &[u8], h: Header, points: &[u8], word: &mut [u8]) -> bool
    requires laid { Laid image.now (header_of h) }
    requires word_len { length word.old ≡ length (numbers points.now) }
    ensures right { result ≡ every (leb 2) (word_spelled image.now points.now) }
    ensures letters { word.new ≡ word_spelled image.now points.now }
{
    let mut right = true;
    for i in 0..word.len() {
        let letter = letter_spelled(image, h, image::number_at(points, 2 * i)).unwrap_or(0);
        if letter < 2 {
            right = false;
        }
        word[i] = letter;
    }
    right
}

// The letter of the code point as it is; only where it has none, that of what it is folded to.
fn letter_spelled(image: &[u8], h: Header, c: usize) -> Option<u8>
    requires { Laid image.now (header_of h) }
    ensures { result ≡ if_letter (letter_spelled image.now c) }
{
    letter_of(image, h, c).or_else(|| letter_of(image, h, folding::fold(c)))
}

// The letter that has a code point, where one has.
fn letter_of(image: &[u8], h: Header, c: usize) -> Option<u8>
    requires { Laid image.now (header_of h) }
    ensures { result ≡ if_letter (letter_of image.now c) }
{
    for i in 0..h.letters {
        if letters::code_point(image, i) == c {
            return Some((i + 1) as u8);
        }
    }
    None
}

// Test 24, and the word to the front of the output. Where that has no room for all of it, none of it is written.
fn hand_over(word: &[u8], out: &mut [u8]) -> Result<usize, Refusal>
    ensures reply { spelling_of result ≡ handed_over (length word.now) (length out.old) }
    ensures bytes { out.new ≡ where_room word.now out.old }
{
    let n = word.len();
    if out.len() < n {
        return Err(Refusal::NoRoom);
    }
    out[..n].copy_from_slice(word);
    Ok(n)
}
