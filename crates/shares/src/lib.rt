// Every word of an accepted and indexed image, each with a place for its reply and a share of the rows.

#![tactic(auto)]

mod word;

ghost use Rattle.std.specs.Prelude.{◌≡◌, ◌*◌, ◌/◌, ◌≤◌, length};
ghost use Rattle.model.specs.Blocks.{header};
ghost use Rattle.model.specs.Refusals.{accepted, image_verdict};
ghost use Rattle.image.specs.Header.{header_of};
ghost use Rattle.prepare.specs.Indexed.{Indexed};
ghost use Rattle.shares.specs.Words.{word_count, place_at, share_at, laid_over, words_asked, after_replies, after_rows};

use image::Header;

pub fn word_count(words: usize, replies: usize) -> usize
    ensures { result ≡ word_count words replies }
{
    (words / 33).min(replies / 8)
}

// Word after word, each with `share` rows.
fn answer_each(
    image: &[u8],
    index: &[u8],
    h: Header,
    words: &[u8],
    n: usize,
    share: usize,
    replies: &mut [u8],
    out: &mut [u8],
)
    requires image_value { image_verdict image.now ≡ accepted }
    requires h_value { header_of h ≡ header image.now }
    requires indexed { Indexed image.now index.now }
    requires n_in_bounds { (33 * n ≤ length words.now) × (8 * n ≤ length replies.old) }
    requires share_in_bounds { (116 * share ≤ length out.old) × (116 * share * n ≤ length out.old) }
    ensures replies { replies.new ≡ laid_over 8 n (place_at image.now words.now share) replies.old }
    ensures rows { out.new ≡ laid_over (116 * share) n (share_at image.now words.now share out.old) out.old }
{
    let width = 116 * share;
    for i in 0..n {
        let from = width * i;
        word::answer_word(
            image,
            index,
            h,
            &words[33 * i..33 * i + 33],
            &mut replies[8 * i..8 * i + 8],
            &mut out[from..from + width],
        );
    }
}

// All words of an accepted image; how many they are.
pub fn answer_all(
    image: &[u8],
    index: &[u8],
    h: Header,
    words: &[u8],
    replies: &mut [u8],
    out: &mut [u8],
) -> usize
    requires image_value { image_verdict image.now ≡ accepted }
    requires h_value { header_of h ≡ header image.now }
    requires indexed { Indexed image.now index.now }
    ensures count { result ≡ words_asked image.now words.now replies.old }
    ensures replies { replies.new ≡ after_replies image.now words.now replies.old out.old }
    ensures rows { out.new ≡ after_rows image.now words.now replies.old out.old }
{
    let n = word_count(words.len(), replies.len());
    if n > 0 {
        let share = out.len() / 116 / n;
        answer_each(image, index, h, words, n, share, replies, out);
    }
    n
}
