// Marked letters: a table of 256 bytes, 1 at each letter that is marked, so that a letter is asked for by one look.
ghost use Rattle.std.specs.Prelude.{◌≡◌, ◌+◌, ◌<◌, ◌≤◌, length, take, drop};
ghost use Rattle.model.specs.Lists.{below, every, within};
ghost use Rattle.image.specs.Header.{header_of};
ghost use Rattle.image.specs.Laid.{Laid};
ghost use Rattle.letters.specs.Marks.{marks_of, is_marked, is_form_letter};

use crate::lexical_at;
use image::Header;

// The letters that may stand in a form or a word: 2 to L.
pub fn letter_marks(letters: usize) -> [u8; 256]
    requires { (2 ≤ letters) × (letters ≤ 120) }
    ensures { result ≡ marks_of (within 2 letters) }
{
    let mut marks = [0u8; 256];
    // Letter by letter: what `fill` promises of any type does not say the table.
    for a in 2..=letters {
        marks[a] = 1;
    }
    marks
}

// The letters that some pair has on its lexical side. The null is none.
pub fn lexical_marks(image: &[u8], h: Header) -> [u8; 256]
    requires { Laid image.now (header_of h) }
    ensures { result ≡ marks_of (is_form_letter image.now) }
{
    let mut marks = [0u8; 256];
    for p in 0..h.pairs {
        let a = lexical_at(image, crate::side_start(h, p, crate::LEXICAL_BYTE));
        marks[usize::from(a.0)] = 1;
    }
    marks[0] = 0;
    marks
}

// Whether each letter from 2 to L is marked.
pub fn each_marked(marks: &[u8; 256], letters: usize) -> bool
    requires { letters < 256 }
    ensures { result ≡ every (is_marked marks.now) (drop 2 (below (letters + 1))) }
{
    for a in 2..=letters {
        if marks[a] != 1 {
            return false;
        }
    }
    true
}

// Whether each byte from `from` up to `end` is a marked letter.
pub fn are_marked(bytes: &[u8], from: usize, end: usize, marks: &[u8; 256]) -> bool
    requires { (from ≤ end) × (end ≤ length bytes.now) }
    ensures { result ≡ every (is_marked marks.now) (drop from (take end bytes.now)) }
{
    bytes[from..end]
        .iter()
        .all(|&letter| marks[usize::from(letter)] == 1)
}
