// A path as two bytes to an entry number: tests 11 and 12, and the letters of its joined forms.
ghost use Rattle.std.specs.Prelude.{◌&&◌, ◌≡◌, ◌<◌, ◌≤◌, ◌%◌, length, get_or, leb, ltb, eqb, MatchOption};
ghost use Rattle.model.specs.Lexicon.{entry, form_length, form_of, path_length};
ghost use Rattle.model.specs.GrammarOf.{grammar_of};
ghost use Rattle.model.specs.Readings.{is_linked};
ghost use Rattle.model.specs.Query.{entry_numbers};
ghost use Rattle.image.specs.Header.{header_of};
ghost use Rattle.image.specs.Laid.{Laid};
ghost use Rattle.image.specs.Accepted.{Accepted};
ghost use Rattle.rules.specs.Paths.{Entered, LetterOf, forms_of, in_some};

use image::Header;
use letters::Lexical;

// Test 11: 1 to 16 entries, two bytes to each.
pub fn path_length_right(path: &[u8]) -> bool
    ensures { result ≡ (eqb (length path.now % 2) 0 && path_length (entry_numbers path.now)) }
{
    image::right_count(path.len(), 16)
}

// Whether the lowest lexicon of a set, whose entries are from first up to next, has entry e.
fn is_here(rest: u64, first: usize, next: usize, e: usize) -> bool
    ensures { result ≡ (eqb (rest % 2) 1 && (leb first e && ltb e next)) }
{
    rest % 2 == 1 && first <= e && e < next
}

// Whether entry e may open in one of the lexicons that a set names.
fn may_open(image: &[u8], h: Header, bits: u64, e: usize) -> bool
    requires { Laid image.now (header_of h) }
    ensures { result ≡ (in_some image.now h.lexicons bits e && ltb e h.entries) }
{
    let mut first: usize = 0;
    let mut rest = bits;
    for x in 0..h.lexicons {
        let next = first + lexicon::entry_count(image, h, x);
        if is_here(rest, first, next, e) {
            return e < h.entries;
        }
        first = next;
        rest /= 2;
    }
    false
}

// Test 12: each entry opens in a lexicon where the one before leads, the first in lexicon 0, and the path may stop at the last.
pub fn path_linked(image: &[u8], h: Header, path: &[u8]) -> bool
    requires { Accepted image.now (header_of h) }
    ensures { result ≡ is_linked (grammar_of image.now) (entry_numbers path.now) }
{
    let mut bits: u64 = 1;
    let mut stop = false;
    for i in 0..path.len() / 2 {
        let e = image::number_at(path, 2 * i);
        if !may_open(image, h, bits, e) {
            return false;
        }
        let ways = lexicon::ways::ways_of(image, h, e);
        bits = ways.bits;
        stop = ways.stop;
    }
    stop
}

// Letter t of the form of entry e.
fn form_letter(image: &[u8], h: Header, e: usize, t: usize) -> Lexical
    requires accepted { Accepted image.now (header_of h) }
    requires e_lt_entries { (e < h.entries) × (t < form_length (entry image.now e)) }
    ensures { result.0 ≡ get_or (form_of (entry image.now e)) t 0 }
{
    letters::lexical_at(image, lexicon::entry_start(h, e) + (1 + t))
}

// Letter t of the joined forms of a path; none after the last.
pub fn letter_at(image: &[u8], h: Header, path: &[u8], t: usize) -> Option<Lexical>
    requires accepted { Accepted image.now (header_of h) }
    requires entered { Entered image.now path.now }
    ensures { MatchOption result (length (forms_of image.now path.now) ≤ t) (LetterOf (forms_of image.now path.now) t) }
{
    let mut left = t;
    for i in 0..path.len() / 2 {
        let e = image::number_at(path, 2 * i);
        let n = lexicon::form_length(image, h, e);
        if left < n {
            return Some(form_letter(image, h, e, left));
        }
        left -= n;
    }
    None
}
