// A line of letter numbers as a word: its fields, split by single spaces, and the number that each is.

#![tactic(auto)]

ghost use Rattle.std.specs.Prelude.{◌≡◌, List, ◌++◌, ◌∷◌, [], ℕ, ◌≤◌, length};
ghost use Rattle.model.specs.Lines.{line_of};
ghost use Rattle.parse.specs.Fields.{Begun, number_of, line_after, word_after, line_with, letter_count};

// A byte more of a line. Of a line over 255 bytes the first 256 are kept.
pub fn add_byte(line: &mut [u8; 256], n: usize, b: u8) -> usize
    requires { n ≤ 256 }
    ensures grows { (l : List ℕ) → Begun line.old n l → Begun line.new result (l ++ (b ∷ [])) }
    ensures few { result ≤ 256 }
    ensures bytes { line.new ≡ line_after line.old n b }
{
    if n < 256 {
        line[n] = b;
        return n + 1;
    }
    n
}

// The number that a field is, where it is one: 1 to 3 digits, and at most 255.
fn field_value(field: &[u8]) -> Option<u8>
    ensures { result ≡ number_of field.now }
{
    if field.is_empty() || field.len() > 3 {
        return None;
    }
    let mut value: u16 = 0;
    for b in field {
        if !b.is_ascii_digit() {
            return None;
        }
        value = 10 * value + u16::from(*b - b'0');
    }
    u8::try_from(value).ok()
}

// How many letters the word has that a line of at most 255 bytes holds, where it holds one. They are put into the lent buffer.
pub fn read_line(line: &[u8], word: &mut [u8; 128]) -> Option<usize>
    requires { length line.now ≤ 255 }
    ensures word { line_with word.new result ≡ line_of line.now }
    ensures few { letter_count result ≤ 128 }
    ensures bytes { word.new ≡ word_after line.now word.old }
{
    let mut letters = 0;
    if line.is_empty() {
        return Some(letters);
    }
    for field in line.split(|b| *b == b' ') {
        word[letters] = field_value(field)?;
        letters += 1;
    }
    Some(letters)
}
