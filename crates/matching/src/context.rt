// A rule's context: whether its text is of the grammar, and the places where it holds on the left or on the right.
ghost use Rattle.std.specs.Prelude.{true, ◌≡◌, ℕ, ◌≤◌, ◌<◌, length, leb};
ghost use Rattle.contexts.specs.Reader.{read_context, is_right};
ghost use Rattle.contexts.specs.Operators.{left, right};
ghost use Rattle.relations.specs.Sets.{holds};

use relations::{places, tables};

// Whether a text is a context's: none, or one of at most 64 bytes with brackets to depth 8.
pub fn is_context(text: &[u8]) -> bool
    ensures { result ≡ is_right (read_context text.now) }
{
    if text.is_empty() {
        return true;
    }
    if text.len() > 64 {
        return false;
    }
    match super::match_whole(text, 0, 8, &[]) {
        Some(step) => step.at == text.len(),
        None => false,
    }
}

// The places 0 to n.
fn all_places(n: usize) -> u64
    requires { n < 63 }
    ensures { (j : ℕ) → holds result j ≡ leb j n }
{
    let mut out = 0;
    for j in 0..=n {
        out = places::with(out, j);
    }
    out
}

// The places before which a run ends. Of the right texts the empty one alone has no run, and holds everywhere: it is told without being matched.
pub fn left_places(text: &[u8], s: &[u8]) -> u64
    requires text_value { is_right (read_context text.now) ≡ true }
    requires s_len_bound { length s.now < 63 }
    ensures { (i : ℕ) → i ≤ length s.now → holds result i ≡ left (read_context text.now) s.now i }
{
    let every = all_places(s.len());
    if text.is_empty() {
        return every;
    }
    match super::match_whole(text, 0, 8, s) {
        Some(step) => tables::reached(every, &step.rows, s.len()),
        None => every,
    }
}

// The places after which a run begins.
pub fn right_places(text: &[u8], s: &[u8]) -> u64
    requires text_value { is_right (read_context text.now) ≡ true }
    requires s_len_bound { length s.now < 63 }
    ensures { (i : ℕ) → i < length s.now → holds result i ≡ right (read_context text.now) s.now i }
{
    if text.is_empty() {
        return all_places(s.len());
    }
    match super::match_whole(text, 0, 8, s) {
        Some(step) => tables::beginning(&step.rows, s.len()),
        None => all_places(s.len()),
    }
}
