// A text of rules, line by line: whether it is of the grammar, and whether its pairs are known.
ghost use Rattle.std.specs.Prelude.{true, ◌≡◌, [], MatchOption};
ghost use Rattle.rule_texts.specs.Text.{is_text, pairs_known};
ghost use Rattle.rule_texts.specs.Parts.{IsFirstLine};

use super::line;

const MOST_RULES: u32 = 32;

// The first line of a text without its end, and the text after it, where there is a line.
pub fn first_line(text: &[u8]) -> Option<(&[u8], &[u8])>
    ensures { MatchOption result (text.now ≡ []) (λ parts. IsFirstLine text.now parts.0.now parts.1.now) }
{
    if text.is_empty() {
        return None;
    }
    match super::split_once(text, b'\n') {
        Some((line, rest)) => Some((line, rest)),
        None => Some((text, &[])),
    }
}

// Test 19: no more lines than there may be rules, each a rule's. What stands after so many lines is not looked at.
pub fn is_text(text: &[u8]) -> bool
    ensures { result ≡ is_text text.now }
{
    let mut rest = text;
    for _lines in 0..MOST_RULES {
        let Some((line, after)) = first_line(rest) else {
            return true;
        };
        if !line::is_rule(line) {
            return false;
        }
        rest = after;
    }
    rest.is_empty()
}

// Test 20, of a text that passed 19.
pub fn pairs_known(text: &[u8], pairs: usize) -> bool
    requires { is_text text.now ≡ true }
    ensures { result ≡ pairs_known pairs text.now }
{
    let mut rest = text;
    while let Some((line, after)) = first_line(rest) {
        if !line::knows_pairs(line, pairs) {
            return false;
        }
        rest = after;
    }
    true
}
