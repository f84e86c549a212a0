// The text of written rules: a line divided into its parts, and whether a text is of the grammar (19) and its pairs are known (20).

#![tactic(auto)]

pub mod line;
pub mod text;

ghost use Rattle.std.specs.Prelude.{false, ◌≡◌, ◌==◌, MatchOption, position};
ghost use Rattle.rule_texts.specs.Line.{has};
ghost use Rattle.rule_texts.specs.Parts.{IsCut};

// Where the first byte `b` stands, if any does.
fn first(text: &[u8], b: u8) -> Option<usize>
    ensures { result ≡ position (λ x. x == b) text.now }
{
    text.iter().position(|x| *x == b)
}

// What stands before the first byte `b` and what after it, where there is one.
fn split_once(text: &[u8], b: u8) -> Option<(&[u8], &[u8])>
    ensures { MatchOption result (has b text.now ≡ false) (λ parts. IsCut b text.now parts.0.now parts.1.now) }
{
    let at = first(text, b)?;
    Some((&text[..at], &text[at + 1..]))
}
