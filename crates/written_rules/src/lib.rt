// The judge of written rules: whether a pairing obeys each rule of a text, or the refusal.

#![tactic(auto)]

mod boundaries;
mod rule;

ghost use Rattle.std.specs.Prelude.{true, ◌≡◌, List, ℕ, T};
ghost use Rattle.model.specs.GrammarOf.{grammar_of};
ghost use Rattle.model.specs.Readings.{pairing_length};
ghost use Rattle.image.specs.Header.{header_of};
ghost use Rattle.image.specs.Laid.{Laid};
ghost use Rattle.image.specs.Accepted.{Accepted};
ghost use Rattle.judge.specs.Answers.{judgement_of};
ghost use Rattle.judge.specs.Reading.{Listed};
ghost use Rattle.rule_texts.specs.Line.{read_rule};
ghost use Rattle.rule_texts.specs.Text.{is_rule, knows_pairs, obeys_line, is_text, pairs_known, obeys_text};
ghost use Rattle.written_rules.specs.Places.{LaidOut};
ghost use Rattle.written_rules.specs.Judged.{rules_judged, judged_rules};

use boundaries::Bounded;
use image::Header;
use refusal::Refusal;
use rule_texts::{line, text};

// The image check, and then the tests of the pairing and of the text.
pub fn judge_rules(image: &[u8], pairing: &[u8], text: &[u8]) -> Result<bool, Refusal>
    ensures { judgement_of result ≡ rules_judged image.now pairing.now text.now }
{
    grammar::check(image)?;
    let h = image::read_header(image);
    judge_accepted(image, h, pairing, text)
}

// Tests 13, 19 and 20 in order, and then the rules.
fn judge_accepted(image: &[u8], h: Header, pairing: &[u8], text: &[u8]) -> Result<bool, Refusal>
    requires { Accepted image.now (header_of h) }
    ensures { judgement_of result ≡ judged_rules image.now pairing.now text.now }
{
    if !judge::reading::pairing_right(h, pairing) {
        return Err(Refusal::Pairing);
    }
    if !text::is_text(text) {
        return Err(Refusal::RuleTexts);
    }
    if !text::pairs_known(text, h.pairs) {
        return Err(Refusal::UnknownPairs);
    }
    Ok(obeys_text(image, h, pairing, text))
}

// Whether the rule of a line is obeyed by a pairing.
fn obeys_line(image: &[u8], h: Header, line: &[u8], pairing: Bounded<'_>) -> bool
    requires laid { Laid image.now (header_of h) }
    requires line_value { (is_rule (read_rule line.now) ≡ true) × (knows_pairs h.pairs (read_rule line.now) ≡ true) }
    ensures { (ps : List ℕ) → LaidOut (grammar_of image.now).lexical ps pairing.entry.pairs.now pairing.entry.letters.now → result ≡ obeys_line (grammar_of image.now).lexical (read_rule line.now) ps }
{
    match line::divide(line) {
        Some(parts) => {
            let letter = letters::lexical_side(image, h, parts.own).0;
            rule::obeys_rule(parts, usize::from(letter), pairing)
        }
        None => false,
    }
}

// Whether the rule of each line is.
fn obeys_lines(image: &[u8], h: Header, text: &[u8], pairing: Bounded<'_>) -> bool
    requires laid { Laid image.now (header_of h) }
    requires text_value { (is_text text.now ≡ true) × (pairs_known h.pairs text.now ≡ true) }
    ensures { (ps : List ℕ) → LaidOut (grammar_of image.now).lexical ps pairing.entry.pairs.now pairing.entry.letters.now → result ≡ obeys_text (grammar_of image.now).lexical text.now ps }
{
    let mut rest = text;
    while let Some((line, after)) = text::first_line(rest) {
        if !obeys_line(image, h, line, pairing) {
            return false;
        }
        rest = after;
    }
    true
}

// Whether a pairing that passed test 13 obeys a text that passed 19 and 20.
fn obeys_text(image: &[u8], h: Header, pairing: &[u8], text: &[u8]) -> bool
    requires laid { Laid image.now (header_of h) × Listed image.now pairing.now }
    requires t { T (pairing_length pairing.now) }
    requires text_value { (is_text text.now ≡ true) × (pairs_known h.pairs text.now ≡ true) }
    ensures { result ≡ obeys_text (grammar_of image.now).lexical text.now pairing.now }
{
    let n = pairing.len();
    let pairs = boundaries::between(pairing);
    let letters = boundaries::lexical_letters(image, h, pairing);
    let bounded = Bounded {
        pairs: &pairs[..n + 2],
        letters: &letters[..n + 2],
    };
    obeys_lines(image, h, text, bounded)
}
