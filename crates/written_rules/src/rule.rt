// A written rule judged over a pairing between its boundaries.
ghost use Rattle.std.specs.Prelude.{true, ◌≡◌};
ghost use Rattle.contexts.specs.Reader.{read_context, is_right};
ghost use Rattle.contexts.specs.Operators.{kept_by};
ghost use Rattle.rule_texts.specs.Parts.{operator_of, divided_rule};
ghost use Rattle.written_rules.specs.Places.{kept_throughout};

use super::boundaries::Bounded;
use matching::context;
use relations::places;
use rule_texts::line::{Operator, Parts};

// What the operator asks, of its own pair, of a pair with its lexical letter, and of a place where both contexts hold.
fn asked(operator: Operator, own: bool, letter: bool, there: bool) -> bool
    ensures { result ≡ kept_by (operator_of operator) own letter there }
{
    match operator {
        Operator::OnlyThere => !own || there,
        Operator::AlwaysThere => !there || !letter || own,
        Operator::Both => (!own || there) && (!there || !letter || own),
        Operator::NeverThere => !there || !own,
    }
}

// Whether the rule's operator is kept at every place between the boundaries, `letter` being the lexical letter of its own pair.
// Each context is matched once, for all places.
pub fn obeys_rule(rule: Parts<'_>, letter: usize, pairing: Bounded<'_>) -> bool
    requires { (is_right (read_context rule.left.now) ≡ true) × (is_right (read_context rule.right.now) ≡ true) }
    ensures { result ≡ kept_throughout (divided_rule rule.entry) letter pairing.entry.pairs.now pairing.entry.letters.now }
{
    let ending = context::left_places(rule.left, pairing.pairs);
    let beginning = context::right_places(rule.right, pairing.pairs);
    for i in 1..pairing.pairs.len() - 1 {
        let own = usize::from(pairing.pairs[i]) == rule.own;
        let same = usize::from(pairing.letters[i]) == letter;
        let there = places::has(ending, i) && places::has(beginning, i);
        if !asked(rule.operator, own, same, there) {
            return false;
        }
    }
    true
}
