// A rule's line: operator, space, own pair, space, left context, underscore, right context.
ghost use Rattle.std.specs.Prelude.{true, ◌≡◌, IfSome};
ghost use Rattle.model.specs.Lists.{every};
ghost use Rattle.rule_texts.specs.Line.{read_sign, read_rule};
ghost use Rattle.rule_texts.specs.Text.{is_rule, is_known, knows_pairs};
ghost use Rattle.rule_texts.specs.Scan.{numbers_in};
ghost use Rattle.rule_texts.specs.Parts.{sign_of, line_of, PartsOf};

use matching::context;

#[derive(Clone, Copy)]
pub enum Operator {
    OnlyThere,
    AlwaysThere,
    Both,
    NeverThere,
}

// The operator that bytes are.
#[tactic(auto, using(crate::proofs::Signs::too_few, crate::proofs::Signs::too_many, crate::proofs::Signs::not_of_two, crate::proofs::Signs::not_of_three))]
fn read_sign(bytes: &[u8]) -> Option<Operator>
    ensures { sign_of result ≡ read_sign bytes.now }
{
    match bytes {
        [b'=', b'>'] => Some(Operator::OnlyThere),
        [b'<', b'='] => Some(Operator::AlwaysThere),
        [b'<', b'=', b'>'] => Some(Operator::Both),
        [b'/', b'<', b'='] => Some(Operator::NeverThere),
        _ => None,
    }
}

// A line divided: its operator, its own pair, and the texts of its two contexts.
#[derive(Clone, Copy)]
pub struct Parts<'a> {
    pub operator: Operator,
    pub own: usize,
    pub left: &'a [u8],
    pub right: &'a [u8],
}

// The parts of a rule's line, if it is one.
pub fn divide(line: &[u8]) -> Option<Parts<'_>>
    ensures rule { line_of result ≡ read_rule line.now }
    ensures parts { IfSome result (PartsOf line.now) }
{
    let (sign, rest) = super::split_once(line, b' ')?;
    let operator = read_sign(sign)?;
    let own = matching::pair_number(rest, 0)?;
    if !matching::starts(rest, 3, b' ') {
        return None;
    }
    let (left, right) = super::split_once(&rest[4..], b'_')?;
    Some(Parts {
        operator,
        own,
        left,
        right,
    })
}

// Whether a line is a rule's, with contexts of the grammar.
pub fn is_rule(line: &[u8]) -> bool
    ensures { result ≡ is_rule (read_rule line.now) }
{
    match divide(line) {
        Some(parts) => context::is_context(parts.left) && context::is_context(parts.right),
        None => false,
    }
}

fn is_known(p: usize, pairs: usize) -> bool
    ensures { result ≡ is_known pairs p }
{
    p < pairs || p == 255
}

// Whether each pair number in a text is below `pairs` or 255.
fn numbers_known(text: &[u8], pairs: usize) -> bool
    ensures { result ≡ every (is_known pairs) (numbers_in text.now) }
{
    let mut rest = text;
    while let [x, y, z, ..] = rest {
        if x.is_ascii_digit() {
            if !is_known(matching::number_of(*x, *y, *z), pairs) {
                return false;
            }
            rest = &rest[3..];
        } else {
            rest = &rest[1..];
        }
    }
    true
}

// Whether the pairs of a rule's line are known: its own below `pairs`, those of its contexts below `pairs` or 255.
pub fn knows_pairs(line: &[u8], pairs: usize) -> bool
    requires { is_rule (read_rule line.now) ≡ true }
    ensures { result ≡ knows_pairs pairs (read_rule line.now) }
{
    match divide(line) {
        Some(parts) => {
            parts.own < pairs
                && numbers_known(parts.left, pairs)
                && numbers_known(parts.right, pairs)
        }
        None => false,
    }
}
