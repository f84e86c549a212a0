// Counts and bytes of a table that must be within a bound.
ghost use Rattle.std.specs.Prelude.{◌≡◌, leb};
ghost use Rattle.model.specs.Lists.{every};
ghost use Rattle.model.specs.RuleTables.{is_side};
ghost use Rattle.tables.specs.Bounds.{right_counts};

// A table's column count and state count.
pub fn right_counts(columns: usize, states: usize) -> bool
    ensures { result ≡ right_counts columns states }
{
    (1..=16).contains(&columns) && (1..=24).contains(&states)
}

// A letter, or 255 for any, or a number that names a set.
#[tactic(auto, unfolding(model::specs::RuleTables::is_side))]
fn is_side(b: usize, letters: usize, sets: usize) -> bool
    ensures { result ≡ is_side letters sets b }
{
    b <= letters || b == 255 || 128 <= b && b - 128 < sets
}

pub fn are_sides(bytes: &[u8], letters: usize, sets: usize) -> bool
    ensures { result ≡ every (is_side letters sets) bytes.now }
{
    bytes
        .iter()
        .all(|&b| is_side(usize::from(b), letters, sets))
}

pub fn are_at_most(bytes: &[u8], most: usize) -> bool
    ensures { result ≡ every (λ b. leb b most) bytes.now }
{
    bytes.iter().all(|&b| usize::from(b) <= most)
}
