// All rules of an accepted image side by side: each holds one state, and the pairs are fed to all of them, the boundary pair first and last.
ghost use Rattle.std.specs.Prelude.{◌≡◌, ◌<◌, ◌≤◌};
ghost use Rattle.model.specs.Blocks.{header};
ghost use Rattle.model.specs.RuleTables.{table, state_count};
ghost use Rattle.model.specs.GrammarOf.{grammar_of};
ghost use Rattle.image.specs.Header.{header_of};
ghost use Rattle.image.specs.Accepted.{Accepted};
ghost use Rattle.image.specs.Index.{index_of};
ghost use Rattle.rules.specs.Live.{Live, StepOf, BegunOf, finish_of, ends_final};

use image::kinds::Kind;
use image::{Header, kinds};

// The state that rule r goes to from state s by pair p. The index has the column.
fn next_state(image: &[u8], index: &[u8], h: Header, r: usize, s: u8, p: usize) -> u8
    requires accepted { Accepted image.now (header_of h) }
    requires index_value { index.now ≡ index_of image.now }
    requires r_bound { (r < (header image.now).rules) × (p ≤ (header image.now).pairs) }
    requires le_s { (1 ≤ s) × (s ≤ state_count (table image.now r)) }
    ensures { (result ≡ (grammar_of image.now).next r s p) × (result ≤ state_count (table image.now r)) }
{
    let column = image::byte_at(index, 256 * r + p);
    let at = kinds::record_start(h, Kind::Tables, r);
    let columns = image::byte_at(image, at);
    let states = image::byte_at(image, at + 1);
    let rows = at + (2 + 2 * columns + states);
    let place = rows + (columns * (s as usize - 1) + column);
    image[place]
}

// The states that all rules come to by pair p; none where one comes to state 0. Rule after rule takes it, up to the first that does.
pub fn step_all(
    image: &[u8],
    index: &[u8],
    h: Header,
    states: [u8; 32],
    p: usize,
) -> Option<[u8; 32]>
    requires accepted { Accepted image.now (header_of h) }
    requires index_value { index.now ≡ index_of image.now }
    requires p_le_pairs { p ≤ h.pairs }
    requires live { Live image.now states }
    ensures { StepOf image.now states p result }
{
    let mut after = states;
    for r in 0..h.rules {
        let s = next_state(image, index, h, r, after[r], p);
        if s == 0 {
            return None;
        }
        after[r] = s;
    }
    Some(after)
}

// Whether rule r, in state s, comes by pair p to a final state.
fn ends_final(image: &[u8], index: &[u8], h: Header, r: usize, s: u8, p: usize) -> bool
    requires accepted { Accepted image.now (header_of h) }
    requires index_value { index.now ≡ index_of image.now }
    requires r_bound { (r < (header image.now).rules) × (p ≤ (header image.now).pairs) }
    requires le_s { (1 ≤ s) × (s ≤ state_count (table image.now r)) }
    ensures { result ≡ ends_final (grammar_of image.now) r s p }
{
    let last = next_state(image, index, h, r, s, p);
    if last == 0 {
        return false;
    }
    let at = kinds::record_start(h, Kind::Tables, r);
    let columns = image::byte_at(image, at);
    let marks = at + (2 + 2 * columns);
    image::byte_at(image, marks + (last as usize - 1)) == 1
}

// The boundary pair, and then every state final.
pub fn finish_all(image: &[u8], index: &[u8], h: Header, states: [u8; 32]) -> bool
    requires accepted { Accepted image.now (header_of h) }
    requires index_value { index.now ≡ index_of image.now }
    requires live { Live image.now states }
    ensures { result ≡ finish_of (grammar_of image.now) states }
{
    let boundary = h.pairs;
    for rule in 0..h.rules {
        if !ends_final(image, index, h, rule, states[rule], boundary) {
            return false;
        }
    }
    true
}

// The boundary pair before the first pair, from state 1; there is room for 32 rules.
pub fn begin_all(image: &[u8], index: &[u8], h: Header) -> Option<[u8; 32]>
    requires accepted { Accepted image.now (header_of h) }
    requires index_value { index.now ≡ index_of image.now }
    ensures { BegunOf image.now result }
{
    let start = [1u8; 32];
    step_all(image, index, h, start, h.pairs)
}
