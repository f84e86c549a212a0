// Rule tables: the tests 6 and 7 of the image check, and the column that each pair takes.

#![tactic(auto)]

mod range;

ghost use Rattle.std.specs.Prelude.{◌≡◌, ◌++◌, ◌*◌, ◌+◌, ◌<◌, ◌≤◌, T, ltb, true, length, drop, replicate};
ghost use Rattle.model.specs.Lists.{every, below, flat_map};
ghost use Rattle.model.specs.RuleTables.{table, is_table, column_count, columns_of};
ghost use Rattle.model.specs.Refusals.{right_tables, right_columns};
ghost use Rattle.image.specs.Header.{header_of};
ghost use Rattle.image.specs.Laid.{Laid};
ghost use Rattle.image.specs.Index.{column_row};

use image::kinds;
use image::kinds::Kind;

// What test 6 asks of one table.
fn is_table(t: &[u8], letters: usize, sets: usize) -> bool
    requires { length t.now ≡ 506 }
    ensures { result ≡ is_table t.now letters sets }
{
    let columns = image::byte_at(t, 0);
    let states = image::byte_at(t, 1);
    if !range::right_counts(columns, states) {
        return false;
    }
    let marks = 2 + 2 * columns;
    let rows = marks + states;
    let end = rows + columns * states;
    range::are_sides(&t[2..marks], letters, sets)
        && range::are_at_most(&t[marks..rows], 1)
        && range::are_at_most(&t[rows..end], states)
        && image::is_blank(t, end, kinds::TABLE_WIDTH)
}

// The table of rule r.
pub fn table_at(image: &[u8], h: image::Header, r: usize) -> &[u8]
    requires laid { Laid image.now (header_of h) }
    requires r_bound { r < (header_of h).rules }
    ensures { (result.now ≡ table image.now r) × (length result.now ≡ 506) }
{
    let from = kinds::record_start(h, Kind::Tables, r);
    &image[from..from + kinds::TABLE_WIDTH]
}

fn each_table(image: &[u8], h: image::Header) -> bool
    requires { Laid image.now (header_of h) }
    ensures { result ≡ every (λ i. is_table (table image.now i) h.letters h.sets) (below h.rules) }
{
    for r in 0..h.rules {
        if !is_table(table_at(image, h, r), h.letters, h.sets) {
            return false;
        }
    }
    true
}

// Test 6 of the image check: the sets, and then the tables.
pub fn right_tables(image: &[u8], h: image::Header) -> bool
    requires { Laid image.now (header_of h) }
    ensures { result ≡ right_tables image.now }
{
    sets::right_sets(image, h) && each_table(image, h)
}

// The columns that rule r takes for pair 0, 1, .. P-1 and the boundary pair, written to the front of `out`; whether every one of them
// is a column. Test 7 is made of this, with and without the columns kept.
pub fn choose_columns(image: &[u8], h: image::Header, r: usize, out: &mut [u8]) -> bool
    requires laid { Laid image.now (header_of h) }
    requires r_bound { r < (header_of h).rules }
    requires t { T (right_tables image.now) }
    requires h_in_bounds { (header_of h).pairs + 1 ≤ length out.old }
    ensures out_after { out.new ≡ columns_of image.now r ++ drop ((header_of h).pairs + 1) out.old }
    ensures value { result ≡ every (λ c. ltb c (column_count (table image.now r))) (columns_of image.now r) }
{
    let t = table_at(image, h, r);
    let columns = t[0];
    let best = columns::find_columns(image, h, t, columns);
    columns::put_columns(&best, h.pairs + 1, columns, out)
}

// Test 7 of the image check, for callers that need no columns.
pub fn right_columns(image: &[u8], h: image::Header) -> bool
    requires laid { Laid image.now (header_of h) }
    requires t { T (right_tables image.now) }
    ensures { result ≡ right_columns image.now }
{
    let mut chosen = [0u8; 256];
    for r in 0..h.rules {
        if !choose_columns(image, h, r, &mut chosen) {
            return false;
        }
    }
    true
}

// The same test, which keeps the columns: row r of `out`, 256 bytes, has those of rule r. `out` is all 0 before; after a failure it may have anything.
pub fn keep_columns(image: &[u8], h: image::Header, out: &mut [u8]) -> bool
    requires laid { Laid image.now (header_of h) }
    requires t { T (right_tables image.now) }
    requires out_value { out.old ≡ replicate 8192 0 }
    ensures value { result ≡ right_columns image.now }
    ensures out_after { result ≡ true → out.new ≡ flat_map (column_row image.now) (below 32) }
{
    for r in 0..h.rules {
        let from = 256 * r;
        if !choose_columns(image, h, r, &mut out[from..from + 256]) {
            return false;
        }
    }
    true
}
