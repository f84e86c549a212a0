// The weighted sum of a block. Bytes 0 to 503 are taken as 63 rows of 8, nine rows to a strip: byte c of row q of strip p counts c + 1 times, 8 q times
// more, and 72 p times more. Running sums, from the last row up, give a column's sums with no product, and fit in 16 bits: the machine adds eight
// columns at once.

#![tactic(auto)]

ghost use Rattle.std.specs.Prelude.{◌≡◌, ◌+◌, ◌<◌, ◌≤◌, length, take, get_or};
ghost use Rattle.model.specs.Blocks.{weighted_sum};
ghost use Rattle.sum.specs.Sums.{strip_sum, strip_by_row, column_sum, column_by_row, column_by_strip, of_columns, Filled};

// Of a column's bytes in one strip: their sum, and that of each times the number of its row.
#[derive(Drop)]
struct StripSums {
    sum: u16,
    rows: u16,
}

fn strip(block: &[u8], from: usize) -> StripSums
    requires { from + 64 < length block.now }
    ensures { (result.sum ≡ strip_sum block.now from) × (result.rows ≡ strip_by_row block.now from) }
{
    let mut sum: u16 = 0;
    let mut rows: u16 = 0;
    for q in (0..9).rev() {
        rows += sum;
        sum += u16::from(block[8 * q + from]);
    }
    StripSums { sum, rows }
}

// Of a column's bytes: their sum, that of each times the number of its row in its strip, and that of each times the number of its strip.
#[derive(Drop)]
struct ColumnSums {
    sum: u16,
    rows: u16,
    strips: u16,
}

fn column(block: &[u8], c: usize) -> ColumnSums
    requires { (504 ≤ length block.now) × (c < 8) }
    ensures { (result.sum ≡ column_sum block.now c) × ((result.rows ≡ column_by_row block.now c) × (result.strips ≡ column_by_strip block.now c)) }
{
    let mut sum: u16 = 0;
    let mut rows: u16 = 0;
    let mut strips: u16 = 0;
    for p in (0..7).rev() {
        let s = strip(block, 72 * p + c);
        strips += sum;
        sum += s.sum;
        rows += s.rows;
    }
    ColumnSums { sum, rows, strips }
}

// Of all columns. Three arrays, one for each sum: so the machine takes eight columns at once.
#[derive(Drop)]
struct BlockSums {
    sums: [u16; 8],
    rows: [u16; 8],
    strips: [u16; 8],
}

fn columns(block: &[u8]) -> BlockSums
    requires { 504 ≤ length block.now }
    ensures { Filled (column_sum block.now) 8 result.sums × (Filled (column_by_row block.now) 8 result.rows × Filled (column_by_strip block.now) 8 result.strips) }
{
    let mut sums = [0u16; 8];
    let mut rows = [0u16; 8];
    let mut strips = [0u16; 8];
    // An index: each turn writes one place of three arrays.
    for c in 0..8 {
        let k = column(block, c);
        sums[c] = k.sum;
        rows[c] = k.rows;
        strips[c] = k.strips;
    }
    BlockSums { sums, rows, strips }
}

// The columns together, by a running sum from the last down.
fn sum_of_columns(k: &BlockSums) -> u32
    ensures { result ≡ of_columns (λ c. get_or k.now.sums c 0) (λ c. get_or k.now.rows c 0) (λ c. get_or k.now.strips c 0) }
{
    let mut sum: u32 = 0;
    let mut by_column: u32 = 0;
    let mut by_row: u32 = 0;
    let mut by_strip: u32 = 0;
    // An index: each turn reads one place of three arrays.
    for c in (0..8).rev() {
        by_column += sum;
        sum += u32::from(k.sums[c]);
        by_row += u32::from(k.rows[c]);
        by_strip += u32::from(k.strips[c]);
    }
    by_column + sum + 8 * by_row + 72 * by_strip
}

// The sum of a block's first 504 bytes, each times its place, counted from 1.
fn sum_of_rows(block: &[u8]) -> u32
    requires { 504 ≤ length block.now }
    ensures { result ≡ weighted_sum 0 (take 504 block.now) }
{
    sum_of_columns(&columns(block))
}

// The sum of its first 510. With the 1 of the check it is at most 33,227,776: 32 bits hold it, and no remainder is taken on the way.
pub fn weighted_sum(block: &[u8]) -> u32
    requires { 510 ≤ length block.now }
    ensures { (result ≡ weighted_sum 0 (take 510 block.now)) × (1 + result ≤ 33227776) }
{
    let mut sum = sum_of_rows(block);
    for i in 504..510 {
        sum += (i + 1) as u32 * u32::from(block[i]);
    }
    sum
}
