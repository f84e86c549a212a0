// A listing's reply and rows as text, put one after another into a lent buffer. Each function answers where its text ends.

#![tactic(auto)]

ghost use Rattle.std.specs.Prelude.{List, [], ◌∷◌, ◌++◌, ℕ, ◌+◌, ◌*◌, ◌<◌, ◌≤◌, length};
ghost use Rattle.model.specs.Lines.{decimal, spaced, printed_reply, printed_row, printed_line, unread};
ghost use Rattle.model.specs.Demand.{reply_rows};
ghost use Rattle.rows.specs.Fill.{reply_of};
ghost use Rattle.print.specs.Text.{Put, numbers_from, row_reading, Row, Rows, printed_rows, spaced_at};

use image::number_at;
use refusal::Refusal;
use rows::Reply;

fn put_byte(out: &mut [u8], at: usize, b: u8) -> usize
    requires { at < length out.old }
    ensures { Put out.old out.new at result (b ∷ []) }
{
    out[at] = b;
    at + 1
}

fn put_text(out: &mut [u8], at: usize, text: &[u8]) -> usize
    requires { at + length text.now ≤ length out.old }
    ensures { Put out.old out.new at result text.now }
{
    let end = at + text.len();
    out[at..end].copy_from_slice(text);
    end
}

// A number in base ten: the digits of n / 10, then the last one.
pub fn put_decimal(out: &mut [u8], at: usize, n: usize) -> usize
    requires { (n < 65536) × (at + 5 ≤ length out.old) }
    ensures { Put out.old out.new at result (decimal n) × (result ≤ at + 5) }
{
    if n < 10 {
        return put_byte(out, at, (48 + n) as u8);
    }
    let end = put_decimal(out, at, n / 10);
    put_byte(out, end, (48 + n % 10) as u8)
}

// The same, with no call where one digit does.
fn put_number(out: &mut [u8], at: usize, n: usize) -> usize
    requires { (n < 65536) × (at + 5 ≤ length out.old) }
    ensures { Put out.old out.new at result (decimal n) × (result ≤ at + 5) }
{
    if n < 10 {
        return put_byte(out, at, (48 + n) as u8);
    }
    put_decimal(out, at, n)
}

// Number i of a list; a space stands before all but the first.
fn put_spaced(out: &mut [u8], at: usize, i: usize, n: usize) -> usize
    requires { (n < 65536) × (at + 6 ≤ length out.old) }
    ensures { Put out.old out.new at result (spaced_at i n) × (result ≤ at + 6) }
{
    if i == 0 {
        return put_number(out, at, n);
    }
    let end = put_byte(out, at, b' ');
    put_number(out, end, n)
}

// The n two-byte numbers of a row from this byte on.
fn put_numbers(out: &mut [u8], at: usize, row: &[u8], from: usize, n: usize) -> usize
    requires { (from + 2 * n ≤ length row.now) × (at + 6 * n ≤ length out.old) }
    ensures { Put out.old out.new at result (spaced (numbers_from row.now from n)) × (result ≤ at + 6 * n) }
{
    let mut end = at;
    for i in 0..n {
        end = put_spaced(out, end, i, number_at(row, from + 2 * i));
    }
    end
}

// A row: its entries, " | ", its pairs.
pub fn put_row(out: &mut [u8], at: usize, row: &[u8]) -> usize
    requires { Row row.now × (at + 344 ≤ length out.old) }
    ensures { Put out.old out.new at result (printed_row (row_reading row.now)) × (result ≤ at + 344) }
{
    let entries = number_at(row, 0);
    let pairs = number_at(row, 34);
    let entries_end = put_numbers(out, at, row, 2, entries);
    let bar_end = put_text(out, entries_end, b" | ");
    let pairs_end = put_numbers(out, bar_end, row, 36, pairs);
    put_byte(out, pairs_end, b'\n')
}

// The first n rows of a buffer.
pub fn put_rows(out: &mut [u8], at: usize, rows: &[u8], n: usize) -> usize
    requires { Rows rows.now n × (at + 344 * n ≤ length out.old) }
    ensures { Put out.old out.new at result (printed_rows rows.now n) × (result ≤ at + 344 * n) }
{
    let mut end = at;
    for j in 0..n {
        let from = 116 * j;
        end = put_row(out, end, &rows[from..from + 116]);
    }
    end
}

// A word, a number and a line end.
fn put_line(out: &mut [u8], at: usize, word: &[u8], n: usize) -> usize
    requires { (n < 65536) × (at + length word.now + 6 ≤ length out.old) }
    ensures { Put out.old out.new at result (word.now ++ (decimal n ++ (10 ∷ []))) × (result ≤ at + length word.now + 6) }
{
    let word_end = put_text(out, at, word);
    let number_end = put_number(out, word_end, n);
    put_byte(out, number_end, b'\n')
}

// The reply and its number.
pub fn put_reply(out: &mut [u8], at: usize, r: Result<Reply, Refusal>) -> usize
    requires { (reply_rows (reply_of r) < 65536) × (at + 16 ≤ length out.old) }
    ensures { Put out.old out.new at result (printed_reply (reply_of r)) × (result ≤ at + 16) }
{
    match r {
        Ok(reply) => match reply {
            Reply::All(n) => put_line(out, at, b"all ", n),
            Reply::More(n) => put_line(out, at, b"more ", n),
            Reply::None => put_line(out, at, b"none ", 0),
        },
        Err(refusal) => put_line(out, at, b"refused ", usize::from(refusal.number())),
    }
}

// What stands for a line that holds no word, whatever the image.
pub fn put_unread(out: &mut [u8], at: usize) -> usize
    requires { at + 7 ≤ length out.old }
    ensures { ((image : List ℕ) → Put out.old out.new at result (printed_line image unread)) × (result ≤ at + 7) }
{
    put_text(out, at, b"unread\n")
}
