// What a search carries of a reading, the rows that it puts into a lent buffer, and the reply.

#![tactic(auto)]

ghost use Rattle.std.specs.Prelude.{◌≡◌, [], ℕ, ◌+◌, ◌^◌, ◌<◌, ◌≤◌, length};
ghost use Rattle.model.specs.Readings.{Reading};
ghost use Rattle.model.specs.Rows.{row_bytes, reply_number};
ghost use Rattle.model.specs.Demand.{reply_rows};
ghost use Rattle.rows.specs.Trail.{reading_of, Short, Holds, ListOf, row_up_to};
ghost use Rattle.rows.specs.Fill.{put, Roomy, reply_for, reply_of};

use image::seal::put_number;
use refusal::Refusal;

// A reading as far as a search has come: its entries and its pairs.
#[derive(Clone, Copy)]
pub struct Trail {
    pub path: [u16; 16],
    pub entries: usize,
    pub pairing: [u8; 40],
    pub pairs: usize,
}

pub fn no_trail() -> Trail
    ensures { Holds result (record { path = []; pairing = [] }) 0 0 }
{
    Trail {
        path: [0; 16],
        entries: 0,
        pairing: [0; 40],
        pairs: 0,
    }
}

// A list of n numbers, of which `number` gives each: how many they are as number k of a row, and each after it.
fn write_list<F: Fn(usize) -> usize>(row: &mut [u8], k: usize, n: usize, number: F)
    requires row_len { length row.old ≡ 116 }
    requires inside { k + n < 58 }
    requires callable { (i : ℕ) → i < n → F.pre number i }
    ensures { (r : Reading) → ListOf (F.post number) r row.old k n → row.new ≡ row_up_to r (k + 1 + n) }
{
    put_number(row, 2 * k, n);
    for i in 0..n {
        put_number(row, 2 * (k + 1 + i), number(i));
    }
}

// Every place unused, which is 65535, or 255 twice; then the entries, and the pairs after the sixteen places of entries.
pub fn write_row(row: &mut [u8], t: Trail)
    requires { (length row.old ≡ 116) × Short t }
    ensures { row.new ≡ row_bytes (reading_of t) }
{
    row.fill(255);
    write_list(row, 0, t.entries, |i| usize::from(t.path[i]));
    write_list(row, 17, t.pairs, |i| usize::from(t.pairing[i]));
}

// One step of a listing: puts a row after those that were found before, and answers how many are found now. The first rows are passed over, as many as `capacity`
// is more than the buffer's. One that has no room is counted all the same, so that the answer is more than `capacity` exactly when a row is missing.
pub fn offer(rows: &mut [u8], capacity: usize, found: usize, t: Trail) -> usize
    requires { Roomy rows.old capacity × ((found ≤ capacity) × Short t) }
    ensures { (rows.new, result) ≡ put capacity (rows.old, found) (reading_of t) }
{
    if capacity <= found {
        return capacity + 1;
    }
    let passed = capacity - rows.len() / 116;
    if passed <= found {
        let from = 116 * (found - passed);
        write_row(&mut rows[from..from + 116], t);
    }
    found + 1
}

// What a listing that is not refused replies.
#[derive(Clone, Copy)]
pub enum Reply {
    All(usize),
    More(usize),
    None,
}

pub fn reply_for(found: usize, rows: usize) -> Reply
    ensures { reply_of (Ok result) ≡ reply_for found rows }
{
    if found == 0 {
        return Reply::None;
    }
    if found <= rows {
        return Reply::All(found);
    }
    Reply::More(rows)
}

// The reply as one number, for callers from C.
pub fn reply_number(r: Result<Reply, Refusal>) -> u64
    requires { reply_rows (reply_of r) < 2 ^ 62 }
    ensures { result ≡ reply_number (reply_of r) }
{
    match r {
        Ok(reply) => match reply {
            Reply::All(n) => 4 * (n as u64) + 1,
            Reply::More(n) => 4 * (n as u64) + 2,
            Reply::None => 0,
        },
        Err(refusal) => 4 * u64::from(refusal.number()) + 3,
    }
}
