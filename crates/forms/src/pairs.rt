// The pairs of an image by their surface letters, and the lexical letters that may be deleted.
ghost use Rattle.std.specs.Prelude.{◌≡◌, ℕ, ◌<◌, ◌≤◌, length};
ghost use Rattle.image.specs.Header.{header_of};
ghost use Rattle.image.specs.Accepted.{Accepted};
ghost use Rattle.forms.specs.Letters.{row_count};
ghost use Rattle.forms.specs.Filling.{RowMore, RowsOf, FlagsOf};

use image::Header;

// One letter more at the end of row s.
fn put_letter(rows: &mut [u8], s: usize, a: u8)
    requires { (length rows.old ≡ 30976) × ((s ≤ 120) × (row_count rows.old s < 255)) }
    ensures { RowMore rows.old rows.new s a }
{
    let at = 256 * s;
    let n = image::byte_at(rows, at);
    rows[at + 1 + n] = a;
    rows[at] = (n + 1) as u8;
}

// The rows of all surface letters: a pair a:s puts a into row s, and an insertion 0:s puts 0 there.
pub fn fill_rows(image: &[u8], h: Header, rows: &mut [u8])
    requires accepted { Accepted image.now (header_of h) }
    requires rows_len { length rows.old ≡ 30976 }
    ensures { RowsOf image.now rows.new h.pairs }
{
    rows.fill(0);
    for p in 0..h.pairs {
        let s = letters::surface_side(image, h, p);
        if s.0 != 0 {
            let a = letters::lexical_side(image, h, p);
            put_letter(rows, usize::from(s.0), a.0);
        }
    }
}

// A flag for each letter a of a pair a:0.
pub fn fill_flags(image: &[u8], h: Header, flags: &mut [u8])
    requires accepted { Accepted image.now (header_of h) }
    requires flags_len { length flags.old ≡ 128 }
    ensures { FlagsOf image.now flags.new h.pairs }
{
    flags.fill(0);
    for p in 0..h.pairs {
        let s = letters::surface_side(image, h, p);
        if s.0 == 0 {
            let a = letters::lexical_side(image, h, p);
            flags[usize::from(a.0)] = 1;
        }
    }
}
