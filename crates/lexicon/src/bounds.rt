// What a byte of an entry may be, by the length of the form: a row of sixteen bounds for each length, so that the machine holds the letters of a form, and
// the bytes after it, against them at once.
ghost use Rattle.std.specs.Prelude.{◌≡◌, ◌+◌, ◌≤◌, length};
ghost use Rattle.model.specs.Lists.{below, every, within};
ghost use Rattle.lexicon.specs.Bounds.{bound_of, Bounds, in_row};

// A bound at a place, by what it is for a letter, `a`, and for anything, `*`; at `.` nothing may stand.
fn bound_of(place: u8, letter: u8, anything: u8) -> u8
    ensures { result ≡ bound_of letter anything place }
{
    match place {
        b'a' => letter,
        b'*' => anything,
        _ => 0,
    }
}

// The bounds of all rows: one for each form length from 0 to 12, of the bytes after the length. The last four of a row may be anything.
pub fn bounds_of(letter: u8, anything: u8) -> [u8; 208]
    ensures { Bounds letter anything result }
{
    let places = b"\
        ............****\
        a...........****\
        aa..........****\
        aaa.........****\
        aaaa........****\
        aaaaa.......****\
        aaaaaa......****\
        aaaaaaa.....****\
        aaaaaaaa....****\
        aaaaaaaaa...****\
        aaaaaaaaaa..****\
        aaaaaaaaaaa.****\
        aaaaaaaaaaaa****";
    let mut all = [0u8; 208];
    for j in 0..208 {
        all[j] = bound_of(places[j], letter, anything);
    }
    all
}

fn is_between(low: u8, high: u8, b: u8) -> bool
    ensures { result ≡ within low high b }
{
    (low..=high).contains(&b)
}

// Whether the sixteen bytes from `at` on are within the bounds of a row. All are looked at, with no way out, so that the compiler takes them as one.
pub fn in_bounds(image: &[u8], at: usize, low: &[u8; 208], high: &[u8; 208], row: usize) -> bool
    requires { (at + 16 ≤ length image.now) × (row + 16 ≤ 208) }
    ensures { result ≡ every (in_row low.now high.now row image.now at) (below 16) }
{
    let mut inside = true;
    for i in 0..16 {
        if !is_between(low[row + i], high[row + i], image[at + i]) {
            inside = false;
        }
    }
    inside
}
