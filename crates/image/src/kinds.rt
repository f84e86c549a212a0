// The table of kinds: how wide a record is and how many of them a block holds, and by the counts of an image how many there are and where they begin. Every
// layer reads it.
ghost use Rattle.std.specs.Prelude.{◌≡◌, ◌+◌, ◌*◌, ◌-◌, ◌/◌, ◌<◌, ◌≤◌};
ghost use Rattle.model.specs.Blocks.{filling, in_all, record_width, per_block, first_block, record_start};
ghost use Rattle.image.specs.Header.{header_of};
ghost use Rattle.image.specs.Laid.{Counted, Limited};
ghost use Rattle.image.specs.Kinds.{IsKind, kind_number, place_of};

use crate::Header;

// What a record is of. A block bears its kind's number.
#[derive(Clone, Copy, PartialEq, Eq)]
pub enum Kind {
    Header = 1,
    Letters = 2,
    Pairs = 3,
    Tables = 4,
    Lexicons = 5,
    Entries = 6,
    Sets = 7,
}

impl Kind {
    pub fn number(self) -> usize
        ensures { (result ≡ kind_number self) × IsKind result }
    {
        self as usize
    }
}

// By kind's number, of form 1; the last place is that of the entries of form 2.
const WIDTH: [usize; 9] = [0, 14, 2, 2, 506, 2, 16, 16, 24];

const PER_BLOCK: [usize; 9] = [0, 36, 253, 253, 1, 253, 31, 31, 21];

// Its places by name, for the code that reads records of one kind.
pub const LETTER_WIDTH: usize = WIDTH[2];

pub const TABLE_WIDTH: usize = WIDTH[4];

pub const LEXICON_WIDTH: usize = WIDTH[5];

// An entry of form 2, and how many a block holds.
const WIDE_ENTRY: usize = WIDTH[8];

const WIDE_ENTRIES: usize = PER_BLOCK[8];

// The first letter and the first pair: no count moves their blocks.
pub const LETTERS_START: usize = 512 + 4;

pub const PAIRS_START: usize = 2 * 512 + 4;

// The block of sets, where there are any; else the tables begin there.
const SETS_BLOCK: usize = 3;

// The place of a kind in the two tables.
fn place_of(h: Header, kind: Kind) -> usize
    ensures { (result ≡ place_of h.form (kind_number kind)) × (result < 9) }
{
    if h.form == 2 && kind == Kind::Entries {
        8
    } else {
        kind.number()
    }
}

pub fn width(h: Header, kind: Kind) -> usize
    ensures { result ≡ record_width (header_of h) (kind_number kind) }
{
    WIDTH[place_of(h, kind)]
}

pub fn per_block(h: Header, kind: Kind) -> usize
    ensures { result ≡ per_block (header_of h) (kind_number kind) }
{
    PER_BLOCK[place_of(h, kind)]
}

// How many records of a kind an image has.
pub fn in_all(h: Header, kind: Kind) -> usize
    ensures { result ≡ in_all (header_of h) (kind_number kind) }
{
    match kind {
        Kind::Header => 1,
        Kind::Letters => h.letters,
        Kind::Pairs => h.pairs,
        Kind::Tables => h.rules,
        Kind::Lexicons => h.lexicons,
        Kind::Entries => h.entries,
        Kind::Sets => h.sets,
    }
}

// The blocks of sets: one, where there are any.
fn set_blocks(h: Header) -> usize
    requires { Counted (header_of h) }
    ensures { (result ≡ filling 16 h.sets) × (result ≤ 1) }
{
    h.sets.min(1)
}

// The first block of a kind.
pub fn first_block(h: Header, kind: Kind) -> usize
    requires { Counted (header_of h) }
    ensures { result ≡ first_block (header_of h) (kind_number kind) }
{
    let rules = SETS_BLOCK + set_blocks(h);
    match kind {
        Kind::Header => 0,
        Kind::Letters => 1,
        Kind::Pairs => 2,
        Kind::Sets => SETS_BLOCK,
        Kind::Tables => rules,
        Kind::Lexicons => rules + h.rules,
        Kind::Entries => rules + h.rules + 1,
    }
}

// What is added up where records of one width stand so many to a block, the first of them in block `first`.
fn added(first: usize, wide: usize, most: usize, i: usize) -> usize
    requires le_most { (1 ≤ most) × (wide * most ≤ 506) }
    requires most_bound { 512 * first + 4 + wide * i + (512 - wide * most) * (i / most) < 65536 }
    ensures { result ≡ 512 * first + 4 + wide * i + (512 - wide * most) * (i / most) }
{
    512 * first + 4 + wide * i + (512 - wide * most) * (i / most)
}

// Where record i of a kind begins. With the kind a constant, so is all that the table says of it, in either form by itself: so no division is by a number that
// the compiler does not know.
pub fn record_start(h: Header, kind: Kind, i: usize) -> usize
    requires limited { Limited (header_of h) }
    requires i_bound { i < in_all (header_of h) (kind_number kind) }
    ensures { (result ≡ record_start (header_of h) (kind_number kind) i) × (result < 65536) }
{
    let first = first_block(h, kind);
    if place_of(h, kind) == 8 {
        return added(first, WIDE_ENTRY, WIDE_ENTRIES, i);
    }
    added(first, width(h, kind), per_block(h, kind), i)
}
