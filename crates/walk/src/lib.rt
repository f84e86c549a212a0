// The walk through the tree of readings, whatever is asked of the path and of the word: opening an entry and pairing its letters call each other, and each
// reading found is offered to the lent rows.

#![tactic(auto)]

pub mod basis;

ghost use Rattle.std.specs.Prelude.{true, ◌≡◌, ◌<◌, ◌≤◌, length};
ghost use Rattle.model.specs.Lists.{below, flat_map};
ghost use Rattle.rows.specs.Fill.{Roomy};
ghost use Rattle.image.specs.Header.{header_of};
ghost use Rattle.listing.specs.Search.{found_at, entry_one};
ghost use Rattle.dead.specs.Dead.{Remembered};
ghost use Rattle.walk.specs.Basis.{query_of};
ghost use Rattle.walk.specs.Listed.{Listed};
ghost use Rattle.walk.specs.Offered.{Offered};
ghost use Rattle.ahead.specs.Here.{opens_at, Underway};

use basis::Basis;
use listing::place::{ENDED, Place};
use rows::Trail;

// Where every letter is paired: the path ends, where it may and what is asked lets it, and then each entry that may open does, or each that the filter leaves.
#[cycle(walk)]
pub fn open(
    basis: &Basis<'_>,
    place: Place,
    trail: Trail,
    out: &mut [u8],
    capacity: usize,
    found: usize,
    table: &mut [u16],
) -> usize
    requires underway { Underway basis.now.image.now basis.now.index.now (header_of basis.now.h) place trail }
    requires place_value { opens_at place ≡ true }
    requires roomy { Roomy out.old capacity × (found ≤ capacity) }
    requires in_bounds { (1 ≤ length table.old) × Remembered basis.now.image.now (query_of basis.now) table.old }
    ensures rows { Offered capacity (out.old, found) (found_at basis.now.image.now (query_of basis.now) place trail) (out.new, result) (length table.old) }
    ensures table { Remembered basis.now.image.now (query_of basis.now) table.new }
{
    let mut n = found;
    if listing::place::ends_here(
        basis.image,
        basis.h,
        basis.asked.path,
        basis.path,
        place,
        trail.entries,
    ) {
        let stopped = listing::place::stop(place);
        n = pair(basis, stopped, trail, out, capacity, n, table);
        if capacity < n {
            return n;
        }
    }
    if trail.entries >= 16 {
        return n;
    }
    let mut list = [0u16; 64];
    let Some(many) = filter::choose(
        basis.image,
        basis.index,
        basis.h,
        basis.asked.path,
        basis.path,
        basis.forms,
        basis.masks,
        basis.reach,
        place.last,
        place.surface.letters,
        &mut list,
    ) else {
        return open_each(basis, place, trail, out, capacity, n, table);
    };
    open_listed(basis, place, trail, &list[..many], out, capacity, n, table)
}

// Each entry that may open does, and its letters are paired. Whether a pair may be taken at once is the same for all entries that begin with one letter:
// `known` keeps what was seen of each, 0 before it is looked at, and where that is 1 an entry is passed over.
#[cycle(walk)]
pub fn open_each(
    basis: &Basis<'_>,
    place: Place,
    trail: Trail,
    out: &mut [u8],
    capacity: usize,
    found: usize,
    table: &mut [u16],
) -> usize
    requires underway { Underway basis.now.image.now basis.now.index.now (header_of basis.now.h) place trail }
    requires place_value { (opens_at place ≡ true) × (trail.entries < 16) }
    requires roomy { Roomy out.old capacity × (found ≤ capacity) }
    requires in_bounds { (1 ≤ length table.old) × Remembered basis.now.image.now (query_of basis.now) table.old }
    ensures rows { Offered capacity (out.old, found) (flat_map (entry_one basis.now.image.now (query_of basis.now) place trail) (below basis.now.h.entries)) (out.new, result) (length table.old) }
    ensures table { Remembered basis.now.image.now (query_of basis.now) table.new }
{
    let opening = listing::opening::ways_on(
        basis.image,
        basis.index,
        basis.h,
        basis.asked.path,
        basis.path,
        place.last,
        trail.entries,
    );
    let mut n = found;
    let mut known = [0u8; 128];
    let first = listing::opening::next_entry(
        basis.image,
        basis.index,
        basis.h,
        opening,
        opening.low,
    );
    let mut e = first.entry;
    let mut ways = first.ways;
    // From one entry that may open to the next: no index is counted.
    while e < basis.h.entries {
        let letter = ahead::starts::first_letter(basis.image, basis.h, e);
        let at = letter.0 as usize;
        if known[at] == 0 {
            known[at] = ahead::starts::look(
                basis.image,
                basis.index,
                basis.h,
                basis.asked.word,
                basis.word,
                place,
                e,
                letter,
            );
        }
        if known[at] != 1 {
            let next = listing::place::enter(basis.image, basis.h, place, e);
            let mut longer = trail;
            longer.path[longer.entries] = e as u16;
            longer.entries += 1;
            n = pair(basis, next, longer, out, capacity, n, table);
            if capacity < n {
                return n;
            }
        }
        let following = listing::opening::next_entry(
            basis.image,
            basis.index,
            basis.h,
            ways,
            e + 1,
        );
        e = following.entry;
        ways = following.ways;
    }
    n
}

// The entries of a list open, one after the other, where it leaves out only what finds nothing.
#[cycle(walk)]
pub fn open_listed(
    basis: &Basis<'_>,
    place: Place,
    trail: Trail,
    list: &[u16],
    out: &mut [u8],
    capacity: usize,
    found: usize,
    table: &mut [u16],
) -> usize
    requires underway { Underway basis.now.image.now basis.now.index.now (header_of basis.now.h) place trail }
    requires place_value { (opens_at place ≡ true) × (trail.entries < 16) }
    requires listed { Listed basis.now.image.now (query_of basis.now) place trail list.now }
    requires roomy { Roomy out.old capacity × (found ≤ capacity) }
    requires in_bounds { (1 ≤ length table.old) × Remembered basis.now.image.now (query_of basis.now) table.old }
    ensures rows { Offered capacity (out.old, found) (flat_map (entry_one basis.now.image.now (query_of basis.now) place trail) (below basis.now.h.entries)) (out.new, result) (length table.old) }
    ensures table { Remembered basis.now.image.now (query_of basis.now) table.new }
{
    let mut n = found;
    for &e in list {
        let next = listing::place::enter(basis.image, basis.h, place, usize::from(e));
        let mut longer = trail;
        longer.path[longer.entries] = e;
        longer.entries += 1;
        n = pair(basis, next, longer, out, capacity, n, table);
        if capacity < n {
            return n;
        }
    }
    n
}

// Where a letter is left or the path has ended: the pairs that are forced are taken, and then each that may come next, unless that is known to find
// nothing; where it found nothing, that is remembered. With a table that only counts, the search gives up where it has met too many nodes.
#[cycle(walk)]
pub fn pair(
    basis: &Basis<'_>,
    place: Place,
    trail: Trail,
    out: &mut [u8],
    capacity: usize,
    found: usize,
    table: &mut [u16],
) -> usize
    requires underway { Underway basis.now.image.now basis.now.index.now (header_of basis.now.h) place trail }
    requires roomy { Roomy out.old capacity × (found ≤ capacity) }
    requires in_bounds { (1 ≤ length table.old) × Remembered basis.now.image.now (query_of basis.now) table.old }
    ensures rows { Offered capacity (out.old, found) (found_at basis.now.image.now (query_of basis.now) place trail) (out.new, result) (length table.old) }
    ensures table { Remembered basis.now.image.now (query_of basis.now) table.new }
{
    if !dead::count(table) {
        return capacity + 2;
    }
    let Some(led) = ahead::forced::lead(
        basis.image,
        basis.index,
        basis.h,
        basis.asked.word,
        basis.word,
        place,
        trail,
    ) else {
        return found;
    };
    let next = led.place;
    let longer = led.trail;
    if dead::is_dead(
        basis.image,
        basis.h,
        table,
        next,
        longer.entries,
        longer.pairs,
    ) {
        return found;
    }
    let n = pair_each(basis, next, longer, out, capacity, found, table);
    if n == found {
        dead::remember(
            basis.image,
            basis.h,
            table,
            next,
            longer.entries,
            longer.pairs,
        );
    }
    n
}

// Where a letter is left or the path has ended: the reading that ends here, and then each pair that may come next. Where the path can only end, it does
// so without a call; where an entry may open, `open` goes on.
#[cycle(walk)]
pub fn pair_each(
    basis: &Basis<'_>,
    place: Place,
    trail: Trail,
    out: &mut [u8],
    capacity: usize,
    found: usize,
    table: &mut [u16],
) -> usize
    requires underway { Underway basis.now.image.now basis.now.index.now (header_of basis.now.h) place trail }
    requires roomy { Roomy out.old capacity × (found ≤ capacity) }
    requires in_bounds { (1 ≤ length table.old) × Remembered basis.now.image.now (query_of basis.now) table.old }
    ensures rows { Offered capacity (out.old, found) (found_at basis.now.image.now (query_of basis.now) place trail) (out.new, result) (length table.old) }
    ensures table { Remembered basis.now.image.now (query_of basis.now) table.new }
{
    let mut last = place.last;
    let mut n = found;
    if place.from >= place.to {
        if ahead::here::goes_on(basis.image, basis.h, place) {
            return open(basis, place, trail, out, capacity, found, table);
        }
        last = ENDED;
        n = ahead::here::put_ended(
            basis.image,
            basis.index,
            basis.h,
            basis.asked,
            basis.path,
            basis.word,
            place,
            trail,
            out,
            capacity,
            found,
        );
        if capacity < n {
            return n;
        }
    }
    if trail.pairs >= 40 {
        return n;
    }
    let letter = ahead::here::next_letter(basis.image, place);
    let many = ahead::here::candidate_count(basis.image, basis.index, basis.h, letter);
    for k in 0..many {
        let p = ahead::here::candidate(basis.image, basis.index, basis.h, letter, k);
        let taken = listing::pairing::take(
            basis.image,
            basis.index,
            basis.h,
            basis.asked.word,
            basis.word,
            place,
            last,
            p,
        );
        if let Some(next) = taken {
            let mut longer = trail;
            longer.pairing[longer.pairs] = p as u8;
            longer.pairs += 1;
            n = pair(basis, next, longer, out, capacity, n, table);
            if capacity < n {
                return n;
            }
        }
    }
    n
}
