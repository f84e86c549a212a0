// Where a search stands: the letters left of the last entry, that entry, counts, and the rules' states.
ghost use Rattle.std.specs.Prelude.{◌≡◌, true, ◌&&◌, List, ℕ, suc, ◌<◌};
ghost use Rattle.model.specs.GrammarOf.{grammar_of};
ghost use Rattle.model.specs.Query.{Query};
ghost use Rattle.model.specs.Tree.{go_at};
ghost use Rattle.image.specs.Header.{header_of};
ghost use Rattle.image.specs.Accepted.{Accepted};
ghost use Rattle.listing.specs.Asked.{path_pattern};
ghost use Rattle.listing.specs.Places.{stops_after, node_of, Standing, OnlyStops};

use crate::asked::PathAsked;
use crate::level::Level;
use image::Header;

// The letters left stand in the image from `from` up to `to`; `last` is the entry opened last, or ROOT, or ENDED.
#[derive(Clone, Copy)]
pub struct Place {
    pub from: usize,
    pub to: usize,
    pub last: usize,
    pub nulls: usize,
    pub surface: Level,
    pub states: [u8; 32],
}

// No entry is open yet.
pub const ROOT: usize = 65535;

// The path has ended, and goes on with none.
pub const ENDED: usize = 65534;

// Entry e opens.
pub fn enter(image: &[u8], h: Header, place: Place, e: usize) -> Place
    requires accepted { Accepted image.now (header_of h) }
    requires standing { Standing image.now place }
    requires e_lt_entries { e < h.entries }
    ensures go { (q : Query) (n p : ℕ) → node_of image.now result (suc n) p ≡ go_at (grammar_of image.now) q true (node_of image.now place n p) (suc e) }
    ensures stands { Standing image.now result }
{
    let from = lexicon::entry_start(h, e) + 1;
    Place {
        from,
        to: from + lexicon::form_length(image, h, e),
        last: e,
        ..place
    }
}

// Whether the path may end here.
fn may_stop(image: &[u8], h: Header, place: Place) -> bool
    requires accepted { Accepted image.now (header_of h) }
    requires standing { Standing image.now place }
    ensures { result ≡ stops_after image.now place.last }
{
    place.last < ENDED && lexicon::ways::ways_of(image, h, place.last).stop
}

// Whether it does: whether what is asked of the path lets it end after its n entries, too.
pub fn ends_here(
    image: &[u8],
    h: Header,
    asked: PathAsked,
    path: &[u8],
    place: Place,
    n: usize,
) -> bool
    requires accepted { Accepted image.now (header_of h) }
    requires standing { Standing image.now place }
    ensures { result ≡ (stops_after image.now place.last && (path_pattern asked path.now).may_end n) }
{
    crate::asked::ends_entries(asked, path, n) && may_stop(image, h, place)
}

// True only where the path can only end here: then it is ended without looking for entries. Where it is false, time is lost and nothing else.
pub fn only_stops(image: &[u8], h: Header, place: Place) -> bool
    requires accepted { Accepted image.now (header_of h) }
    requires standing { Standing image.now place }
    ensures { result ≡ true → OnlyStops image.now place.last }
{
    if place.last >= ENDED {
        return false;
    }
    let ways = lexicon::ways::ways_of(image, h, place.last);
    ways.bits == 0 && ways.stop
}

// The path ends.
pub fn stop(place: Place) -> Place
    ensures go { (image : List ℕ) (q : Query) (n p : ℕ) → node_of image result n p ≡ go_at (grammar_of image) q true (node_of image place n p) 0 }
    ensures stands { (image : List ℕ) → Standing image place → Standing image result }
{
    Place {
        last: ENDED,
        ..place
    }
}
