// What may come after an entry, by what is kept of its end and of each lexicon.
ghost use Rattle.std.specs.Prelude.{◌<◌, T};
ghost use Rattle.model.specs.Lexicon.{entry};
ghost use Rattle.image.specs.Header.{header_of};
ghost use Rattle.image.specs.Accepted.{Accepted};
ghost use Rattle.positions.specs.Stack.{reach_of, Reached};
ghost use Rattle.filter.specs.Sets.{Means};
ghost use Rattle.filter.specs.Lexicons.{after_in};
ghost use Rattle.filter.specs.Unions.{SlotAt, After};

use image::Header;

// The union over the ways on of an entry that has several.
fn over_ways(image: &[u8], h: Header, reach: &[u64], e: usize) -> u64
    requires accepted { Accepted image.now (header_of h) }
    requires reached { Reached reach.now × (e < h.entries) }
    ensures { Means result (λ k. T (after_in image.now (reach_of reach.now) e k)) }
{
    let ways = lexicon::ways::ways_of(image, h, e);
    let mut m = if ways.stop { reach[64] } else { 0 };
    let mut rest = ways.bits;
    // Not counted: each turn takes the lowest lexicon that is left from the set.
    while rest != 0 {
        let x = digits::lowest(rest);
        rest = digits::without(rest, x);
        m |= reach[x];
    }
    m
}

// Of the entry of slot i.
pub fn after_slot(image: &[u8], h: Header, reach: &[u64], slots: &[u8], i: usize) -> u64
    requires accepted { Accepted image.now (header_of h) }
    requires reached { Reached reach.now × SlotAt image.now slots.now i }
    ensures { Means result (After image.now reach.now slots.now i) }
{
    let onward = forms::slot::onward(slots, i);
    if onward < 64 {
        return reach[onward];
    }
    if onward == 255 {
        return reach[64];
    }
    over_ways(image, h, reach, forms::slot::entry(slots, i))
}
