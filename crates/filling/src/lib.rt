// The index of forms filled once a run, part after part, whatever stood there before.

#![tactic(auto)]

ghost use Rattle.std.specs.Prelude.{◌≡◌, length};
ghost use Rattle.image.specs.Header.{header_of};
ghost use Rattle.image.specs.Accepted.{Accepted};
ghost use Rattle.forms.specs.Forms.{forms_end, FormsOf};
ghost use Rattle.forms.specs.Filling.{LettersFilled, SlotsFilled};

use forms::{FLAGS_START, FORMS_END, ORDER_START, SHARED_START, SKIPS_START, SLOTS_START};
use image::Header;

// What the pairs give, and the order of lexicons: the parts before the slots.
fn fill_letters(image: &[u8], h: Header, out: &mut [u8])
    requires accepted { Accepted image.now (header_of h) }
    requires out_len { length out.old ≡ forms_end }
    ensures { LettersFilled image.now out.new h.pairs h.lexicons }
{
    forms::pairs::fill_rows(image, h, &mut out[0..FLAGS_START]);
    forms::pairs::fill_flags(image, h, &mut out[FLAGS_START..ORDER_START]);
    orders::lexicons::fill_order(image, h, &mut out[ORDER_START..SHARED_START]);
}

// The slots, what they share and their skips; the parts before them stay.
fn fill_slots(image: &[u8], h: Header, out: &mut [u8])
    requires accepted { Accepted image.now (header_of h) }
    requires out_len { length out.old ≡ forms_end }
    ensures { SlotsFilled image.now out.old out.new h.lexicons h.entries }
{
    forms::slots::hold(image, h, &mut out[SLOTS_START..SKIPS_START]);
    let mut shared = [0u8; 2816];
    forms::slots::share(image, h, &out[SLOTS_START..SKIPS_START], &mut shared);
    forms::slots::fill_skips(&shared, h.entries, &mut out[SKIPS_START..FORMS_END]);
    out[SHARED_START..SLOTS_START].copy_from_slice(&shared);
}

// The whole index, whatever stood in `out` before.
pub fn fill(image: &[u8], h: Header, out: &mut [u8])
    requires accepted { Accepted image.now (header_of h) }
    requires out_len { length out.old ≡ forms_end }
    ensures { FormsOf image.now out.new }
{
    fill_letters(image, h, out);
    fill_slots(image, h, out);
}
