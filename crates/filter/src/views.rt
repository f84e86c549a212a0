// The parts of the index of forms.
ghost use Rattle.std.specs.Prelude.{◌≡◌, length};
ghost use Rattle.forms.specs.Forms.{forms_end, rows_in, flags_in, shared_in, slots_in, skips_in};

use forms::{FLAGS_START, FORMS_END, ORDER_START, SHARED_START, SKIPS_START, SLOTS_START};

// Rows of letters.
pub fn rows(forms: &[u8]) -> &[u8]
    requires { length forms.now ≡ forms_end }
    ensures { result.now ≡ rows_in forms.now }
{
    &forms[0..FLAGS_START]
}

// Flags of letters that may be deleted.
pub fn flags(forms: &[u8]) -> &[u8]
    requires { length forms.now ≡ forms_end }
    ensures { result.now ≡ flags_in forms.now }
{
    &forms[FLAGS_START..ORDER_START]
}

// What each slot shares with the one before.
pub fn shared(forms: &[u8]) -> &[u8]
    requires { length forms.now ≡ forms_end }
    ensures { result.now ≡ shared_in forms.now }
{
    &forms[SHARED_START..SLOTS_START]
}

// The slots.
pub fn slots(forms: &[u8]) -> &[u8]
    requires { length forms.now ≡ forms_end }
    ensures { result.now ≡ slots_in forms.now }
{
    &forms[SLOTS_START..SKIPS_START]
}

// Where to go on from a slot.
pub fn skips(forms: &[u8]) -> &[u8]
    requires { length forms.now ≡ forms_end }
    ensures { result.now ≡ skips_in forms.now }
{
    &forms[SKIPS_START..FORMS_END]
}
