// Another text in a field: its last byte taken out, or one byte more.
#![tactic(auto)]

ghost use Rattle.std.specs.Prelude.{◌-◌, ◌<◌, ◌≤◌, [], ◌∷◌, ◌++◌, length, take};
ghost use Rattle.entry_form.specs.EntryForm.{field_limit, text_limit, form_bytes, length_of, text_of};
ghost use Rattle.entry_form.specs.ValidForm.{Plain};
ghost use Rattle.retyping.specs.Retype.{Retyped};

use entry_form::{LENGTHS_AT, TEXT, TEXTS_AT};

// Takes the last byte out of the field f, if there is one.
pub fn take_last(form: &mut [u8], f: usize)
    requires { (f < field_limit) × (form_bytes ≤ length form.old) × Plain form.old f }
    ensures { Retyped form.old form.new f (take (length_of form.old f - 1) (text_of form.old f)) }
{
    if let Some(last) = form[LENGTHS_AT + f].checked_sub(1) {
        form[TEXTS_AT + f * TEXT + last as usize] = 0;
        form[LENGTHS_AT + f] = last;
    }
}

// Puts a byte after the text of the field f.
pub fn append(form: &mut [u8], f: usize, key: u8)
    requires { (f < field_limit) × (form_bytes ≤ length form.old) × Plain form.old f × (length_of form.old f < text_limit) }
    ensures { Retyped form.old form.new f (text_of form.old f ++ (key ∷ [])) }
{
    let long = form[LENGTHS_AT + f];
    form[TEXTS_AT + f * TEXT + long as usize] = key;
    form[LENGTHS_AT + f] = long + 1;
}
