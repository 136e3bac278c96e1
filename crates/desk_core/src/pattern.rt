//! The form of a deviation's object.
ghost use Rattle.std.specs.Prelude.{◌≡◌};
ghost use Rattle.desk_core.specs.Patterns as patterns;

use misra_base::{Form, Name};

/// A pattern where `[*]` stands in the object, else a text.
pub fn form_of(object: &Name) -> Form
    ensures { result ≡ patterns.form_of object.now }
{
    if has_any_index(object.bytes()) {
        Form::Pattern
    } else {
        Form::Text
    }
}

fn has_any_index(text: &[u8]) -> bool
    ensures { result ≡ patterns.has_any_index text.now }
{
    for i in 0..text.len() {
        if begins_with_any_index(&text[i..]) {
            return true;
        }
    }
    false
}

fn begins_with_any_index(text: &[u8]) -> bool
    ensures { result ≡ patterns.begins_with_any_index text.now }
{
    text.len() >= 3 && &text[..3] == b"[*]".as_slice()
}
