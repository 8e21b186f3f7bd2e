// The texts of a record of the table, where they lie in their stores.
#![tactic(auto)]

ghost use Rattle.std.specs.Prelude.{◌≡◌, ◌≤◌, ◌-◌, length};
ghost use Rattle.places.specs.Places.{record_len};
ghost use Rattle.record_text.specs.Texts.{heading_part, body_in};
ghost use Rattle.grammar.specs.Bytes.{byte_values};
ghost use Rattle.grammar.specs.Fields.{body_max};

use number_at::{byte, four, two, wide};
use part::part;

// A record's form; any other number: plain.
pub const FORM_MESSAGE: u8 = phase::FORM_MESSAGE;

pub const FORM_FILE: u8 = phase::FORM_FILE;

// The heading of its transfer: the file name for a file, else the title.
pub fn heading<'a>(r: &[u8], titles: &'a [u8], names: &'a [u8]) -> &'a [u8]
    requires { length r.now ≡ record_len }
    ensures { (result.now ≡ heading_part titles.now names.now r.now) × (length result.now ≤ byte_values - 1) }
{
    if byte(r, places::RECORD_FORM as usize) == FORM_FILE {
        let start = four(r, places::RECORD_NAME as usize) as usize;
        part(
            names,
            start,
            wide(byte(r, places::RECORD_NAME_LEN as usize)),
        )
    } else {
        let start = four(r, places::RECORD_TITLE as usize) as usize;
        part(
            titles,
            start,
            wide(byte(r, places::RECORD_TITLE_LEN as usize)),
        )
    }
}

// Its body.
pub fn body<'a>(r: &[u8], bodies: &'a [u8]) -> &'a [u8]
    requires { length r.now ≡ record_len }
    ensures { (result.now ≡ body_in bodies.now r.now) × (length result.now ≤ body_max) }
{
    let start = four(r, places::RECORD_BODY as usize) as usize;
    part(
        bodies,
        start,
        two(r, places::RECORD_BODY_LEN as usize) as usize,
    )
}
