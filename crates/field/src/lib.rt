//! Fields: 1 to n bytes of a class, the rules for from, to, at, BID, heading and body.
#![tactic(auto)]

ghost use Rattle.std.specs.Prelude.{◌≡◌};
ghost use Rattle.grammar.specs.Fields.{field, is_call, is_bid, is_heading, is_at, is_body, all_calls, parts, form_is};
ghost use Rattle.byte.specs.Classes.{class_of};

use byte::{Class, all_of};
use span::find;

const CALL_MAX: usize = places::CALL_MAX as usize;

const AT_MAX: usize = places::AT_MAX as usize;

// The first `.` of an at and what follows it.
const FROM_POINT_MAX: usize = 1 + places::HIERARCHY_MAX as usize;

const BID_MAX: usize = places::BID_MAX as usize;

const HEADING_MAX: usize = places::HEADING_MAX as usize;

// The most bytes of a body.
const BODY_MAX: usize = places::BODY_MAX as usize;

// The forms of a packed message and of a packed file.
const FORM_MESSAGE: u8 = phase::FORM_MESSAGE;

const FORM_FILE: u8 = phase::FORM_FILE;

/// 1 to n bytes of the class.
pub fn is_field(s: &[u8], class: Class, n: usize) -> bool
    ensures { result ≡ field (class_of class) n s.now }
{
    all_of(s, class) && !s.is_empty() && s.len() <= n
}

/// From or to.
#[tactic(auto, unfolding(grammar::specs::Fields::is_call, byte::specs::Classes::class_of))]
pub fn is_call(s: &[u8]) -> bool
    ensures { result ≡ is_call s.now }
{
    is_field(s, Class::Call, CALL_MAX)
}

/// A BID.
#[tactic(auto, unfolding(grammar::specs::Fields::is_bid, byte::specs::Classes::class_of))]
pub fn is_bid(s: &[u8]) -> bool
    ensures { result ≡ is_bid s.now }
{
    is_field(s, Class::Bid, BID_MAX)
}

/// A title or a file name.
#[tactic(auto, unfolding(byte::specs::Classes::class_of))]
pub fn is_heading(s: &[u8]) -> bool
    ensures { result ≡ is_heading s.now }
{
    is_field(s, Class::Heading, HEADING_MAX)
}

/// A body of the form with this number, as a record holds it.
#[tactic(auto, unfolding(byte::specs::Classes::class_of))]
pub fn is_body(form: u8, s: &[u8]) -> bool
    ensures { result ≡ is_body (form_is form) s.now }
{
    // The form stays a number: a byte of the lent table, of which form_is says what every value stands for.
    s.len() <= BODY_MAX && (matches!(form, FORM_MESSAGE | FORM_FILE) || all_of(s, Class::PlainBody))
}

// Calls joined by points. Stays a loop: of `split`'s parts the library promises only how long they are, so `all` over them proves nothing.
fn are_calls(s: &[u8]) -> bool
    ensures { result ≡ all_calls (parts s.now) }
{
    let mut rest = s;
    loop {
        let end = find(rest, b'.');
        if !is_call(&rest[..end]) {
            return false;
        }
        if rest.len() <= end {
            return true;
        }
        rest = &rest[end + 1..];
    }
}

/// At: a mailbox, perhaps with its place in the hierarchy.
#[tactic(auto, using(crate::proofs::Laws::at_dot), unfolding(grammar::specs::Fields::is_at))]
pub fn is_at(s: &[u8]) -> bool
    ensures { result ≡ is_at s.now }
{
    are_calls(s) && s.len() <= AT_MAX && s.len() <= find(s, b'.') + FROM_POINT_MAX
}
