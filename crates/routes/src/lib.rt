//! The routing headers of a body, one after another from the top, and the mailbox where the message began.
#![tactic(auto)]

ghost use Rattle.std.specs.Prelude.{◌≡◌, ◌<◌, ◌≤◌, drop, length, IfSome};
ghost use Rattle.span.specs.Places.{Lies};
ghost use Rattle.route.specs.Routes.{route_of, origin_of};
ghost use Rattle.routes.specs.Meaning.{headers_by, origin_said};

use route_read::{Header, read};
use span::Span;
use text_line::next_line;

/// A header, its mailbox by the place in the body, and the place from which the next one is read.
#[derive(Clone, Copy)]
pub struct Hop {
    pub header: Header,
    pub next: usize,
}

/// The header at a place: 0, or next of the header before; `None` where the headers have ended.
pub fn next_header(body: &[u8], at: usize) -> Option<Hop>
    ensures value { headers_by body.now result ≡ route_of (drop at body.now) }
    ensures within { IfSome result (λ h. Lies body.now h.header.mailbox) }
    ensures later { IfSome result (λ h. (at < h.next) × (h.next ≤ length body.now)) }
{
    let Some(line) = next_line(body, at) else {
        return None;
    };
    let header = read(&body[line.start..line.end])?;
    let mailbox = Span {
        start: line.start + header.mailbox.start,
        end: line.start + header.mailbox.end,
    };
    Some(Hop {
        header: Header { mailbox, ..header },
        next: line.next,
    })
}

/// The mailbox of the lowest header, by its place in the body; `None` where no header stands.
pub fn find_origin(body: &[u8]) -> Option<Span>
    ensures value { origin_said body.now result ≡ origin_of (route_of body.now) }
    ensures within { IfSome result (λ m. Lies body.now m) }
{
    let mut found = None;
    let mut at = 0;
    while let Some(hop) = next_header(body, at) {
        found = Some(hop.header.mailbox);
        at = hop.next;
    }
    found
}
