//! Routing headers for a C host (include/fringemole_route.h): read by places in a lent body, and ours written into a second buffer.
#![tactic(auto)]

ghost use Rattle.std.specs.Prelude.{◌≡◌, eqb, drop};
ghost use Rattle.route.specs.Routes.{route_of, origin_of};
ghost use Rattle.route.specs.Written.{add_route};
ghost use Rattle.route_write.specs.Meaning.{added_number, added_count};
ghost use Rattle.fringemole_route.specs.Numbers.{told_hop, headers_said, HopLies, origin_said, OriginLies, our_header_of, added_said};

use calendar::{Date, Time};
use route_read::Header;
use route_write::{OurHeader, Refused};
use routes::Hop;
use span::Span;

// Stays, here and in the two structs below: found, gmt and answer are numbers, places are two numbers; the C interface (include/fringemole_route.h).

/// A header, if one was found: 1, else 0 and all numbers 0. The mailbox lies in the body from start up to, not including, end; gmt is 1 where the zone is known.
#[repr(C)]
#[derive(Drop)]
pub struct RouteHop {
    pub next: usize,
    pub start: usize,
    pub end: usize,
    pub number: u32,
    pub year: u16,
    pub month: u8,
    pub day: u8,
    pub hour: u8,
    pub minute: u8,
    pub gmt: u8,
    pub found: u8,
}

/// The origin's mailbox, if there is one: 1, else 0 and both places 0.
#[repr(C)]
#[derive(Drop)]
pub struct RouteOrigin {
    pub start: usize,
    pub end: usize,
    pub found: u8,
}

/// The writer's answer, and how many bytes it has written.
#[repr(C)]
#[derive(Drop)]
pub struct RouteAdded {
    pub count: usize,
    pub answer: u8,
}

impl From<Hop> for RouteHop {
    ghost from_gives = { λ h r. r ≡ told_hop h };

    fn from(hop: Hop) -> RouteHop {
        let Header {
            date,
            time,
            gmt,
            number,
            mailbox: Span { start, end },
        } = hop.header;
        RouteHop {
            next: hop.next,
            start,
            end,
            number,
            year: date.year,
            month: date.month,
            day: date.day,
            hour: time.hour,
            minute: time.minute,
            gmt: u8::from(gmt),
            found: 1,
        }
    }
}

/// The header at a place of a body: 0, or next of the header before.
#[tactic(auto, using(crate::proofs::Laws::hop_told))]
#[unsafe(no_mangle)]
pub extern "C" fn fringemole_route_next(body: &[u8], at: usize) -> RouteHop
    ensures value { headers_said body.now result ≡ route_of (drop at body.now) }
    ensures within { HopLies (eqb result.found 1) body.now at result }
{
    match routes::next_header(body, at) {
        None => RouteHop {
            next: 0,
            start: 0,
            end: 0,
            number: 0,
            year: 0,
            month: 0,
            day: 0,
            hour: 0,
            minute: 0,
            gmt: 0,
            found: 0,
        },
        Some(hop) => RouteHop::from(hop),
    }
}

/// The mailbox where the message began.
#[unsafe(no_mangle)]
pub extern "C" fn fringemole_route_origin(body: &[u8]) -> RouteOrigin
    ensures value { origin_said body.now result ≡ origin_of (route_of body.now) }
    ensures within { OriginLies (eqb result.found 1) body.now result }
{
    match routes::find_origin(body) {
        None => RouteOrigin {
            start: 0,
            end: 0,
            found: 0,
        },
        Some(mailbox) => RouteOrigin {
            start: mailbox.start,
            end: mailbox.end,
            found: 1,
        },
    }
}

// The writer's answers: written, a field or time outside the rules, no room.
const WRITTEN: u8 = 0;

const BAD_FIELD: u8 = 1;

const NO_ROOM: u8 = 2;

impl From<Result<usize, Refused>> for RouteAdded {
    ghost from_gives = { λ a r. (r.answer ≡ added_number a) × (r.count ≡ added_count a) };

    fn from(added: Result<usize, Refused>) -> RouteAdded {
        match added {
            Ok(count) => RouteAdded {
                count,
                answer: WRITTEN,
            },
            Err(Refused::BadField) => RouteAdded {
                count: 0,
                answer: BAD_FIELD,
            },
            Err(Refused::NoRoom) => RouteAdded {
                count: 0,
                answer: NO_ROOM,
            },
        }
    }
}

/// Our header in front of a body, at the start of out.
// Stays: nine parameters and no `OurHeader`; the C interface.
#[unsafe(no_mangle)]
pub extern "C" fn fringemole_route_add(
    out: &mut [u8],
    year: u16,
    month: u8,
    day: u8,
    hour: u8,
    minute: u8,
    number: u32,
    mailbox: &[u8],
    body: &[u8],
) -> RouteAdded
    ensures { added_said result out.new ≡ add_route out.old (our_header_of year month day hour minute number mailbox.now) body.now }
{
    let header = OurHeader {
        date: Date { year, month, day },
        time: Time { hour, minute },
        number,
        mailbox,
    };
    RouteAdded::from(route_write::add_route(out, &header, body))
}
