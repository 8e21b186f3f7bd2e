//! A line read as a routing header, in either form of 003. The mailbox is shown where it lies in the line; nothing is copied.
#![tactic(auto)]

ghost use Rattle.std.specs.Prelude.{◌≡◌, true, ◌≤◌, length, drop, IfSome};
ghost use Rattle.grammar.specs.Fields.{read_size};
ghost use Rattle.span.specs.Places.{part, Lies};
ghost use Rattle.calendar.specs.Meaning.{date_is, time_is};
ghost use Rattle.route.specs.Routes.{header_station, first_form, second_form, station_of, is_stamp, behind_time, read_header};
ghost use Rattle.route_read.specs.Meaning.{station_said, route_said};

use calendar::{Date, Time};
use date_digits::{read_date, read_time};
use field::is_at;
use route_scan::{MARK_LENGTH, begins_at, behind_mark, byte_at, is_gmt, past_zone, skip_white};
use size::read_size;
use span::{Span, find_from};

// A time stamp without its zone, 003's STAMP: `R:`, the date, a slash, the time.
const DATE: usize = MARK_LENGTH;

const SLASH: usize = DATE + date_digits::DATE_LENGTH;

const TIME: usize = SLASH + 1;

const STAMP_LENGTH: usize = TIME + date_digits::TIME_LENGTH;

/// What a header says, its mailbox by the place in the line. gmt: the zone is known, and is GMT.
#[derive(Clone, Copy)]
pub struct Header {
    pub date: Date,
    pub time: Time,
    pub gmt: bool,
    pub number: u32,
    pub mailbox: Span,
}

// A number and a mailbox, as either form has them.
#[derive(Clone, Copy)]
struct Station {
    number: u32,
    mailbox: Span,
}

// Number and mailbox, each judged by its rule.
fn judged(line: &[u8], number: Span, mailbox: Span) -> Option<Station>
    requires number { Lies line.now number }
    requires mailbox { Lies line.now mailbox }
    ensures value { station_said line.now result ≡ header_station (read_size (part line.now number)) (part line.now mailbox) }
    ensures within { IfSome result (λ s. Lies line.now s.mailbox) }
{
    let size = read_size(&line[number.start..number.end])?;
    is_at(&line[mailbox.start..mailbox.end]).then_some(Station {
        number: size,
        mailbox,
    })
}

// Number, `@`, mailbox, remarks.
#[tactic(auto, using(crate::proofs::Laws::no_sign, crate::proofs::Laws::first_by))]
fn first_form(line: &[u8], at: usize) -> Option<Station>
    requires { at ≤ length line.now }
    ensures value { station_said line.now result ≡ first_form (drop at line.now) }
    ensures within { IfSome result (λ s. Lies line.now s.mailbox) }
{
    let sign = find_from(line, at, b'@');
    if line.len() <= sign {
        return None;
    }
    let end = find_from(line, sign + 1, b' ');
    let number = Span {
        start: at,
        end: sign,
    };
    let mailbox = Span {
        start: sign + 1,
        end,
    };
    judged(line, number, mailbox)
}

// After `@:` the mailbox, remarks, the first `#:` with the number, remarks.
#[tactic(auto, using(crate::proofs::Laws::second_by))]
fn second_form(line: &[u8], at: usize) -> Option<Station>
    requires { at ≤ length line.now }
    ensures value { station_said line.now result ≡ second_form (drop at line.now) }
    ensures within { IfSome result (λ s. Lies line.now s.mailbox) }
{
    let end = find_from(line, at, b' ');
    let start = behind_mark(line, end);
    let stop = find_from(line, start, b' ');
    judged(line, Span { start, end: stop }, Span { start: at, end })
}

// Either form.
#[tactic(auto, using(crate::proofs::Laws::as_second, crate::proofs::Laws::as_first))]
fn either_form(line: &[u8], at: usize) -> Option<Station>
    requires { at ≤ length line.now }
    ensures value { station_said line.now result ≡ station_of (drop at line.now) }
    ensures within { IfSome result (λ s. Lies line.now s.mailbox) }
{
    if begins_at(line, at, b'@', b':') {
        second_form(line, at + MARK_LENGTH)
    } else {
        first_form(line, at)
    }
}

// What follows the time: perhaps a zone, white space, and number and mailbox.
#[tactic(auto, using(crate::proofs::Laws::no_white, crate::proofs::Laws::by_station))]
fn behind_time(line: &[u8], date: Date, time: Time) -> Option<Header>
    ensures value { route_said line.now result ≡ behind_time line.now (date_is date) (time_is time) }
    ensures within { IfSome result (λ h. Lies line.now h.mailbox) }
{
    let zone = byte_at(line, STAMP_LENGTH);
    let white = past_zone(zone);
    let at = skip_white(line, white);
    if at <= white {
        return None;
    }
    let Station { number, mailbox } = either_form(line, at)?;
    Some(Header {
        date,
        time,
        gmt: is_gmt(zone),
        number,
        mailbox,
    })
}

// A time stamp stands at the line's start.
fn is_stamp(line: &[u8]) -> bool
    ensures value { result ≡ is_stamp line.now }
    ensures long { result ≡ true → STAMP_LENGTH ≤ length line.now }
{
    STAMP_LENGTH <= line.len() && begins_at(line, 0, b'R', b':') && line[SLASH] == b'/'
}

/// The header that a line is, in either form of 003; `None` where it is none.
#[tactic(auto, unfolding(route::specs::Routes::read_header))]
pub fn read(line: &[u8]) -> Option<Header>
    ensures value { route_said line.now result ≡ read_header line.now }
    ensures within { IfSome result (λ h. Lies line.now h.mailbox) }
{
    if !is_stamp(line) {
        return None;
    }
    let date = read_date(&line[DATE..SLASH])?;
    let time = read_time(&line[TIME..STAMP_LENGTH])?;
    behind_time(line, date, time)
}
