//! Our routing header, written with its CR in front of a body into a second buffer.
#![tactic(auto)]

ghost use Rattle.std.specs.Prelude.{◌≡◌, true, [], ◌∷◌, ◌++◌, ◌<◌};
ghost use Rattle.grammar.specs.Bytes.{CR};
ghost use Rattle.buffer.specs.Put.{Takes};
ghost use Rattle.calendar.specs.Meaning.{date_is, time_is};
ghost use Rattle.route.specs.Written.{number_limit, may_write, stamp_text, route_line, add_route};
ghost use Rattle.route_write.specs.Meaning.{line_length, ours_is, added_is};

use buffer::Writer;
use calendar::{Date, Time};
use date_digits::{date_text, time_text};
use decimal::digits;
use field::is_at;

// A number has nine digits at most.
const NUMBER_LIMIT: u32 = 1000000000;

const BODY_MAX: usize = places::BODY_MAX as usize;

// What our line has beside its number and mailbox: the stamp with `z` and a space, `@`, CR.
const FIXED_LENGTH: usize = STAMP + 2;

// The stamp with `z` and a space.
const STAMP: usize = 15;

/// What our header says: a time in GMT, a number of 1 to 9 digits, and a mailbox by 01's at rule. Any values: whether they may be written says `add_route`.
#[derive(Clone, Copy)]
pub struct OurHeader<'a> {
    pub date: Date,
    pub time: Time,
    pub number: u32,
    pub mailbox: &'a [u8],
}

/// Why nothing is written.
#[derive(Clone, Copy, Debug, PartialEq, Eq)]
pub enum Refused {
    /// A field or time outside the rules.
    BadField,
    /// The buffer is too short, or line and body have more than 65,535 bytes.
    NoRoom,
}

impl OurHeader<'_> {
    // A time and fields within the rules.
    #[tactic(auto, unfolding(route::specs::Written::may_write))]
    fn may_write(&self) -> bool
        ensures { result ≡ may_write (ours_is self.now) }
    {
        self.date.is_valid()
            && self.time.is_valid()
            && self.number < NUMBER_LIMIT
            && is_at(self.mailbox)
    }

    // How many bytes our line has, its CR included.
    fn line_length(&self) -> usize
        requires { self.now.number < number_limit }
        ensures { result ≡ line_length self.now.number self.now.mailbox.now }
    {
        FIXED_LENGTH + digits(self.number).len() + self.mailbox.len()
    }

    // Our line and its CR.
    fn put(&self, w: &mut Writer)
        requires { self.now.number < number_limit }
        ensures { Takes w.old (route_line (ours_is self.now) ++ (CR ∷ [])) w.new }
    {
        let d = digits(self.number);
        w.put(&stamp_text(self.date, self.time));
        w.put(d.as_bytes());
        w.put_byte(b'@');
        w.put_line(self.mailbox);
    }
}

// The stamp in GMT and a space.
fn stamp_text(date: Date, time: Time) -> [u8; STAMP]
    ensures { result ≡ stamp_text (date_is date) (time_is time) }
{
    let d = date_text(date);
    let t = time_text(time);
    [
        b'R', b':', d[0], d[1], d[2], d[3], d[4], d[5], b'/', t[0], t[1], t[2], t[3], b'z', b' ',
    ]
}

/// Our line in front of a body, at the start of out: how many bytes that is. No other byte of out changes, and none where it is refused.
pub fn add_route(out: &mut [u8], header: &OurHeader, body: &[u8]) -> Result<usize, Refused>
    ensures { added_is result out.new ≡ add_route out.old (ours_is header.now) body.now }
{
    if !header.may_write() {
        return Err(Refused::BadField);
    }
    if BODY_MAX < body.len() {
        return Err(Refused::NoRoom);
    }
    let whole = header.line_length() + body.len();
    if BODY_MAX < whole {
        return Err(Refused::NoRoom);
    }
    if out.len() < whole {
        return Err(Refused::NoRoom);
    }
    let mut w = Writer::new(out, 0, 0);
    header.put(&mut w);
    w.put(body);
    Ok(whole)
}
