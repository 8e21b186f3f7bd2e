// A transfer read byte by byte, in any portions, into lent memory: its heading into an array of 80 bytes, its body into a store.
#![tactic(auto)]

ghost use Rattle.std.specs.Prelude.{◌≡◌, ◌+◌, ◌≤◌, ◌==◌, min, [], ◌∷◌, length, slice_set};
ghost use Rattle.std.specs.List.{position};
ghost use Rattle.std.proofs.lemmas.List.Edits.{sets};
ghost use Rattle.transfer_step.specs.Names.{data_place};
ghost use Rattle.transfer_step.specs.Step.{goes_on};
ghost use Rattle.transfer_read.specs.Straight.{before_mark, straight_of, along};
ghost use Rattle.transfer_read.specs.Feed.{heading_put, store_put, room_of, feed_of, portion_read};
ghost use Rattle.transfer_read.specs.Told.{goes_to, outcome_of_reached, fed_portion, ByteRead, RanOn};
ghost use Rattle.grammar.specs.Bytes.{CTRLZ};
ghost use Rattle.grammar.specs.Fields.{body_max};

use transfer_step::{CTRL_Z, Place, Put, Reader, Refused};

// The most bytes of a body.
const BODY_MAX: usize = places::BODY_MAX as usize;

/// What bytes that aren't refused come to: a transfer that goes on, or all of it.
#[derive(Clone, Copy, PartialEq, Eq)]
pub enum Reached {
    More,
    Whole,
}

/// A portion's outcome, and how many of its bytes were read, a refused one and the last one of a transfer included.
#[derive(Clone, Copy)]
pub struct Fed {
    pub outcome: Result<Reached, Refused>,
    pub count: usize,
}

// Puts the byte at a place; nothing where that is past the end.
#[tactic(auto, using(crate::proofs::Laws::set_past_end))]
fn put_at(buf: &mut [u8], at: usize, b: u8)
    ensures { buf.new ≡ slice_set buf.old at b }
{
    if at < buf.len() {
        buf[at] = b;
    }
}

// Stores the byte where it goes, at the place that the reading before it says.
#[tactic(auto, unfolding(crate::specs::Feed::heading_put, crate::specs::Feed::store_put))]
fn keep(put: Put, before: Reader, b: u8, heading: &mut [u8], store: &mut [u8])
    ensures heading { heading.new ≡ heading_put (goes_to put) before b heading.old }
    ensures store { store.new ≡ store_put (goes_to put) before b store.old }
{
    match put {
        Put::Heading => put_at(heading, before.head as usize, b),
        Put::Body => put_at(store, before.body as usize, b),
        Put::Nowhere | Put::Whole => {}
    }
}

// Reads one byte, and stores it where it goes.
#[tactic(auto, unfolding(crate::specs::Feed::heading_put, crate::specs::Feed::store_put))]
fn read_byte(
    r: &mut Reader,
    b: u8,
    room: u32,
    heading: &mut [u8],
    store: &mut [u8],
) -> Result<Reached, Refused>
    ensures { ByteRead room b r.old r.new (outcome_of_reached result) heading.old heading.new store.old store.new }
{
    let before = *r;
    let put = r.step(b, room)?;
    keep(put, before, b, heading, store);
    match put {
        Put::Whole => Ok(Reached::Whole),
        _ => Ok(Reached::More),
    }
}

// Whether the reading goes on.
fn goes_on(outcome: Result<Reached, Refused>) -> bool
    ensures { result ≡ goes_on (outcome_of_reached outcome) }
{
    matches!(outcome, Ok(Reached::More))
}

// How many bytes a store of this size takes of a body.
fn room_of(size: usize) -> u32
    ensures { result ≡ min size body_max }
{
    size.min(BODY_MAX) as u32
}

// Where the first 0x1A stands.
fn first_mark(s: &[u8]) -> Option<usize>
    ensures { result ≡ position (λ b. b == CTRLZ) s.now }
{
    s.iter().position(|b| *b == CTRL_Z)
}

// How many bytes stand before the first 0x1A; all of them where there is none.
#[tactic(auto, using(crate::proofs::Runs::mark_found))]
fn before_mark(s: &[u8]) -> usize
    ensures { result ≡ before_mark s.now }
{
    first_mark(s).unwrap_or(s.len())
}

// How many of the bytes at hand go to the body as they come: those of a block, or those before 0x1A, and no more than fit.
#[tactic(auto, unfolding(crate::specs::Straight::straight_of))]
fn straight(r: Reader, rest: &[u8], room: u32) -> usize
    ensures { result ≡ straight_of room r rest.now }
{
    if room <= r.body {
        return 0;
    }
    let most = ((room - r.body) as usize).min(rest.len());
    match Place::from(r.place) {
        Place::Data => (r.left as usize).min(most),
        Place::Body => before_mark(&rest[..most]),
        _ => 0,
    }
}

// Stores such bytes, and reads on past them.
#[tactic(auto, using(crate::proofs::Runs::put_is_sets), unfolding(crate::specs::Straight::along))]
fn carry(r: &mut Reader, bytes: &[u8], store: &mut [u8])
    requires { (r.old.body + length bytes.now ≤ room_of store.old) × (r.old.place ≡ data_place → length bytes.now ≤ r.old.left) }
    ensures reader { r.new ≡ along r.old bytes.now }
    ensures store { store.new ≡ sets store.old r.old.body bytes.now }
{
    buffer::put_whole(store, r.body as usize, bytes);
    let n = bytes.len();
    r.body += n as u32;
    if matches!(Place::from(r.place), Place::Data) {
        r.left -= n as u16;
        r.sum = r.sum.wrapping_add(checksum::sum(bytes));
    }
}

// The same for one such byte. Stays beside `carry` for speed: most links bring bytes one by one, and the loops that many need cost more.
#[tactic(auto, unfolding(crate::specs::Straight::along))]
fn carry_byte(r: &mut Reader, b: u8, store: &mut [u8])
    requires { (r.old.body + 1 ≤ room_of store.old) × (r.old.place ≡ data_place → 1 ≤ r.old.left) }
    ensures reader { r.new ≡ along r.old (b ∷ []) }
    ensures store { store.new ≡ sets store.old r.old.body (b ∷ []) }
{
    store[r.body as usize] = b;
    r.body += 1;
    if matches!(Place::from(r.place), Place::Data) {
        r.left -= 1;
        r.sum = r.sum.wrapping_add(b);
    }
}

/// Reads a portion, up to its end or an outcome. The heading goes to `heading`, the body to `store`, of which it takes 65,535 bytes at most.
pub fn feed(r: &mut Reader, input: &[u8], heading: &mut [u8], store: &mut [u8]) -> Fed
    ensures { portion_read (fed_portion result r.new) heading.new store.new ≡ feed_of (room_of store.old) r.old input.now heading.old store.old }
{
    let room = room_of(store.len());
    let mut i = 0;
    // Stays a `while`: a turn takes one byte, or all that go to the body as they come.
    while i < input.len() {
        let n = straight(*r, &input[i..], room);
        if 0 < n {
            let end = i + n;
            carry(r, &input[i..end], store);
            i = end;
            continue;
        }
        let outcome = read_byte(r, input[i], room, heading, store);
        i += 1;
        if !goes_on(outcome) {
            return Fed { outcome, count: i };
        }
    }
    Fed {
        outcome: Ok(Reached::More),
        count: i,
    }
}

/// Stores bytes that all go to the body as they come, at once: the reading after them. Where one of them doesn't, none is stored.
pub fn run_on(r: Reader, bytes: &[u8], store: &mut [u8]) -> Option<Reader>
    ensures { RanOn result r bytes.now store.old store.new }
{
    let n = straight(r, bytes, room_of(store.len()));
    if n == 0 || n < bytes.len() {
        return None;
    }
    let mut next = r;
    if bytes.len() == 1 {
        carry_byte(&mut next, bytes[0], store);
    } else {
        carry(&mut next, bytes, store);
    }
    Some(next)
}
