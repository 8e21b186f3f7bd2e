// The call give.
#![tactic(auto)]

ghost use Rattle.std.specs.Prelude.{◌≡◌, length, drop};
ghost use Rattle.grammar.specs.Refusals.{bad_memory, no_place};
ghost use Rattle.places.specs.Places.{session_len};
ghost use Rattle.session_memory.specs.State.{load_of, save_of};
ghost use Rattle.waiting.specs.Waiting.{waiting_of};
ghost use Rattle.waiting.specs.Pieces.{pieces_joined, pieces_of};
ghost use Rattle.buffer.specs.Put.{Puts, cursor};
ghost use Rattle.give_place.specs.Located.{PlaceOfByte};
ghost use Rattle.give.specs.Giving.{reply, Hands, left_of, give_of};

use buffer::{Cursor, Writer};
use give_place::Place;
use number_at::eight;
use numbers_in_place::put_pieces;
use refusal::Refusal;

// What a call answers: 01's number, the place of a bad record (255: none; 0 but for number 1), the bytes dealt with.
#[repr(C)]
#[derive(Drop)]
pub struct Reply {
    pub answer: u8,
    pub place: u8,
    pub count: usize,
}

// How many bytes a give gives, how many are given then in all, and whether more are left.
#[derive(Drop)]
struct Handout {
    count: usize,
    pos: usize,
    left: bool,
}

// No record is bad.
pub const NO_PLACE: u8 = refusal::NO_PLACE;

// Answer 0 with this count.
fn given(count: usize) -> Reply
    ensures { result ≡ reply 0 0 count }
{
    Reply {
        answer: refusal::NONE,
        place: 0,
        count: count,
    }
}

// Answer 1: the memory fails the form test.
fn bad() -> Reply
    ensures { result ≡ reply bad_memory no_place 0 }
{
    Reply {
        answer: Refusal::BadMemory as u8,
        place: NO_PLACE,
        count: 0,
    }
}

// The pieces from p's on, without those of its bytes that are given, into buf from a place on.
fn write<'a>(
    buf: &mut [u8],
    place: usize,
    p: &Place,
    sm: &[u8],
    table: &[u8],
    titles: &'a [u8],
    names: &'a [u8],
    bodies: &[u8],
) -> Cursor
    requires { length sm.now ≡ session_len }
    ensures { Puts buf.old (cursor place p.now.offset) (pieces_joined (drop p.now.piece (pieces_of (load_of sm.now) table.now titles.now names.now bodies.now))) result buf.new }
{
    let mut w = Writer::new(buf, place, p.offset);
    waiting_write::write_from(&mut w, p.piece, sm, table, titles, names, bodies);
    w.cursor
}

// Writes what waits from a place in it on into buf, as far as it fits.
fn hand<'a>(
    buf: &mut [u8],
    place: usize,
    p: Place,
    sm: &[u8],
    table: &[u8],
    titles: &'a [u8],
    names: &'a [u8],
    bodies: &[u8],
) -> Handout
    requires { (length sm.now ≡ session_len) × PlaceOfByte (pieces_of (load_of sm.now) table.now titles.now names.now bodies.now) (load_of sm.now).say.pos p }
    ensures { Hands (load_of sm.now) (waiting_of (load_of sm.now) table.now titles.now names.now bodies.now) buf.old place result buf.new }
{
    let d = write(buf, place, &p, sm, table, titles, names, bodies);
    let at = d.at;
    let count = at - place;
    let pos = eight(sm, places::POS) + count;
    let given = p.offset + count;
    if given < p.length {
        return Handout {
            count: count,
            pos: pos,
            left: true,
        };
    }
    if at < buf.len() {
        return Handout {
            count: count,
            pos: pos,
            left: false,
        };
    }
    Handout {
        count: count,
        pos: pos,
        left: give_place::is_left(p.piece, given, sm, table, titles, names, bodies),
    }
}

// In session memory: pos bytes are given and more are left, or nothing waits.
fn keep(sm: &mut [u8], left: bool, pos: usize)
    requires { length sm.old ≡ session_len }
    ensures { sm.new ≡ save_of sm.old (left_of left pos (load_of sm.old)) }
{
    if left {
        let first = sm[places::FIRST];
        let then = sm[places::THEN];
        put_pieces(sm, first, then, pos);
        return;
    }
    put_pieces(sm, phase::PIECE_NONE, phase::PIECE_NONE, 0);
}

// Hands out as many waiting bytes as fit into buf from place on.
pub fn give<'a>(
    sm: &mut [u8],
    table: &[u8],
    titles: &'a [u8],
    names: &'a [u8],
    bodies: &[u8],
    known: &[u8],
    inbox: &[u8],
    store: &[u8],
    buf: &mut [u8],
    place: usize,
) -> Reply
    ensures { record { reply = result; sm = sm.new; buf = buf.new } ≡ give_of sm.old table.now titles.now names.now bodies.now known.now inbox.now store.now buf.old place }
{
    let Ok(next) = form_test::test(sm, table, titles, names, bodies, known, inbox, store) else {
        return bad();
    };
    let Some(p) = next else {
        return given(0);
    };
    if buf.len() <= place {
        return given(0);
    }
    let h = hand(buf, place, p, sm, table, titles, names, bodies);
    keep(sm, h.left, h.pos);
    given(h.count)
}
