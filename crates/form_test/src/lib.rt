// The form test: whether lent memory is as an accepted open, a receive or a give leaves it.
#![tactic(auto)]

ghost use Rattle.std.specs.Prelude.{◌≡◌, is_ok, IfOk, cond, ◌&&◌, ◌+◌, ◌*◌, ◌<◌, ◌≤◌, ◌-◌, eqb, leb, length, get_or, drop};
ghost use Rattle.layout.specs.Layout.{entry_at, body_length};
ghost use Rattle.places.specs.Places.{entry_len, session_len};
ghost use Rattle.session_memory.specs.State.{held, load_of, load_sizes};
ghost use Rattle.pending.specs.Pending.{waits};
ghost use Rattle.form_test.specs.Form.{mark_ok, same_sizes, counts_ok, used_from, used_by, inbox_ok, waiting_ok, pluses, transfer_ok, is_last, closed_ok, phase_ok, lent_sizes, form_of, NextToGive};
ghost use Rattle.grammar.specs.Bytes.{byte_values, two_byte_values};
ghost use Rattle.grammar.specs.Fields.{body_max};
ghost use Rattle.entries.specs.Decoded.{place_count};
ghost use Rattle.grammar.specs.Answers.{plus_sign};

use give_place::Place;
use number_at::{eight, four, two, wide};

// The mark that open leaves as a number, the first letter the lowest byte.
const VALUES: u32 = layout::BYTE_VALUES as u32;

const FM01: u32 = b'F' as u32
    + VALUES * (b'M' as u32 + VALUES * (b'0' as u32 + VALUES * b'1' as u32));

// A message of the inbox, and where in it its body's length stands.
const ENTRY: usize = places::ENTRY as usize;

const BODY_LENGTH: usize = places::ENTRY_BODY_LEN as usize;

// "up to 64 messages"
const MESSAGES_MAX: usize = entries::MESSAGES_MAX as usize;

// So many messages' lengths are added a turn of the loop, which takes fewer instructions than one by one.
const ROUND_MESSAGES: u8 = 8;

// The longest line and the longest body.
const LINE_MAX: u16 = places::LINE_ROOM as u16;

const BODY_MAX: u32 = places::BODY_MAX as u32;

/// Lent memory fails the form test: no accepted open, receive or give leaves it so.
#[derive(Clone, Copy)]
pub struct BadForm;

// The counts are within their arrays, and the partner has a column.
#[tactic(auto, unfolding(crate::specs::Form::counts_ok, session_memory::specs::State::load_of, session_memory::specs::State::load_await, session_memory::specs::State::load_say, session_memory::specs::State::load_keep, session_memory::specs::State::load_reading, session_memory::specs::State::load_line))]
fn counts_ok(sm: &[u8]) -> bool
    requires { length sm.now ≡ session_len }
    ensures { result ≡ counts_ok (load_of sm.now) }
{
    two(sm, places::LINE_LENGTH) <= LINE_MAX
        && sm[places::OURS] <= phase::BLOCK_LIMIT
        && sm[places::SIGNS] <= phase::BLOCK_LIMIT
        && sm[places::SENDING] <= phase::BLOCK_LIMIT
        && sm[places::PROPOSALS] <= phase::BLOCK_LIMIT
        && sm[places::HEAD] <= places::HEADING_MAX
        && sm[places::PARTNER] < places::PARTNERS
}

// How many store bytes message i of the inbox uses.
fn body_length(inbox: &[u8], i: usize) -> usize
    requires { (i < byte_values) × (entry_len * (i + 1) ≤ length inbox.now) }
    ensures { (result ≡ body_length (entry_at entry_len inbox.now i)) × (result ≤ body_max) }
{
    two(inbox, ENTRY * i + BODY_LENGTH) as usize
}

// How many n messages use, from message i on.
fn used_from(inbox: &[u8], i: usize, n: u8) -> usize
    requires { (i + n < byte_values) × (entry_len * (i + n) ≤ length inbox.now) }
    ensures { (result ≡ used_from inbox.now i n) × (result ≤ body_max * n) }
{
    let mut used = 0;
    for k in 0..n {
        used += body_length(inbox, i + wide(k));
    }
    used
}

// How many store bytes the first n messages of the inbox use: rounds, and the last 0 to 7.
fn used_by(inbox: &[u8], n: u8) -> usize
    requires { entry_len * n ≤ length inbox.now }
    ensures { result ≡ used_by inbox.now n }
{
    let mut used = 0;
    for k in 0..n / ROUND_MESSAGES {
        used += used_from(inbox, wide(ROUND_MESSAGES * k), ROUND_MESSAGES);
    }
    used + used_from(inbox, wide(n - n % ROUND_MESSAGES), n % ROUND_MESSAGES)
}

// The inbox has places for n messages.
fn has_places(inbox: &[u8], n: usize) -> bool
    requires { n < two_byte_values }
    ensures { result ≡ leb n (place_count inbox.now) }
{
    ENTRY * n <= inbox.len()
}

// The inbox has at most 64 places, and the messages kept have theirs there and in the store.
#[tactic(auto, unfolding(crate::specs::Form::inbox_ok, session_memory::specs::State::load_of, session_memory::specs::State::load_keep))]
fn inbox_ok(sm: &[u8], inbox: &[u8], store: &[u8]) -> bool
    requires { length sm.now ≡ session_len }
    ensures { result ≡ inbox_ok (load_of sm.now) inbox.now store.now }
{
    let kept = sm[places::KEPT];
    let used = eight(sm, places::USED);
    inbox.len() / ENTRY <= MESSAGES_MAX
        && has_places(inbox, wide(kept))
        && used_by(inbox, kept) == used
        && used <= store.len()
}

// 1 for the sign `+`, 0 for any other byte.
fn plus(sign: u8) -> u8
    ensures { (result ≡ cond (eqb sign plus_sign) 1 0) × (result ≤ 1) }
{
    (sign == b'+') as u8
}

// How many `+` are among the signs from a place on.
fn pluses_from(sm: &[u8], from: u8) -> u8
    requires { length sm.now ≡ session_len }
    ensures { result ≡ pluses (drop from (held (load_of sm.now).say.signs)) }
{
    let mut n = 0;
    for i in from..waiting::in_use(sm[places::SIGNS]) {
        n += plus(sm[places::SIGNS + 1 + i as usize]);
    }
    n
}

// Our sign at a place; 0 past the five.
fn sign_at(sm: &[u8], i: u8) -> u8
    requires { length sm.now ≡ session_len }
    ensures { result ≡ get_or (load_of sm.now).say.signs.items i 0 }
{
    if i < phase::BLOCK_LIMIT {
        return sm[places::SIGNS + 1 + wide(i)];
    }
    0
}

// The bytes received so far of the body under way are few enough, and lie in the store after those kept.
fn body_ok(used: usize, body: u32, store: usize) -> bool
    ensures { result ≡ leb body body_max && leb (used + body) store }
{
    body <= BODY_MAX && used <= store && (body as usize) <= store - used
}

// A transfer under way is that of an accepted proposal, and it and those after it have their places and room.
#[tactic(auto, unfolding(crate::specs::Form::transfer_ok, session_memory::specs::State::load_of, session_memory::specs::State::load_await, session_memory::specs::State::load_say, session_memory::specs::State::load_keep, session_memory::specs::State::load_reading))]
fn transfer_ok(sm: &[u8], inbox: &[u8], store: &[u8]) -> bool
    requires { length sm.now ≡ session_len }
    ensures { result ≡ transfer_ok (load_of sm.now) inbox.now store.now }
{
    let current = sm[places::CURRENT];
    current < sm[places::PROPOSALS]
        && sm[places::SIGNS] == sm[places::PROPOSALS]
        && sign_at(sm, current) == b'+'
        && has_places(
            inbox,
            wide(sm[places::KEPT]) + wide(pluses_from(sm, current)),
        )
        && body_ok(eight(sm, places::USED), four(sm, places::BODY), store.len())
}

// Nothing, or a line that says why we hang up.
fn is_last(first: u8) -> bool
    ensures { result ≡ is_last first }
{
    matches!(
        first,
        phase::PIECE_NONE | phase::PIECE_PROTOCOL_ERROR | phase::PIECE_CHECKSUM_ERROR
    )
}

// A session that is closed has nothing to give but that line.
#[tactic(auto, unfolding(crate::specs::Form::closed_ok, session_memory::specs::State::load_of, session_memory::specs::State::load_await, session_memory::specs::State::load_say))]
fn closed_ok(sm: &[u8]) -> bool
    requires { length sm.now ≡ session_len }
    ensures { result ≡ closed_ok (load_of sm.now) }
{
    !phase::is_closed(sm[places::PHASE])
        || sm[places::THEN] == phase::PIECE_NONE && is_last(sm[places::FIRST])
}

// Records are being sent only in phase 3 and from phase 6 on; a transfer is under way in phase 5.
#[tactic(auto, unfolding(crate::specs::Form::phase_ok, session_memory::specs::State::load_of, session_memory::specs::State::load_await, session_memory::specs::State::load_keep))]
fn phase_ok(sm: &[u8], inbox: &[u8], store: &[u8]) -> bool
    requires { length sm.now ≡ session_len }
    ensures { result ≡ phase_ok (load_of sm.now) inbox.now store.now }
{
    let awaited = sm[places::PHASE];
    if awaited == phase::TURN {
        return true;
    }
    if phase::TRANSFER < awaited {
        return closed_ok(sm);
    }
    sm[places::SENDING] == 0 && (awaited != phase::TRANSFER || transfer_ok(sm, inbox, store))
}

// Session memory begins with the mark that open leaves, FM01.
fn mark_ok(sm: &[u8]) -> bool
    requires { length sm.now ≡ session_len }
    ensures { result ≡ mark_ok sm.now }
{
    four(sm, places::MARK) == FM01
}

// The sizes of what is lent are those that open kept.
// Stays: eight slices (reason 2: in a struct, handed on by `&`, a byte of a line takes 262 instructions in place of 243).
#[tactic(auto, unfolding(crate::specs::Form::same_sizes, session_memory::specs::State::load_sizes))]
fn sizes_ok(
    sm: &[u8],
    table: &[u8],
    titles: &[u8],
    names: &[u8],
    bodies: &[u8],
    known: &[u8],
    inbox: &[u8],
    store: &[u8],
) -> bool
    requires { length sm.now ≡ session_len }
    ensures { result ≡ same_sizes (load_sizes sm.now) (lent_sizes table.now titles.now names.now bodies.now known.now inbox.now store.now) }
{
    eight(sm, places::SIZE_TABLE) == table.len()
        && eight(sm, places::SIZE_TITLES) == titles.len()
        && eight(sm, places::SIZE_NAMES) == names.len()
        && eight(sm, places::SIZE_BODIES) == bodies.len()
        && eight(sm, places::SIZE_KNOWN) == known.len()
        && eight(sm, places::SIZE_INBOX) == inbox.len()
        && eight(sm, places::SIZE_STORE) == store.len()
}

// Session memory and what is lent beside it are those of an open: its size, the mark, the other sizes.
fn lent_ok(
    sm: &[u8],
    table: &[u8],
    titles: &[u8],
    names: &[u8],
    bodies: &[u8],
    known: &[u8],
    inbox: &[u8],
    store: &[u8],
) -> bool
    ensures { result ≡ eqb (length sm.now) session_len && (mark_ok sm.now && same_sizes (load_sizes sm.now) (lent_sizes table.now titles.now names.now bodies.now known.now inbox.now store.now)) }
{
    sm.len() == places::SESSION
        && mark_ok(sm)
        && sizes_ok(sm, table, titles, names, bodies, known, inbox, store)
}

// The state, but for what waits. Give has a copy of it: as a call, a give of our FQ takes 19 instructions more.
#[inline(always)]
fn state_ok(sm: &[u8], inbox: &[u8], store: &[u8]) -> bool
    requires { length sm.now ≡ session_len }
    ensures { result ≡ counts_ok (load_of sm.now) && (inbox_ok (load_of sm.now) inbox.now store.now && phase_ok (load_of sm.now) inbox.now store.now) }
{
    counts_ok(sm) && inbox_ok(sm, inbox, store) && phase_ok(sm, inbox, store)
}

// The same for receive, which has no copy: with one, 1,000 bytes of a plain body, received 256 at a time, take 1,900 instructions more. Slices
// are lent on as `&sm[..]`, which lets it have them in registers (docs/PERFORMANCE.md, "Slices in registers").
#[inline(never)]
fn state_called(sm: &[u8], inbox: &[u8], store: &[u8]) -> bool
    requires { length sm.now ≡ session_len }
    ensures { result ≡ counts_ok (load_of sm.now) && (inbox_ok (load_of sm.now) inbox.now store.now && phase_ok (load_of sm.now) inbox.now store.now) }
{
    state_ok(&sm[..], &inbox[..], &store[..])
}

// Something waits.
#[tactic(auto, unfolding(pending::specs::Pending::waits, session_memory::specs::State::load_of, session_memory::specs::State::load_say))]
fn is_waiting(sm: &[u8]) -> bool
    requires { length sm.now ≡ session_len }
    ensures { result ≡ waits (load_of sm.now).say }
{
    sm[places::FIRST] != phase::PIECE_NONE || sm[places::THEN] != phase::PIECE_NONE
}

// Where the next byte to give is; `None` where nothing waits. Where something waits, not all of it is given.
// Stays: the table and its stores one by one, here and in `left_ok` (reason 2: in a struct, a receive while something waits takes 607
// instructions in place of 588).
#[tactic(auto, unfolding(crate::specs::Form::waiting_ok, session_memory::specs::State::load_of, session_memory::specs::State::load_say))]
fn next_byte<'a>(
    sm: &[u8],
    table: &[u8],
    titles: &'a [u8],
    names: &'a [u8],
    bodies: &[u8],
) -> Result<Option<Place>, BadForm>
    requires { length sm.now ≡ session_len }
    ensures value { is_ok result ≡ waiting_ok (load_of sm.now) table.now titles.now names.now bodies.now }
    ensures next { IfOk result (λ next. NextToGive (load_of sm.now) table.now titles.now names.now bodies.now next) }
{
    if !is_waiting(sm) {
        return Ok(None);
    }
    match give_place::locate(eight(sm, places::POS), sm, table, titles, names, bodies) {
        Some(place) => Ok(Some(place)),
        None => Err(BadForm),
    }
}

// The same, where it doesn't matter where the next byte is.
#[tactic(auto, unfolding(crate::specs::Form::waiting_ok, session_memory::specs::State::load_of, session_memory::specs::State::load_say))]
fn left_ok<'a>(sm: &[u8], table: &[u8], titles: &'a [u8], names: &'a [u8], bodies: &[u8]) -> bool
    requires { length sm.now ≡ session_len }
    ensures { result ≡ waiting_ok (load_of sm.now) table.now titles.now names.now bodies.now }
{
    !is_waiting(sm)
        || give_place::is_left(0, eight(sm, places::POS), sm, table, titles, names, bodies)
}

/// The form test, and where the next byte to give is: `None` where nothing waits. Its slices are those of the call, in its order.
#[tactic(auto, unfolding(crate::specs::Form::form_of, crate::specs::Form::state_ok))]
pub fn test<'a>(
    sm: &[u8],
    table: &[u8],
    titles: &'a [u8],
    names: &'a [u8],
    bodies: &[u8],
    known: &[u8],
    inbox: &[u8],
    store: &[u8],
) -> Result<Option<Place>, BadForm>
    ensures value { is_ok result ≡ form_of sm.now table.now titles.now names.now bodies.now known.now inbox.now store.now }
    ensures next { IfOk result (λ next. NextToGive (load_of sm.now) table.now titles.now names.now bodies.now next) }
{
    if !lent_ok(sm, table, titles, names, bodies, known, inbox, store)
        || !state_ok(sm, inbox, store)
    {
        return Err(BadForm);
    }
    next_byte(sm, table, titles, names, bodies)
}

/// The form test: lent memory is as an accepted open, a receive or a give leaves it. Its slices are those of the call, in its order.
#[tactic(auto, unfolding(crate::specs::Form::form_of, crate::specs::Form::state_ok))]
pub fn form<'a>(
    sm: &[u8],
    table: &[u8],
    titles: &'a [u8],
    names: &'a [u8],
    bodies: &[u8],
    known: &[u8],
    inbox: &[u8],
    store: &[u8],
) -> bool
    ensures { result ≡ form_of sm.now table.now titles.now names.now bodies.now known.now inbox.now store.now }
{
    lent_ok(sm, table, titles, names, bodies, known, inbox, store)
        && state_called(sm, inbox, store)
        && left_ok(sm, table, titles, names, bodies)
}
