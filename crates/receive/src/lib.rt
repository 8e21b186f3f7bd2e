// The call receive.
#![tactic(auto)]

ghost use Rattle.std.specs.Prelude.{◌≡◌, length};
ghost use Rattle.places.specs.Places.{arrays_len};
ghost use Rattle.session_memory.specs.State.{load_of};
ghost use Rattle.numbers.specs.Whole.{whole_of};
ghost use Rattle.give.specs.Giving.{reply};
ghost use Rattle.receive_defined.specs.Receiving.{cs, run_with, receive_from, saved, receive_of};
ghost use Rattle.byte_run.specs.Taking.{TakesBytes};
ghost use Rattle.settling.specs.Answer.{answer_of};
ghost use Rattle.receive.specs.Sound.{FormHolds};

use give::Reply;
use numbers::Numbers;
use receive_step::Taken;
use refusal::Refusal;

// How bytes ended, by 01's number: the one place where receive makes a refusal the number that a host reads.
fn number(end: Result<(), Refusal>) -> u8
    ensures { result ≡ answer_of end }
{
    match end {
        Ok(()) => refusal::NONE,
        Err(why) => u8::from(why),
    }
}

// What is answered.
fn reply(end: Result<(), Refusal>, place: u8, count: usize) -> Reply
    ensures { result ≡ reply (answer_of end) place count }
{
    Reply {
        answer: number(end),
        place,
        count,
    }
}

// Takes bytes portion after portion, until one is refused, the session is over or they end. mem: the state's arrays.
fn take_bytes(
    s: &mut Numbers,
    bytes: &[u8],
    mem: &mut [u8],
    table: &mut [u8],
    known: &[u8],
    inbox: &mut [u8],
    store: &mut [u8],
) -> Taken
    requires { FormHolds (cs (whole_of s.old mem.old) table.old inbox.old store.old) × (length mem.old ≡ arrays_len) }
    ensures { run_with (answer_of result.end) result.count (cs (whole_of s.new mem.new) table.new inbox.new store.new) ≡ receive_from known.now (cs (whole_of s.old mem.old) table.old inbox.old store.old) 0 bytes.now }
{
    let mut count = 0;
    while count < bytes.len() {
        let portion = receive_step::step(s, &bytes[count..], mem, table, known, inbox, store);
        count += portion.count;
        let end = portion.end;
        if end.is_err() || pending::is_over(*s) {
            return Taken { end, count };
        }
    }
    Taken { end: Ok(()), count }
}

// Takes bytes, with the arrays where they stand, and saves the numbers after them. s: the numbers in session memory.
fn take_all(
    s: &mut Numbers,
    bytes: &[u8],
    sm: &mut [u8],
    table: &mut [u8],
    known: &[u8],
    inbox: &mut [u8],
    store: &mut [u8],
) -> Reply
    requires { TakesBytes s.old sm.old bytes.now × FormHolds (cs (load_of sm.old) table.old inbox.old store.old) }
    ensures { record { reply = result; sm = sm.new; table = table.new; inbox = inbox.new; store = store.new } ≡ saved sm.old (receive_from known.now (cs (load_of sm.old) table.old inbox.old store.old) 0 bytes.now) }
{
    let mem = &mut sm[places::ARRAYS..places::ARRAYS_END];
    let taken = take_bytes(s, bytes, mem, table, known, inbox, store);
    numbers::save(sm, *s);
    reply(taken.end, 0, taken.count)
}

// Takes bytes from the link.
pub fn receive<'a>(
    sm: &mut [u8],
    table: &mut [u8],
    titles: &'a [u8],
    names: &'a [u8],
    bodies: &[u8],
    known: &[u8],
    inbox: &mut [u8],
    store: &mut [u8],
    bytes: &[u8],
) -> Reply
    ensures { record { reply = result; sm = sm.new; table = table.new; inbox = inbox.new; store = store.new } ≡ receive_of sm.old table.old titles.now names.now bodies.now known.now inbox.old store.old bytes.now }
{
    if !form_test::form(sm, table, titles, names, bodies, known, inbox, store) {
        return reply(Err(Refusal::BadMemory), refusal::NO_PLACE, 0);
    }
    let s = numbers::load(sm);
    if pending::is_over(s) {
        return reply(Err(Refusal::SessionEnded), 0, 0);
    }
    if bytes.len() == 0 {
        return reply(Ok(()), 0, 0);
    }
    if byte_run::take_run(s, bytes, sm, store) {
        return reply(Ok(()), 0, bytes.len());
    }
    // loaded again, so that bytes that are taken there don't pay for all of them
    let mut all = numbers::load(sm);
    take_all(&mut all, bytes, sm, table, known, inbox, store)
}
