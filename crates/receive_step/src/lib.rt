// What receive takes at once: a byte of a line, or the run of a transfer's bytes; with its last byte the message is kept.
#![tactic(auto)]

ghost use Rattle.std.specs.Prelude.{◌≡◌, [], length};
ghost use Rattle.phase.specs.Phase.{phase_transfer};
ghost use Rattle.places.specs.Places.{arrays_len};
ghost use Rattle.numbers.specs.Whole.{whole_of};
ghost use Rattle.receive_defined.specs.Receiving.{cs, run_with};
ghost use Rattle.receive_defined.specs.Portion.{transfer_portion_of, portion_of};
ghost use Rattle.receive_defined.specs.Roomy.{Roomy, Underway};
ghost use Rattle.refusal.specs.Numbers.{refusal_number};
ghost use Rattle.transfer_step.specs.Told.{refused_number};
ghost use Rattle.transfer_read.specs.Told.{outcome_of_reached};
ghost use Rattle.settling.specs.Answer.{answer_of};
ghost use Rattle.receive_step.specs.Parts.{taken, ReadOn, Leaves};

use numbers::Numbers;
use refusal::Refusal;
use transfer_read::{Fed, Reached};
use transfer_step::Refused;

// Whether bytes were refused, and how many were taken, a refused one included.
#[derive(Drop)]
pub struct Taken {
    pub end: Result<(), Refusal>,
    pub count: usize,
}

// So many bytes were taken.
fn took(end: Result<(), Refusal>, count: usize) -> Taken
    ensures { result ≡ taken end count }
{
    Taken { end, count }
}

// Why a transfer is refused.
fn refusal_of(why: Refused) -> Refusal
    ensures { refusal_number result ≡ refused_number why }
{
    match why {
        Refused::Malformed => Refusal::BadTransfer,
        Refused::WrongSum => Refusal::BadChecksum,
        Refused::NoRoom => Refusal::StoreFull,
    }
}

// What a transfer's bytes leave, by what they came to. mem: the state's arrays.
fn moved(
    outcome: Result<Reached, Refused>,
    s: &mut Numbers,
    mem: &[u8],
    table: &mut [u8],
    inbox: &mut [u8],
) -> Result<(), Refusal>
    requires { Underway s.old × (length mem.now ≡ arrays_len) }
    ensures { Leaves (outcome_of_reached outcome) s.old mem.now table.old inbox.old (answer_of result) s.new table.new inbox.new }
{
    match outcome {
        Ok(Reached::More) => Ok(()),
        Ok(Reached::Whole) => kept_message::keep_message(s, mem, inbox, table),
        Err(why) => {
            let refusal = refusal_of(why);
            settling::refuse(s, u8::from(refusal));
            Err(refusal)
        }
    }
}

// A transfer's bytes, read to its end or theirs; the heading goes to its place, the body behind those kept.
fn read_on(s: &mut Numbers, input: &[u8], mem: &mut [u8], store: &mut [u8]) -> Fed
    requires { Roomy s.old (length store.old) × (length mem.old ≡ arrays_len) }
    ensures { ReadOn (cs (whole_of s.old mem.old) [] [] store.old) input.now result s.new mem.new store.new }
{
    s.line.after_cr = false; // an LF is the transfer's own
    transfer_read::feed(
        &mut s.reader,
        input,
        &mut mem[places::HEADING..places::LINE],
        &mut store[s.keep.used..],
    )
}

// The run of a transfer's bytes.
fn transfer_run(
    s: &mut Numbers,
    input: &[u8],
    mem: &mut [u8],
    table: &mut [u8],
    inbox: &mut [u8],
    store: &mut [u8],
) -> Taken
    requires { Roomy s.old (length store.old) × (s.old.now.phase ≡ phase_transfer) × (length mem.old ≡ arrays_len) }
    ensures { run_with (answer_of result.end) result.count (cs (whole_of s.new mem.new) table.new inbox.new store.new) ≡ transfer_portion_of (cs (whole_of s.old mem.old) table.old inbox.old store.old) input.now }
{
    let fed = read_on(s, input, mem, store);
    let end = moved(fed.outcome, s, mem, table, inbox);
    took(end, fed.count)
}

// The next byte, or the run of a transfer's bytes. In 01's order: a dropped LF, 11, then the rule of the transfer or the line. mem: the
// state's arrays.
pub fn step(
    s: &mut Numbers,
    input: &[u8],
    mem: &mut [u8],
    table: &mut [u8],
    known: &[u8],
    inbox: &mut [u8],
    store: &mut [u8],
) -> Taken
    requires { Roomy s.old (length store.old) × (length mem.old ≡ arrays_len) }
    ensures { run_with (answer_of result.end) result.count (cs (whole_of s.new mem.new) table.new inbox.new store.new) ≡ portion_of known.now (cs (whole_of s.old mem.old) table.old inbox.old store.old) input.now }
{
    if input.len() == 0 {
        return took(Ok(()), 0);
    }
    let b = input[0];
    if byte_run::is_dropped(s.line.after_cr, b) {
        s.line.after_cr = false;
        return took(Ok(()), 1);
    }
    if pending::is_waiting(s.say) {
        settling::refuse(s, Refusal::BytesWait as u8);
        return took(Err(Refusal::BytesWait), 1);
    }
    if s.now.phase == phase::TRANSFER {
        return transfer_run(s, input, mem, table, inbox, store);
    }
    let end = line_byte::line_byte(s, b, mem, table, known, inbox, store.len());
    took(end, 1)
}
