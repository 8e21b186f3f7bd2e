// The FS line on our proposals: what is sent, what is declined, what is deferred.
#![tactic(auto)]

ghost use Rattle.std.specs.Prelude.{◌≡◌, Ok, set};
ghost use Rattle.grammar.specs.Answers.{accept, decline, defer, write_sign};
ghost use Rattle.numbers.specs.Whole.{Arrays, with_deferred, session_of};
ghost use Rattle.session_memory.specs.State.{held, five_of};
ghost use Rattle.fs_line.specs.Answers.{no_answer_number};
ghost use Rattle.refusal.specs.Numbers.{refusal_number};
ghost use Rattle.fs_effect.specs.Signs.{RoomForOne, answered_by};
ghost use Rattle.line_effect.specs.Judge.{picked, flagged, transfers_after, answer_taken, answer_line};
ghost use Rattle.line_effect.specs.Verdict.{judged_of};
ghost use Rattle.phase.specs.Phase.{was_deferred};

use five::{add, count_of, in_use, none};
use fs_line::{NoAnswer, Sign, sign_of};
use line_effect::{Marks, Turn, Verdict};
use next_awaited::to_turn;
use numbers::Numbers;
use refusal::Refusal;
use session_memory::{Five, Say};

// The most proposals of a block, as a length.
const BLOCK_LIMIT: usize = phase::BLOCK_LIMIT as usize;

// The places of our records by the partner's answers to them, in order.
#[derive(Drop)]
struct Answered {
    accepted: Five,
    declined: Five,
    deferred: Five,
}

// A place more where its sign belongs: `+` accept, `-` decline, `=` defer; no other byte is a sign.
#[tactic(auto, using(crate::proofs::Laws::by_sign))]
fn answered_by(a: &mut Answered, sign: u8, place: u8)
    requires { RoomForOne a.old.accepted × RoomForOne a.old.declined × RoomForOne a.old.deferred }
    ensures { a.new ≡ answered_by a.old sign place }
{
    match sign_of(sign) {
        Some(Sign::Accept) => a.accepted = add(a.accepted, place),
        Some(Sign::Decline) => a.declined = add(a.declined, place),
        Some(Sign::Defer) => a.deferred = add(a.deferred, place),
        None => {}
    }
}

// All places by their signs.
fn by_signs(ours: Five, signs: [u8; BLOCK_LIMIT]) -> Answered
    ensures { (result.accepted ≡ five_of (picked (write_sign accept) (held ours) signs)) × (result.declined ≡ five_of (picked (write_sign decline) (held ours) signs)) × (result.deferred ≡ five_of (picked (write_sign defer) (held ours) signs)) }
{
    let mut a = Answered {
        accepted: none(),
        declined: none(),
        deferred: none(),
    };
    for i in 0..count_of(ours) {
        answered_by(&mut a, signs[i], ours.items[i]);
    }
    a
}

// A record is flagged as deferred; a place past the flags has none.
fn flag_at(deferred: &mut [u8], place: u8)
    ensures { deferred.new ≡ set deferred.old place was_deferred }
{
    let p = place as usize;
    if p < deferred.len() {
        deferred[p] = phase::WAS_DEFERRED;
    }
}

// The records at these places are flagged as deferred.
fn deferring(deferred: &mut [u8], places: Five)
    ensures { deferred.new ≡ flagged (held places) deferred.old }
{
    for place in in_use(&places) {
        flag_at(deferred, *place);
    }
}

// Our transfers are said where there are any.
fn transfers_after(sending: Five, say: &mut Say)
    ensures { say.new ≡ transfers_after sending say.old }
{
    if 0 < sending.count {
        say.then = phase::PIECE_TRANSFERS;
    }
}

// The signs of a right FS line: accepted records are sent, declined ones marked, deferred ones flagged.
fn answer_taken(signs: [u8; BLOCK_LIMIT], s: &mut Numbers, deferred: &mut [u8]) -> Verdict
    ensures { (a : Arrays) → judged_of (Ok result) s.new (with_deferred deferred.new a) ≡ answer_taken signs (session_of s.old (with_deferred deferred.old a)) }
{
    let answered = by_signs(s.now.ours, signs);
    deferring(deferred, answered.deferred);
    to_turn(&mut s.now, false);
    transfers_after(answered.accepted, &mut s.say);
    s.keep.sending = answered.accepted;
    Verdict {
        turn: Turn::Theirs,
        marks: Marks {
            state: phase::STATE_DECLINED,
            places: answered.declined,
            deferred: answered.deferred.count,
        },
    }
}

// Why a line that is no answer is refused.
fn refused(cause: NoAnswer) -> Refusal
    ensures { refusal_number result ≡ no_answer_number cause }
{
    match cause {
        NoAnswer::OtherLine => Refusal::LineNotAllowed,
        NoAnswer::WrongAnswer => Refusal::BadAnswer,
    }
}

// The FS line on our proposals; deferred are the flags of deferred records.
pub fn answer_line(line: &[u8], s: &mut Numbers, deferred: &mut [u8]) -> Result<Verdict, Refusal>
    ensures { (a : Arrays) → judged_of result s.new (with_deferred deferred.new a) ≡ answer_line line.now (session_of s.old (with_deferred deferred.old a)) }
{
    match fs_line::read_fs(line, s.now.ours.count as usize, s.keep.terms.level) {
        Ok(signs) => Ok(answer_taken(signs, s, deferred)),
        Err(cause) => Err(refused(cause)),
    }
}
