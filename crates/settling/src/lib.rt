// What a whole line or message leaves: marks in the table, our turn, or a session that is over.
#![tactic(auto)]

ghost use Rattle.std.specs.Prelude.{◌≡◌, length};
ghost use Rattle.grammar.specs.Bytes.{Bytes};
ghost use Rattle.places.specs.Places.{arrays_len};
ghost use Rattle.numbers.specs.Whole.{Arrays, await_of, whole_of};
ghost use Rattle.line_effect.specs.Judge.{judged};
ghost use Rattle.line_effect.specs.Verdict.{judged_in};
ghost use Rattle.receive_defined.specs.Receiving.{refused_of, line_done, settle_of};
ghost use Rattle.receive_defined.specs.Tallied.{sheet_marked, proposes_of, recounted_of};
ghost use Rattle.settling.specs.After.{after_line};
ghost use Rattle.settling.specs.Answer.{answer_of};

use line_effect::{Marks, Verdict};
use marking::mark_all;
use numbers::{AwaitNumbers, Numbers};
use our_turn::speak;
use refusal::Refusal;
use session_memory::Tally;
use sheet::Sheet;

// What a line comes to in numbers, whatever they are: 01's number, or 0 with whose turn it then is, by `phase`, and the marks to set.
#[derive(Clone, Copy)]
pub struct Numbered {
    // Stays: numbers beside `Result<Verdict, Refusal>`, since `settle` answered for every number and docs/CONFORMANCE.md names it.
    pub answer: u8,
    pub speaks: u8,
    pub marks: Marks,
}

// The session is over: the line that says why waits, and nothing else. answer: 01's number of the refusal.
#[tactic(auto, unfolding(numbers::specs::Whole::whole_of, receive_defined::specs::Receiving::refused_of))]
pub fn refuse(s: &mut Numbers, answer: u8)
    ensures { (m : Bytes) → whole_of s.new m ≡ refused_of answer (whole_of s.old m) }
{
    s.now.phase = phase::OVER;
    s.say.first = pending::error_piece(answer);
    s.say.then = phase::PIECE_NONE;
    s.say.pos = 0;
    s.line.len = 0;
    s.line.after_cr = false;
}

// What is said is not given yet, and a new line begins.
fn after_line(s: &mut Numbers, after_cr: bool)
    ensures { s.new ≡ after_line s.old after_cr }
{
    s.say.pos = 0;
    s.line.len = 0;
    s.line.after_cr = after_cr;
}

// The marks of a line on the sheet: what was being sent is forwarded, or the FS line declined and deferred so many.
fn mark_sheet(sheet: &mut Sheet, marks: Marks)
    ensures { sheet.new ≡ sheet_marked sheet.old marks }
{
    if marks.state == phase::STATE_FORWARDED {
        sheet.note_forwarded(marks.places.count);
    } else if marks.state == phase::STATE_DECLINED {
        sheet.note_declined(marks.places.count);
        sheet.note_deferred(marks.deferred);
    }
}

// How many records our turn proposes: those on which an FS line is awaited, where it was our turn.
fn proposes(speaks: u8, awaited: AwaitNumbers) -> u8
    ensures { (a : Arrays) → result ≡ proposes_of speaks (await_of awaited a) }
{
    if speaks == phase::NOT_OUR_TURN || awaited.phase != phase::FS {
        0
    } else {
        awaited.ours.count
    }
}

// What waits is counted anew where records were marked.
fn recount(tally: &mut Tally, marks: Marks, partner: u8, table: &[u8])
    ensures { tally.new ≡ recounted_of tally.old marks partner table.now tally.old.sheet }
{
    if marks.places.count != 0 {
        *tally = tally::counted(partner, table, tally.sheet);
    }
}

// A line that is taken, or a kept message: marks first, then our turn, and both are counted. mem: the state's arrays after it.
fn take(marks: Marks, speaks: u8, s: &mut Numbers, after_cr: bool, mem: &[u8], table: &mut [u8])
    requires { length mem.now ≡ arrays_len }
    ensures { line_done 0 (whole_of s.new mem.now) table.new ≡ settle_of (judged 0 speaks marks (whole_of s.old mem.now)) after_cr table.old }
{
    let partner = s.keep.terms.partner;
    mark_all(table, partner, marks.places, marks.state);
    let mut tally = s.tally;
    mark_sheet(&mut tally.sheet, marks);
    speak(s, &mem[..places::HEADING], table, speaks);
    after_line(s, after_cr);
    tally.sheet.note_proposed(proposes(speaks, s.now));
    recount(&mut tally, marks, partner, table);
    s.tally = tally;
}

// What a judged line or a kept message leaves, told in numbers, any numbers: an answer other than 0 is a refusal, and ends the session. The answer.
pub fn settle_numbered(
    told: Numbered,
    s: &mut Numbers,
    after_cr: bool,
    mem: &[u8],
    table: &mut [u8],
) -> u8
    requires { length mem.now ≡ arrays_len }
    ensures { line_done result (whole_of s.new mem.now) table.new ≡ settle_of (judged told.answer told.speaks told.marks (whole_of s.old mem.now)) after_cr table.old }
{
    if told.answer == refusal::NONE {
        take(told.marks, told.speaks, s, after_cr, mem, table);
    } else {
        refuse(s, told.answer);
    }
    told.answer
}

// What a judged line or a kept message leaves; a refusal is handed on, and ends the session. mem: the state's arrays after it.
pub fn settle(
    judged: Result<Verdict, Refusal>,
    s: &mut Numbers,
    after_cr: bool,
    mem: &[u8],
    table: &mut [u8],
) -> Result<(), Refusal>
    requires { length mem.now ≡ arrays_len }
    ensures { line_done (answer_of result) (whole_of s.new mem.now) table.new ≡ settle_of (judged_in judged s.old mem.now) after_cr table.old }
{
    match judged {
        Ok(v) => {
            take(v.marks, u8::from(v.turn), s, after_cr, mem, table);
            Ok(())
        }
        Err(why) => {
            refuse(s, u8::from(why));
            Err(why)
        }
    }
}
