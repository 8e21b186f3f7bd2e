// A byte of a line: dropped, one more in its line, the line's end and what it leaves, or a line too long.
#![tactic(auto)]

ghost use Rattle.std.specs.Prelude.{◌≡◌, ◌<◌, length};
ghost use Rattle.grammar.specs.Bytes.{CR};
ghost use Rattle.grammar.specs.Lines.{line_limit, ends};
ghost use Rattle.places.specs.Places.{arrays_len};
ghost use Rattle.numbers.specs.Whole.{whole_of};
ghost use Rattle.receive_defined.specs.Receiving.{line_done, longer, line_moved, line_step_of};
ghost use Rattle.settling.specs.Answer.{answer_of};

use line::LineByte;
use numbers::Numbers;
use refusal::Refusal;

// The CR of a line: the line is judged up to its length where it stands, the arrays on both sides of it lent, and what it comes to is settled.
fn ends(
    s: &mut Numbers,
    mem: &mut [u8],
    table: &mut [u8],
    known: &[u8],
    inbox: &[u8],
    store: usize,
) -> Result<(), Refusal>
    requires { length mem.old ≡ arrays_len }
    ensures { line_done (answer_of result) (whole_of s.new mem.new) table.new ≡ line_moved ends (whole_of s.old mem.old) CR table.old known.now inbox.now store }
{
    let (front, block) = mem.split_at_mut(places::BLOCK);
    let (deferred, rest) = front.split_at_mut(places::HEADING);
    let at = places::LINE - places::HEADING;
    let n = part::at_most(line::LINE_LIMIT, s.line.len as usize);
    let line = &rest[at..at + n];
    let judged = awaited_line::judge(line, s, deferred, block, table, known, inbox, store);
    settling::settle(judged, s, true, mem, table)
}

// One byte more in the line.
fn longer(s: &mut Numbers, b: u8, mem: &mut [u8])
    requires { (s.old.line.len < line_limit) × (length mem.old ≡ arrays_len) }
    ensures { whole_of s.new mem.new ≡ longer (whole_of s.old mem.old) b }
{
    mem[places::LINE + s.line.len as usize] = b;
    s.line.len += 1;
    s.line.after_cr = false;
}

// A byte of a line. mem: the state's arrays.
pub fn line_byte(
    s: &mut Numbers,
    b: u8,
    mem: &mut [u8],
    table: &mut [u8],
    known: &[u8],
    inbox: &[u8],
    store: usize,
) -> Result<(), Refusal>
    requires { length mem.old ≡ arrays_len }
    ensures { line_done (answer_of result) (whole_of s.new mem.new) table.new ≡ line_step_of (whole_of s.old mem.old) b table.old known.now inbox.now store }
{
    match line::byte_does(false, s.line.len as usize, b) {
        LineByte::Dropped => Ok(()),
        LineByte::Ends => ends(s, mem, table, known, inbox, store),
        LineByte::Grows => {
            longer(s, b, mem);
            Ok(())
        }
        LineByte::Overruns => {
            settling::refuse(s, Refusal::LineTooLong as u8);
            Err(Refusal::LineTooLong)
        }
    }
}
