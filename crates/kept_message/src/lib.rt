// A whole message is kept: it is counted, its body stands behind those kept, and the next transfer is awaited or it is our turn.
#![tactic(auto)]

ghost use Rattle.std.specs.Prelude.{◌≡◌, ◌+◌, length, Ok};
ghost use Rattle.places.specs.Places.{arrays_len};
ghost use Rattle.numbers.specs.Whole.{whole_of};
ghost use Rattle.line_effect.specs.Judge.{next_accepted};
ghost use Rattle.line_effect.specs.Verdict.{judged_in};
ghost use Rattle.receive_defined.specs.Receiving.{line_done, next_judged, is_plain_at, keep_of, kept_inbox};
ghost use Rattle.receive_defined.specs.Roomy.{Underway};
ghost use Rattle.settling.specs.Answer.{answer_of};

use inbox_entry::put_message;
use layout::{byte_at, entry};
use line_effect::{Turn, Verdict};
use numbers::Numbers;
use refusal::Refusal;

// One message more is kept, its body behind those kept before; then the transfer of the next accepted proposal is awaited, or it is our turn
// where none is left. mem: the state's arrays.
fn after_kept(s: &mut Numbers, mem: &[u8]) -> Verdict
    requires { Underway s.old × (length mem.now ≡ arrays_len) }
    ensures { judged_in (Ok result) s.new mem.now ≡ next_judged (whole_of s.old mem.now) (next_accepted s.old.say.signs (s.old.now.current + 1)) }
{
    s.keep.kept += 1;
    s.keep.used += s.reader.body as usize;
    let Some(i) = next_awaited::next_accepted(s.say.signs, s.now.current as usize + 1) else {
        return Verdict {
            turn: Turn::Ours,
            marks: line_effect::unmarked(),
        };
    };
    next_awaited::to_transfer(&mut s.now, i);
    s.reader = next_awaited::reader_for(&mem[places::BLOCK..places::AFTER_BLOCK], i);
    line_effect::went()
}

// The transfer under way is a plain one: it ends with CR, after which one LF is dropped.
fn is_plain(s: &Numbers, mem: &[u8]) -> bool
    requires { length mem.now ≡ arrays_len }
    ensures { result ≡ is_plain_at (whole_of s.entry.now mem.now) }
{
    let proposal = entry(
        places::PROPOSAL,
        &mem[places::BLOCK..places::AFTER_BLOCK],
        s.now.current as u16,
    );
    byte_at(proposal, places::FORM as usize) == phase::FORM_PLAIN
}

// A whole transfer: the message is kept, then the next is awaited or it is our turn. mem: the state's arrays.
pub fn keep_message(
    s: &mut Numbers,
    mem: &[u8],
    inbox: &mut [u8],
    table: &mut [u8],
) -> Result<(), Refusal>
    requires { Underway s.old × (length mem.now ≡ arrays_len) }
    ensures { (line_done (answer_of result) (whole_of s.new mem.now) table.new ≡ keep_of (whole_of s.old mem.now) table.old) × (inbox.new ≡ kept_inbox (whole_of s.old mem.now) inbox.old) }
{
    put_message(s, mem, inbox);
    let plain = is_plain(s, mem);
    let v = after_kept(s, mem);
    settling::settle(Ok(v), s, plain, mem, table)
}
