// A whole line, judged by what is awaited.
#![tactic(auto)]

ghost use Rattle.std.specs.Prelude.{◌≡◌, Ok};
ghost use Rattle.refusal.specs.Numbers.{refusal_number};
ghost use Rattle.sid.specs.Meaning.{no_partner_number};
ghost use Rattle.numbers.specs.Whole.{Arrays, with_deferred, with_block, session_of};
ghost use Rattle.line_effect.specs.Judge.{sid_line, text_line, judge_of};
ghost use Rattle.line_effect.specs.Verdict.{judged_of};

use line_effect::{Turn, Verdict, unmarked, went};
use next_awaited::to_turn;
use numbers::Numbers;
use refusal::Refusal;
use sid::NoPartner;

// Why a station that is no partner is refused.
fn refused(cause: NoPartner) -> Refusal
    ensures { refusal_number result ≡ no_partner_number cause }
{
    match cause {
        NoPartner::NotASid => Refusal::NotSid,
        NoPartner::NoForwarding(_) => Refusal::NoForwarding,
    }
}

// The partner's SID.
fn sid_line(line: &[u8], s: &mut Numbers) -> Result<Verdict, Refusal>
    ensures { (a : Arrays) → judged_of result s.new a ≡ sid_line line.now (session_of s.old a) }
{
    let features = match sid::read_sid(line) {
        Ok(features) => features,
        Err(cause) => return Err(refused(cause)),
    };
    s.keep.framed = features.is_framed();
    s.keep.terms.level = features.in_force();
    if s.now.phase == phase::CALLER_SID {
        s.now.phase = phase::PROMPT;
    } else {
        to_turn(&mut s.now, false);
    }
    Ok(went())
}

// A text line of the called station before its prompt, or the prompt.
#[tactic(auto, unfolding(line_effect::specs::Judge::text_line))]
fn text_line(line: &[u8], s: &mut Numbers) -> Verdict
    ensures { (a : Arrays) → judged_of (Ok result) s.new a ≡ text_line line.now (session_of s.old a) }
{
    if line::is_prompt(line) {
        s.say.first = phase::PIECE_SID;
        return Verdict {
            turn: Turn::Ours,
            marks: unmarked(),
        };
    }
    went()
}

// The line as it came, without its CR, by what is awaited: a line of the partner's turn may change the block, an FS line the flags of deferred
// records.
pub fn judge(
    line: &[u8],
    s: &mut Numbers,
    deferred: &mut [u8],
    block: &mut [u8],
    table: &[u8],
    known: &[u8],
    inbox: &[u8],
    store: usize,
) -> Result<Verdict, Refusal>
    ensures { (a : Arrays) → judged_of result s.new (with_deferred deferred.new (with_block block.new a)) ≡ judge_of line.now (session_of s.old (with_deferred deferred.old (with_block block.old a))) table.now known.now inbox.now store }
{
    let n = line::trimmed(line);
    if line::is_comment(&line[..n]) {
        return Ok(went());
    }
    match s.now.phase {
        // one arm, so that the SID's reader has no frame of its own on the stack
        phase::CALLED_SID | phase::CALLER_SID => sid_line(&line[..n], s),
        phase::PROMPT => Ok(text_line(&line[..n], s)),
        phase::TURN => partner_turn::turn_line(line, s, block, table, known, inbox, store),
        phase::FS => fs_effect::answer_line(&line[..n], s, deferred),
        _ => Err(Refusal::LineNotAllowed),
    }
}
