// Whether bytes wait for give, and whether the session has ended: two facts, not one, since a refusal leaves a line to give.
#![tactic(auto)]

ghost use Rattle.std.specs.Prelude.{◌≡◌};
ghost use Rattle.grammar.specs.Bytes.{Bytes};
ghost use Rattle.numbers.specs.Whole.{whole_of};
ghost use Rattle.pending.specs.Pending.{waits, over_of, error_piece};

use numbers::Numbers;
use refusal::Refusal;
use session_memory::Say;

// Something waits.
#[tactic(auto, unfolding(crate::specs::Pending::waits))]
pub fn is_waiting(say: Say) -> bool
    ensures { result ≡ waits say }
{
    say.first != phase::PIECE_NONE || say.then != phase::PIECE_NONE
}

// The session has ended.
#[tactic(auto, unfolding(crate::specs::Pending::over_of, numbers::specs::Whole::whole_of))]
pub fn is_over(s: Numbers) -> bool
    ensures { (m : Bytes) → result ≡ over_of (whole_of s m) }
{
    let awaited = s.now.phase;
    phase::LEAVING <= awaited && (phase::is_closed(awaited) || !is_waiting(s.say))
}

// The line that says why, after a refusal with this number; 02, Q-1.
#[tactic(auto, unfolding(crate::specs::Pending::error_piece))]
pub fn error_piece(answer: u8) -> u8
    ensures { result ≡ error_piece answer }
{
    if answer < Refusal::LineTooLong as u8
        || answer == Refusal::BytesWait as u8
        || answer == Refusal::SessionEnded as u8
    {
        phase::PIECE_NONE
    } else if answer == Refusal::BadChecksum as u8 {
        phase::PIECE_CHECKSUM_ERROR
    } else {
        phase::PIECE_PROTOCOL_ERROR
    }
}
