// 01, "The numbers given back", and those of 02: the code's names for them, in the order and with the names of crates/grammar/specs/Refusals.antt.
#![tactic(auto)]

ghost use Rattle.std.specs.Prelude.{◌≡◌};
ghost use Rattle.refusal.specs.Numbers.{refusal_number};

/// Why a call is refused, by 01's number.
#[derive(Clone, Copy, PartialEq, Eq)]
pub enum Refusal {
    BadMemory = 1,
    LineTooLong = 2,
    NotSid = 3,
    NoForwarding = 4,
    LineNotAllowed = 5,
    ProposalCount = 6,
    BadAnswer = 7,
    BadTransfer = 8,
    BadChecksum = 9,
    StoreFull = 10,
    BytesWait = 11,
    SessionEnded = 12,
    // 02, Q-5: "wrong proposal checksum"
    WrongBlockSum = 13,
}

impl From<Refusal> for u8 {
    ghost from_gives = { λ why n. n ≡ refusal_number why };

    /// 01's number of the refusal.
    fn from(why: Refusal) -> u8 {
        why as u8
    }
}

/// The answer of a call that isn't refused.
// Stays a number: the answer that a host in C reads.
pub const NONE: u8 = 0;

/// The place in an answer of `BadMemory` that names no record.
// Stays a number: the place that a host in C reads.
pub const NO_PLACE: u8 = 255;
