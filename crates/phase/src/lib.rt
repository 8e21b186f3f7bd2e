// What a session awaits and what waits for give, by number, as session memory holds them (docs/MEMORY.md). crates/phase/specs has the same names.
#![tactic(auto)]

ghost use Rattle.std.specs.Prelude.{◌≡◌};
ghost use Rattle.phase.specs.Phase.{is_closed};

// What is awaited. From OVER on the session has ended.
pub const CALLED_SID: u8 = 0;

pub const CALLER_SID: u8 = 1;

pub const PROMPT: u8 = 2;

pub const TURN: u8 = 3;

pub const FS: u8 = 4;

pub const TRANSFER: u8 = 5;

pub const LEAVING: u8 = 6;

pub const OVER: u8 = 7;

// What is said first.
pub const PIECE_NONE: u8 = 0;

pub const PIECE_SID_AND_PROMPT: u8 = 1;

pub const PIECE_SID: u8 = 2;

pub const PIECE_SIGNS: u8 = 3;

pub const PIECE_PROTOCOL_ERROR: u8 = 4;

pub const PIECE_CHECKSUM_ERROR: u8 = 5;

// What is said after it; PIECE_NONE here too.
pub const PIECE_FF: u8 = 1;

pub const PIECE_FQ: u8 = 2;

pub const PIECE_BLOCK: u8 = 3;

pub const PIECE_TRANSFERS: u8 = 4;

// After a judged line: it is not our turn, it is, it is and the partner's turn just now was FF.
pub const NOT_OUR_TURN: u8 = 0;

pub const OUR_TURN: u8 = 1;

pub const OUR_TURN_AFTER_FF: u8 = 2;

// A record's form, 01, "Lent memory"; the grammar's `form_number`.
pub const FORM_PLAIN: u8 = 0;

pub const FORM_MESSAGE: u8 = 1;

pub const FORM_FILE: u8 = 2;

// A record's state, 01, "Lent memory".
pub const STATE_WAITING: u8 = 0;

pub const STATE_FORWARDED: u8 = 1;

pub const STATE_DECLINED: u8 = 2;

// A record's flag in session memory: not deferred in this session, or deferred by the partner's FS line.
pub const NOT_DEFERRED: u8 = 0;

pub const WAS_DEFERRED: u8 = 1;

// "up to five messages before the direction turns"
pub const BLOCK_LIMIT: u8 = 5;

// No proposal of a block: the place after its last.
pub const NO_PROPOSAL: u8 = BLOCK_LIMIT;

// The session is closed, whatever waits: every number from OVER on.
pub fn is_closed(awaited: u8) -> bool
    ensures { result ≡ is_closed awaited }
{
    LEAVING < awaited
}
