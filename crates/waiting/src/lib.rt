// What waits for give, in pieces: the first one, which may be empty, then each line or transfer after it.
#![tactic(auto)]

ghost use Rattle.std.specs.Prelude.{◌≡◌, min, length};
ghost use Rattle.grammar.specs.Bytes.{Bytes};
ghost use Rattle.session_memory.specs.State.{load_of};
ghost use Rattle.waiting.specs.Pieces.{pieces_of};
ghost use Rattle.phase.specs.Phase.{block_limit};
ghost use Rattle.places.specs.Places.{session_len};

// The first piece, which may be empty, is always there; and with it `FF`, `FQ` or `F>`.
const FIRST: u8 = 1;

const FIRST_AND_LINE: u8 = FIRST + 1;

/// How many of up to five numbers are in use: a count past five counts as five.
pub fn in_use(count: u8) -> u8
    ensures { result ≡ min block_limit count }
{
    phase::BLOCK_LIMIT.min(count)
}

/// How many pieces wait: 1 to 7, the first one, which may be empty, among them.
pub fn piece_count(sm: &[u8]) -> u8
    requires { length sm.now ≡ session_len }
    ensures { (table titles names bodies : Bytes) → result ≡ length (pieces_of (load_of sm.now) table titles names bodies) }
{
    // Stays: tests in order; by a `match`, a table of jumps, a give of what waits takes 328 instructions in place of 318.
    let then = sm[places::THEN];
    if then == phase::PIECE_NONE {
        return FIRST;
    }
    if then < phase::PIECE_BLOCK {
        return FIRST_AND_LINE;
    }
    if then == phase::PIECE_BLOCK {
        return in_use(sm[places::OURS]) + FIRST_AND_LINE;
    }
    in_use(sm[places::SENDING]) + FIRST
}
