// Where in what waits the next byte to give is.
#![tactic(auto)]

ghost use Rattle.std.specs.Prelude.{◌≡◌, [], ◌-◌, ◌<◌, ◌≤◌, ltb, length, get_or, drop};
ghost use Rattle.session_memory.specs.State.{held, load_of};
ghost use Rattle.waiting.specs.Waiting.{first_text};
ghost use Rattle.waiting.specs.Pieces.{pieces_joined, block_pieces, pieces_of};
ghost use Rattle.give_place.specs.Located.{Located};
ghost use Rattle.places.specs.Places.{session_len};

use waiting::in_use;

/// Where a byte that waits is: in which piece, at which of its bytes, and how many bytes that piece has.
#[derive(Clone, Copy)]
pub struct Place {
    pub piece: u8,
    pub offset: usize,
    pub length: usize,
}

// The first piece.
fn first_length(sm: &[u8]) -> usize
    requires { length sm.now ≡ session_len }
    ensures { result ≡ length (first_text (load_of sm.now)) }
{
    match sm[places::FIRST] {
        phase::PIECE_NONE => 0,
        phase::PIECE_SID_AND_PROMPT => text_length::SID_LENGTH + text_length::PROMPT_LENGTH,
        phase::PIECE_SID => text_length::SID_LENGTH,
        phase::PIECE_PROTOCOL_ERROR | phase::PIECE_CHECKSUM_ERROR => text_length::ERROR_LENGTH,
        _ => text_length::FS_LENGTH + in_use(sm[places::SIGNS]) as usize,
    }
}

// Piece k where our block waits: a proposal, or `F>`.
fn block_length(k: u8, sm: &[u8], table: &[u8]) -> usize
    requires { (length sm.now ≡ session_len) × ((1 ≤ k) × (k - 1 < length (block_pieces table.now (held (load_of sm.now).now.ours)))) }
    ensures { result ≡ length (get_or (block_pieces table.now (held (load_of sm.now).now.ours)) (k - 1) []) }
{
    if in_use(sm[places::OURS]) < k {
        return text_length::FIXED_LENGTH;
    }
    text_length::proposal(table, sm[places::OURS + k as usize])
}

// Piece k. Not inlined, so slices are lent on as `&sm[..]`, which lets it have them in registers (docs/PERFORMANCE.md, "Slices in registers").
fn piece_length<'a>(
    k: u8,
    sm: &[u8],
    table: &[u8],
    titles: &'a [u8],
    names: &'a [u8],
    bodies: &[u8],
) -> usize
    requires { (length sm.now ≡ session_len) × (k < length (pieces_of (load_of sm.now) table.now titles.now names.now bodies.now)) }
    ensures { result ≡ length (get_or (pieces_of (load_of sm.now) table.now titles.now names.now bodies.now) k []) }
{
    if k == 0 {
        return first_length(&sm[..]);
    }
    match sm[places::THEN] {
        phase::PIECE_NONE | phase::PIECE_FF | phase::PIECE_FQ => text_length::FIXED_LENGTH,
        phase::PIECE_BLOCK => block_length(k, &sm[..], &table[..]),
        _ => text_length::transfer(
            &table[..],
            sm[places::SENDING + k as usize],
            &titles[..],
            &names[..],
            &bodies[..],
        ),
    }
}

/// Where byte `pos` of all that waits is; `None` where no more than `pos` bytes wait.
pub fn locate<'a>(
    pos: usize,
    sm: &[u8],
    table: &[u8],
    titles: &'a [u8],
    names: &'a [u8],
    bodies: &[u8],
) -> Option<Place>
    requires { length sm.now ≡ session_len }
    ensures { Located (pieces_of (load_of sm.now) table.now titles.now names.now bodies.now) pos result }
{
    let first = first_length(sm);
    if pos < first {
        return Some(Place {
            piece: 0,
            offset: pos,
            length: first,
        });
    }
    let mut offset = pos - first;
    for piece in 1..waiting::piece_count(sm) {
        let length = piece_length(piece, sm, table, titles, names, bodies);
        if offset < length {
            return Some(Place {
                piece,
                offset,
                length,
            });
        }
        offset -= length;
    }
    None
}

/// Whether more than `offset` bytes wait from the start of piece `from` on.
pub fn is_left<'a>(
    from: u8,
    offset: usize,
    sm: &[u8],
    table: &[u8],
    titles: &'a [u8],
    names: &'a [u8],
    bodies: &[u8],
) -> bool
    requires { length sm.now ≡ session_len }
    ensures { result ≡ ltb offset (length (pieces_joined (drop from (pieces_of (load_of sm.now) table.now titles.now names.now bodies.now)))) }
{
    let mut offset = offset;
    for piece in from..waiting::piece_count(sm) {
        let length = piece_length(piece, sm, table, titles, names, bodies);
        if offset < length {
            return true;
        }
        offset -= length;
    }
    false
}
