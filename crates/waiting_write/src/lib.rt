// What waits for give, written from the table and its stores, resumed at any byte with any room.
#![tactic(auto)]

ghost use Rattle.std.specs.Prelude.{◌≡◌, [], ◌-◌, ◌<◌, ◌≤◌, length, get_or, drop};
ghost use Rattle.grammar.specs.Turns.{with_cr, proposal_line};
ghost use Rattle.mail.specs.Mail.{proposal_of, transfer_of};
ghost use Rattle.layout.specs.Layout.{entry_at, record_of};
ghost use Rattle.places.specs.Places.{record_len, session_len};
ghost use Rattle.buffer.specs.Put.{Takes};
ghost use Rattle.session_memory.specs.State.{held, load_of};
ghost use Rattle.waiting.specs.Waiting.{first_text};
ghost use Rattle.waiting.specs.Pieces.{pieces_joined, block_pieces, pieces_of};

use buffer::Writer;
use layout::{byte_at, entry, field};
use number_read::number4;
use our_line::FixedKind;
use waiting::in_use;

// The proposal of a record.
fn write_proposal(w: &mut Writer, r: &[u8])
    ensures { Takes w.old (with_cr (proposal_line (proposal_of (record_of [] [] [] r.now)))) w.new }
{
    let size = number4(r, places::RECORD_SIZE_FIELD as u16) as u32;
    our_line::write_proposal(
        w,
        byte_at(r, places::RECORD_FORM as usize),
        byte_at(r, places::RECORD_TYPE as usize),
        field(r, places::RECORD_FROM, places::CALL_MAX),
        field(r, places::RECORD_AT, places::AT_MAX),
        field(r, places::RECORD_TO, places::CALL_MAX),
        field(r, places::RECORD_BID, places::BID_MAX),
        size,
    );
}

// The transfer of the record at this place of the table, by its form.
fn write_transfer<'a>(
    w: &mut Writer,
    table: &[u8],
    i: u8,
    titles: &'a [u8],
    names: &'a [u8],
    bodies: &[u8],
)
    ensures { Takes w.old (transfer_of (record_of titles.now names.now bodies.now (entry_at record_len table.now i))) w.new }
{
    let r = entry(places::RECORD, table, i as u16);
    if r.len() < places::RECORD as usize {
        return transfer_write::write_plain(w, b"", b"");
    }
    let heading = record_text::heading(r, titles, names);
    let body = record_text::body(r, bodies);
    let form = r[places::RECORD_FORM as usize];
    if form == record_text::FORM_MESSAGE {
        return transfer_write::write_framed(w, heading, body);
    }
    if form == record_text::FORM_FILE {
        return transfer_write::write_framed(w, heading, body);
    }
    transfer_write::write_plain(w, heading, body);
}

// No text: in a full buffer nothing is passed over any more.
fn write_nothing(w: &mut Writer)
    ensures { Takes w.old [] w.new }
{
    if w.is_full() {
        w.cursor.skip = 0;
    }
}

// The first piece.
fn write_first(w: &mut Writer, sm: &[u8])
    requires { length sm.now ≡ session_len }
    ensures { Takes w.old (first_text (load_of sm.now)) w.new }
{
    let first = sm[places::FIRST];
    if first == phase::PIECE_NONE {
        return write_nothing(w);
    }
    if first == phase::PIECE_SID_AND_PROMPT {
        our_line::write_fixed(w, FixedKind::Sid);
        return our_line::write_fixed(w, FixedKind::Prompt);
    }
    if first == phase::PIECE_SID {
        return our_line::write_fixed(w, FixedKind::Sid);
    }
    if first == phase::PIECE_PROTOCOL_ERROR {
        return our_line::write_fixed(w, FixedKind::ProtocolError);
    }
    if first == phase::PIECE_CHECKSUM_ERROR {
        return our_line::write_fixed(w, FixedKind::ChecksumError);
    }
    let start = places::SIGNS + 1;
    let end = start + in_use(sm[places::SIGNS]) as usize;
    our_line::write_fs(w, &sm[start..end]);
}

// Piece k where our block waits: a proposal, or `F>`.
fn write_block(w: &mut Writer, k: u8, sm: &[u8], table: &[u8])
    requires { (length sm.now ≡ session_len) × ((1 ≤ k) × (k - 1 < length (block_pieces table.now (held (load_of sm.now).now.ours)))) }
    ensures { Takes w.old (get_or (block_pieces table.now (held (load_of sm.now).now.ours)) (k - 1) []) w.new }
{
    if in_use(sm[places::OURS]) < k {
        return our_line::write_fixed(w, FixedKind::End);
    }
    let i = sm[places::OURS + k as usize];
    write_proposal(w, entry(places::RECORD, table, i as u16));
}

// Piece k.
fn write_piece<'a>(
    w: &mut Writer,
    k: u8,
    sm: &[u8],
    table: &[u8],
    titles: &'a [u8],
    names: &'a [u8],
    bodies: &[u8],
)
    requires { (length sm.now ≡ session_len) × (k < length (pieces_of (load_of sm.now) table.now titles.now names.now bodies.now)) }
    ensures { Takes w.old (get_or (pieces_of (load_of sm.now) table.now titles.now names.now bodies.now) k []) w.new }
{
    if k == 0 {
        return write_first(w, sm);
    }
    let then = sm[places::THEN];
    if then == phase::PIECE_FF {
        return our_line::write_fixed(w, FixedKind::FF);
    }
    if then == phase::PIECE_FQ {
        return our_line::write_fixed(w, FixedKind::FQ);
    }
    if then == phase::PIECE_BLOCK {
        return write_block(w, k, sm, table);
    }
    let i = sm[places::SENDING + k as usize];
    write_transfer(w, table, i, titles, names, bodies);
}

/// The pieces from one on, as far as they fit.
pub fn write_from<'a>(
    w: &mut Writer,
    from: u8,
    sm: &[u8],
    table: &[u8],
    titles: &'a [u8],
    names: &'a [u8],
    bodies: &[u8],
)
    requires { length sm.now ≡ session_len }
    ensures { Takes w.old (pieces_joined (drop from (pieces_of (load_of sm.now) table.now titles.now names.now bodies.now))) w.new }
{
    let n = waiting::piece_count(sm);
    for k in from..n {
        if w.is_full() {
            return write_nothing(w);
        }
        write_piece(w, k, sm, table, titles, names, bodies);
    }
    write_nothing(w);
}
