// Some of the numbers changed where they stand in session memory, as if all were loaded, changed and saved.
#![tactic(auto)]

ghost use Rattle.std.specs.Prelude.{◌≡◌, eqb, length};
ghost use Rattle.grammar.specs.Bytes.{flag};
ghost use Rattle.buffer.specs.Put.{put_bytes};
ghost use Rattle.places.specs.Places.{session_len};
ghost use Rattle.places.specs.Places as places;
ghost use Rattle.session_memory.specs.State.{cursor_at};
ghost use Rattle.numbers.specs.Whole.{numbers_at, number_bytes};
ghost use Rattle.numbers_in_place.specs.Changed.{with_line_length, with_read_so_far, with_pieces};

use number_write::{bytes2, bytes4, bytes8};
use transfer_step::Reader;

// A flag as it is saved: 1 for the byte 1, 0 for any other.
fn flag(b: u8) -> u8
    ensures { result ≡ flag (eqb b 1) }
{
    if b == 1 {
        return 1;
    }
    0
}

// The line under way has len bytes, and the last byte was no CR.
pub fn put_line_length(sm: &mut [u8], len: usize)
    requires { length sm.old ≡ session_len }
    ensures { sm.new ≡ put_bytes sm.old (cursor_at places.numbers_start) (number_bytes (with_line_length len (numbers_at sm.old))) }
{
    let ff = flag(sm[places::FF]);
    let framed = flag(sm[places::FRAMED]);
    let n = bytes2(len);
    sm[places::FF] = ff;
    sm[places::FRAMED] = framed;
    sm[places::AFTER_CR] = 0;
    sm[places::LINE_LENGTH] = n[0];
    sm[places::LINE_LENGTH + 1] = n[1];
}

// The transfer under way is read so far, and the last byte was no CR.
pub fn put_read_so_far(sm: &mut [u8], r: Reader)
    requires { length sm.old ≡ session_len }
    ensures { sm.new ≡ put_bytes sm.old (cursor_at places.numbers_start) (number_bytes (with_read_so_far r (numbers_at sm.old))) }
{
    let ff = flag(sm[places::FF]);
    let framed = flag(sm[places::FRAMED]);
    let left = bytes2(r.left as usize);
    let body = bytes4(r.body as usize);
    sm[places::FF] = ff;
    sm[places::FRAMED] = framed;
    sm[places::AFTER_CR] = 0;
    sm[places::PLACE] = r.place;
    sm[places::LENGTH] = r.len;
    sm[places::HEAD] = r.head;
    sm[places::OFFSET] = r.off;
    sm[places::SUM] = r.sum;
    sm[places::LEFT] = left[0];
    sm[places::LEFT + 1] = left[1];
    sm[places::BODY] = body[0];
    sm[places::BODY + 1] = body[1];
    sm[places::BODY + 2] = body[2];
    sm[places::BODY + 3] = body[3];
}

// These pieces wait for give, and pos of their bytes are given.
pub fn put_pieces(sm: &mut [u8], first: u8, then: u8, pos: usize)
    requires { length sm.old ≡ session_len }
    ensures { sm.new ≡ put_bytes sm.old (cursor_at places.numbers_start) (number_bytes (with_pieces first then pos (numbers_at sm.old))) }
{
    let ff = flag(sm[places::FF]);
    let framed = flag(sm[places::FRAMED]);
    let after_cr = flag(sm[places::AFTER_CR]);
    let p = bytes8(pos);
    sm[places::FF] = ff;
    sm[places::FRAMED] = framed;
    sm[places::AFTER_CR] = after_cr;
    sm[places::FIRST] = first;
    sm[places::THEN] = then;
    sm[places::POS] = p[0];
    sm[places::POS + 1] = p[1];
    sm[places::POS + 2] = p[2];
    sm[places::POS + 3] = p[3];
    sm[places::POS + 4] = p[4];
    sm[places::POS + 5] = p[5];
    sm[places::POS + 6] = p[6];
    sm[places::POS + 7] = p[7];
}
