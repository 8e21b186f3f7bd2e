// Our transfers, resumed at any byte with any room: what of the text isn't passed over and fits. Nothing is judged.
#![tactic(auto)]

ghost use Rattle.std.specs.Prelude.{◌*◌, ◌%◌, ◌≤◌, ◌≡◌, [], ◌∷◌, length};
ghost use Rattle.grammar.specs.Transfers.{write_plain, write_framed, header_out, blocks_out, checksum, part_of, heading_of, data_max};
ghost use Rattle.buffer.specs.Put.{Takes};
ghost use Rattle.grammar.specs.Bytes.{byte_values, STX, EOT};
ghost use Rattle.transfer_step.specs.Names.{block_bytes};

use buffer::Writer;
use part::part;
use transfer_step::{BLOCK_DATA, BLOCK_HEAD};

// Bytes of a whole block, of which BLOCK_DATA are data.
const WHOLE_BLOCK: usize = BLOCK_HEAD + BLOCK_DATA;

// What L counts beside the heading: the offset `0`, and the NULs.
const BESIDE_HEADING: usize = transfer_step::OFFSET_LEAST as usize;

const BYTE_VALUES: usize = byte::BYTE_VALUES;

/// A plain transfer: title, CR, body, 0x1A, CR.
pub fn write_plain(w: &mut Writer, title: &[u8], body: &[u8])
    ensures { Takes w.old (write_plain title.now body.now) w.new }
{
    w.put_line(title);
    w.put(body);
    w.put(b"\x1a\r");
}

// A length in one byte, modulo 256.
fn length_byte(n: usize) -> u8
    ensures { result ≡ n % byte_values }
{
    (n % BYTE_VALUES) as u8
}

// The header: 01, L, heading, 00, offset `0`, 00.
fn put_header(w: &mut Writer, heading: &[u8])
    ensures { Takes w.old (header_out heading.now) w.new }
{
    w.put_byte(transfer_step::SOH);
    w.put_byte(length_byte(heading.len() % BYTE_VALUES + BESIDE_HEADING));
    w.put(heading);
    w.put(b"\x000\x00");
}

// One block: 02, n, data.
fn put_block(w: &mut Writer, bytes: &[u8])
    ensures { Takes w.old (STX ∷ length bytes.now % byte_values ∷ bytes.now) w.new }
{
    w.put_byte(transfer_step::STX);
    w.put_byte(length_byte(bytes.len()));
    w.put(bytes);
}

// The blocks of a body, up to the end of the buffer.
fn put_blocks(w: &mut Writer, body: &[u8])
    ensures { Takes w.old (blocks_out (length body.now) body.now) w.new }
{
    let mut i = 0;
    // Stays: the step is a block, and a full buffer ends it; `chunks` takes no fewer lines, and its law of the rest is no plainer.
    while i < body.len() {
        if w.is_full() {
            return w.put(b"");
        }
        let end = i + BLOCK_DATA.min(body.len() - i);
        put_block(w, &body[i..end]);
        i = end;
    }
    w.put(b"");
}

// How many whole blocks of a body lie in the bytes that are passed over: 258 bytes a block, of which 256 are data.
fn passed_blocks(skip: usize, len: usize) -> usize
    ensures { (block_bytes * result ≤ skip) × (data_max * result ≤ len) }
{
    (skip / WHOLE_BLOCK).min(len / BLOCK_DATA)
}

// The blocks of a body; those that are passed over whole aren't looked at.
fn put_body(w: &mut Writer, body: &[u8])
    ensures { Takes w.old (blocks_out (length body.now) body.now) w.new }
{
    if w.is_full() {
        return w.put(b"");
    }
    let k = passed_blocks(w.cursor.skip, body.len());
    w.cursor.skip -= WHOLE_BLOCK * k;
    put_blocks(w, &body[BLOCK_DATA * k..]);
}

// The end: 04, checksum. The sum is taken only where its byte is written.
fn put_end(w: &mut Writer, body: &[u8])
    ensures { Takes w.old (EOT ∷ checksum body.now ∷ []) w.new }
{
    w.put_byte(transfer_step::EOT);
    if w.is_full() {
        return w.put(b"");
    }
    if w.cursor.skip > 0 {
        w.cursor.skip -= 1;
        return;
    }
    w.put_byte(checksum::checksum(body));
}

/// A framed transfer: header, blocks of 256 data bytes and a shorter last one, 04, checksum. Not inlined, so slices are lent on as `&body[..]`,
/// which lets it have them in registers (docs/PERFORMANCE.md, "Slices in registers").
pub fn write_framed(w: &mut Writer, heading: &[u8], body: &[u8])
    ensures { Takes w.old (write_framed heading.now body.now) w.new }
{
    put_header(w, &heading[..]);
    put_body(w, &body[..]);
    put_end(w, &body[..]);
}

/// The heading of a record's transfer, where it lies: the file name for a file (form 2), else the title.
pub fn write_heading<'a>(
    titles: &'a [u8],
    names: &'a [u8],
    form: u8,
    start: usize,
    len: usize,
) -> &'a [u8]
    ensures { result.now ≡ heading_of titles.now names.now form start len }
{
    if form == phase::FORM_FILE {
        part(names, start, len)
    } else {
        part(titles, start, len)
    }
}
