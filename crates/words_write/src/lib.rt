// The writers of the protocol's words for callers from C and Rust, each resumed at any byte with any room; how many bytes were written is
// answered. They serve tests and benchmarks; the product's own calls are in the crate fringemole.
#![tactic(auto)]

ghost use Rattle.std.specs.Prelude.{◌≡◌};
ghost use Rattle.grammar.specs.Turns.{with_cr, proposal_line};
ghost use Rattle.grammar.specs.Transfers.{write_plain, write_framed};
ghost use Rattle.our_line.specs.Lines.{fixed_is, proposal_of_fields, fs_text};
ghost use Rattle.words_write.specs.Written.{Writes, fixed_by, fixed_bytes};

use buffer::Writer;
use our_line::FixedKind;

// The lines that never differ by number: our SID, the prompt, FF, FQ and F>.
const SID_LINE: u8 = 0;

const PROMPT_LINE: u8 = 1;

const FF_LINE: u8 = 2;

const FQ_LINE: u8 = 3;

const END_LINE: u8 = 4;

// The line with this number; F> for any number from its own on.
fn fixed_of(which: u8) -> FixedKind
    ensures { fixed_is result ≡ fixed_by which }
{
    match which {
        SID_LINE => FixedKind::Sid,
        PROMPT_LINE => FixedKind::Prompt,
        FF_LINE => FixedKind::FF,
        FQ_LINE => FixedKind::FQ,
        _ => FixedKind::End,
    }
}

// One of the lines that never differ, with its CR; nothing for any other number.
#[unsafe(no_mangle)]
pub extern "C" fn words_write_fixed(which: u8, buf: &mut [u8], place: usize, skip: usize) -> usize
    ensures { Writes buf.old place skip (fixed_bytes which) result buf.new }
{
    if END_LINE < which {
        return 0;
    }
    let mut w = Writer::new(buf, place, skip);
    our_line::write_fixed(&mut w, fixed_of(which));
    w.cursor.at - place
}

// A proposal with its CR, from fields as they are, none judged.
#[unsafe(no_mangle)]
pub extern "C" fn words_write_proposal(
    buf: &mut [u8],
    place: usize,
    skip: usize,
    form: u8,
    kind: u8,
    from: &[u8],
    at: &[u8],
    to: &[u8],
    bid: &[u8],
    size: u32,
) -> usize
    ensures { Writes buf.old place skip (with_cr (proposal_line (proposal_of_fields form kind from.now at.now to.now bid.now size))) result buf.new }
{
    let mut w = Writer::new(buf, place, skip);
    our_line::write_proposal(&mut w, form, kind, from, at, to, bid, size);
    w.cursor.at - place
}

// `FS `, the sign bytes as they are, and CR.
#[unsafe(no_mangle)]
pub extern "C" fn words_write_fs(buf: &mut [u8], place: usize, skip: usize, signs: &[u8]) -> usize
    ensures { Writes buf.old place skip (fs_text signs.now) result buf.new }
{
    let mut w = Writer::new(buf, place, skip);
    our_line::write_fs(&mut w, signs);
    w.cursor.at - place
}

// A plain transfer; title and body aren't judged.
#[unsafe(no_mangle)]
pub extern "C" fn words_write_plain(
    buf: &mut [u8],
    place: usize,
    skip: usize,
    title: &[u8],
    body: &[u8],
) -> usize
    ensures { Writes buf.old place skip (write_plain title.now body.now) result buf.new }
{
    let mut w = Writer::new(buf, place, skip);
    transfer_write::write_plain(&mut w, title, body);
    w.cursor.at - place
}

// A framed transfer; heading and body aren't judged.
#[unsafe(no_mangle)]
pub extern "C" fn words_write_framed(
    buf: &mut [u8],
    place: usize,
    skip: usize,
    heading: &[u8],
    body: &[u8],
) -> usize
    ensures { Writes buf.old place skip (write_framed heading.now body.now) result buf.new }
{
    let mut w = Writer::new(buf, place, skip);
    transfer_write::write_framed(&mut w, heading, body);
    w.cursor.at - place
}
