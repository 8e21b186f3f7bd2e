// Our lines, each with its CR, resumed at any byte with any room: what of the text isn't passed over and fits.
#![tactic(auto)]

ghost use Rattle.std.specs.Prelude.{◌≡◌, [], ◌∷◌, ◌++◌};
ghost use Rattle.grammar.specs.Bytes.{CR};
ghost use Rattle.grammar.specs.Fields.{form_is, decimal};
ghost use Rattle.grammar.specs.Turns.{fixed_text, proposal_line, with_cr, form_letter};
ghost use Rattle.buffer.specs.Put.{Takes};
ghost use Rattle.our_line.specs.Lines.{fixed_is, proposal_of_fields, fs_text};

use buffer::Writer;
use decimal::digits;

/// The lines that never differ: our SID, the prompt, `FF`, `FQ`, `F>`, which ends a block, and the two that say why we hang up.
#[derive(Drop)]
pub enum FixedKind {
    Sid,
    Prompt,
    FF,
    FQ,
    End,
    ProtocolError,
    ChecksumError,
}

/// One of the lines that never differ.
pub fn write_fixed(w: &mut Writer, which: FixedKind)
    ensures { Takes w.old (with_cr (fixed_text (fixed_is which))) w.new }
{
    match which {
        FixedKind::Sid => w.put(b"[NOD-1-B1FH$]\r"),
        FixedKind::Prompt => w.put(b">\r"),
        FixedKind::FF => w.put(b"FF\r"),
        FixedKind::FQ => w.put(b"FQ\r"),
        FixedKind::End => w.put(b"F>\r"),
        FixedKind::ProtocolError => w.put(b"*** Protocol error\r"),
        FixedKind::ChecksumError => w.put(b"*** Checksum error\r"),
    }
}

// The size, which ends the line.
fn put_size(w: &mut Writer, size: u32)
    ensures { Takes w.old (decimal size ++ (CR ∷ [])) w.new }
{
    let d = digits(size);
    w.put_line(d.as_bytes());
}

// The second letter of a proposal: A for a packed message, else B.
fn letter(form: u8) -> u8
    ensures { result ≡ form_letter (form_is form) }
{
    if form == phase::FORM_MESSAGE {
        return b'A';
    }
    b'B'
}

/// A proposal with these fields as they are, none judged; its form is 1 for a packed message, 2 for a packed file, else plain.
pub fn write_proposal(
    w: &mut Writer,
    form: u8,
    kind: u8,
    from: &[u8],
    at: &[u8],
    to: &[u8],
    bid: &[u8],
    size: u32,
)
    ensures { Takes w.old (with_cr (proposal_line (proposal_of_fields form kind from.now at.now to.now bid.now size))) w.new }
{
    w.put(&[b'F', letter(form), b' ', kind, b' ']);
    w.put_word(from);
    w.put_word(at);
    w.put_word(to);
    w.put_word(bid);
    put_size(w, size);
}

/// The line that answers a block: the sign bytes as they are, none judged.
pub fn write_fs(w: &mut Writer, signs: &[u8])
    ensures { Takes w.old (fs_text signs.now) w.new }
{
    w.put(b"FS ");
    w.put_line(signs);
}
