// The entries of a block of proposals and of the inbox, written.
#![tactic(auto)]

ghost use Rattle.std.specs.Prelude.{◌≡◌, [], ◌∷◌, ◌++◌, ◌+◌, ◌*◌, ◌≤◌, ◌<◌, length, take, drop};
ghost use Rattle.buffer.specs.Put.{Takes};
ghost use Rattle.layout.specs.Layout.{field_out, fields_out, proposal_out, entry_out};

use buffer::Writer;
use layout::BYTE_VALUES;
use number_write::{bytes2, bytes4};
use part::part;

// The bytes of a message's fields.
const FIELDS: usize = places::FIELDS as usize;

// A field as it stands in an entry: its length, its bytes, zeros up to n bytes.
fn put_field(w: &mut Writer, text: &[u8], n: u8)
    ensures { Takes w.old (field_out n text.now) w.new }
{
    w.put_byte((text.len() % BYTE_VALUES) as u8);
    let m = n as usize;
    if m <= text.len() {
        return w.put(&text[..m]);
    }
    w.put(text);
    w.put_zeros(m - text.len());
}

// The fields of a message.
fn put_fields(w: &mut Writer, form: u8, kind: u8, from: &[u8], at: &[u8], to: &[u8], bid: &[u8])
    ensures { Takes w.old (fields_out form kind from.now at.now to.now bid.now) w.new }
{
    w.put(&[form, kind]);
    put_field(w, from, places::CALL_MAX);
    put_field(w, at, places::AT_MAX);
    put_field(w, to, places::CALL_MAX);
    put_field(w, bid, places::BID_MAX);
}

/// A proposal in session memory.
pub fn put_proposal(
    w: &mut Writer,
    form: u8,
    kind: u8,
    from: &[u8],
    at: &[u8],
    to: &[u8],
    bid: &[u8],
    size: usize,
)
    ensures { Takes w.old (proposal_out form kind from.now at.now to.now bid.now size) w.new }
{
    put_fields(w, form, kind, from, at, to, bid);
    w.put(&bytes4(size));
}

/// A message in the inbox: the fields of its proposal, its heading, and where its body of `n` bytes lies in the store.
pub fn put_entry(w: &mut Writer, proposal: &[u8], heading: &[u8], start: usize, n: usize)
    ensures { Takes w.old (entry_out proposal.now heading.now start n) w.new }
{
    w.put(part(proposal, 0, FIELDS));
    put_field(w, heading, places::HEADING_MAX);
    w.put(&bytes4(start));
    w.put(&bytes2(n));
}
