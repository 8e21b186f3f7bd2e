// The entry that a kept message gets in the inbox: its proposal as it lies in the block, its heading, where its body lies in the store.
#![tactic(auto)]

ghost use Rattle.std.specs.Prelude.{◌≡◌, length};
ghost use Rattle.places.specs.Places.{arrays_len};
ghost use Rattle.numbers.specs.Whole.{whole_of};
ghost use Rattle.receive_defined.specs.Receiving.{kept_inbox};

use buffer::Writer;
use layout::entry;
use numbers::Numbers;

// The message under way gets its entry in the inbox, behind those kept before.
pub fn put_message(s: &Numbers, mem: &[u8], inbox: &mut [u8])
    requires { length mem.now ≡ arrays_len }
    ensures { inbox.new ≡ kept_inbox (whole_of s.entry.now mem.now) inbox.old }
{
    let end = places::HEADING + (places::HEADING_MAX as usize).min(s.reader.head as usize);
    let proposal = entry(
        places::PROPOSAL,
        &mem[places::BLOCK..places::AFTER_BLOCK],
        s.now.current as u16,
    );
    let mut w = Writer::new(inbox, s.keep.kept as usize * places::ENTRY as usize, 0);
    layout_put::put_entry(
        &mut w,
        proposal,
        &mem[places::HEADING..end],
        s.keep.used,
        s.reader.body as usize,
    );
}
