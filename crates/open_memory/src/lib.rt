// What open writes into session memory: the mark and the sizes, then a fresh session.
#![tactic(auto)]

ghost use Rattle.std.specs.Prelude.{◌≡◌, ◌++◌, length, replicate};
ghost use Rattle.buffer.specs.Put.{Takes};
ghost use Rattle.layout.specs.Layout.{le8};
ghost use Rattle.places.specs.Places.{session_len, arrays_len};
ghost use Rattle.session_memory.specs.State.{no_five, save_of, save_sizes, fresh_of};
ghost use Rattle.numbers.specs.Whole.{whole_of};
ghost use Rattle.open_memory.specs.Fresh.{fresh_numbers};

use buffer::Writer;
use number_write::bytes8;
use numbers::{AwaitNumbers, KeepNumbers, LineNumbers, Numbers};
use session_memory::{Five, Say, Sizes, Tally, Terms};
use transfer_step::Reader;

// A number of eight bytes.
fn put8(w: &mut Writer, x: usize)
    ensures { Takes w.old (le8 x) w.new }
{
    w.put(&bytes8(x));
}

// The sizes of the table and its three stores.
fn save_table_sizes(w: &mut Writer, z: Sizes)
    ensures { Takes w.old (le8 z.table ++ (le8 z.titles ++ (le8 z.names ++ le8 z.bodies))) w.new }
{
    put8(w, z.table);
    put8(w, z.titles);
    put8(w, z.names);
    put8(w, z.bodies);
}

/// The mark and the sizes into session memory.
pub fn save_sizes(sm: &mut [u8], z: Sizes)
    ensures { sm.new ≡ save_sizes sm.old z }
{
    let mut w = Writer::new(sm, places::MARK, 0);
    w.put(b"FM01");
    save_table_sizes(&mut w, z);
    put8(&mut w, z.known);
    put8(&mut w, z.inbox);
    put8(&mut w, z.store);
}

// The most numbers of a block, as a length.
const BLOCK_LIMIT: usize = phase::BLOCK_LIMIT as usize;

// No numbers.
fn no_five() -> Five
    ensures { result ≡ no_five }
{
    Five {
        count: 0,
        items: [0u8; BLOCK_LIMIT],
    }
}

// The numbers of a session with this partner that awaits this and says this first.
fn numbers_of(partner: u8, tally: Tally, awaited: u8, first: u8) -> Numbers
    ensures { result ≡ fresh_numbers partner tally awaited first }
{
    let none = no_five();
    Numbers {
        now: AwaitNumbers {
            phase: awaited,
            ff: false,
            current: 0,
            proposals: 0,
            ours: none,
            sum: 0,
        },
        say: Say {
            first: first,
            then: phase::PIECE_NONE,
            pos: 0,
            signs: none,
        },
        keep: KeepNumbers {
            framed: false,
            terms: Terms {
                level: 0,
                partner: partner,
            },
            kept: 0,
            used: 0,
            sending: none,
        },
        reader: Reader::start(0),
        line: LineNumbers {
            after_cr: false,
            len: 0,
        },
        tally: tally,
    }
}

// The numbers right after an accepted open: the caller awaits the SID and says nothing, the called station says SID and prompt.
fn fresh(caller: bool, partner: u8, tally: Tally) -> Numbers
    ensures { whole_of result (replicate arrays_len 0) ≡ fresh_of caller partner tally }
{
    if caller {
        return numbers_of(partner, tally, phase::CALLER_SID, phase::PIECE_NONE);
    }
    numbers_of(
        partner,
        tally,
        phase::CALLED_SID,
        phase::PIECE_SID_AND_PROMPT,
    )
}

// A fresh session into session memory.
pub fn save_fresh(sm: &mut [u8], caller: bool, partner: u8, tally: Tally)
    requires { length sm.old ≡ session_len }
    ensures { sm.new ≡ save_of sm.old (fresh_of caller partner tally) }
{
    let none = [0u8; places::ARRAYS_LENGTH];
    buffer::put_whole(sm, places::ARRAYS, &none);
    numbers::save(sm, fresh(caller, partner, tally));
}
