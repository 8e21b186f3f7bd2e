// How many records wait for a partner, and the sum of their announced sizes (02, Q-3), counted in the table.
#![tactic(auto)]

ghost use Rattle.std.specs.Prelude.{◌≡◌};
ghost use Rattle.tally.specs.Tally.{counted};

use layout::{entry, state_for};
use number_read::number4;
use session_memory::Tally;
use sheet::Sheet;

// The sum has four bytes in session memory.
const FOUR_BYTE_VALUES: usize = layout::FOUR_BYTE_VALUES;

/// What waits for the partner, beside this sheet.
pub fn counted(partner: u8, table: &[u8], sheet: Sheet) -> Tally
    ensures { result ≡ counted partner table.now sheet }
{
    let n = entries::records(table);
    let mut waiting = 0u8;
    let mut sizes = 0usize;
    for i in 0..n {
        let bytes = entry(places::RECORD, table, i);
        if state_for(partner, bytes) != phase::STATE_WAITING {
            continue;
        }
        waiting += 1;
        sizes += number4(bytes, places::RECORD_SIZE_FIELD as u16);
    }
    Tally {
        waiting,
        sizes: (sizes % FOUR_BYTE_VALUES) as u32,
        sheet,
    }
}
