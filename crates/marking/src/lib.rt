// Where a record gets its state for a partner: forwarded or declined.
#![tactic(auto)]

ghost use Rattle.std.specs.Prelude.{◌≡◌};
ghost use Rattle.session_memory.specs.State.{held};
ghost use Rattle.marking.specs.States.{set_state, mark_all};

use five::in_use;
use session_memory::Five;

/// The record at a place gets this state for the partner; a place past the table's end is none.
#[tactic(auto, unfolding(crate::specs::States::set_state))]
pub fn set_state(table: &mut [u8], partner: u8, i: u8, state: u8)
    ensures { table.new ≡ set_state partner table.old i state }
{
    let place = places::RECORD_STATES as usize + partner as usize;
    let at = i as usize * places::RECORD as usize + place;
    if at < table.len() {
        table[at] = state;
    }
}

/// The records at these places get this state for the partner.
pub fn mark_all(table: &mut [u8], partner: u8, places: Five, state: u8)
    ensures { table.new ≡ mark_all partner (held places) state table.old }
{
    let marked = in_use(&places);
    for i in marked {
        set_state(table, partner, *i, state);
    }
}
