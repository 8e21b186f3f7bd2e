// What is awaited after a line or a message: the partner's turn, or the transfer of an accepted proposal.
#![tactic(auto)]

ghost use Rattle.std.specs.Prelude.{◌≡◌, ◌<◌, IfSome};
ghost use Rattle.phase.specs.Phase.{block_limit};
ghost use Rattle.numbers.specs.Whole.{Arrays, with_block, await_of};
ghost use Rattle.numbers.specs.declared.AwaitNumbers.{AwaitNumbers};
ghost use Rattle.line_effect.specs.Judge.{to_turn, to_transfer, next_accepted, reader_for};
ghost use Rattle.next_awaited.specs.Accepted.{accepted_at};

use five::count_of;
use layout::{byte_at, entry};
use numbers::AwaitNumbers;
use session_memory::Five;
use transfer_step::Reader;

// The partner's turn is awaited, with no line of it yet.
pub fn to_turn(awaited: &mut AwaitNumbers, ff: bool)
    ensures { (a : Arrays) → await_of awaited.new a ≡ to_turn ff (await_of awaited.old a) }
{
    awaited.phase = phase::TURN;
    awaited.ff = ff;
    awaited.proposals = 0;
    awaited.sum = 0;
}

// The first accepted proposal from a place on, if there is one.
#[tactic(auto, using(crate::proofs::Laws::plus_stop), unfolding(line_effect::specs::Judge::next_accepted))]
pub fn next_accepted(signs: Five, from: usize) -> Option<u8>
    ensures first { accepted_at result ≡ next_accepted signs from }
    ensures within { IfSome result (λ i. i < block_limit) }
{
    for i in from..count_of(signs) {
        if signs.items[i] == b'+' {
            return Some(i as u8);
        }
    }
    None
}

// The transfer of the proposal at this place is awaited.
pub fn to_transfer(awaited: &mut AwaitNumbers, i: u8)
    ensures { (a : Arrays) → await_of awaited.new a ≡ to_transfer i (await_of awaited.old a) }
{
    awaited.phase = phase::TRANSFER;
    awaited.current = i;
}

// The reader at the start of that transfer: the proposal's form decides, which stands first in it.
#[tactic(auto, unfolding(line_effect::specs::Judge::reader_for))]
pub fn reader_for(block: &[u8], i: u8) -> Reader
    ensures { (w : AwaitNumbers) (a : Arrays) → result ≡ reader_for (await_of w (with_block block.now a)) i }
{
    let form = byte_at(
        entry(places::PROPOSAL, block, i as u16),
        places::FORM as usize,
    );
    Reader::start(form)
}
