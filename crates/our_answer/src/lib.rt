// How we answer the partner's proposals: a sign for each of a block, by what we have, what has room, and what is promised in the block so far.
#![tactic(auto)]

ghost use Rattle.std.specs.Prelude.{◌≡◌, [], ◌∷◌, ◌++◌, ◌+◌, ◌≤◌, ◌<◌};
ghost use Rattle.grammar.specs.Bytes.{Bytes, byte_values, word_values};
ghost use Rattle.std.specs.List.{list_any};
ghost use Rattle.grammar.specs.Answers.{write_sign};
ghost use Rattle.grammar.specs.Fields.{same_bid};
ghost use Rattle.session.specs.Choices.{have_bid, sign_for};
ghost use Rattle.places.specs.Places.{bid_at, bid_max, proposal_size_at, proposal_len};
ghost use Rattle.phase.specs.Phase.{block_limit};
ghost use Rattle.layout.specs.Layout.{le4_at, field_in, entry_at, proposal_in};
ghost use Rattle.session_memory.specs.State.{held, five_of};
ghost use Rattle.numbers.specs.Whole.{Arrays, with_block, await_of, keep_with};
ghost use Rattle.entries.specs.Decoded.{heads_of};
ghost use Rattle.five.specs.Filled.{Filled};
ghost use Rattle.our_answer.specs.Answers.{shelf_with_free, answers_of};
ghost use Rattle.our_answer.specs.Promises.{block_proposals, promised_in, Promises, no_room_by};

use bid::{has_bid, same_bid};
use entries::{inbox_places, known_bids, records};
use five::{add, in_use, none};
use layout::entry;
use number_read::number4;
use numbers::Numbers;
use session_memory::Five;

// 01, "Fields": the longest body.
const BODY_MAX: usize = places::BODY_MAX as usize;

/// What is promised in this block so far: the places of the proposals accepted, and the sum of their sizes.
#[derive(Clone, Copy)]
pub struct Promised {
    pub places: Five,
    pub bytes: usize,
}

// One of the proposals at these places of the block has this BID.
fn promised_bid(block: &[u8], places: Five, bid: &[u8]) -> bool
    ensures { result ≡ list_any (λ i. same_bid (field_in bid_max bid_at (entry_at proposal_len block.now i)) bid.now) (held places) }
{
    in_use(&places).iter().any(|i| {
        let proposal = entry(places::PROPOSAL, block, *i as u16);
        same_bid(layout::field(proposal, places::BID, places::BID_MAX), bid)
    })
}

// The BID is in the table, the known list, the inbox, or accepted earlier in this block.
fn have_bid(
    bid: &[u8],
    table: &[u8],
    known: &[u8],
    inbox: &[u8],
    kept: u8,
    block: &[u8],
    places: Five,
) -> bool
    ensures { result ≡ have_bid (shelf_with_free table.now known.now inbox.now 0) (heads_of inbox.now kept) (block_proposals block.now (held places)) bid.now }
{
    has_bid(
        places::RECORD,
        table,
        records(table),
        places::RECORD_BID,
        bid,
    ) || has_bid(places::KNOWN, known, known_bids(known), 0, bid)
        || has_bid(places::ENTRY, inbox, kept as u16, places::BID, bid)
        || promised_bid(block, places, bid)
}

// A message of this size has no room beside those kept and promised; free: the store's bytes less those kept.
fn no_room(size: usize, free: usize, places: usize, kept: u8, p: Promised) -> bool
    requires { p.bytes ≤ free }
    ensures { result ≡ no_room_by size free places kept p }
{
    BODY_MAX < size || free - p.bytes < size || places <= kept as usize + p.places.count as usize
}

// The sign for the proposal at a place of the block.
fn sign_for(
    block: &[u8],
    i: u16,
    p: Promised,
    table: &[u8],
    known: &[u8],
    inbox: &[u8],
    kept: u8,
    free: usize,
) -> u8
    requires { Promises block.now free p }
    ensures { result ≡ write_sign (sign_for (shelf_with_free table.now known.now inbox.now free) (heads_of inbox.now kept) (promised_in block.now p) (proposal_in (entry_at proposal_len block.now i))) }
{
    let proposal = entry(places::PROPOSAL, block, i);
    let bid = layout::field(proposal, places::BID, places::BID_MAX);
    let have = have_bid(bid, table, known, inbox, kept, block, p.places);
    let full = no_room(
        number4(proposal, places::PROPOSAL_SIZE as u16),
        free,
        inbox_places(inbox),
        kept,
        p,
    );
    match (have, full) {
        (true, _) => b'-',
        (false, true) => b'=',
        (false, false) => b'+',
    }
}

// What is promised with the proposal at a place of the block.
fn promise(p: Promised, block: &[u8], i: u16) -> Promised
    requires { (Filled p.places) × (p.places.count < block_limit) × (i < byte_values) × (p.bytes + le4_at (entry_at proposal_len block.now i) proposal_size_at < word_values) }
    ensures { (result.places ≡ five_of (held p.places ++ (i ∷ []))) × (result.bytes ≡ p.bytes + le4_at (entry_at proposal_len block.now i) proposal_size_at) }
{
    let size = number4(
        entry(places::PROPOSAL, block, i),
        places::PROPOSAL_SIZE as u16,
    );
    Promised {
        places: add(p.places, i as u8),
        bytes: p.bytes + size,
    }
}

/// The answers to the proposals of the block; store: how many bytes the inbox store has.
pub fn answers(
    s: Numbers,
    block: &[u8],
    table: &[u8],
    known: &[u8],
    inbox: &[u8],
    store: usize,
) -> Five
    ensures { (a : Arrays) → result ≡ answers_of (await_of s.now (with_block block.now a)) (keep_with s.keep a) table.now known.now inbox.now store }
{
    let n = phase::BLOCK_LIMIT.min(s.now.proposals) as u16;
    let kept = s.keep.kept;
    let free = store.saturating_sub(s.keep.used);
    let mut signs = none();
    let mut p = Promised {
        places: none(),
        bytes: 0,
    };
    for i in 0..n {
        let sign = sign_for(block, i, p, table, known, inbox, kept, free);
        signs = add(signs, sign);
        if sign != b'+' {
            continue;
        }
        p = promise(p, block, i);
    }
    signs
}
