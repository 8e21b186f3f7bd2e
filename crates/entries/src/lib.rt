// How many entries the lent buffers have.
#![tactic(auto)]

ghost use Rattle.std.specs.Prelude.{◌≡◌};
ghost use Rattle.entries.specs.Decoded.{record_count, known_count, place_count};

/// 01, "Lent memory": the most records of a table, the most known BIDs, and the most messages of an inbox.
pub const RECORDS_MAX: u16 = places::DEFERRED_LENGTH as u16;

pub const KNOWN_MAX: u16 = 1024;

pub const MESSAGES_MAX: u16 = 64;

/// How many records the table has, 64 at most.
pub fn records(table: &[u8]) -> u16
    ensures { result ≡ record_count table.now }
{
    let whole = table.len() / (places::RECORD as usize);
    whole.min(RECORDS_MAX as usize) as u16
}

/// How many BIDs the known list has, 1,024 at most.
pub fn known_bids(known: &[u8]) -> u16
    ensures { result ≡ known_count known.now }
{
    let whole = known.len() / (places::KNOWN as usize);
    whole.min(KNOWN_MAX as usize) as u16
}

/// How many messages the inbox has places for.
pub fn inbox_places(inbox: &[u8]) -> usize
    ensures { result ≡ place_count inbox.now }
{
    inbox.len() / (places::ENTRY as usize)
}
