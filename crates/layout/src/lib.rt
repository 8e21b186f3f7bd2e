// Lent memory: bytes and fields at their places, and the entries of the table, the known BIDs, the inbox and a block of proposals.
#![tactic(auto)]

ghost use Rattle.std.specs.Prelude.{◌≡◌};
ghost use Rattle.layout.specs.Layout.{byte_at, field_in, entry_at, state_for};

use part::part;

// How many values a byte has, and numbers of two, three and four bytes.
pub const BYTE_VALUES: usize = byte::BYTE_VALUES;

pub const TWO_BYTE_VALUES: usize = BYTE_VALUES * BYTE_VALUES;

pub const THREE_BYTE_VALUES: usize = BYTE_VALUES * TWO_BYTE_VALUES;

pub const FOUR_BYTE_VALUES: usize = BYTE_VALUES * THREE_BYTE_VALUES;

// The sizes of entries.
pub const RECORD: u8 = places::RECORD;

pub const KNOWN: u8 = places::KNOWN;

pub const ENTRY: u8 = places::ENTRY;

pub const PROPOSAL: u8 = places::PROPOSAL;

/// The byte at a place; 0 past the end.
pub fn byte_at(s: &[u8], at: usize) -> u8
    ensures { result ≡ byte_at s.now at }
{
    s.get(at).copied().unwrap_or(0)
}

/// A field of at most n bytes: its length stands at the place, its bytes after it.
pub fn field(s: &[u8], at: u8, n: u8) -> &[u8]
    ensures { result.now ≡ field_in n at s.now }
{
    let i = at as usize;
    part(s, i + 1, byte_at(s, i).min(n) as usize)
}

/// The entry at a place of a buffer of entries of this size; empty past the end.
pub fn entry(size: u8, s: &[u8], i: u16) -> &[u8]
    ensures { result.now ≡ entry_at size s.now i }
{
    let n = size as usize;
    part(s, i as usize * n, n)
}

/// The state for a partner of the record in these bytes.
#[tactic(auto, unfolding(crate::specs::Layout::state_for))]
pub fn state_for(partner: u8, bytes: &[u8]) -> u8
    ensures { result ≡ state_for partner bytes.now }
{
    byte_at(bytes, places::RECORD_STATES as usize + partner as usize)
}
