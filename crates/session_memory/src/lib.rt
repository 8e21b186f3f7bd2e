// The parts of the session's state that code holds by value and the definitions speak of. The whole state, with its arrays, is a record of
// specs/Session.antt; its numbers by value are crates/numbers.
#![tactic(auto)]

use sheet::Sheet;

// The most numbers of a block.
const BLOCK_LIMIT: usize = phase::BLOCK_LIMIT as usize;

// Up to five numbers: places of records, or signs.
#[derive(Clone, Copy)]
pub struct Five {
    pub count: u8,
    pub items: [u8; BLOCK_LIMIT],
}

// What waits for give: the first piece and the one after it (crates/phase), pos: how many of their bytes are given; the signs of our FS line.
#[derive(Clone, Copy)]
pub struct Say {
    pub first: u8,
    pub then: u8,
    pub pos: usize,
    pub signs: Five,
}

// What is settled with this partner beside the mode. level: the level in force for FS lines; 0 is level 0, every other number counts as level 1. partner: whose column of the table this session reads and marks; open is told it.
#[derive(Clone, Copy)]
pub struct Terms {
    pub level: u8,
    pub partner: u8,
}

// What the front panel shows of the partner's column. waiting: how many records wait; sizes: the sum of their announced sizes; sheet: what became
// of the records that we proposed in this session.
#[derive(Clone, Copy)]
pub struct Tally {
    pub waiting: u8,
    pub sizes: u32,
    pub sheet: Sheet,
}

// The sizes of the lent buffers, as open keeps them.
#[derive(Clone, Copy)]
pub struct Sizes {
    pub table: usize,
    pub titles: usize,
    pub names: usize,
    pub bodies: usize,
    pub known: usize,
    pub inbox: usize,
    pub store: usize,
}
