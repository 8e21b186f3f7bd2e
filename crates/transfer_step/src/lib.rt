// One byte of a transfer, judged by numbers alone.
#![tactic(auto)]

ghost use Rattle.std.specs.Prelude.{◌≡◌, ◌+◌, ◌≤◌, min, length};
ghost use Rattle.transfer_step.specs.Told.{told, refused_number, place_of, place_number};
ghost use Rattle.transfer_step.specs.Names.{nowhere};
ghost use Rattle.transfer_step.specs.Step.{reader_at, start_of, title_step, body_step, mark_step, begin_step, length_step, heading_step, offset_step, data_step, size_step, sum_step, step_of, reading_goes_on};

use refusal::Refusal;

// The bytes that a plain transfer is marked by, and those of a framed one.
const CR: u8 = line::CR;

const SPACE: u8 = b' ';

pub const CTRL_Z: u8 = 26;

const NUL: u8 = 0;

pub const SOH: u8 = 1;

pub const STX: u8 = 2;

pub const EOT: u8 = 4;

// The most bytes of a title or a file name.
const HEADING_MAX: u8 = places::HEADING_MAX;

// The most digits of an offset.
pub const OFFSET_DIGITS: u32 = 6;

// The NULs after heading and offset.
const HEADER_NULS: u32 = 2;

// L counts a heading of 1 to 80 bytes, an offset of 1 to 6 digits, and 2; so past the heading it counts 3 to 8.
const LENGTH_LEAST: u8 = 1 + 1 + HEADER_NULS as u8;

const LENGTH_MOST: u8 = HEADING_MAX + OFFSET_MOST as u8;

pub const OFFSET_LEAST: u32 = 1 + HEADER_NULS;

const OFFSET_MOST: u32 = OFFSET_DIGITS + HEADER_NULS;

// A block: `02`, n, and so many bytes of data at most.
pub const BLOCK_HEAD: usize = 2;

pub const BLOCK_DATA: usize = 256;

const FULL_BLOCK: u16 = BLOCK_DATA as u16;

/// What the next byte of a transfer is, or is of. `Place as u8` is its number in a [`Reader`].
#[derive(Clone, Copy, PartialEq, Eq)]
pub enum Place {
    Title = 0,
    Body = 1,
    Mark = 2,
    Start = 3,
    Length = 4,
    Heading = 5,
    Offset = 6,
    /// A byte of a block, or what begins the next block or ends the last.
    Data = 7,
    Size = 8,
    Checksum = 9,
}

// Any other number is the checksum's too: a host may have written it into the memory that the number stands in.
impl From<u8> for Place {
    ghost from_gives = { λ n p. p ≡ place_of n };

    fn from(n: u8) -> Place {
        match n {
            0 => Place::Title,
            1 => Place::Body,
            2 => Place::Mark,
            3 => Place::Start,
            4 => Place::Length,
            5 => Place::Heading,
            6 => Place::Offset,
            7 => Place::Data,
            8 => Place::Size,
            _ => Place::Checksum,
        }
    }
}

/// Where a byte goes, or that it was the transfer's last.
#[derive(Clone, Copy, PartialEq, Eq)]
pub enum Put {
    Nowhere,
    /// To the heading, at index `head` of the reading before it.
    Heading,
    /// To the body, at index `body` of the reading before it.
    Body,
    Whole,
}

/// Why a byte is refused.
#[derive(Clone, Copy, PartialEq, Eq)]
pub enum Refused {
    Malformed,
    WrongSum,
    NoRoom,
}

// 01's number.
impl From<Refused> for u8 {
    ghost from_gives = { λ why n. n ≡ refused_number why };

    fn from(why: Refused) -> u8 {
        match why {
            Refused::Malformed => Refusal::BadTransfer as u8,
            Refused::WrongSum => Refusal::BadChecksum as u8,
            Refused::NoRoom => Refusal::StoreFull as u8,
        }
    }
}

/// The reading so far, in the numbers that lent memory holds.
#[derive(Clone, Copy)]
pub struct Reader {
    /// A [`Place`]. Stays a byte: memory keeps any number as it was (`step_of`, `numbers::specs::Whole`).
    pub place: u8,
    /// L.
    pub len: u8,
    /// Bytes of the heading so far.
    pub head: u8,
    /// Bytes of the offset so far.
    pub off: u8,
    /// Bytes of the block to come.
    pub left: u16,
    /// The sum of the data's bytes, modulo 256.
    pub sum: u8,
    /// Bytes of the body so far.
    pub body: u32,
}

impl Reader {
    /// The reading before a transfer's first byte. `form`: 0 plain, any other number framed.
    pub fn start(form: u8) -> Reader
        ensures { result ≡ start_of form }
    {
        let place = if form == 0 {
            Place::Title as u8
        } else {
            Place::Start as u8
        };
        Reader {
            place,
            len: 0,
            head: 0,
            off: 0,
            left: 0,
            sum: 0,
            body: 0,
        }
    }

    /// Reads one byte. `room`: how many bytes the store takes of this body. Nothing is stored here: the answer says where the byte goes.
    /// A refused byte, and a transfer's last, leave the reading as it was.
    #[tactic(auto, unfolding(crate::specs::Step::step_of, crate::specs::Step::step_at))]
    pub fn step(&mut self, b: u8, room: u32) -> Result<Put, Refused>
        ensures { told result self.new ≡ step_of room self.old b }
    {
        match Place::from(self.place) {
            Place::Title => self.title(b),
            Place::Body => self.body(b, room),
            Place::Mark => self.mark(b),
            Place::Start => self.begin(b),
            Place::Length => self.length(b),
            Place::Heading => self.heading(b),
            Place::Offset => self.offset(b),
            Place::Data => self.data(b, room),
            Place::Size => self.size(b),
            Place::Checksum => self.checksum(b),
        }
    }

    // The byte goes nowhere, and the next one is of this place.
    fn go_on(&mut self, place: Place) -> Result<Put, Refused>
        ensures { told result self.new ≡ reading_goes_on (reader_at (place_number place) self.old) nowhere }
    {
        self.place = place as u8;
        Ok(Put::Nowhere)
    }

    // A byte of a plain title, or its CR.
    #[tactic(auto, unfolding(crate::specs::Step::title_step))]
    fn title(&mut self, b: u8) -> Result<Put, Refused>
        ensures { told result self.new ≡ title_step self.old b }
    {
        match b {
            CR if self.head > 0 => self.go_on(Place::Body),
            _ if byte::heading_byte(b) && self.head < HEADING_MAX => {
                self.head += 1;
                Ok(Put::Heading)
            }
            _ => Err(Refused::Malformed),
        }
    }

    // A byte of a plain body, or the 0x1A after it.
    #[tactic(auto, unfolding(crate::specs::Step::body_step))]
    fn body(&mut self, b: u8, room: u32) -> Result<Put, Refused>
        ensures { told result self.new ≡ body_step room self.old b }
    {
        if b == CTRL_Z {
            return self.go_on(Place::Mark);
        }
        if self.body >= room {
            return Err(Refused::NoRoom);
        }
        self.body += 1;
        Ok(Put::Body)
    }

    // A space after 0x1A, or the CR that ends a plain transfer.
    #[tactic(auto, unfolding(crate::specs::Step::mark_step))]
    fn mark(&mut self, b: u8) -> Result<Put, Refused>
        ensures { told result self.new ≡ mark_step self.old b }
    {
        match b {
            CR => Ok(Put::Whole),
            SPACE => Ok(Put::Nowhere),
            _ => Err(Refused::Malformed),
        }
    }

    // The SOH that a framed transfer begins with.
    #[tactic(auto, unfolding(crate::specs::Step::begin_step))]
    fn begin(&mut self, b: u8) -> Result<Put, Refused>
        ensures { told result self.new ≡ begin_step self.old b }
    {
        match b {
            SOH => self.go_on(Place::Length),
            _ => Err(Refused::Malformed),
        }
    }

    // L, refused if no heading and offset have so many bytes.
    #[tactic(auto, unfolding(crate::specs::Step::length_step))]
    fn length(&mut self, b: u8) -> Result<Put, Refused>
        ensures { told result self.new ≡ length_step self.old b }
    {
        match b {
            LENGTH_LEAST..=LENGTH_MOST => {
                self.len = b;
                self.go_on(Place::Heading)
            }
            _ => Err(Refused::Malformed),
        }
    }

    // A byte of a framed heading, or the NUL after it, where L leaves 1 to 6 digits for the offset.
    #[tactic(auto, unfolding(crate::specs::Step::heading_step))]
    fn heading(&mut self, b: u8) -> Result<Put, Refused>
        ensures { told result self.new ≡ heading_step self.old b }
    {
        let head = self.head as u32;
        let len = self.len as u32;
        match b {
            NUL if self.head > 0 && len <= head + OFFSET_MOST => self.go_on(Place::Offset),
            _ if byte::heading_byte(b) && self.head < HEADING_MAX && head + OFFSET_LEAST < len => {
                self.head += 1;
                Ok(Put::Heading)
            }
            _ => Err(Refused::Malformed),
        }
    }

    // A digit of the offset, which is 0, or the NUL after it, where L says.
    #[tactic(auto, unfolding(crate::specs::Step::offset_step))]
    fn offset(&mut self, b: u8) -> Result<Put, Refused>
        ensures { told result self.new ≡ offset_step self.old b }
    {
        let len = self.len as u32;
        let header = (self.head as u32) + (self.off as u32) + HEADER_NULS;
        match b {
            NUL if len == header => {
                self.len = 0;
                self.off = 0;
                self.go_on(Place::Data)
            }
            b'0' if header < len => {
                self.off += 1;
                Ok(Put::Nowhere)
            }
            _ => Err(Refused::Malformed),
        }
    }

    // A byte of a block; or the STX before a block, or the EOT after the last.
    #[tactic(auto, unfolding(crate::specs::Step::data_step))]
    fn data(&mut self, b: u8, room: u32) -> Result<Put, Refused>
        ensures { told result self.new ≡ data_step room self.old b }
    {
        if self.left == 0 {
            return match b {
                STX => self.go_on(Place::Size),
                EOT => self.go_on(Place::Checksum),
                _ => Err(Refused::Malformed),
            };
        }
        if self.body >= room {
            return Err(Refused::NoRoom);
        }
        self.left -= 1;
        self.sum = self.sum.wrapping_add(b);
        self.body += 1;
        Ok(Put::Body)
    }

    // n of a block: 0 means 256.
    #[tactic(auto, unfolding(crate::specs::Step::size_step))]
    fn size(&mut self, b: u8) -> Result<Put, Refused>
        ensures { told result self.new ≡ size_step self.old b }
    {
        self.left = if b == 0 { FULL_BLOCK } else { b as u16 };
        self.go_on(Place::Data)
    }

    // The checksum, the last byte of a framed transfer: with the data's sum it is 0 modulo 256.
    #[tactic(auto, unfolding(crate::specs::Step::sum_step))]
    fn checksum(&mut self, b: u8) -> Result<Put, Refused>
        ensures { told result self.new ≡ sum_step self.old b }
    {
        if self.sum.wrapping_add(b) == 0 {
            Ok(Put::Whole)
        } else {
            Err(Refused::WrongSum)
        }
    }
}
