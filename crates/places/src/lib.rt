// Where each thing lies in lent memory, and how long it is (docs/MEMORY.md has the same as tables). crates/places/specs has the same names.
#![tactic(auto)]

// The longest field of each kind; 01, "Fields".
pub const CALL_MAX: u8 = 6;

pub const AT_MAX: u8 = 38;

// What follows the first `.` of an at.
pub const HIERARCHY_MAX: u8 = 31;

pub const BID_MAX: u8 = 12;

pub const HEADING_MAX: u8 = 80;

pub const BODY_MAX: u16 = 65535;

// A number that is no byte lies in two, four or eight, the lowest first.
pub const TWO_BYTES: u8 = 2;

pub const FOUR_BYTES: u8 = 4;

pub const EIGHT_BYTES: u8 = 8;

// The fields of a message, from where they begin; a proposal and an inbox entry begin with them, a record after its states. A field is a byte for its length, then room for the longest.
pub const FORM: u8 = 0;

pub const TYPE: u8 = FORM + 1;

pub const FROM: u8 = TYPE + 1;

pub const AT: u8 = FROM + 1 + CALL_MAX;

pub const TO: u8 = AT + 1 + AT_MAX;

pub const BID: u8 = TO + 1 + CALL_MAX;

pub const FIELDS: u8 = BID + 1 + BID_MAX;

// A proposal in session memory: the fields, the announced size.
pub const PROPOSAL_SIZE: u8 = FIELDS;

pub const PROPOSAL: u8 = PROPOSAL_SIZE + FOUR_BYTES;

// "one state a partner, 0 to 7"
pub const PARTNERS: u8 = 8;

// A record of the table: its states, a byte a partner, then a proposal's parts, then where title, name and body lie, each a start of 4 bytes and a length.
pub const STATES: u8 = PARTNERS;

// Where its states begin, and where a proposal's parts do.
pub const RECORD_STATES: u8 = 0;

pub const RECORD_FIELDS: u8 = RECORD_STATES + STATES;

pub const RECORD_FORM: u8 = RECORD_FIELDS + FORM;

pub const RECORD_TYPE: u8 = RECORD_FIELDS + TYPE;

pub const RECORD_FROM: u8 = RECORD_FIELDS + FROM;

pub const RECORD_AT: u8 = RECORD_FIELDS + AT;

pub const RECORD_TO: u8 = RECORD_FIELDS + TO;

pub const RECORD_BID: u8 = RECORD_FIELDS + BID;

pub const RECORD_SIZE_FIELD: u8 = RECORD_FIELDS + PROPOSAL_SIZE;

pub const RECORD_TITLE: u8 = RECORD_FIELDS + PROPOSAL;

pub const RECORD_TITLE_LEN: u8 = RECORD_TITLE + FOUR_BYTES;

pub const RECORD_NAME: u8 = RECORD_TITLE_LEN + 1;

pub const RECORD_NAME_LEN: u8 = RECORD_NAME + FOUR_BYTES;

pub const RECORD_BODY: u8 = RECORD_NAME_LEN + 1;

pub const RECORD_BODY_LEN: u8 = RECORD_BODY + FOUR_BYTES;

pub const RECORD: u8 = RECORD_BODY_LEN + TWO_BYTES;

// A known BID: a field.
pub const KNOWN: u8 = 1 + BID_MAX;

// A message of the inbox: the fields, the heading, the body's start and length.
pub const ENTRY_HEADING: u8 = FIELDS;

pub const ENTRY_BODY: u8 = ENTRY_HEADING + 1 + HEADING_MAX;

pub const ENTRY_BODY_LEN: u8 = ENTRY_BODY + FOUR_BYTES;

pub const ENTRY: u8 = ENTRY_BODY_LEN + TWO_BYTES;

// Session memory: the mark's four letters, the sizes that open kept.
pub const MARK: usize = 0;

pub const SIZE_TABLE: usize = MARK + FOUR_BYTES as usize;

pub const SIZE_TITLES: usize = SIZE_TABLE + EIGHT_BYTES as usize;

pub const SIZE_NAMES: usize = SIZE_TITLES + EIGHT_BYTES as usize;

pub const SIZE_BODIES: usize = SIZE_NAMES + EIGHT_BYTES as usize;

pub const SIZE_KNOWN: usize = SIZE_BODIES + EIGHT_BYTES as usize;

pub const SIZE_INBOX: usize = SIZE_KNOWN + EIGHT_BYTES as usize;

pub const SIZE_STORE: usize = SIZE_INBOX + EIGHT_BYTES as usize;

// A list of up to five: a byte for how many, then room for five.
pub const FIVE: usize = 1 + phase::BLOCK_LIMIT as usize;

// Session memory: the numbers of the state. Bytes between NUMBERS_END and ARRAYS are free: no call reads or writes them.
pub const NUMBERS: usize = SIZE_STORE + EIGHT_BYTES as usize;

pub const PHASE: usize = NUMBERS;

pub const FF: usize = PHASE + 1;

pub const FRAMED: usize = FF + 1;

pub const AFTER_CR: usize = FRAMED + 1;

pub const FIRST: usize = AFTER_CR + 1;

pub const THEN: usize = FIRST + 1;

pub const KEPT: usize = THEN + 1;

pub const CURRENT: usize = KEPT + 1;

pub const PROPOSALS: usize = CURRENT + 1;

pub const OURS: usize = PROPOSALS + 1;

pub const SENDING: usize = OURS + FIVE;

pub const SIGNS: usize = SENDING + FIVE;

pub const PLACE: usize = SIGNS + FIVE;

pub const LENGTH: usize = PLACE + 1;

pub const HEAD: usize = LENGTH + 1;

pub const OFFSET: usize = HEAD + 1;

pub const SUM: usize = OFFSET + 1;

pub const LINE_LENGTH: usize = SUM + 1;

pub const LEFT: usize = LINE_LENGTH + TWO_BYTES as usize;

pub const BODY: usize = LEFT + TWO_BYTES as usize;

pub const POS: usize = BODY + FOUR_BYTES as usize;

pub const USED: usize = POS + EIGHT_BYTES as usize;

// The tail of the numbers: a number that comes later takes the next bytes here, and none of those before it moves.
pub const TAIL: usize = USED + EIGHT_BYTES as usize;

pub const BLOCK_SUM: usize = TAIL;

pub const LEVEL: usize = BLOCK_SUM + 1;

pub const PARTNER: usize = LEVEL + 1;

// What the front panel shows (02, Q-3): the records that wait and the sum of their announced sizes, then the tally sheet.
pub const TALLY_WAITING: usize = PARTNER + 1;

pub const TALLY_SIZES: usize = TALLY_WAITING + 1;

pub const TALLY_PROPOSED: usize = TALLY_SIZES + FOUR_BYTES as usize;

pub const TALLY_FORWARDED: usize = TALLY_PROPOSED + 1;

pub const TALLY_DECLINED: usize = TALLY_FORWARDED + 1;

pub const TALLY_DEFERRED: usize = TALLY_DECLINED + 1;

pub const TALLY_UNSETTLED: usize = TALLY_DEFERRED + 1;

pub const NUMBERS_END: usize = TALLY_UNSETTLED + 1;

pub const NUMBERS_LENGTH: usize = NUMBERS_END - NUMBERS;

// Session memory: the arrays of the state, which stay there; where each begins among them, and how long it is. Bytes from ARRAYS_END on are free, too.
pub const ARRAYS: usize = 160;

pub const FREE: usize = ARRAYS - NUMBERS_END;

// A flag for each record that a table may have.
pub const DEFERRED_LENGTH: usize = 64;

pub const HEADING_LENGTH: usize = HEADING_MAX as usize;

// The longest line.
pub const LINE_ROOM: usize = 256;

// The partner's proposals.
pub const BLOCK_LENGTH: usize = phase::BLOCK_LIMIT as usize * PROPOSAL as usize;

pub const DEFERRED: usize = 0;

pub const HEADING: usize = DEFERRED + DEFERRED_LENGTH;

pub const LINE: usize = HEADING + HEADING_LENGTH;

pub const BLOCK: usize = LINE + LINE_ROOM;

pub const AFTER_BLOCK: usize = BLOCK + BLOCK_LENGTH;

pub const ARRAYS_LENGTH: usize = AFTER_BLOCK;

pub const ARRAYS_END: usize = ARRAYS + ARRAYS_LENGTH;

pub const SESSION: usize = 1024;
