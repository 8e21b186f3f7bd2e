// How long our lines and transfers are, without writing them.
#![tactic(auto)]

ghost use Rattle.std.specs.Prelude.{◌≡◌, [], ◌+◌, ◌-◌, ◌≤◌, length};
ghost use Rattle.grammar.specs.Fields.{decimal, body_max, decimal_digits};
ghost use Rattle.grammar.specs.Turns.{with_cr, proposal_line};
ghost use Rattle.mail.specs.Mail.{proposal_of, transfer_of};
ghost use Rattle.layout.specs.Layout.{field_in, entry_at, record_of};
ghost use Rattle.places.specs.Places.{record_len};
ghost use Rattle.grammar.specs.Bytes.{byte_values};
ghost use Rattle.text_length.specs.Lengths.{beside_framed, block_heads};

use decimal::MOST_DIGITS;
use layout::{entry, field};
use number_read::number4;
use transfer_step::{BLOCK_DATA, BLOCK_HEAD};

/// Bytes of our SID, of the prompt, and of `FF`, `FQ` or `F>`, each with its CR.
pub const SID_LENGTH: usize = 14;

pub const PROMPT_LENGTH: usize = 2;

pub const FIXED_LENGTH: usize = 3;

/// Bytes of either line that says why we hang up, with its CR.
pub const ERROR_LENGTH: usize = 19;

/// Bytes of an FS line beside its signs: `FS`, a space and the CR.
pub const FS_LENGTH: usize = 4;

// What a proposal has beside from, at, to, BID and size.
const PROPOSAL_LENGTH: usize = 10;

// What a plain transfer has beside title and body; what a framed one has beside heading, data and the two bytes that begin a block.
const PLAIN_LENGTH: usize = 3;

const FRAMED_LENGTH: usize = 7;

// The most data bytes of a block that is not whole.
const LESS_THAN_BLOCK: usize = BLOCK_DATA - 1;

// The last place of a number's digits.
const LAST_DIGIT: usize = MOST_DIGITS - 1;

const BASE: u32 = byte::DECIMAL_BASE as u32;

// A framed transfer with a heading and a body of so many bytes: blocks of 256 data bytes and a shorter last one.
fn framed(heading: usize, body: usize) -> usize
    requires { (heading ≤ byte_values - 1) × (body ≤ body_max) }
    ensures { result ≡ beside_framed + heading + body + block_heads body }
{
    FRAMED_LENGTH + heading + body + BLOCK_HEAD * ((body + LESS_THAN_BLOCK) / BLOCK_DATA)
}

/// How many bytes the transfer of the record at this place of the table has; that of no record, past the table's end, is a plain one of
/// nothing.
pub fn transfer<'a>(table: &[u8], i: u8, titles: &'a [u8], names: &'a [u8], bodies: &[u8]) -> usize
    ensures { result ≡ length (transfer_of (record_of titles.now names.now bodies.now (entry_at record_len table.now i))) }
{
    let r = entry(places::RECORD, table, i as u16);
    if r.len() < places::RECORD as usize {
        return PLAIN_LENGTH;
    }
    let heading = record_text::heading(r, titles, names).len();
    let body = record_text::body(r, bodies).len();
    match r[places::RECORD_FORM as usize] {
        record_text::FORM_MESSAGE | record_text::FORM_FILE => framed(heading, body),
        _ => PLAIN_LENGTH + heading + body,
    }
}

// The decimal digits of a size.
fn digits(size: u32) -> usize
    ensures { (result ≡ length (decimal size)) × (result ≤ decimal_digits) }
{
    let mut before = LAST_DIGIT;
    let mut rest = size;
    // Stays: a loop that divides has no plainer form; a `for` with a break in it takes more instructions.
    while BASE <= rest {
        rest /= BASE;
        before -= 1;
    }
    MOST_DIGITS - before
}

// A field of at most n bytes.
fn field_length(r: &[u8], at: u8, n: u8) -> usize
    ensures { (result ≡ length (field_in n at r.now)) × (result ≤ n) }
{
    field(r, at, n).len()
}

/// How many bytes the proposal of the record at this place of the table has, its CR among them.
pub fn proposal(table: &[u8], i: u8) -> usize
    ensures { result ≡ length (with_cr (proposal_line (proposal_of (record_of [] [] [] (entry_at record_len table.now i))))) }
{
    let r = entry(places::RECORD, table, i as u16);
    let from = field_length(r, places::RECORD_FROM, places::CALL_MAX);
    let at = field_length(r, places::RECORD_AT, places::AT_MAX);
    let to = field_length(r, places::RECORD_TO, places::CALL_MAX);
    let bid = field_length(r, places::RECORD_BID, places::BID_MAX);
    let size = number4(r, places::RECORD_SIZE_FIELD as u16) as u32;
    PROPOSAL_LENGTH + from + at + to + bid + digits(size)
}
