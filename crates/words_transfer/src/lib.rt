// Transfers for callers from C and Rust: read byte by byte in any portions, the checksum, and where a heading lies. They serve tests and
// benchmarks; the product's own calls are in the crate fringemole.
#![tactic(auto)]

ghost use Rattle.std.specs.Prelude.{◌≡◌, ◌%◌};
ghost use Rattle.grammar.specs.Transfers.{checksum, heading_of};
ghost use Rattle.transfer_step.specs.Step.{start_of};
ghost use Rattle.transfer_read.specs.Told.{outcome_of_reached};
ghost use Rattle.words_transfer.specs.State.{reading_state, reader_by, outcome_code, portion, PortionLeaves, Copied};
ghost use Rattle.grammar.specs.Bytes.{byte_values};

use buffer::Writer;
use transfer_read::Reached;
use transfer_step::{Reader, Refused};

// A transfer under way as so many numbers, by their places; the last: how many bytes were consumed.
const STATE: usize = 8;

const PLACE_NUMBER: usize = 0;

const LENGTH_NUMBER: usize = 1;

const HEAD_NUMBER: usize = 2;

const OFFSET_NUMBER: usize = 3;

const BODY_NUMBER: usize = 4;

const LEFT_NUMBER: usize = 5;

const SUM_NUMBER: usize = 6;

// How many values a byte has, and numbers of two and four bytes.
const BYTE_VALUES: u64 = byte::BYTE_VALUES as u64;

const TWO_BYTE_VALUES: u64 = BYTE_VALUES * BYTE_VALUES;

const FOUR_BYTE_VALUES: u64 = TWO_BYTE_VALUES * TWO_BYTE_VALUES;

// The heading's array.
const HEADING_ROOM: usize = places::HEADING_MAX as usize;

// Outcomes beside refusals.
const GOES_ON: u8 = 0;

const WHOLE: u8 = 1;

// The numbers of a reader, and how many bytes were consumed.
fn state_of(r: Reader, count: usize) -> [u64; STATE]
    ensures { result ≡ reading_state r count }
{
    [
        r.place as u64,
        r.len as u64,
        r.head as u64,
        r.off as u64,
        r.body as u64,
        r.left as u64,
        r.sum as u64,
        count as u64,
    ]
}

// A number modulo 256.
fn low_byte(n: u64) -> u8
    ensures { result ≡ n % byte_values }
{
    (n % BYTE_VALUES) as u8
}

// The reader that the numbers of a state stand for, each taken modulo what its field holds.
fn reader_by(s: [u64; STATE]) -> Reader
    ensures { result ≡ reader_by s }
{
    Reader {
        place: low_byte(s[PLACE_NUMBER]),
        len: low_byte(s[LENGTH_NUMBER]),
        head: low_byte(s[HEAD_NUMBER]),
        off: low_byte(s[OFFSET_NUMBER]),
        left: (s[LEFT_NUMBER] % TWO_BYTE_VALUES) as u16,
        sum: low_byte(s[SUM_NUMBER]),
        body: (s[BODY_NUMBER] % FOUR_BYTE_VALUES) as u32,
    }
}

// 0 goes on, 1 whole, else 01's number.
fn outcome_code(outcome: Result<Reached, Refused>) -> u8
    ensures { result ≡ outcome_code (outcome_of_reached outcome) }
{
    match outcome {
        Ok(Reached::More) => GOES_ON,
        Ok(Reached::Whole) => WHOLE,
        Err(why) => u8::from(why),
    }
}

// The state before a transfer's first byte. form: 0 plain, any other number framed.
#[unsafe(no_mangle)]
pub extern "C" fn words_transfer_start(form: u8, state: &mut [u64; STATE])
    ensures { state.new ≡ reading_state (start_of form) 0 }
{
    *state = state_of(Reader::start(form), 0);
}

// Reads a portion, up to its end or an outcome: 0 goes on, 1 whole, 8, 9, 10 refused. The heading goes to `heading`, the body to `store`.
#[unsafe(no_mangle)]
pub extern "C" fn words_transfer_feed(
    state: &mut [u64; STATE],
    input: &[u8],
    heading: &mut [u8; HEADING_ROOM],
    store: &mut [u8],
) -> u8
    ensures { PortionLeaves (portion state.old input.now heading.old store.old) result state.new heading.new store.new }
{
    let mut reader = reader_by(*state);
    let fed = transfer_read::feed(&mut reader, input, heading, store);
    *state = state_of(reader, fed.count);
    outcome_code(fed.outcome)
}

// The checksum byte of framed data.
#[unsafe(no_mangle)]
pub extern "C" fn words_checksum(bytes: &[u8]) -> u8
    ensures { result ≡ checksum bytes.now }
{
    checksum::checksum(bytes)
}

// The same, summed one byte at a time: what a benchmark sets beside it.
#[unsafe(no_mangle)]
pub extern "C" fn words_checksum_each(bytes: &[u8]) -> u8
    ensures { result ≡ checksum bytes.now }
{
    std::num::wrapping_sub_u8(0, checksum::each(0, bytes))
}

// The heading of a record where it lies: what fits of it, to the start of buf; how many bytes that is.
#[unsafe(no_mangle)]
pub extern "C" fn words_heading<'a>(
    titles: &'a [u8],
    names: &'a [u8],
    form: u8,
    start: usize,
    len: usize,
    buf: &mut [u8],
) -> usize
    ensures { Copied buf.old (heading_of titles.now names.now form start len) result buf.new }
{
    let heading = transfer_write::write_heading(titles, names, form, start, len);
    let mut w = Writer::new(buf, 0, 0);
    w.put(heading);
    w.cursor.at
}
