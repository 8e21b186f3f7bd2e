//! Dates as six digits, YYMMDD, and times as four, HHMM: read and written.
#![tactic(auto)]

ghost use Rattle.std.specs.Prelude.{◌≡◌, true, ◌+◌, ◌/◌, ◌%◌, ◌<◌, length, IfSome};
ghost use Rattle.grammar.specs.Bytes.{every};
ghost use Rattle.grammar.specs.Fields.{digit, decimal_base};
ghost use Rattle.grammar.specs.Ascii.{char};
ghost use Rattle.dates.specs.Dates.{is_date, is_time};
ghost use Rattle.dates.specs.Digits.{digits, full_year, pair_at, read_date, read_time, date_text, time_text, pair_values};
ghost use Rattle.calendar.specs.Meaning.{date_is, time_is};
ghost use Rattle.date_digits.specs.Meaning.{read_date_is, read_time_is};

use byte::{Class, DECIMAL_BASE, all_of};
use calendar::{Date, Time};

// "YYMMDD", "HHMM": how long each is, and where its parts stand.
pub const DATE_LENGTH: usize = 6;

pub const TIME_LENGTH: usize = 4;

const MONTH: usize = 2;

const DAY: usize = 4;

const MINUTE: usize = 2;

// "years 70 to 99 are 19xx, the rest 20xx"
const TURN_YEAR: u8 = 70;

const LAST_CENTURY: u16 = 1900;

const THIS_CENTURY: u16 = 2000;

// Two digits are a number below this.
const PAIR_VALUES: u16 = DECIMAL_BASE as u16 * DECIMAL_BASE as u16;

// Exactly n bytes, each a digit.
#[tactic(auto, unfolding(byte::specs::Classes::class_of))]
fn are_digits(text: &[u8], n: usize) -> bool
    ensures value { result ≡ digits n text.now }
    ensures each { result ≡ true → every digit text.now ≡ true }
    ensures length { result ≡ true → length text.now ≡ n }
{
    text.len() == n && all_of(text, Class::Digit)
}

// The number of the two digits at a place.
fn pair(text: &[u8], i: usize) -> u8
    requires digits { every digit text.now ≡ true }
    requires inside { i + 1 < length text.now }
    ensures value { result ≡ pair_at text.now i }
    ensures below { result < pair_values }
{
    (text[i] - b'0') * DECIMAL_BASE + (text[i + 1] - b'0')
}

// Years 70 to 99 are 19xx, the rest 20xx.
fn full_year(two: u8) -> u16
    ensures { result ≡ full_year two }
{
    let century = if two < TURN_YEAR {
        THIS_CENTURY
    } else {
        LAST_CENTURY
    };
    century + u16::from(two)
}

/// The date that six digits say; `None` where they are no six digits, or say no date.
#[tactic(auto, unfolding(dates::specs::Digits::read_date))]
pub fn read_date(text: &[u8]) -> Option<Date>
    ensures value { read_date_is result ≡ read_date text.now }
    ensures valid { IfSome result (λ d. is_date (date_is d) ≡ true) }
{
    if !are_digits(text, DATE_LENGTH) {
        return None;
    }
    let date = Date {
        year: full_year(pair(text, 0)),
        month: pair(text, MONTH),
        day: pair(text, DAY),
    };
    date.is_valid().then_some(date)
}

// Stays, beside `read_date`: three pairs and a century make a date, two pairs a time; one function for both would be longer than the two.
/// The time that four digits say; `None` where they are no four digits, or say no time.
#[tactic(auto, unfolding(dates::specs::Digits::read_time))]
pub fn read_time(text: &[u8]) -> Option<Time>
    ensures value { read_time_is result ≡ read_time text.now }
    ensures valid { IfSome result (λ t. is_time (time_is t) ≡ true) }
{
    if !are_digits(text, TIME_LENGTH) {
        return None;
    }
    let time = Time {
        hour: pair(text, 0),
        minute: pair(text, MINUTE),
    };
    time.is_valid().then_some(time)
}

// The first of a number's two digits.
fn tens(n: u8) -> u8
    ensures { result ≡ char "0" + n / decimal_base }
{
    b'0' + n / DECIMAL_BASE
}

// The second.
fn ones(n: u8) -> u8
    ensures { result ≡ char "0" + n % decimal_base }
{
    b'0' + n % DECIMAL_BASE
}

// The last two digits of a year, as a number.
fn two_of(year: u16) -> u8
    ensures { result ≡ year % pair_values }
{
    (year % PAIR_VALUES) as u8
}

/// A date's six digits.
#[tactic(auto, unfolding(dates::specs::Digits::date_text))]
pub fn date_text(d: Date) -> [u8; DATE_LENGTH]
    ensures { result ≡ date_text (date_is d) }
{
    let year = two_of(d.year);
    [
        tens(year),
        ones(year),
        tens(d.month),
        ones(d.month),
        tens(d.day),
        ones(d.day),
    ]
}

/// A time's four digits.
#[tactic(auto, unfolding(dates::specs::Digits::time_text))]
pub fn time_text(t: Time) -> [u8; TIME_LENGTH]
    ensures { result ≡ time_text (time_is t) }
{
    [tens(t.hour), ones(t.hour), tens(t.minute), ones(t.minute)]
}
