// A number in decimal digits.
#![tactic(auto)]

ghost use Rattle.std.specs.Prelude.{◌≡◌, ◌+◌, ◌%◌, ◌≤◌, length};
ghost use Rattle.grammar.specs.Fields.{decimal, decimal_digits, decimal_base};
ghost use Rattle.grammar.specs.Ascii.{char};

use std::marker::Model;

/// Ten digits hold every 32-bit number.
pub const MOST_DIGITS: usize = 10;

const LAST_DIGIT: usize = MOST_DIGITS - 1;

const BASE: u32 = byte::DECIMAL_BASE as u32;

/// A number's decimal digits, without leading zeros; in contracts the list of them.
#[derive(Drop)]
pub struct Decimal {
    bytes: [u8; MOST_DIGITS],
    start: usize,
}

impl Model for Decimal {
    ghost use Rattle.std.specs.Prelude.{◌≡◌, ◌≤◌, length, drop};
    ghost use Rattle.grammar.specs.Bytes.{Bytes};
    ghost use Rattle.grammar.specs.Fields.{decimal_digits};

    ghost Value = { Bytes };

    ghost view = { λ d. drop d.start d.bytes };

    ghost invariant = { λ d. (length d.bytes ≡ decimal_digits) × (d.start ≤ decimal_digits) };
}

impl Decimal {
    /// How many digits; ten at most.
    pub fn len(&self) -> usize
        ensures value { result ≡ length self.now }
        ensures most { result ≤ decimal_digits }
    {
        MOST_DIGITS - self.start
    }

    pub fn as_bytes(&self) -> &[u8]
        ensures { result.now ≡ self.now }
    {
        let bytes = &self.bytes;
        &bytes[self.start..]
    }
}

// The last decimal digit.
fn last_digit(n: u32) -> u8
    ensures { result ≡ char "0" + n % decimal_base }
{
    b'0' + (n % BASE) as u8
}

/// The digits of a number, without leading zeros.
pub fn digits(n: u32) -> Decimal
    ensures { result ≡ decimal n }
{
    let mut bytes = [0u8; MOST_DIGITS];
    let mut at = LAST_DIGIT;
    let mut rest = n;
    // Stays: from the last digit on, by division; no iterator yields what is left of a number.
    while BASE <= rest {
        bytes[at] = last_digit(rest);
        rest /= BASE;
        at -= 1;
    }
    bytes[at] = last_digit(rest);
    Decimal { bytes, start: at }
}
