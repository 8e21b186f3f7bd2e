//! Numbers of so many decimal digits; and an announced size, which has 1 to 9 of them.
#![tactic(auto)]

ghost use Rattle.std.specs.Prelude.{◌≡◌, true, ◌^◌, ◌<◌, ◌≤◌, length, IfSome};
ghost use Rattle.grammar.specs.Fields.{digit, field, read_from, read_size};
ghost use Rattle.byte.specs.Said.{said};
ghost use Rattle.size.specs.Meaning.{word_digits, decimal_of, size_number, field_number};

use byte::Class;
use field::is_field;

// "size (1 to 9 digits)"
const SIZE_DIGITS: usize = 9;

const BASE: u64 = byte::DECIMAL_BASE as u64;

/// The number that 1 to 19 decimal digits say: it fits in 64 bits.
pub fn number(s: &[u8]) -> u64
    requires { field digit word_digits s.now ≡ true }
    ensures value { result ≡ read_from 0 s.now }
    ensures below { result < 10 ^ length s.now }
{
    let mut value = 0;
    for b in s {
        value = value * BASE + (*b - b'0') as u64;
    }
    value
}

/// The number that 1 to `MOST` decimal digits say.
#[tactic(auto, unfolding(byte::specs::Classes::class_of))]
pub fn read_number<const MOST: usize>(s: &[u8]) -> Option<u64>
    requires { MOST ≤ word_digits }
    ensures value { said result ≡ decimal_of MOST s.now }
    ensures below { IfSome result (λ n. n < 10 ^ MOST) }
{
    if !is_field(s, Class::Digit, MOST) {
        return None;
    }
    Some(number(s))
}

/// An announced size.
#[tactic(auto, unfolding(grammar::specs::Fields::is_size))]
pub fn read_size(s: &[u8]) -> Option<u32>
    ensures value { said result ≡ read_size s.now }
    ensures number { size_number result ≡ field_number s.now }
{
    Some(read_number::<SIZE_DIGITS>(s)? as u32)
}
