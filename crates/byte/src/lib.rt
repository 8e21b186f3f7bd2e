//! Bytes: the classes that the fields of 01 are made of, hexadecimal digits, and letters as capitals.
#![tactic(auto)]

ghost use Rattle.std.specs.Prelude.{◌≡◌, ◌<◌, IfSome};
ghost use Rattle.std.specs.List.{list_all};
ghost use Rattle.grammar.specs.Bytes.{every};
ghost use Rattle.grammar.specs.Fields.{call_byte, bid_byte, heading_byte, not_ctrl_z, digit, upper, hex_digit, hex_pair};
ghost use Rattle.grammar.specs.Sid.{author_byte, data_byte};
ghost use Rattle.byte.specs.Classes.{class_of};
ghost use Rattle.byte.specs.Said.{said};

/// How many values a byte has.
pub const BYTE_VALUES: usize = 256;

/// A decimal digit counts ten times the one after it.
pub const DECIMAL_BASE: u8 = 10;

// A hexadecimal digit counts sixteen times the one after it.
const HEX_BASE: u8 = 16;

// Hexadecimal `A` stands for ten.
const BELOW_A: u8 = b'A' - DECIMAL_BASE;

// What ends a plain body.
const CTRL_Z: u8 = 0x1a;

/// The classes by name, so that a rule over a class is written and proved once.
#[derive(Clone, Copy, PartialEq, Eq)]
pub enum Class {
    /// Of from, to, or a part of at.
    Call,
    /// Of a BID.
    Bid,
    /// Of a title or a file name.
    Heading,
    /// A decimal digit.
    Digit,
    /// Of a SID's author.
    Author,
    /// Of a SID's data.
    Data,
    /// Of a plain body.
    PlainBody,
}

impl Class {
    /// The byte is of the class.
    #[tactic(auto, unfolding(crate::specs::Classes::class_of))]
    pub fn has(self, b: u8) -> bool
        ensures { result ≡ class_of self b }
    {
        match self {
            Class::Call => call_byte(b),
            Class::Bid => bid_byte(b),
            Class::Heading => heading_byte(b),
            Class::Digit => digit_byte(b),
            Class::Author => author_byte(b),
            Class::Data => data_byte(b),
            Class::PlainBody => plain_body_byte(b),
        }
    }
}

/// A letter as a capital; any other byte as it is.
pub fn upper_of(b: u8) -> u8
    ensures { result ≡ upper b }
{
    b.to_ascii_uppercase()
}

/// A byte of from, to, or a part of at.
pub fn call_byte(b: u8) -> bool
    ensures { result ≡ call_byte b }
{
    matches!(b, 0x21..=0x7e) && !matches!(b, b'@' | b'.')
}

/// A byte of a BID.
pub fn bid_byte(b: u8) -> bool
    ensures { result ≡ bid_byte b }
{
    b >= 0x21
}

/// A byte of a title or a file name.
pub fn heading_byte(b: u8) -> bool
    ensures { result ≡ heading_byte b }
{
    b >= 0x20
}

/// A decimal digit.
pub fn digit_byte(b: u8) -> bool
    ensures { result ≡ digit b }
{
    b.is_ascii_digit()
}

/// What a hexadecimal digit, in either case, stands for.
#[tactic(auto, unfolding(grammar::specs::Fields::hex_digit))]
pub fn hex_digit(b: u8) -> Option<u8>
    ensures value { said result ≡ hex_digit b }
    ensures below { IfSome result (λ n. n < 16) }
{
    match upper_of(b) {
        u @ b'0'..=b'9' => Some(u - b'0'),
        u @ b'A'..=b'F' => Some(u - BELOW_A),
        _ => None,
    }
}

/// What two hexadecimal digits, the higher one first, stand for.
pub fn hex_pair(high: u8, low: u8) -> Option<u8>
    ensures { said result ≡ hex_pair (hex_digit high) (hex_digit low) }
{
    let a = hex_digit(high)?;
    let b = hex_digit(low)?;
    Some(a * HEX_BASE + b)
}

/// A byte of a SID's author.
pub fn author_byte(b: u8) -> bool
    ensures { result ≡ author_byte b }
{
    matches!(b, 0x20..=0x7f) && !matches!(b, b'-' | b'[' | b']')
}

/// A byte of a SID's data.
pub fn data_byte(b: u8) -> bool
    ensures { result ≡ data_byte b }
{
    author_byte(b) || b == b'-'
}

/// A byte of a plain body.
pub fn plain_body_byte(b: u8) -> bool
    ensures { result ≡ not_ctrl_z b }
{
    b != CTRL_Z
}

// Every byte is of the class, in the library's words.
fn all_in(s: &[u8], class: Class) -> bool
    ensures { result ≡ list_all (class_of class) s.now }
{
    s.iter().all(|b| class.has(*b))
}

/// Every byte is of the class.
#[tactic(auto, using(crate::proofs::Every::every_is))]
pub fn all_of(s: &[u8], class: Class) -> bool
    ensures { result ≡ every (class_of class) s.now }
{
    all_in(s, class)
}
