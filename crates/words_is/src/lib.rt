//! The tests of the protocol's words for callers from C and Rust, answered by 1 or 0. They serve tests and benchmarks; the product's own calls are in the
//! crate fringemole.
#![tactic(auto)]

ghost use Rattle.std.specs.Prelude.{◌≡◌};
ghost use Rattle.grammar.specs.Bytes.{flag};
ghost use Rattle.grammar.specs.Fields.{is_size, same_bid};
ghost use Rattle.grammar.specs.Lines.{is_comment, is_prompt};
ghost use Rattle.byte.specs.Classes.{class_of};
ghost use Rattle.words_is.specs.Numbers.{class_by, field_is};

use byte::Class;

// Stay: the numbers by which callers from C name classes and rules (words_byte_is, words_field_is).
// The classes of bytes by number; any other: SID data.
const CALL_CLASS: u8 = 0;

const BID_CLASS: u8 = 1;

const HEADING_CLASS: u8 = 2;

const DIGIT_CLASS: u8 = 3;

const AUTHOR_CLASS: u8 = 4;

// The field rules by number; any other: packed body.
const CALL_RULE: u8 = 0;

const AT_RULE: u8 = 1;

const BID_RULE: u8 = 2;

const HEADING_RULE: u8 = 3;

const SIZE_RULE: u8 = 4;

const BODY_RULE: u8 = 5;

// The forms whose bodies these rules are about.
const FORM_PLAIN: u8 = phase::FORM_PLAIN;

const FORM_MESSAGE: u8 = phase::FORM_MESSAGE;

// The class with this number.
#[tactic(auto, unfolding(crate::specs::Numbers::class_by))]
fn class_of(k: u8) -> Class
    ensures { result ≡ class_by k }
{
    match k {
        CALL_CLASS => Class::Call,
        BID_CLASS => Class::Bid,
        HEADING_CLASS => Class::Heading,
        DIGIT_CLASS => Class::Digit,
        AUTHOR_CLASS => Class::Author,
        _ => Class::Data,
    }
}

/// 1 if the byte is of the class with this number.
#[unsafe(no_mangle)]
pub extern "C" fn words_byte_is(class: u8, b: u8) -> u8
    ensures { result ≡ flag (class_of (class_by class) b) }
{
    u8::from(class_of(class).has(b))
}

// The bytes are a size: 1 to 9 digits.
#[tactic(auto, unfolding(grammar::specs::Fields::is_size))]
fn is_size(s: &[u8]) -> bool
    ensures { result ≡ is_size s.now }
{
    size::read_size(s).is_some()
}

// The bytes obey the field rule with this number.
#[tactic(auto, unfolding(crate::specs::Numbers::field_is))]
fn is_field(kind: u8, s: &[u8]) -> bool
    ensures { result ≡ field_is kind s.now }
{
    match kind {
        CALL_RULE => field::is_call(s),
        AT_RULE => field::is_at(s),
        BID_RULE => field::is_bid(s),
        HEADING_RULE => field::is_heading(s),
        SIZE_RULE => is_size(s),
        BODY_RULE => field::is_body(FORM_PLAIN, s),
        _ => field::is_body(FORM_MESSAGE, s),
    }
}

/// 1 if the bytes obey the field rule with this number.
#[unsafe(no_mangle)]
pub extern "C" fn words_field_is(kind: u8, s: &[u8]) -> u8
    ensures { result ≡ flag (field_is kind s.now) }
{
    u8::from(is_field(kind, s))
}

/// 1 if the two BIDs are the same.
#[unsafe(no_mangle)]
pub extern "C" fn words_same_bid(a: &[u8], b: &[u8]) -> u8
    ensures { result ≡ flag (same_bid a.now b.now) }
{
    u8::from(bid::same_bid(a, b))
}

/// 1 if the line is ignored wherever a line is awaited.
#[unsafe(no_mangle)]
pub extern "C" fn words_is_comment(line: &[u8]) -> u8
    ensures { result ≡ flag (is_comment line.now) }
{
    u8::from(line::is_comment(line))
}

/// 1 if the line's last byte is its only `>`.
#[unsafe(no_mangle)]
pub extern "C" fn words_is_prompt(line: &[u8]) -> u8
    ensures { result ≡ flag (is_prompt line.now) }
{
    u8::from(line::is_prompt(line))
}
