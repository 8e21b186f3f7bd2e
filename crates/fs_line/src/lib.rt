//! The FS line: the partner's answers to the proposals of a block, one sign a proposal, at the level in force. 0 is level 0, every other number counts as level 1.
#![tactic(auto)]

ghost use Rattle.std.specs.Prelude.{◌≡◌, true, not, IfOk, MatchOption, ◌≤◌, eqb, length, ◌==◌};
ghost use Rattle.std.specs.List.{position, list_all};
ghost use Rattle.std.proofs.Math.Option.{none, some};
ghost use Rattle.grammar.specs.Bytes.{every};
ghost use Rattle.grammar.specs.Ascii.{text};
ghost use Rattle.grammar.specs.Fields.{after_capitals, digit, read_from};
ghost use Rattle.grammar.specs.Turns.{block_limit};
ghost use Rattle.grammar.specs.Answers.{sign_of, letter_sign, sign_byte, is_offset, digit_count, offset_sign, sign_at, read_signs, write_sign};
ghost use Rattle.byte.specs.Said.{said};
ghost use Rattle.fs_line.specs.Answers.{meant, sign_meant, sign_number, byte_number, no_answer_number, number_given, signs_kept, answer_number, answer_signs};

use byte::{digit_byte, upper_of};
use refusal::Refusal;

// The most proposals of a block.
const BLOCK_LIMIT: usize = phase::BLOCK_LIMIT as usize;

// The least level at which letters and offsets are signs.
const LETTERS: u8 = 1;

// The most digits of an offset.
const OFFSET_DIGITS: usize = transfer_step::OFFSET_DIGITS as usize;

/// What a sign says as the answer to a proposal.
#[derive(Clone, Copy, PartialEq, Eq)]
pub enum Sign {
    Accept,
    Decline,
    Defer,
}

impl From<Sign> for u8 {
    ghost from_gives = { λ s b. b ≡ write_sign (meant s) };

    /// The sign as session memory keeps it, whatever stood on the line: `+`, `-` or `=`.
    fn from(sign: Sign) -> u8 {
        match sign {
            Sign::Accept => b'+',
            Sign::Decline => b'-',
            Sign::Defer => b'=',
        }
    }
}

/// Why a line is no answer where FS is awaited: it does not begin with FS, or is wrong behind it, in form or count.
#[derive(Clone, Copy, PartialEq, Eq)]
pub enum NoAnswer {
    OtherLine,
    WrongAnswer,
}

impl From<NoAnswer> for u8 {
    ghost from_gives = { λ e n. n ≡ no_answer_number e };

    /// 01's number of the refusal.
    fn from(cause: NoAnswer) -> u8 {
        match cause {
            NoAnswer::OtherLine => Refusal::LineNotAllowed as u8,
            NoAnswer::WrongAnswer => Refusal::BadAnswer as u8,
        }
    }
}

/// The sign that a byte is; any other byte than `+`, `-`, `=` says nothing.
pub fn sign_of(b: u8) -> Option<Sign>
    ensures meant { sign_meant result ≡ sign_of b }
    ensures number { sign_number result ≡ byte_number b }
{
    match b {
        b'+' => Some(Sign::Accept),
        b'-' => Some(Sign::Decline),
        b'=' => Some(Sign::Defer),
        _ => None, // no sign
    }
}

// The sign that a letter is, as a capital.
fn letter_sign(u: u8) -> Option<Sign>
    ensures { sign_meant result ≡ letter_sign u }
{
    match u {
        b'Y' | b'H' => Some(Sign::Accept),
        b'N' | b'R' => Some(Sign::Decline),
        b'L' | b'E' => Some(Sign::Defer),
        _ => None,
    }
}

// The sign that a byte is by itself.
fn sign_byte(b: u8, level: u8) -> Option<Sign>
    ensures { sign_meant result ≡ sign_byte level b }
{
    if let Some(sign) = sign_of(b) {
        return Some(sign);
    }
    if level < LETTERS {
        None
    } else {
        letter_sign(upper_of(b))
    }
}

// The byte in front of an offset.
fn is_offset(b: u8) -> bool
    ensures { result ≡ is_offset b }
{
    matches!(upper_of(b), b'!' | b'A')
}

// The place of the first byte that is no digit.
fn first_other(s: &[u8]) -> Option<usize>
    ensures { result ≡ position (λ b. not (digit b)) s.now }
{
    s.iter().position(|b| !digit_byte(*b))
}

// How many digits stand in front.
fn digit_count(s: &[u8]) -> usize
    ensures value { result ≡ digit_count s.now }
    ensures within { result ≤ length s.now }
{
    first_other(s).unwrap_or(s.len())
}

// All of these digits are 0.
fn all_zeros(digits: &[u8]) -> bool
    ensures { result ≡ list_all (λ b. b == 48) digits.now }
{
    digits.iter().all(|b| *b == b'0')
}

// The number of these digits is 0.
fn is_zero(digits: &[u8]) -> bool
    requires { every digit digits.now ≡ true }
    ensures { result ≡ eqb (read_from 0 digits.now) 0 }
{
    all_zeros(digits)
}

// The sign that an offset of these digits is.
fn offset_sign(digits: &[u8]) -> Option<Sign>
    requires { every digit digits.now ≡ true }
    ensures { sign_meant result ≡ offset_sign digits.now }
{
    if digits.is_empty() || OFFSET_DIGITS < digits.len() {
        None
    } else if is_zero(digits) {
        Some(Sign::Accept)
    } else {
        Some(Sign::Defer)
    }
}

// The sign in front of s, and what follows it.
fn sign_at(s: &[u8], level: u8) -> Option<(Sign, &[u8])>
    ensures { MatchOption result (sign_at level s.now ≡ none) (λ p. sign_at level s.now ≡ some (meant p.0, p.1.now)) }
{
    let Some((first, rest)) = s.split_first() else {
        return None;
    };
    if let Some(sign) = sign_byte(*first, level) {
        return Some((sign, rest));
    }
    if level < LETTERS || !is_offset(*first) {
        return None;
    }
    let (digits, behind) = rest.split_at(digit_count(rest));
    Some((offset_sign(digits)?, behind))
}

// What follows FS, in either case, at the begin of a line.
fn after_fs(line: &[u8]) -> Option<&[u8]>
    ensures { MatchOption result (after_capitals (text "FS") line.now ≡ none) (λ r. after_capitals (text "FS") line.now ≡ some r.now) }
{
    match line {
        [f, s, rest @ ..] if upper_of(*f) == b'F' && upper_of(*s) == b'S' => Some(rest),
        _ => None,
    }
}

// What follows `FS `, as the answer to n proposals: its signs as `+`, `-` and `=`, one for each proposal and zeros after them.
fn read_signs(s: &[u8], n: usize, level: u8) -> Option<[u8; BLOCK_LIMIT]>
    requires { n ≤ block_limit }
    ensures { said result ≡ signs_kept (read_signs level n s.now) }
{
    let mut signs = [0; BLOCK_LIMIT];
    let mut rest = s;
    for i in 0..n {
        let (sign, behind) = sign_at(rest, level)?;
        signs[i] = u8::from(sign);
        rest = behind;
    }
    if rest.is_empty() { Some(signs) } else { None }
}

/// The answer to n proposals at this level, read from a line whose spaces at the end are removed; no line answers more than five.
/// The signs are given as `+`, `-` and `=`, whatever stood on the line, one for each proposal and zeros after them.
///
/// # Errors
///
/// `OtherLine` where the line does not begin with FS, `WrongAnswer` where it does and is no answer to n proposals.
pub fn read_fs(line: &[u8], n: usize, level: u8) -> Result<[u8; BLOCK_LIMIT], NoAnswer>
    ensures number { number_given result ≡ answer_number level n line.now }
    ensures signs { IfOk result (λ signs. signs ≡ answer_signs level n line.now) }
{
    let rest = after_fs(line).ok_or(NoAnswer::OtherLine)?;
    match rest {
        [space, signs @ ..] if *space == b' ' && n <= BLOCK_LIMIT => {
            read_signs(signs, n, level).ok_or(NoAnswer::WrongAnswer)
        }
        _ => Err(NoAnswer::WrongAnswer),
    }
}
