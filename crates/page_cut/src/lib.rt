//! Pieces of a line by their places: what stands before the next space, and what stands between two quotes; whether a piece obeys a rule; and why a line is dropped.
#![tactic(auto)]

ghost use Rattle.std.specs.Prelude.{◌≡◌};
ghost use Rattle.byte.specs.Said.{said};
ghost use Rattle.span.specs.Places.{part, Lies};
ghost use Rattle.pages.specs.Fields.{read_long};
ghost use Rattle.page_cut.specs.Pieces.{behind_of, piece_to, word_at, quoted_at, rule_of};
ghost use Rattle.page_cut.specs.Why.{why_of};

use field::{is_at, is_bid, is_call};
use long_number::read_long;
use span::{Span, find_from};

/// Why a line is dropped; what breaks its rule first is named. C is told its number (include/fringemole_pages.h).
#[derive(Clone, Copy, Debug, PartialEq, Eq)]
pub enum Dropped {
    NoRecord,
    BadVersion,
    BadCall,
    BadHome,
    BadBid,
    BadStamp,
    BadOrigin,
    BadHops,
    BadName,
    BadZip,
    BadTown,
}

impl From<Dropped> for u8 {
    ghost from_gives = { λ why n. n ≡ why_of why };

    fn from(why: Dropped) -> u8 {
        match why {
            Dropped::NoRecord => 1,
            Dropped::BadVersion => 2,
            Dropped::BadCall => 3,
            Dropped::BadHome => 4,
            Dropped::BadBid => 5,
            Dropped::BadStamp => 6,
            Dropped::BadOrigin => 7,
            Dropped::BadHops => 8,
            Dropped::BadName => 9,
            Dropped::BadZip => 10,
            Dropped::BadTown => 11,
        }
    }
}

/// The rule that a word has to obey.
#[derive(Clone, Copy)]
pub enum Rule {
    Call,
    Mailbox,
    Bid,
}

/// A piece, and the place behind the byte that ends it.
#[derive(Clone, Copy)]
pub struct Piece {
    pub span: Span,
    pub next: usize,
}

// The place behind the byte at a place; the line's end has none behind it.
fn behind(line: &[u8], at: usize) -> usize
    ensures { result ≡ behind_of line.now at }
{
    if line.len() <= at { at } else { at + 1 }
}

// What stands from a place on before the next byte of this value.
#[tactic(auto, unfolding(crate::specs::Pieces::piece_to))]
fn up_to(line: &[u8], start: usize, ending: u8) -> Piece
    ensures { result ≡ piece_to ending line.now start }
{
    let end = find_from(line, start, ending);
    Piece {
        span: Span { start, end },
        next: behind(line, end),
    }
}

/// What stands before the next space.
pub fn word_at(line: &[u8], at: usize) -> Piece
    ensures { result ≡ word_at line.now at }
{
    up_to(line, at, b' ')
}

/// What stands between the byte at a place, which should be a quote, and the next quote.
pub fn quoted_at(line: &[u8], at: usize) -> Piece
    ensures { result ≡ quoted_at line.now at }
{
    up_to(line, behind(line, at), b'"')
}

/// Whether a piece obeys a rule.
pub fn obeys(line: &[u8], s: Span, rule: Rule) -> bool
    requires { Lies line.now s }
    ensures { result ≡ rule_of rule (part line.now s) }
{
    let text = s.of(line);
    match rule {
        Rule::Call => is_call(text),
        Rule::Mailbox => is_at(text),
        Rule::Bid => is_bid(text),
    }
}

/// The number that a piece says, of 1 to 10 digits.
pub fn long_in(line: &[u8], s: Span) -> Option<u64>
    requires { Lies line.now s }
    ensures { said result ≡ read_long (part line.now s) }
{
    read_long(s.of(line))
}
