//! The first six fields of a member, words with one space between: call, home mailbox and BID; time stamp, origin and hops.
#![tactic(auto)]

ghost use Rattle.std.specs.Prelude.{◌≡◌, ◌≤◌, length};
ghost use Rattle.page_words.specs.Meaning.{WordIs, WordBy, WhoIs, WhenIs};

use page_cut::{Dropped, Piece, Rule, long_in, obeys, word_at};
use span::Span;

/// Call, home mailbox and BID, and the place where what follows begins.
#[derive(Clone, Copy)]
pub struct Who {
    pub call: Span,
    pub home: Span,
    pub bid: Span,
    pub next: usize,
}

/// Time stamp, origin and hops, and the place where what follows begins.
#[derive(Clone, Copy)]
pub struct When {
    pub stamp: u64,
    pub origin: Span,
    pub hops: u64,
    pub next: usize,
}

// The word at a place of the line, said by this crate's definitions.
fn word_in(line: &[u8], at: usize) -> Piece
    requires { at ≤ length line.now }
    ensures { WordIs line.now at result }
{
    word_at(line, at)
}

// The word at a place, if it obeys the rule.
fn word_by(line: &[u8], at: usize, rule: Rule) -> Option<Piece>
    requires { at ≤ length line.now }
    ensures { WordBy line.now at rule result }
{
    let word = word_in(line, at);
    if obeys(line, word.span, rule) {
        Some(word)
    } else {
        None
    }
}

// Stays: a line and a place in it as two parameters, since `page_whence::read_whence` and `page_member::read_member`, which docs/CONFORMANCE.md
// names, may ask no more of callers than `at ≤ length line`.
/// Call, home mailbox and BID at a place.
#[tactic(auto, unfolding(pages::specs::Fields::who_of))]
pub fn read_who(line: &[u8], at: usize) -> Result<Who, Dropped>
    requires { at ≤ length line.now }
    ensures { WhoIs line.now at result }
{
    let call = word_by(line, at, Rule::Call).ok_or(Dropped::BadCall)?;
    let home = word_by(line, call.next, Rule::Mailbox).ok_or(Dropped::BadHome)?;
    let bid = word_by(line, home.next, Rule::Bid).ok_or(Dropped::BadBid)?;
    Ok(Who {
        call: call.span,
        home: home.span,
        bid: bid.span,
        next: bid.next,
    })
}

/// Time stamp, origin and hops at a place.
#[tactic(auto, unfolding(pages::specs::Fields::when_of))]
pub fn read_when(line: &[u8], at: usize) -> Result<When, Dropped>
    requires { at ≤ length line.now }
    ensures { WhenIs line.now at result }
{
    let first = word_in(line, at);
    let stamp = long_in(line, first.span).ok_or(Dropped::BadStamp)?;
    let origin = word_by(line, first.next, Rule::Mailbox).ok_or(Dropped::BadOrigin)?;
    let last = word_in(line, origin.next);
    let hops = long_in(line, last.span).ok_or(Dropped::BadHops)?;
    Ok(When {
        stamp,
        origin: origin.span,
        hops,
        next: last.next,
    })
}
