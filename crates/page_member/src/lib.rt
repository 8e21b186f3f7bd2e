//! A member of the white pages: the nine fields of an M record, by their places in the line.
#![tactic(auto)]

ghost use Rattle.std.specs.Prelude.{◌≡◌, ◌≤◌, length};
ghost use Rattle.page_member.specs.Meaning.{MemberIs};

use page_cut::Dropped;
use page_whence::read_whence;
use page_words::{read_when, read_who};
use span::Span;

/// The nine fields.
#[derive(Clone, Copy)]
pub struct Member {
    pub call: Span,
    pub home: Span,
    pub bid: Span,
    pub stamp: u64,
    pub origin: Span,
    pub hops: u64,
    pub name: Span,
    pub zip: Span,
    pub town: Span,
}

/// The nine fields at a place.
#[tactic(auto, unfolding(pages::specs::Fields::member_of))]
pub fn read_member(line: &[u8], at: usize) -> Result<Member, Dropped>
    requires { at ≤ length line.now }
    ensures { MemberIs line.now at result }
{
    let who = read_who(line, at)?;
    let when = read_when(line, who.next)?;
    let whence = read_whence(line, when.next)?;
    Ok(Member {
        call: who.call,
        home: who.home,
        bid: who.bid,
        stamp: when.stamp,
        origin: when.origin,
        hops: when.hops,
        name: whence.name,
        zip: whence.zip,
        town: whence.town,
    })
}
