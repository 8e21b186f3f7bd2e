// Where BIDs are compared: two of them, and one with those of a buffer's entries.
// Stays: the loops and tests of this crate by hand (speed). The CR at which a block of five is answered on a full shelf may cost 200,000
// instructions; by the library's eq_ignore_ascii_case it cost 425,482, with `for` and chains of tests 258,777, as it stands 146,847.
#![tactic(auto)]

ghost use Rattle.std.specs.Prelude.{◌≡◌, ◌+◌, ◌≤◌, min, eqb, length, take, drop};
ghost use Rattle.grammar.specs.Fields.{upper, same_bid};
ghost use Rattle.session.specs.Choices.{among};
ghost use Rattle.places.specs.Places.{bid_max};
ghost use Rattle.layout.specs.Layout.{field_in};
ghost use Rattle.entries.specs.Decoded.{entries};
ghost use Rattle.bid.specs.Letter.{is_letter};

use part::at_most;

// The capital and the small form of a letter differ in this bit alone.
const CASE: u8 = b'a' - b'A';

// A letter, in either case.
fn is_letter(a: u8) -> bool
    ensures { result ≡ is_letter a }
{
    match a {
        b'A'..=b'Z' => true,
        b'a'..=b'z' => true,
        _ => false,
    }
}

// The two bytes are one: the same, or the capital and the small form of a letter. Most bytes that differ are told apart by their bits.
fn as_one(a: u8, b: u8) -> bool
    ensures { result ≡ eqb (upper a) (upper b) }
{
    if a == b {
        return true;
    }
    if (a ^ b) != CASE {
        return false;
    }
    is_letter(a)
}

// The bytes of s from a place on, as many as the BID has, are this BID.
fn same_from(s: &[u8], from: usize, bid: &[u8]) -> bool
    requires { from + length bid.now ≤ length s.now }
    ensures { result ≡ same_bid (take (length bid.now) (drop from s.now)) bid.now }
{
    let mut i = 0;
    while i < bid.len() {
        if !as_one(s[from + i], bid[i]) {
            return false;
        }
        i += 1;
    }
    true
}

// The two BIDs are one.
pub fn same_bid(a: &[u8], b: &[u8]) -> bool
    ensures { result ≡ same_bid a.now b.now }
{
    if a.len() != b.len() {
        return false;
    }
    same_from(a, 0, b)
}

fn wide(x: u8) -> usize
    ensures { result ≡ x }
{
    x as usize
}

// A field that says this length has that one: a length past the longest counts as the longest. What doesn't depend on the field is tested
// first, since that is the same for all entries of a buffer.
fn says_length(said: usize, length: usize) -> bool
    ensures { result ≡ eqb (min bid_max said) length }
{
    let longest = places::BID_MAX as usize;
    if length < longest {
        return said == length;
    }
    if length == longest {
        return longest <= said;
    }
    false
}

// The field at this place, which s has room for up to the longest BID, is this BID.
fn is_bid_at(s: &[u8], at: usize, bid: &[u8]) -> bool
    requires { at + 1 + bid_max ≤ length s.now }
    ensures { result ≡ same_bid (field_in bid_max at s.now) bid.now }
{
    if !says_length(wide(s[at]), bid.len()) {
        return false;
    }
    same_from(s, at + 1, bid)
}

// One of the first n entries of this size, which have a BID at this place, has this one. Not inlined, so slices are lent on as `&s[..]`, which
// lets it have them in registers (docs/PERFORMANCE.md, "Slices in registers").
pub fn has_bid(size: u8, s: &[u8], n: u16, at: u8, bid: &[u8]) -> bool
    requires { at + 1 + bid_max ≤ size }
    ensures { result ≡ among bid.now (entries (field_in bid_max at) size s.now n) }
{
    let step = size as usize;
    let whole = at_most(n as usize, s.len() / step);
    let mut i = 0usize;
    let mut place = at as usize;
    while i < whole {
        if is_bid_at(&s[..], place, &bid[..]) {
            return true;
        }
        place += step;
        i += 1;
    }
    // An entry past the end of the buffer is empty, and so is its BID.
    if whole < (n as usize) {
        return bid.len() == 0;
    }
    false
}
