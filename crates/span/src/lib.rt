//! The fields of a line by their places: the first byte of a kind, and the first field from a place on.
#![tactic(auto)]

ghost use Rattle.std.specs.Prelude.{◌≡◌, ◌==◌, ◌+◌, ◌≤◌, not, length, drop};
ghost use Rattle.std.specs.List.{position, position_or_len};
ghost use Rattle.grammar.specs.Fields.{words};
ghost use Rattle.span.specs.Places.{upto, words_by, part, Lies};

/// Where a field lies in its line: from start up to, not including, end.
#[derive(Clone, Copy, PartialEq, Eq)]
pub struct Span {
    pub start: usize,
    pub end: usize,
}

impl Span {
    /// The bytes of the field in its line.
    pub fn of(self, line: &[u8]) -> &[u8]
        requires { Lies line.now self }
        ensures { result.now ≡ part line.now self }
    {
        &line[self.start..self.end]
    }
}

// The place of the first c.
fn place_of(line: &[u8], c: u8) -> Option<usize>
    ensures { result ≡ position (λ x. x == c) line.now }
{
    line.iter().position(|b| *b == c)
}

/// How many bytes stand before the first c; all of them where there is none.
pub fn find(line: &[u8], c: u8) -> usize
    ensures { (result ≡ upto c line.now) × (result ≤ length line.now) }
{
    place_of(line, c).unwrap_or(line.len())
}

/// The first c from at on, or the line's end; at itself where it lies past the end.
#[tactic(auto, using(crate::proofs::Places::no_byte))]
pub fn find_from(line: &[u8], at: usize, c: u8) -> usize
    ensures { result ≡ at + upto c (drop at line.now) }
{
    match line.get(at..) {
        Some(rest) => at + find(rest, c),
        None => at,
    }
}

// The first byte that is no space.
fn place_of_other(line: &[u8]) -> Option<usize>
    ensures { result ≡ position (λ x. not (x == 32)) line.now }
{
    line.iter().position(|b| *b != b' ')
}

// How many spaces a text begins with.
fn spaces(line: &[u8]) -> usize
    ensures value { result ≡ position_or_len (λ x. not (x == 32)) line.now }
    ensures within { result ≤ length line.now }
{
    place_of_other(line).unwrap_or(line.len())
}

/// The first field from a place on; an empty span where there is none.
#[tactic(auto, using(crate::proofs::Places::no_field, crate::proofs::Laws::found_within))]
pub fn next_field(line: &[u8], at: usize) -> Span
    ensures words { words (drop at line.now) ≡ words_by line.now result }
    ensures lies { Lies line.now result }
{
    if line.len() < at {
        return Span { start: 0, end: 0 };
    }
    let start = at + spaces(&line[at..]);
    Span {
        start,
        end: find_from(line, start, b' '),
    }
}
