//! The field reader of 01: it goes along a received line and hands out one field at a time. It is a struct that holds the line
//! and a place in it, and a thin one: the work is done by `field_at`, on the line and the place.
#![tactic(auto)]

ghost use Rattle.std.specs.Prelude.{◌≡◌, ◌≤◌, length, drop};
ghost use Rattle.grammar.specs.Fields.{words};
ghost use Rattle.span.specs.Places.{words_by};
ghost use Rattle.field_reader.specs.Reading.{field_at};

use span::{Span, next_field};

/// A line, and the place from which its next field is read.
#[derive(Drop)]
pub struct FieldReader<'a> {
    pub line: &'a [u8],
    pub place: usize,
}

impl<'a> FieldReader<'a> {
    /// A reader at the start of a line.
    pub fn new(line: &'a [u8]) -> FieldReader<'a>
        ensures line { result.line ≡ line.entry }
        ensures place { result.place ≡ 0 }
    {
        FieldReader { line, place: 0 }
    }

    /// Hands out the next field and goes past it; the line stays as it is.
    pub fn hand_out(&mut self) -> Span
        ensures field { result ≡ field_at self.old.line.now self.old.place }
        ensures line { self.new.line ≡ self.old.line }
        ensures place { self.new.place ≡ result.end }
    {
        let s = field_at(self.line, self.place);
        self.place = s.end;
        s
    }
}

/// The first field from a place on; where there is none, an empty one at the line's end.
pub fn field_at(line: &[u8], place: usize) -> Span
    ensures { result ≡ field_at line.now place }
{
    let s = next_field(line, place);
    if s.end <= s.start {
        let end = line.len();
        return Span { start: end, end };
    }
    s
}

/// `field_at` with what `next_field` promises beside it, for a caller who has a plain line and a place, as the reader of a proposal has.
pub fn field_by_reader(line: &[u8], place: usize) -> Span
    ensures { (result ≡ field_at line.now place) × (words (drop place line.now) ≡ words_by line.now result) × (result.start ≤ result.end) × (result.end ≤ length line.now) }
{
    let mut reader = FieldReader { line, place };
    reader.hand_out()
}
