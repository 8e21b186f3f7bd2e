//! Lines: what one byte does where a line is awaited, and what is judged when its CR has come.
#![tactic(auto)]

ghost use Rattle.std.specs.Prelude.{◌≡◌, ◌≤◌, length, take};
ghost use Rattle.grammar.specs.Lines.{trim, is_comment, is_prompt, line_byte};
ghost use Rattle.line.specs.Byte.{line_byte_is};

use span::find;

/// The byte that ends a line.
pub const CR: u8 = 13;

/// The byte that is dropped directly after a line's CR.
pub const LF: u8 = 10;

/// The most bytes of a line before its CR.
pub const LINE_LIMIT: usize = places::LINE_ROOM;

/// What a byte does to the line under way.
#[derive(Clone, Copy, PartialEq, Eq)]
pub enum LineByte {
    /// An LF behind the CR of the line before.
    Dropped,
    Ends,
    Grows,
    /// It is one byte too many.
    Overruns,
}

/// What the byte b does where len bytes of a line are there; after_cr says that the byte before it was a CR after which an LF is dropped.
pub fn byte_does(after_cr: bool, len: usize, b: u8) -> LineByte
    ensures { line_byte_is result ≡ line_byte after_cr len b }
{
    match b {
        LF if after_cr => LineByte::Dropped,
        CR => LineByte::Ends,
        _ if len < LINE_LIMIT => LineByte::Grows,
        _ => LineByte::Overruns,
    }
}

/// How many bytes of a line are judged: all but the spaces at its end.
pub fn trimmed(line: &[u8]) -> usize
    ensures { (take result line.now ≡ trim line.now) × (result ≤ length line.now) }
{
    let mut rest = line;
    while let [before @ .., b' '] = rest {
        rest = before;
    }
    rest.len()
}

/// The line is ignored wherever a line is awaited.
#[tactic(auto, unfolding(grammar::specs::Lines::is_comment))]
pub fn is_comment(line: &[u8]) -> bool
    ensures { result ≡ is_comment line.now }
{
    matches!(line, [b';', ..])
}

/// The line's last byte is its only `>`.
#[tactic(auto, using(crate::proofs::Laws::prompt_by))]
pub fn is_prompt(line: &[u8]) -> bool
    ensures { result ≡ is_prompt line.now }
{
    find(line, b'>') + 1 == line.len()
}
