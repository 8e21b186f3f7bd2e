//! The lines of a body, one after another, by their places.
#![tactic(auto)]

ghost use Rattle.std.specs.Prelude.{◌≡◌, ◌+◌, drop};
ghost use Rattle.text_line.specs.Places.{leading_lf, text_line_at};

use span::find_from;

/// Where a line lies in its body, from start up to, not including, end, and the place from which the next one is read.
#[derive(Clone, Copy, PartialEq, Eq)]
pub struct TextLine {
    pub start: usize,
    pub end: usize,
    pub next: usize,
}

// A place past the one LF that may follow a CR.
fn past_lf(body: &[u8], at: usize) -> usize
    ensures { result ≡ at + leading_lf (drop at body.now) }
{
    match body.get(at) {
        Some(b'\n') => at + 1,
        _ => at,
    }
}

/// The line at a place that follows the title's CR (0) or a body CR (next of the line before); none at the body's end.
#[tactic(auto, unfolding(crate::specs::Places::text_line_at))]
pub fn next_line(body: &[u8], at: usize) -> Option<TextLine>
    ensures { result ≡ text_line_at body.now at }
{
    let start = past_lf(body, at);
    if body.len() <= start {
        return None;
    }
    let end = find_from(body, start, b'\r');
    let next = if body.len() <= end { end } else { end + 1 };
    Some(TextLine { start, end, next })
}
