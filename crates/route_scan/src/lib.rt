//! Places in a routing header: white space, the zone letter, two bytes that mark a field.
#![tactic(auto)]

ghost use Rattle.std.specs.Prelude.{◌≡◌, true, ◌+◌, ◌<◌, ◌≤◌, drop, length, get_or};
ghost use Rattle.std.specs.List.{take_while};
ghost use Rattle.route.specs.Routes.{is_white, whites, is_letter, is_gmt, begins_with_two, mark_end, past_zone};

// `R:`, `@:` and `#:` have so many bytes.
pub const MARK_LENGTH: usize = 2;

// A time stamp without its zone: 003's STAMP.
const STAMP_LENGTH: usize = 13;

// A space or a TAB.
fn is_white(b: u8) -> bool
    ensures { result ≡ is_white b }
{
    matches!(b, b'\t' | b' ')
}

// A letter in either case.
fn is_letter(b: u8) -> bool
    ensures { result ≡ is_letter b }
{
    b.is_ascii_alphabetic()
}

/// The letter of GMT.
pub fn is_gmt(b: u8) -> bool
    ensures { result ≡ is_gmt b }
{
    matches!(b, b'Z' | b'z')
}

/// The byte at a place; 0 past the end.
pub fn byte_at(line: &[u8], at: usize) -> u8
    ensures { result ≡ get_or line.now at 0 }
{
    line.get(at).copied().unwrap_or(0)
}

// How much white space a line begins with, in std's words.
fn white_from(line: &[u8]) -> usize
    ensures value { result ≡ length (take_while is_white line.now) }
    ensures within { result ≤ length line.now }
{
    line.iter().take_while(|b| is_white(**b)).count()
}

/// The first byte from at on that is no white space; at itself where it lies past the end.
// By `line.iter().skip(at)` it would take at steps to get there.
#[tactic(auto, using(crate::proofs::Laws::white_past))]
pub fn skip_white(line: &[u8], at: usize) -> usize
    ensures value { result ≡ at + whites (drop at line.now) }
    ensures within { at < result → result ≤ length line.now }
{
    if line.len() < at {
        return at;
    }
    at + white_from(&line[at..])
}

/// The bytes a and b stand at a place.
pub fn begins_at(line: &[u8], at: usize, a: u8, b: u8) -> bool
    ensures value { result ≡ begins_with_two a b (drop at line.now) }
    ensures within { result ≡ true → at + MARK_LENGTH ≤ length line.now }
{
    match line.get(at..) {
        Some([x, y, ..]) => *x == a && *y == b,
        _ => false,
    }
}

/// The place behind the first `#:` from at on, or the line's end; at itself where it lies past the end.
pub fn behind_mark(line: &[u8], at: usize) -> usize
    ensures value { result ≡ at + mark_end (drop at line.now) }
    ensures within { at ≤ length line.now → result ≤ length line.now }
{
    for i in at..line.len() {
        if begins_at(line, i, b'#', b':') {
            return i + MARK_LENGTH;
        }
    }
    at.max(line.len())
}

/// Where the stamp ends: one letter after the time belongs to it.
pub fn past_zone(zone: u8) -> usize
    ensures { result ≡ past_zone zone }
{
    if is_letter(zone) {
        STAMP_LENGTH + 1
    } else {
        STAMP_LENGTH
    }
}
