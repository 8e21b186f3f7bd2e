//! A line of the white pages: what it is, its fields by their places in the line.
#![tactic(auto)]

ghost use Rattle.std.specs.Prelude.{◌≡◌, true, ◌+◌, ◌≤◌, length, drop, get_or};
ghost use Rattle.pages.specs.Pages.{is_hex, leads, has_flag, flag_length, version_of, member_by, by_letter, read_page, flag_place, data_after_flag};
ghost use Rattle.pages.specs.Fields.{member_of};
ghost use Rattle.page_line.specs.Meaning.{PageIs};

use byte::hex_digit;
use page_cut::Dropped;
use page_member::{Member, read_member};
use route_scan::byte_at;
use size::read_size;
use span::find_from;

// Two hexadecimal digits and a space stand before the flag.
const LEAD_DIGITS: usize = 2;

const FLAG_PLACE: usize = LEAD_DIGITS + 1;

// A flag has at most ten bytes, so it ends here at the latest.
const FLAG_LIMIT: usize = 10;

const FLAG_END: usize = FLAG_PLACE + FLAG_LIMIT;

// The data of a flag of one byte begin here, behind a space.
const DATA_PLACE: usize = FLAG_PLACE + 1 + 1;

// The line of a version ends here: its data are two digits.
const VERSION_DIGITS: usize = 2;

const VERSION_END: usize = DATA_PLACE + VERSION_DIGITS;

// Stays: kinds of lines, no Option; a dropped line is an `Err`.
/// What a line is; a version by the number of its two digits.
#[derive(Clone, Copy)]
pub enum Page {
    Version(u32),
    Member(Member),
    Skipped,
}

// A hexadecimal digit.
fn is_hex(b: u8) -> bool
    ensures { result ≡ is_hex b }
{
    hex_digit(b).is_some()
}

// Two hexadecimal digits and a space.
fn leads_on(line: &[u8]) -> bool
    ensures { result ≡ leads line.now }
{
    is_hex(byte_at(line, 0)) && is_hex(byte_at(line, 1)) && byte_at(line, LEAD_DIGITS) == b' '
}

// A flag from its place up to end, and a space behind it.
fn is_flag(line: &[u8], end: usize) -> bool
    requires { end ≡ flag_place + flag_length line.now }
    ensures { result ≡ has_flag line.now }
{
    FLAG_PLACE < end && end <= FLAG_END && end < line.len()
}

// The data of V: two decimal digits.
#[tactic(auto, unfolding(pages::specs::Pages::version_of))]
fn read_version(line: &[u8]) -> Result<Page, Dropped>
    requires { data_after_flag ≤ length line.now }
    ensures { PageIs line.now result (version_of (drop data_after_flag line.now)) }
{
    if line.len() != VERSION_END {
        return Err(Dropped::BadVersion);
    }
    let n = read_size(&line[DATA_PLACE..VERSION_END]).ok_or(Dropped::BadVersion)?;
    Ok(Page::Version(n))
}

// The data of M.
fn member_page(line: &[u8]) -> Result<Page, Dropped>
    requires { data_after_flag ≤ length line.now }
    ensures { PageIs line.now result (member_by (member_of (drop data_after_flag line.now))) }
{
    Ok(Page::Member(read_member(line, DATA_PLACE)?))
}

// A record with a flag of one byte.
#[tactic(auto, unfolding(pages::specs::Pages::by_letter))]
fn by_letter(line: &[u8]) -> Result<Page, Dropped>
    requires { data_after_flag ≤ length line.now }
    ensures { PageIs line.now result (by_letter (get_or line.now flag_place 0) (drop data_after_flag line.now)) }
{
    match line[FLAG_PLACE] {
        b'V' => read_version(line),
        b'M' => member_page(line),
        _ => Ok(Page::Skipped),
    }
}

/// What a line is, or why it is dropped.
#[tactic(auto, unfolding(pages::specs::Pages::read_page))]
pub fn read_page(line: &[u8]) -> Result<Page, Dropped>
    ensures { PageIs line.now result (read_page line.now) }
{
    if !leads_on(line) {
        return Err(Dropped::NoRecord);
    }
    let end = find_from(line, FLAG_PLACE, b' ');
    if !is_flag(line, end) {
        return Err(Dropped::NoRecord);
    }
    if end != FLAG_PLACE + 1 {
        return Ok(Page::Skipped);
    }
    by_letter(line)
}
