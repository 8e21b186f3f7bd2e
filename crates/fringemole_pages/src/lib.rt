//! White pages for a C host (include/fringemole_pages.h): a mail surveyed, its lines by their places, and dates of the older ones.
#![tactic(auto)]

ghost use Rattle.std.specs.Prelude.{◌≡◌};
ghost use Rattle.pages.specs.Pages.{survey_of};
ghost use Rattle.pages.specs.Stamps.{to_seconds, to_date};
ghost use Rattle.byte.specs.Said.{said};
ghost use Rattle.date_digits.specs.Meaning.{read_date_is};
ghost use Rattle.white_pages.specs.Meaning.{survey_is};
ghost use Rattle.fringemole_pages.specs.Numbers.{told_survey, bare_of, member_page, told_line, NextIs, told_seconds, told_date};

use calendar::Date;
use date_digits::date_text;
use page_line::Page;
use page_member::Member;
use white_pages::{PageLine, Surveyed};

// What a line is, by the number in `kind`.
// Stays: the C interface (struct fringemole_page), where a kind is a number.
const END_KIND: u8 = 0;

const VERSION_KIND: u8 = 1;

const MEMBER_KIND: u8 = 2;

const SKIPPED_KIND: u8 = 3;

const DROPPED_KIND: u8 = 4;

// This reader's answers, by the number in `answer`.
// Stays: the C interface (struct fringemole_page_seconds, fringemole_page_date), where an answer is a number.
const DONE: u8 = 0;

const BAD_DATE: u8 = 1;

const OUT_OF_RANGE: u8 = 2;

/// What a mail holds: unread is 1 where it is left unread.
#[repr(C)]
#[derive(Drop)]
pub struct MailPages {
    pub records: usize,
    pub dropped: usize,
    pub version: u32,
    // Stays: the C interface, as in the rest of these structs: a flag or a number beside the value.
    pub unread: u8,
}

/// A line by its places in the mail, its fields by theirs in the line; what its kind doesn't have is 0.
#[repr(C)]
#[derive(Drop)]
pub struct MailPage {
    pub next: usize,
    pub start: usize,
    pub end: usize,
    pub call_start: usize,
    pub call_end: usize,
    pub home_start: usize,
    pub home_end: usize,
    pub bid_start: usize,
    pub bid_end: usize,
    pub origin_start: usize,
    pub origin_end: usize,
    pub name_start: usize,
    pub name_end: usize,
    pub zip_start: usize,
    pub zip_end: usize,
    pub town_start: usize,
    pub town_end: usize,
    pub stamp: u64,
    pub hops: u64,
    pub version: u32,
    pub kind: u8,
    // Stays: the C interface.
    pub why: u8,
}

/// Seconds that may fall before 1970; `answer` is 0, or 1 for a bad date.
#[repr(C)]
#[derive(Drop)]
pub struct PageSeconds {
    pub seconds: i64,
    // Stays: the C interface.
    pub answer: u8,
}

/// A date and its six digits; `answer` is 0, or 2 for a time out of range.
#[repr(C)]
#[derive(Drop)]
pub struct PageDate {
    pub year: u16,
    pub month: u8,
    pub day: u8,
    pub text: [u8; 6],
    // Stays: the C interface.
    pub answer: u8,
}

impl From<Surveyed> for MailPages {
    ghost from_gives = { λ s p. p ≡ told_survey (survey_is s) };

    fn from(s: Surveyed) -> MailPages {
        MailPages {
            records: s.records,
            dropped: s.dropped,
            version: s.version,
            unread: u8::from(s.unread),
        }
    }
}

/// What a mail holds.
#[unsafe(no_mangle)]
pub extern "C" fn fringemole_pages_survey(mail: &[u8]) -> MailPages
    ensures { result ≡ told_survey (survey_of mail.now) }
{
    white_pages::survey(mail).into()
}

// No line.
fn no_line() -> MailPage
    ensures { result ≡ bare_of 0 0 0 0 0 0 }
{
    MailPage {
        next: 0,
        start: 0,
        end: 0,
        call_start: 0,
        call_end: 0,
        home_start: 0,
        home_end: 0,
        bid_start: 0,
        bid_end: 0,
        origin_start: 0,
        origin_end: 0,
        name_start: 0,
        name_end: 0,
        zip_start: 0,
        zip_end: 0,
        town_start: 0,
        town_end: 0,
        stamp: 0,
        hops: 0,
        version: 0,
        kind: END_KIND,
        why: 0,
    }
}

// A line without fields.
fn bare(line: PageLine, kind: u8, version: u32, why: u8) -> MailPage
    ensures { result ≡ bare_of line.next line.start line.end kind version why }
{
    MailPage {
        next: line.next,
        start: line.start,
        end: line.end,
        version,
        kind,
        why,
        ..no_line()
    }
}

// A member's line.
fn member_line(line: PageLine, m: Member) -> MailPage
    ensures { result ≡ member_page line m }
{
    MailPage {
        call_start: m.call.start,
        call_end: m.call.end,
        home_start: m.home.start,
        home_end: m.home.end,
        bid_start: m.bid.start,
        bid_end: m.bid.end,
        origin_start: m.origin.start,
        origin_end: m.origin.end,
        name_start: m.name.start,
        name_end: m.name.end,
        zip_start: m.zip.start,
        zip_end: m.zip.end,
        town_start: m.town.start,
        town_end: m.town.end,
        stamp: m.stamp,
        hops: m.hops,
        ..bare(line, MEMBER_KIND, 0, 0)
    }
}

impl From<PageLine> for MailPage {
    ghost from_gives = { λ line p. p ≡ told_line line };

    fn from(line: PageLine) -> MailPage {
        match line.page {
            Ok(Page::Version(n)) => bare(line, VERSION_KIND, n, 0),
            Ok(Page::Member(m)) => member_line(line, m),
            Ok(Page::Skipped) => bare(line, SKIPPED_KIND, 0, 0),
            Err(why) => bare(line, DROPPED_KIND, 0, why.into()),
        }
    }
}

/// The line at a place of a mail: 0, or next of the line before. A mail that is left unread, as its survey says, gives none.
#[unsafe(no_mangle)]
pub extern "C" fn fringemole_pages_next(mail: &[u8], pages: MailPages, at: usize) -> MailPage
    ensures { NextIs mail.now pages at result }
{
    if pages.unread != 0 {
        return no_line();
    }
    match white_pages::next_page(mail, at) {
        Some(line) => line.into(),
        None => no_line(),
    }
}

impl From<Option<i64>> for PageSeconds {
    ghost from_gives = { λ t p. p ≡ told_seconds (said t) };

    fn from(seconds: Option<i64>) -> PageSeconds {
        match seconds {
            Some(t) => PageSeconds {
                seconds: t,
                answer: DONE,
            },
            None => PageSeconds {
                seconds: 0,
                answer: BAD_DATE,
            },
        }
    }
}

/// Six digits as the seconds of that midnight GMT less one day.
#[unsafe(no_mangle)]
pub extern "C" fn fringemole_pages_seconds(date: &[u8]) -> PageSeconds
    ensures { result ≡ told_seconds (to_seconds date.now) }
{
    page_time::to_seconds(date).into()
}

impl From<Option<Date>> for PageDate {
    ghost from_gives = { λ d p. p ≡ told_date (read_date_is d) };

    fn from(date: Option<Date>) -> PageDate {
        match date {
            Some(date) => PageDate {
                year: date.year,
                month: date.month,
                day: date.day,
                text: date_text(date),
                answer: DONE,
            },
            None => PageDate {
                year: 0,
                month: 0,
                day: 0,
                text: [0; 6],
                answer: OUT_OF_RANGE,
            },
        }
    }
}

/// The date of a time.
#[unsafe(no_mangle)]
pub extern "C" fn fringemole_pages_date(seconds: i64) -> PageDate
    ensures { result ≡ told_date (to_date seconds) }
{
    page_time::to_date(seconds).into()
}
