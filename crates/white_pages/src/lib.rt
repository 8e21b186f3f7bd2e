//! A white-pages mail: its lines one after another, by their places, and what it holds as a whole.
#![tactic(auto)]

ghost use Rattle.std.specs.Prelude.{◌≡◌, ◌+◌, ◌<◌};
ghost use Rattle.grammar.specs.Bytes.{word_values};
ghost use Rattle.pages.specs.Pages.{survey_of};
ghost use Rattle.white_pages.specs.Meaning.{NextIs, page_counted, told_of, survey_is};

use page_cut::Dropped;
use page_line::{Page, read_page};
use text_line::next_line;

// A mail with a version above this one is left unread.
const OUR_VERSION: u32 = 10;

/// A line by its places in the mail, and the place from which the next one is read. The places of its fields count from its start.
#[derive(Clone, Copy)]
pub struct PageLine {
    pub start: usize,
    pub end: usize,
    pub next: usize,
    pub page: Result<Page, Dropped>,
}

// What was counted so far.
#[derive(Clone, Copy)]
struct PageTally {
    records: usize,
    dropped: usize,
    version: u32,
}

/// What a mail holds: how many records and dropped lines, none of either where it is left unread, and the highest version that it says, or 0.
#[derive(Clone, Copy)]
pub struct Surveyed {
    // Stays: the four parts of the definition's own `Survey`, which the C struct has too; an Option of the counts would be taken apart again there.
    pub unread: bool,
    pub records: usize,
    pub dropped: usize,
    pub version: u32,
}

/// The line at a place, which is 0 or `next` of the line before; `None` where the mail has no more.
pub fn next_page(mail: &[u8], at: usize) -> Option<PageLine>
    ensures { NextIs mail.now at result }
{
    match next_line(mail, at) {
        None => None,
        Some(line) => Some(PageLine {
            start: line.start,
            end: line.end,
            next: line.next,
            page: read_page(&mail[line.start..line.end]),
        }),
    }
}

impl PageTally {
    // One line more.
    fn count(&mut self, page: Result<Page, Dropped>)
        requires { (self.old.records + 1 < word_values) × (self.old.dropped + 1 < word_values) }
        ensures { self.new ≡ page_counted self.old page }
    {
        match page {
            Ok(Page::Version(n)) => {
                self.records += 1;
                self.version = self.version.max(n);
            }
            Ok(Page::Member(_)) => self.records += 1,
            Ok(Page::Skipped) => {}
            Err(_) => self.dropped += 1,
        }
    }

    // What all lines together tell.
    fn told(self) -> Surveyed
        ensures { result ≡ told_of self }
    {
        let unread = OUR_VERSION < self.version;
        Surveyed {
            unread,
            records: if unread { 0 } else { self.records },
            dropped: if unread { 0 } else { self.dropped },
            version: self.version,
        }
    }
}

/// What a mail holds.
pub fn survey(mail: &[u8]) -> Surveyed
    ensures { survey_is result ≡ survey_of mail.now }
{
    let mut tally = PageTally {
        records: 0,
        dropped: 0,
        version: 0,
    };
    let mut at = 0;
    // Stays: each line says where the next one begins; an iterator for this one loop would be longer.
    while let Some(line) = next_page(mail, at) {
        tally.count(line.page);
        at = line.next;
    }
    tally.told()
}
