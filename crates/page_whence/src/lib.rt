//! The last three fields of a member: name and town between quotes, and the zip between them.
#![tactic(auto)]

ghost use Rattle.std.specs.Prelude.{◌≡◌, ◌≤◌, length};
ghost use Rattle.page_whence.specs.Meaning.{NameBy, ZipBy, TownBy, WhenceIs};

use page_cut::{Dropped, Piece, quoted_at, word_at};
use route_scan::byte_at;
use span::Span;

/// Name, zip and town; name and town without their quotes.
#[derive(Clone, Copy)]
pub struct Whence {
    pub name: Span,
    pub zip: Span,
    pub town: Span,
}

// The name between quotes at a place and the space behind it; next is behind that space.
fn name_in(line: &[u8], at: usize) -> Option<Piece>
    requires { at ≤ length line.now }
    ensures { NameBy line.now at result }
{
    if byte_at(line, at) != b'"' {
        return None;
    }
    let quoted = quoted_at(line, at);
    if byte_at(line, quoted.next) != b' ' {
        return None;
    }
    Some(Piece {
        span: quoted.span,
        next: quoted.next + 1,
    })
}

// The zip at a place: a word that is not empty.
fn zip_in(line: &[u8], at: usize) -> Option<Piece>
    requires { at ≤ length line.now }
    ensures { ZipBy line.now at result }
{
    let zip = word_at(line, at);
    if zip.span.end <= at {
        return None;
    }
    Some(zip)
}

// The town between quotes at a place, with nothing behind it.
fn town_in(line: &[u8], start: usize) -> Option<Span>
    requires { start ≤ length line.now }
    ensures { TownBy line.now start result }
{
    if byte_at(line, start) != b'"' {
        return None;
    }
    let quoted = quoted_at(line, start);
    let town = quoted.span;
    if line.len() - town.end != 1 {
        return None;
    }
    Some(town)
}

/// Name, zip and town at a place.
#[tactic(auto, unfolding(pages::specs::Fields::whence_of))]
pub fn read_whence(line: &[u8], at: usize) -> Result<Whence, Dropped>
    requires { at ≤ length line.now }
    ensures { WhenceIs line.now at result }
{
    let name = name_in(line, at).ok_or(Dropped::BadName)?;
    let zip = zip_in(line, name.next).ok_or(Dropped::BadZip)?;
    let town = town_in(line, zip.next).ok_or(Dropped::BadTown)?;
    Ok(Whence {
        name: name.span,
        zip: zip.span,
        town,
    })
}
