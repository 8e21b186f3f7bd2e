//! The lines of a turn: FF, FQ, F> with or without a checksum, and proposals, whose fields are shown where they lie in the line.
#![tactic(auto)]

ghost use Rattle.std.specs.Prelude.{◌≡◌, map, ◌≤◌, IfSome};
ghost use Rattle.grammar.specs.Fields.{upper, form_number, file};
ghost use Rattle.grammar.specs.Turns.{form_said, type_of, read_proposal, read_summed_end, read_turn_line};
ghost use Rattle.byte.specs.Said.{said};
ghost use Rattle.proposal.specs.Meaning.{is_word, turn_line_is, LiesIn, ProposalLies, proposal_said, form_by, SplitIs, SevenLie, fields_hold, seven_by};

use byte::{hex_pair, upper_of};
use field::{is_at, is_bid, is_call};
use field_reader::field_by_reader;
use size::read_size;
use span::Span;

/// A proposal as read: its form by 01's number, its type as the capital P or B, and its fields where they lie in the line.
#[derive(Clone, Copy)]
pub struct Proposal {
    pub form: u8,
    pub kind: u8,
    pub from: Span,
    pub at: Span,
    pub to: Span,
    pub bid: Span,
    pub size: u32,
}

/// What a line says in a turn; End is F> with the block's checksum, or with none.
#[derive(Clone, Copy)]
pub enum TurnLine {
    FF,
    FQ,
    End(Option<u8>),
    NotAllowed,
    Proposed(Proposal),
}

// The seven fields of a proposal, in their order.
#[derive(Clone, Copy)]
struct Seven {
    letters: Span,
    kind: Span,
    from: Span,
    at: Span,
    to: Span,
    bid: Span,
    size: Span,
}

// The fields of a proposal.
const FIELD_COUNT: usize = 7;

// The length of `F>` and a space, and of F> with a checksum.
const END_LENGTH: usize = 3;

const SUMMED_END: usize = END_LENGTH + 2;

// The place of the second digit of the checksum.
const SUM_LAST_DIGIT: usize = SUMMED_END - 1;

// The bytes are the word, in either case; the word is given in capitals.
fn is_word(s: &[u8], word: &[u8]) -> bool
    ensures { result ≡ is_word word.now s.now }
{
    if s.len() != word.len() {
        return false;
    }
    for i in 0..s.len() {
        if upper_of(s[i]) != word[i] {
            return false;
        }
    }
    true
}

// The form that the letters of a proposal stand for in this mode, by 01's number.
fn form_of(framed: bool, w: &[u8]) -> Option<u8>
    ensures form { form_by result ≡ form_said framed (map upper w.now) }
    ensures known { IfSome result (λ n. n ≤ form_number file) }
{
    if framed && is_word(w, b"FA") {
        Some(phase::FORM_MESSAGE)
    } else if is_word(w, b"FB") {
        Some(if framed {
            phase::FORM_FILE
        } else {
            phase::FORM_PLAIN
        })
    } else {
        None
    }
}

// The type, P or B.
fn type_of(w: &[u8]) -> Option<u8>
    ensures { said result ≡ type_of (map upper w.now) }
{
    if is_word(w, b"P") {
        Some(b'P')
    } else if is_word(w, b"B") {
        Some(b'B')
    } else {
        None
    }
}

// The seven words of a line, where it has seven.
fn seven_words(line: &[u8]) -> Option<Seven>
    ensures { SplitIs line.now result }
{
    let mut w = [Span { start: 0, end: 0 }; FIELD_COUNT];
    let mut place = 0;
    for i in 0..FIELD_COUNT {
        let s = field_by_reader(line, place);
        if s.end <= s.start {
            return None;
        }
        w[i] = s;
        place = s.end;
    }
    let more = field_by_reader(line, place);
    if more.start < more.end {
        return None;
    }
    Some(Seven {
        letters: w[0],
        kind: w[1],
        from: w[2],
        at: w[3],
        to: w[4],
        bid: w[5],
        size: w[6],
    })
}

// From, at, to and BID obey their rules.
fn fields_hold(line: &[u8], w: Seven) -> bool
    requires { SevenLie line.now w }
    ensures { result ≡ fields_hold line.now w }
{
    is_call(&line[w.from.start..w.from.end])
        && is_at(&line[w.at.start..w.at.end])
        && is_call(&line[w.to.start..w.to.end])
        && is_bid(&line[w.bid.start..w.bid.end])
}

// The proposal that seven words say.
fn judged(line: &[u8], framed: bool, w: Seven) -> Option<Proposal>
    requires { SevenLie line.now w }
    ensures says { proposal_said line.now result ≡ seven_by framed line.now w }
    ensures lies { IfSome result (ProposalLies line.now) }
{
    let form = form_of(framed, &line[w.letters.start..w.letters.end])?;
    let kind = type_of(&line[w.kind.start..w.kind.end])?;
    if !fields_hold(line, w) {
        return None;
    }
    let size = read_size(&line[w.size.start..w.size.end])?;
    Some(Proposal {
        form,
        kind,
        from: w.from,
        at: w.at,
        to: w.to,
        bid: w.bid,
        size,
    })
}

// A proposal, where the line is one.
fn read_proposal(line: &[u8], framed: bool) -> Option<Proposal>
    ensures says { proposal_said line.now result ≡ read_proposal framed line.now }
    ensures lies { IfSome result (ProposalLies line.now) }
{
    if line.is_empty() || line[0] == b' ' {
        return None;
    }
    let Some(w) = seven_words(line) else {
        return None;
    };
    judged(line, framed, w)
}

// "F> HH": one space, two digits and nothing more; the number that these stand for.
fn summed_end(line: &[u8]) -> Option<u8>
    ensures { said result ≡ read_summed_end line.now }
{
    if line.len() != SUMMED_END {
        return None;
    }
    if !is_word(&line[..END_LENGTH], b"F> ") {
        return None;
    }
    hex_pair(line[END_LENGTH], line[SUM_LAST_DIGIT])
}

/// What a line, its spaces at the end removed, says in a turn; a proposal's fields lie in the line.
pub fn read_turn_line(line: &[u8], framed: bool) -> TurnLine
    ensures { (turn_line_is line.now result ≡ read_turn_line framed line.now) × LiesIn line.now result }
{
    if is_word(line, b"FF") {
        return TurnLine::FF;
    }
    if is_word(line, b"FQ") {
        return TurnLine::FQ;
    }
    if is_word(line, b"F>") {
        return TurnLine::End(None);
    }
    if let Some(sum) = summed_end(line) {
        return TurnLine::End(Some(sum));
    }
    match read_proposal(line, framed) {
        Some(proposal) => TurnLine::Proposed(proposal),
        None => TurnLine::NotAllowed,
    }
}
