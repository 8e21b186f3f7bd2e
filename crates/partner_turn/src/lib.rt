// The lines of the partner's turn: proposals, F> with or without a checksum, FF and FQ.
#![tactic(auto)]

ghost use Rattle.std.specs.Prelude.{◌≡◌, ℕ, Ok};
ghost use Rattle.buffer.specs.Put.{put_bytes};
ghost use Rattle.span.specs.Places.{part};
ghost use Rattle.layout.specs.Layout.{proposal_out};
ghost use Rattle.proposal.specs.Meaning.{ProposalLies, proposal_is, end_is};
ghost use Rattle.partner_turn.specs.Check.{right_by};
ghost use Rattle.session_memory.specs.State.{cursor_at};
ghost use Rattle.numbers.specs.Whole.{Arrays, with_block, session_of};
ghost use Rattle.line_effect.specs.Judge.{whole_turn, next_accepted, answered, proposal_taken, ff_line, fq_line, line_sum, turn_read, turn_line};
ghost use Rattle.line_effect.specs.Verdict.{turn_number, judged_of};

use buffer::Writer;
use line_effect::{Turn, Verdict, marked, marks_of, went};
use next_awaited::{next_accepted, reader_for, to_transfer};
use numbers::Numbers;
use proposal::{Proposal, TurnLine};
use refusal::Refusal;
use session_memory::Five;
use std::num::wrapping_add_u8;

// The partner's turn is whole, so what we were sending is forwarded.
fn whole_turn(s: &mut Numbers, turn: Turn) -> Verdict
    ensures { (a : Arrays) → judged_of (Ok result) s.new a ≡ whole_turn (turn_number turn) (session_of s.old a) }
{
    let marks = marks_of(s.keep);
    s.keep = marked(s.keep);
    Verdict { turn, marks }
}

// The block is answered by these signs: the first transfer is awaited, or it is our turn.
fn answered(signs: Five, s: &mut Numbers, block: &[u8]) -> Verdict
    ensures { (a : Arrays) → judged_of (Ok result) s.new (with_block block.now a) ≡ answered signs (next_accepted signs 0) (session_of s.old (with_block block.now a)) }
{
    s.say.first = phase::PIECE_SIGNS;
    s.say.signs = signs;
    let Some(i) = next_accepted(signs, 0) else {
        return whole_turn(s, Turn::Ours);
    };
    to_transfer(&mut s.now, i);
    s.reader = reader_for(block, i);
    whole_turn(s, Turn::Theirs)
}

// The sum so far with the checksum is 0; F> without one is taken with no test.
fn sum_right(sum: u8, check: Option<u8>) -> bool
    ensures { result ≡ right_by check sum }
{
    match check {
        Some(h) => wrapping_add_u8(sum, h) == 0,
        None => true,
    }
}

// F>: the block is whole. 6 comes before 13, and 13 before any answer.
fn end_line(
    check: Option<u8>,
    s: &mut Numbers,
    block: &[u8],
    table: &[u8],
    known: &[u8],
    inbox: &[u8],
    store: usize,
) -> Result<Verdict, Refusal>
    ensures { (a : Arrays) (n : ℕ) → judged_of result s.new (with_block block.now a) ≡ turn_read (end_is check) n (session_of s.old (with_block block.now a)) table.now known.now inbox.now store }
{
    if s.now.proposals == 0 {
        return Err(Refusal::ProposalCount);
    }
    if !sum_right(s.now.sum, check) {
        return Err(Refusal::WrongBlockSum);
    }
    let signs = our_answer::answers(*s, block, table, known, inbox, store);
    Ok(answered(signs, s, block))
}

// The block with a proposal written at a place.
fn with_proposal(line: &[u8], p: Proposal, block: &mut [u8], place: usize)
    requires { ProposalLies line.now p }
    ensures { block.new ≡ put_bytes block.old (cursor_at place) (proposal_out p.form p.kind (part line.now p.from) (part line.now p.at) (part line.now p.to) (part line.now p.bid) p.size) }
{
    let mut w = Writer::new(block, place, 0);
    layout_put::put_proposal(
        &mut w,
        p.form,
        p.kind,
        p.from.of(line),
        p.at.of(line),
        p.to.of(line),
        p.bid.of(line),
        p.size as usize,
    );
}

// A proposal of the partner's; sum: that of its line.
fn proposal_line(
    line: &[u8],
    sum: u8,
    p: Proposal,
    s: &mut Numbers,
    block: &mut [u8],
) -> Result<Verdict, Refusal>
    requires { ProposalLies line.now p }
    ensures { (a : Arrays) → judged_of result s.new (with_block block.new a) ≡ proposal_taken (proposal_is line.now p) sum (session_of s.old (with_block block.old a)) }
{
    if phase::BLOCK_LIMIT <= s.now.proposals {
        return Err(Refusal::ProposalCount);
    }
    let n = s.now.proposals as usize;
    with_proposal(line, p, block, n * (places::PROPOSAL as usize));
    s.now.proposals += 1;
    s.now.sum = wrapping_add_u8(s.now.sum, sum);
    Ok(went()) // a proposal marks nothing
}

// FF: the turn is whole, and it is our turn.
#[tactic(auto, unfolding(line_effect::specs::Judge::ff_line))]
fn ff_line(s: &mut Numbers) -> Result<Verdict, Refusal>
    ensures { (a : Arrays) → judged_of result s.new a ≡ ff_line (session_of s.old a) }
{
    if s.now.proposals != 0 || s.now.ff {
        return Err(Refusal::LineNotAllowed);
    }
    Ok(whole_turn(s, Turn::OursAfterFf))
}

// FQ: the session is over.
#[tactic(auto, unfolding(line_effect::specs::Judge::fq_line))]
fn fq_line(s: &mut Numbers) -> Result<Verdict, Refusal>
    ensures { (a : Arrays) → judged_of result s.new a ≡ fq_line (session_of s.old a) }
{
    if s.now.proposals != 0 || !s.now.ff {
        return Err(Refusal::LineNotAllowed);
    }
    s.now.phase = phase::OVER;
    Ok(went())
}

// The sum of a line as received, its CR included.
fn line_sum(line: &[u8]) -> u8
    ensures { result ≡ line_sum line.now }
{
    wrapping_add_u8(checksum::sum(line), line::CR)
}

// A line of the partner's turn, as it came; block are the proposals so far.
pub fn turn_line(
    line: &[u8],
    s: &mut Numbers,
    block: &mut [u8],
    table: &[u8],
    known: &[u8],
    inbox: &[u8],
    store: usize,
) -> Result<Verdict, Refusal>
    ensures { (a : Arrays) → judged_of result s.new (with_block block.new a) ≡ turn_line line.now (session_of s.old (with_block block.old a)) table.now known.now inbox.now store }
{
    let n = line::trimmed(line);
    match proposal::read_turn_line(&line[..n], s.keep.framed) {
        TurnLine::FF => ff_line(s),
        TurnLine::FQ => fq_line(s),
        TurnLine::End(check) => end_line(check, s, block, table, known, inbox, store),
        TurnLine::NotAllowed => Err(Refusal::LineNotAllowed),
        TurnLine::Proposed(p) => proposal_line(&line[..n], line_sum(line), p, s, block),
    }
}
