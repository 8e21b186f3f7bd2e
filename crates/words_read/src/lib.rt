// The readers of the protocol's words for callers from C and Rust, in numbers and byte slices. They serve tests and benchmarks; the
// product's own calls are in the crate fringemole.
#![tactic(auto)]

ghost use Rattle.std.specs.Prelude.{◌≡◌, length, take};
ghost use Rattle.grammar.specs.Lines.{trim, line_byte};
ghost use Rattle.grammar.specs.Sid.{read_sid, sid_number};
ghost use Rattle.grammar.specs.Turns.{read_turn_line};
ghost use Rattle.line.specs.Byte.{line_byte_is};
ghost use Rattle.fs_line.specs.Answers.{answer_number, answer_signs};
ghost use Rattle.words_read.specs.Numbers.{holds, line_byte_code, sid_levels, turn_line_code, NumbersOf, proposal_numbers, end_numbers, end_code, told_numbers, told_code};

use features::FeatureSet;
use line::LineByte;
use proposal::{Proposal, TurnLine};
use refusal::Refusal;
use sid::NoPartner;

// What a byte does where a line is awaited.
const BYTE_DROPPED: u8 = 0;

const BYTE_ENDS: u8 = 1;

const BYTE_GROWS: u8 = 2;

const BYTE_OVERRUNS: u8 = 3;

// What a line says in a turn.
const SAYS_FF: u8 = 0;

const SAYS_FQ: u8 = 1;

const ENDS_BLOCK: u8 = 2;

const PROPOSES: u8 = 3;

const ENDS_SUMMED: u8 = 4;

const NOT_ALLOWED: u8 = Refusal::LineNotAllowed as u8;

// The numbers of a proposal.
const PROPOSAL_NUMBERS: usize = 11;

// The signs of an FS line.
const BLOCK_LIMIT: usize = phase::BLOCK_LIMIT as usize;

// How many bytes of a line are judged: all but the spaces at its end.
#[unsafe(no_mangle)]
pub extern "C" fn words_trimmed(line: &[u8]) -> usize
    ensures { (result ≡ length (trim line.now)) × (take result line.now ≡ trim line.now) }
{
    line::trimmed(line)
}

// The number of what a byte does.
fn line_byte_code(does: LineByte) -> u8
    ensures { result ≡ line_byte_code (line_byte_is does) }
{
    match does {
        LineByte::Dropped => BYTE_DROPPED,
        LineByte::Ends => BYTE_ENDS,
        LineByte::Grows => BYTE_GROWS,
        LineByte::Overruns => BYTE_OVERRUNS,
    }
}

// What the byte b does where len bytes of a line are there; after_cr: the byte before it was a CR after which an LF is dropped.
#[unsafe(no_mangle)]
pub extern "C" fn words_line_byte(after_cr: u8, len: usize, b: u8) -> u8
    ensures { result ≡ line_byte_code (line_byte (holds after_cr) len b) }
{
    line_byte_code(line::byte_does(after_cr != 0, len, b))
}

// What a line, its spaces at the end removed, says as a SID: 01's number, and the 27 levels.
#[unsafe(no_mangle)]
pub extern "C" fn words_read_sid(line: &[u8], levels: &mut [u8; features::PLACES]) -> u8
    ensures { (result ≡ sid_number (read_sid line.now)) × (levels.new ≡ sid_levels (read_sid line.now)) }
{
    let read = sid::read_sid(line);
    let features = match read {
        Ok(features) => features,
        Err(NoPartner::NoForwarding(features)) => features,
        Err(NoPartner::NotASid) => FeatureSet::none(),
    };
    let all = features.levels;
    *levels = all;
    match read {
        Ok(_) => refusal::NONE,
        Err(cause) => u8::from(cause),
    }
}

// Form, type, start and end of from, at, to and BID, and size.
fn proposal_numbers(p: Proposal) -> [u64; PROPOSAL_NUMBERS]
    ensures { result ≡ proposal_numbers p }
{
    [
        p.form as u64,
        p.kind as u64,
        p.from.start as u64,
        p.from.end as u64,
        p.at.start as u64,
        p.at.end as u64,
        p.to.start as u64,
        p.to.end as u64,
        p.bid.start as u64,
        p.bid.end as u64,
        p.size as u64,
    ]
}

// F>: its checksum stands first.
fn end_numbers(check: Option<u8>) -> [u64; PROPOSAL_NUMBERS]
    ensures { result ≡ end_numbers check }
{
    match check {
        Some(h) => [h as u64, 0, 0, 0, 0, 0, 0, 0, 0, 0, 0],
        None => [0u64; PROPOSAL_NUMBERS],
    }
}

// The number of F>, with a checksum or with none.
fn end_code(check: Option<u8>) -> u8
    ensures { result ≡ end_code check }
{
    match check {
        Some(_h) => ENDS_SUMMED,
        None => ENDS_BLOCK,
    }
}

// The numbers of a proposal, or the checksum behind F>; zeros for any other line.
fn told_numbers(told: TurnLine) -> [u64; PROPOSAL_NUMBERS]
    ensures { result ≡ told_numbers told }
{
    match told {
        TurnLine::FF => [0u64; PROPOSAL_NUMBERS],
        TurnLine::FQ => [0u64; PROPOSAL_NUMBERS],
        TurnLine::End(check) => end_numbers(check),
        TurnLine::NotAllowed => [0u64; PROPOSAL_NUMBERS],
        TurnLine::Proposed(p) => proposal_numbers(p),
    }
}

// The number of what a line says.
fn told_code(told: TurnLine) -> u8
    ensures { result ≡ told_code told }
{
    match told {
        TurnLine::FF => SAYS_FF,
        TurnLine::FQ => SAYS_FQ,
        TurnLine::End(check) => end_code(check),
        TurnLine::Proposed(_p) => PROPOSES,
        TurnLine::NotAllowed => NOT_ALLOWED,
    }
}

// What a line, its spaces at the end removed, says in a turn, and a proposal's numbers or a block's checksum. framed: 0 plain mode, else framed mode.
#[unsafe(no_mangle)]
pub extern "C" fn words_read_turn_line(
    line: &[u8],
    framed: u8,
    out: &mut [u64; PROPOSAL_NUMBERS],
) -> u8
    ensures { (result ≡ turn_line_code (read_turn_line (holds framed) line.now)) × NumbersOf line.now (read_turn_line (holds framed) line.now) out.new }
{
    let told = proposal::read_turn_line(line, framed != 0);
    *out = told_numbers(told);
    told_code(told)
}

// What a line, its spaces at the end removed, says where FS to so many proposals is awaited: 01's number, and the sign bytes.
#[unsafe(no_mangle)]
pub extern "C" fn words_read_fs(
    level: u8,
    line: &[u8],
    proposals: usize,
    signs: &mut [u8; BLOCK_LIMIT],
) -> u8
    ensures { (result ≡ answer_number level proposals line.now) × (signs.new ≡ answer_signs level proposals line.now) }
{
    match fs_line::read_fs(line, proposals, level) {
        Ok(answers) => {
            *signs = answers;
            refusal::NONE
        }
        Err(cause) => {
            *signs = [0; BLOCK_LIMIT];
            u8::from(cause)
        }
    }
}
