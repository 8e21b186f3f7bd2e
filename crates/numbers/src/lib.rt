// The numbers of a session's state; its arrays stay in session memory.
#![tactic(auto)]

ghost use Rattle.std.specs.Prelude.{◌≡◌, ◌+◌, ◌<◌, ◌≤◌, length};
ghost use Rattle.buffer.specs.Put.{put_bytes};
ghost use Rattle.places.specs.Places.{numbers_start, session_len};
ghost use Rattle.grammar.specs.Bytes.{two_byte_values, flag};
ghost use Rattle.grammar.specs.Turns.{block_limit};
ghost use Rattle.session_memory.specs.State.{cursor_at, five_at, terms_at, sheet_at, load_tally};
ghost use Rattle.numbers.specs.Whole.{await_numbers, say_numbers, keep_numbers, reader_numbers, line_numbers, numbers_at, small_bytes, large_bytes, tail_bytes, number_bytes};

use number_at::{byte, eight, four, two};
use number_write::{bytes2, bytes4, bytes8};
use session_memory::{Five, Say, Tally, Terms};
use sheet::Sheet;
use transfer_step::Reader;

// Where the numbers of more than one byte begin: the line's length is the first of them.
const LARGE: usize = places::LINE_LENGTH;

#[derive(Clone, Copy)]
pub struct AwaitNumbers {
    pub phase: u8,
    pub ff: bool,
    pub current: u8,
    pub proposals: u8,
    pub ours: Five,
    pub sum: u8,
}

#[derive(Clone, Copy)]
pub struct KeepNumbers {
    pub framed: bool,
    pub terms: Terms,
    pub kept: u8,
    pub used: usize,
    pub sending: Five,
}

#[derive(Clone, Copy)]
pub struct LineNumbers {
    pub after_cr: bool,
    pub len: u16,
}

#[derive(Clone, Copy)]
pub struct Numbers {
    pub now: AwaitNumbers,
    pub say: Say,
    pub keep: KeepNumbers,
    pub reader: Reader,
    pub line: LineNumbers,
    pub tally: Tally,
}

// How many bytes the numbers of one byte take, the longer ones after them, and the tail.
const SMALL_LENGTH: usize = places::LINE_LENGTH - places::NUMBERS;

const LARGE_LENGTH: usize = places::TAIL - places::LINE_LENGTH;

const TAIL_LENGTH: usize = places::NUMBERS_END - places::TAIL;

// Up to five numbers.
fn five(s: &[u8], i: usize) -> Five
    requires { (i + (1 + block_limit) ≤ length s.now) × (i < two_byte_values) }
    ensures { result ≡ five_at s.now i }
{
    Five {
        count: byte(s, i),
        items: [
            byte(s, i + 1),
            byte(s, i + 2),
            byte(s, i + 3),
            byte(s, i + 4),
            byte(s, i + 5),
        ],
    }
}

// What is awaited.
fn load_await(sm: &[u8]) -> AwaitNumbers
    requires { length sm.now ≡ session_len }
    ensures { result ≡ await_numbers sm.now }
{
    AwaitNumbers {
        phase: byte(sm, places::PHASE),
        ff: byte(sm, places::FF) == 1,
        current: byte(sm, places::CURRENT),
        proposals: byte(sm, places::PROPOSALS),
        ours: five(sm, places::OURS),
        sum: byte(sm, places::BLOCK_SUM),
    }
}

// What waits for give.
fn load_say(sm: &[u8]) -> Say
    requires { length sm.now ≡ session_len }
    ensures { result ≡ say_numbers sm.now }
{
    Say {
        first: byte(sm, places::FIRST),
        then: byte(sm, places::THEN),
        pos: eight(sm, places::POS),
        signs: five(sm, places::SIGNS),
    }
}

// What is settled with the partner.
fn load_terms(sm: &[u8]) -> Terms
    requires { length sm.now ≡ session_len }
    ensures { result ≡ terms_at sm.now }
{
    Terms {
        level: byte(sm, places::LEVEL),
        partner: byte(sm, places::PARTNER),
    }
}

// What is kept and sent.
fn load_keep(sm: &[u8]) -> KeepNumbers
    requires { length sm.now ≡ session_len }
    ensures { result ≡ keep_numbers sm.now }
{
    KeepNumbers {
        framed: byte(sm, places::FRAMED) == 1,
        terms: load_terms(sm),
        kept: byte(sm, places::KEPT),
        used: eight(sm, places::USED),
        sending: five(sm, places::SENDING),
    }
}

// The transfer under way.
fn load_reader(sm: &[u8]) -> Reader
    requires { length sm.now ≡ session_len }
    ensures { result ≡ reader_numbers sm.now }
{
    Reader {
        place: byte(sm, places::PLACE),
        len: byte(sm, places::LENGTH),
        head: byte(sm, places::HEAD),
        off: byte(sm, places::OFFSET),
        left: two(sm, places::LEFT),
        sum: byte(sm, places::SUM),
        body: four(sm, places::BODY),
    }
}

// The line under way.
fn load_line(sm: &[u8]) -> LineNumbers
    requires { length sm.now ≡ session_len }
    ensures { result ≡ line_numbers sm.now }
{
    LineNumbers {
        after_cr: byte(sm, places::AFTER_CR) == 1,
        len: two(sm, places::LINE_LENGTH),
    }
}

// The tally sheet.
fn load_sheet(sm: &[u8]) -> Sheet
    requires { length sm.now ≡ session_len }
    ensures { result ≡ sheet_at sm.now }
{
    Sheet {
        proposed: byte(sm, places::TALLY_PROPOSED),
        forwarded: byte(sm, places::TALLY_FORWARDED),
        declined: byte(sm, places::TALLY_DECLINED),
        deferred: byte(sm, places::TALLY_DEFERRED),
        unsettled: byte(sm, places::TALLY_UNSETTLED),
    }
}

// What is counted.
fn load_tally(sm: &[u8]) -> Tally
    requires { length sm.now ≡ session_len }
    ensures { result ≡ load_tally sm.now }
{
    Tally {
        waiting: byte(sm, places::TALLY_WAITING),
        sizes: four(sm, places::TALLY_SIZES),
        sheet: load_sheet(sm),
    }
}

// The numbers in session memory.
pub fn load(sm: &[u8]) -> Numbers
    requires { length sm.now ≡ session_len }
    ensures { result ≡ numbers_at sm.now }
{
    Numbers {
        now: load_await(sm),
        say: load_say(sm),
        keep: load_keep(sm),
        reader: load_reader(sm),
        line: load_line(sm),
        tally: load_tally(sm),
    }
}

// 1 for yes, 0 for no.
fn flag(b: bool) -> u8
    ensures { result ≡ flag b }
{
    if b { 1 } else { 0 }
}

// The numbers of one byte, as they stand in session memory.
fn small_bytes(h: Numbers) -> [u8; SMALL_LENGTH]
    ensures { result ≡ small_bytes h }
{
    let o = h.now.ours;
    let d = h.keep.sending;
    let g = h.say.signs;
    let r = h.reader;
    [
        h.now.phase,
        flag(h.now.ff),
        flag(h.keep.framed),
        flag(h.line.after_cr),
        h.say.first,
        h.say.then,
        h.keep.kept,
        h.now.current,
        h.now.proposals,
        o.count,
        o.items[0],
        o.items[1],
        o.items[2],
        o.items[3],
        o.items[4],
        d.count,
        d.items[0],
        d.items[1],
        d.items[2],
        d.items[3],
        d.items[4],
        g.count,
        g.items[0],
        g.items[1],
        g.items[2],
        g.items[3],
        g.items[4],
        r.place,
        r.len,
        r.head,
        r.off,
        r.sum,
    ]
}

// The longer ones after them.
fn large_bytes(h: Numbers) -> [u8; LARGE_LENGTH]
    ensures { result ≡ large_bytes h }
{
    let r = h.reader;
    let l = bytes2(h.line.len as usize);
    let f = bytes2(r.left as usize);
    let b = bytes4(r.body as usize);
    let p = bytes8(h.say.pos);
    let u = bytes8(h.keep.used);
    [
        l[0], l[1], f[0], f[1], b[0], b[1], b[2], b[3], p[0], p[1], p[2], p[3], p[4], p[5], p[6],
        p[7], u[0], u[1], u[2], u[3], u[4], u[5], u[6], u[7],
    ]
}

// The tail, in the order of its places.
fn tail_bytes(h: Numbers) -> [u8; TAIL_LENGTH]
    ensures { result ≡ tail_bytes h }
{
    let t = h.tally;
    let s = bytes4(t.sizes as usize);
    [
        h.now.sum,
        h.keep.terms.level,
        h.keep.terms.partner,
        t.waiting,
        s[0],
        s[1],
        s[2],
        s[3],
        t.sheet.proposed,
        t.sheet.forwarded,
        t.sheet.declined,
        t.sheet.deferred,
        t.sheet.unsettled,
    ]
}

// The numbers into session memory.
pub fn save(sm: &mut [u8], h: Numbers)
    requires { length sm.old ≡ session_len }
    ensures { sm.new ≡ put_bytes sm.old (cursor_at numbers_start) (number_bytes h) }
{
    let small = small_bytes(h);
    let large = large_bytes(h);
    let tail = tail_bytes(h);
    buffer::put_whole(sm, places::NUMBERS, &small);
    buffer::put_whole(sm, LARGE, &large);
    buffer::put_whole(sm, places::TAIL, &tail);
}
