// The checksum of a framed transfer, by wrapping sums of bytes: eight bytes a round, each into a lane, which is a sum of its own. Lanes don't
// wait for one another, so the machine adds them side by side.
#![tactic(auto)]

ghost use Rattle.std.specs.Prelude.{◌≡◌, ◌+◌, ◌-◌, ◌%◌, ◌≤◌, length, take};
ghost use Rattle.grammar.specs.Transfers.{byte_sum, checksum};
ghost use Rattle.checksum.specs.Lanes.{lanes_sum, four_sum, round_size, turn_size};
ghost use Rattle.grammar.specs.Bytes.{byte_values};

// Bytes of a round.
const ROUND_BYTES: usize = 8;
// Bytes of a turn: four rounds, each into lanes of its own.
const TURN_BYTES: usize = 4 * ROUND_BYTES;

// Eight lanes: the sums of each round's first bytes, of its second ones, and so on.
#[derive(Clone, Copy)]
struct Lanes {
    a: u8,
    b: u8,
    c: u8,
    d: u8,
    e: u8,
    f: u8,
    g: u8,
    h: u8,
}

// The lanes of a turn, a set for each of its rounds.
#[derive(Drop)]
struct Four {
    t: Lanes,
    u: Lanes,
    v: Lanes,
    w: Lanes,
}

// The sum of the bytes before a place.
#[derive(Drop)]
struct Summed {
    sum: u8,
    at: usize,
}

fn add(a: u8, b: u8) -> u8
    ensures { result ≡ (a + b) % byte_values }
{
    a.wrapping_add(b)
}

// The bytes one by one, added to t.
pub fn each(t: u8, s: &[u8]) -> u8
    ensures { result ≡ (t + byte_sum s.now) % byte_values }
{
    let mut r = t;
    for b in s {
        r = add(r, *b);
    }
    r
}

// No byte summed yet.
fn empty() -> Lanes
    ensures { lanes_sum result ≡ 0 }
{
    Lanes {
        a: 0,
        b: 0,
        c: 0,
        d: 0,
        e: 0,
        f: 0,
        g: 0,
        h: 0,
    }
}

// The lanes after a round.
fn round(t: Lanes, s: &[u8]) -> Lanes
    requires { round_size ≤ length s.now }
    ensures { lanes_sum result % byte_values ≡ (lanes_sum t + byte_sum (take round_size s.now)) % byte_values }
{
    Lanes {
        a: add(t.a, s[0]),
        b: add(t.b, s[1]),
        c: add(t.c, s[2]),
        d: add(t.d, s[3]),
        e: add(t.e, s[4]),
        f: add(t.f, s[5]),
        g: add(t.g, s[6]),
        h: add(t.h, s[7]),
    }
}

// The sum of the lanes.
fn folded(t: Lanes) -> u8
    ensures { result ≡ lanes_sum t % byte_values }
{
    let front = add(add(t.a, t.b), add(t.c, t.d));
    let back = add(add(t.e, t.f), add(t.g, t.h));
    add(front, back)
}

// The lanes of a turn after four rounds, each by its own.
fn turn(f: Four, s: &[u8]) -> Four
    requires { turn_size ≤ length s.now }
    ensures { four_sum result % byte_values ≡ (four_sum f + byte_sum (take turn_size s.now)) % byte_values }
{
    Four {
        t: round(f.t, s),
        u: round(f.u, &s[ROUND_BYTES..]),
        v: round(f.v, &s[2 * ROUND_BYTES..]),
        w: round(f.w, &s[3 * ROUND_BYTES..]),
    }
}

// The bytes of whole turns, of which there is one at least. The test is against the last place where a turn may begin: where the compiler can
// tell the number of turns, it unrolls the loop, and sums of up to six turns take more.
fn turns(s: &[u8]) -> Summed
    requires { turn_size ≤ length s.now }
    ensures { (result.at ≡ length s.now - length s.now % turn_size) × (result.sum ≡ byte_sum (take result.at s.now) % byte_values) }
{
    let last = s.len() - TURN_BYTES;
    let mut f = Four {
        t: empty(),
        u: empty(),
        v: empty(),
        w: empty(),
    };
    let mut i = 0;
    // Stays a `while` over places: by `chunks_exact(32)` a sum of 250 bytes takes 135 instructions, not 100.
    while i <= last {
        f = turn(f, &s[i..]);
        i += TURN_BYTES;
    }
    let sum = add(add(folded(f.t), folded(f.u)), add(folded(f.v), folded(f.w)));
    Summed { sum, at: i }
}

// The bytes of whole rounds, added to t.
fn rounds(t: u8, s: &[u8]) -> u8
    requires { length s.now % round_size ≡ 0 }
    ensures { result ≡ (t + byte_sum s.now) % byte_values }
{
    let mut u = empty();
    let mut i = 0;
    // Stays, as in `turns`.
    while i < s.len() {
        u = round(u, &s[i..]);
        i += ROUND_BYTES;
    }
    add(t, folded(u))
}

// The bytes after whole turns, added to t: whole rounds, and the last 0 to 7 bytes one by one.
fn rest(t: u8, s: &[u8]) -> u8
    ensures { result ≡ (t + byte_sum s.now) % byte_values }
{
    if s.len() == 0 {
        return t;
    }
    if s.len() < ROUND_BYTES {
        return each(t, s);
    }
    let whole = s.len() - s.len() % ROUND_BYTES;
    let u = rounds(t, &s[..whole]);
    each(u, &s[whole..])
}

// The sum of the bytes, modulo 256: whole turns and the rest. The rest ends where it does by a remainder, which tells the compiler that it is
// shorter than a turn. s is lent on as `&s[..]`: so this function, which isn't inlined, is handed pointer and length in registers
// (docs/PERFORMANCE.md, "Slices in registers").
pub fn sum(s: &[u8]) -> u8
    ensures { result ≡ byte_sum s.now % byte_values }
{
    if s.len() < TURN_BYTES {
        return rest(0, &s[..]);
    }
    let x = turns(&s[..]);
    let at = x.at;
    rest(x.sum, &s[at..at + s.len() % TURN_BYTES])
}

// The byte that makes the sum of all data bytes plus itself 0 modulo 256.
pub fn checksum(s: &[u8]) -> u8
    ensures value { result ≡ checksum s.now }
    ensures byte_values_value { (byte_sum s.now + result) % byte_values ≡ 0 }
{
    0u8.wrapping_sub(sum(s))
}
