// Bytes over the first bytes of a slice: those of another slice, or zeros.
#![tactic(auto)]

ghost use Rattle.std.specs.Prelude.{◌≡◌, ◌++◌, ◌≤◌, length, take, drop, replicate};
ghost use Rattle.copying.specs.Eight.{bytes_of, half_size, pair_size, stride_size};

// Half a round, a round, and a turn of the loop.
const HALF: usize = 8;

const ROUND_BYTES: usize = 2 * HALF;

const TURN_BYTES: usize = 2 * ROUND_BYTES;

// Bytes that were read and are not written yet. Stays written out: by `copy_from_slice` the turn is so short that the compiler copies all of
// `buffer::Writer::put` into each caller, and the archive's code grows from 42,402 to 48,380 bytes.
#[derive(Clone, Copy)]
struct Eight {
    a: u8,
    b: u8,
    c: u8,
    d: u8,
    e: u8,
    f: u8,
    g: u8,
    h: u8,
}

// The first eight.
fn read(src: &[u8]) -> Eight
    requires { half_size ≤ length src.now }
    ensures { bytes_of result ≡ take half_size src.now }
{
    Eight {
        a: src[0],
        b: src[1],
        c: src[2],
        d: src[3],
        e: src[4],
        f: src[5],
        g: src[6],
        h: src[7],
    }
}

// Eight over the first eight.
fn write(dst: &mut [u8], e: Eight)
    requires { half_size ≤ length dst.old }
    ensures { dst.new ≡ bytes_of e ++ drop half_size dst.old }
{
    dst[0] = e.a;
    dst[1] = e.b;
    dst[2] = e.c;
    dst[3] = e.d;
    dst[4] = e.e;
    dst[5] = e.f;
    dst[6] = e.g;
    dst[7] = e.h;
}

// A round. All its bytes are read before one is written, so that the compiler makes one load and one store of them.
fn copy_round(dst: &mut [u8], src: &[u8])
    requires { (pair_size ≤ length dst.old) × (pair_size ≤ length src.now) }
    ensures { dst.new ≡ take pair_size src.now ++ drop pair_size dst.old }
{
    let x = read(src);
    let y = read(&src[HALF..]);
    write(dst, x);
    write(&mut dst[HALF..], y);
}

// Two rounds.
fn copy_turn(dst: &mut [u8], src: &[u8])
    requires { (stride_size ≤ length dst.old) × (stride_size ≤ length src.now) }
    ensures { dst.new ≡ take stride_size src.now ++ drop stride_size dst.old }
{
    copy_round(dst, src);
    copy_round(&mut dst[ROUND_BYTES..], &src[ROUND_BYTES..]);
}

/// The first `n` bytes one by one: for callers who copy in one place, or whose n the compiler knows. It is copied into each of them.
pub fn copy_each(dst: &mut [u8], src: &[u8], n: usize)
    requires { (n ≤ length dst.old) × (n ≤ length src.now) }
    ensures { dst.new ≡ take n src.now ++ drop n dst.old }
{
    for i in 0..n {
        dst[i] = src[i];
    }
}

/// The same by turns, and the last 0 to 31 one by one. The compiler calls it, since it is too long to be copied in: one loop for all texts that
/// are written, in place of one for each (docs/PERFORMANCE.md, "One loop that copies").
pub fn copy(dst: &mut [u8], src: &[u8], n: usize)
    requires { (n ≤ length dst.old) × (n ≤ length src.now) }
    ensures { dst.new ≡ take n src.now ++ drop n dst.old }
{
    let whole = n - n % TURN_BYTES;
    let mut i = 0usize;
    // Stays: steps of a turn, and what is left after them is copied from where they ended.
    while i < whole {
        copy_turn(&mut dst[i..], &src[i..]);
        i += TURN_BYTES;
    }
    copy_each(&mut dst[i..], &src[i..], n - i);
}

/// Zeros over the first `n` bytes.
pub fn clear(dst: &mut [u8], n: usize)
    requires { n ≤ length dst.old }
    ensures { dst.new ≡ replicate n 0 ++ drop n dst.old }
{
    dst[..n].fill(0);
}
