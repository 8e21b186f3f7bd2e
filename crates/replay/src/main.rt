// What our node would have made of a capture (02, Q-11): standard input, played to the called station of crates/capture. Writes the bytes that
// it would send, then a line `refusal N`. No contract can name what is read and written, so all else is done in crates that have contracts.
#![tactic(auto)]

use buffer::Writer;
use capture::Played;
use std::io;
use std::io::{Read, Write};

// A read takes so many bytes at most.
const PORTION: usize = 256;

// "an inbox of 64 places and 32 KiB": so many entries, and their store.
const SESSION: usize = places::SESSION;

const LENT_PLACES: usize = 64;

const INBOX: usize = LENT_PLACES * places::ENTRY as usize;

const LENT_BYTES: usize = 32768;

// After open or a byte never more bytes than these wait, and the last line is no longer (crates/replayed).
const MOST_WAITING: usize = 32;

const OUT: usize = MOST_WAITING * PORTION;

// The first n bytes of out, to the link.
fn send<W: Write>(link: &mut W, out: &[u8], n: usize) -> io::Result<()> {
    link.write_all(part::part(out, 0, n))
}

// One read of the input, played, and what our node sends, written. At the end of the input it is over for us.
fn turn<R: Read, W: Write>(
    input: &mut R,
    link: &mut W,
    session: &mut [u8],
    inbox: &mut [u8],
    store: &mut [u8],
    out: &mut [u8],
) -> io::Result<Played> {
    let mut portion = [0u8; PORTION];
    let n = input.read(&mut portion)?;
    if n == 0 {
        return Ok(Played {
            refusal: refusal::NONE,
            over: true,
            count: 0,
        });
    }
    let p = capture::play(session, inbox, store, &portion[..n], out);
    send(link, out, p.count)?;
    Ok(p)
}

// All of the input, and the number of the refusal, 0 if there was none. A proved loop has to end: it counts to a number that no run
// reaches.
fn play_all<R: Read, W: Write>(
    input: &mut R,
    link: &mut W,
    session: &mut [u8],
    inbox: &mut [u8],
    store: &mut [u8],
    out: &mut [u8],
) -> io::Result<u8> {
    for _ in 0..u64::MAX {
        let p = turn(input, link, session, inbox, store, out)?;
        if p.over {
            return Ok(p.refusal);
        }
    }
    Ok(refusal::NONE)
}

// The whole replay, and the number of the refusal.
fn replay<R: Read, W: Write>(
    input: &mut R,
    link: &mut W,
    session: &mut [u8],
    inbox: &mut [u8],
    store: &mut [u8],
    out: &mut [u8],
) -> io::Result<u8> {
    let p = capture::play_start(session, inbox, store, out);
    send(link, out, p.count)?;
    if p.over {
        return Ok(p.refusal);
    }
    play_all(input, link, session, inbox, store, out)
}

// The last line.
fn tell<W: Write>(link: &mut W, n: u8) -> io::Result<()> {
    let mut line = [0u8; MOST_WAITING];
    let mut w = Writer::new(&mut line, 0, 0);
    refusal_line::write_refusal(&mut w, n);
    let count = w.cursor.at;
    send(link, &line, count)
}

// The memory that is lent, and a buffer with room for what each byte of a portion brings.
fn main(rt: HostRuntime) -> io::Result<()> {
    let mut session = [0u8; SESSION];
    let mut inbox = [0u8; INBOX];
    let mut store = [0u8; LENT_BYTES];
    let mut out = [0u8; OUT];
    let mut link = rt.stdout();
    let n = replay(
        &mut rt.stdin(),
        &mut link,
        &mut session,
        &mut inbox,
        &mut store,
        &mut out,
    )?;
    tell(&mut link, n)
}
