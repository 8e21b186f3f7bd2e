//! 01's unmarked examples, played through the three calls: how long a line may be, and a whole session of a called station with an empty
//! table. No buffer but session memory has a byte.
#![tactic(auto)]

ghost use Rattle.std.specs.Prelude.{◌≡◌, ◌≤◌, length};
ghost use Rattle.places.specs.Places.{line_len, session_len};

use give::Reply;
use std::io;
use std::io::Write;

// The role of a called station, and its first partner.
const CALLED: u8 = 0;

const FIRST_PARTNER: u8 = 0;

const CR: u8 = b'\r';

const SESSION: usize = places::SESSION;

// Room for the longest of what waits here.
const ROOM: usize = 64;

// The bytes of the proposal that spaces follow, and how many of them make the longest line.
const PROPOSAL: usize = 41;

const LINE_LIMIT: usize = places::LINE_ROOM;

const MOST_SPACES: usize = LINE_LIMIT - PROPOSAL;

// A text for the reader of this program.
fn say<W: Write>(out: &mut W, text: &[u8]) -> io::Result<()> {
    out.write_all(text)
}

// A number in decimal.
fn say_number<W: Write>(out: &mut W, n: usize) -> io::Result<()> {
    write!(out, "{n}")
}

// One byte as it is on the link, but CR so that it is seen.
fn show_byte<W: Write>(out: &mut W, b: u8) -> io::Result<()> {
    if b == CR {
        return say(out, b"<CR>");
    }
    say(out, &[b])
}

// Bytes of the link on a line of their own.
fn show<W: Write>(out: &mut W, who: &[u8], bytes: &[u8]) -> io::Result<()> {
    say(out, who)?;
    for b in bytes {
        show_byte(out, *b)?;
    }
    say(out, b"\n")
}

// What a call answered.
fn tell<W: Write>(out: &mut W, call: &[u8], reply: Reply) -> io::Result<()> {
    say(out, call)?;
    say(out, b": answer ")?;
    say_number(out, reply.answer as usize)?;
    say(out, b", count ")?;
    say_number(out, reply.count)?;
    say(out, b"\n")
}

// Session memory, as a host that does not clear it might lend it.
fn session_memory() -> [u8; SESSION]
    ensures { session_len ≡ length result }
{
    [u8::MAX; SESSION]
}

// Opens the session.
fn opened<W: Write>(out: &mut W, session: &mut [u8]) -> io::Result<()> {
    let reply = open::open(
        CALLED,
        FIRST_PARTNER,
        session,
        b"",
        b"",
        b"",
        b"",
        b"",
        b"",
        b"",
    );
    tell(out, b"open", reply)
}

// Takes all that waits.
fn given<W: Write>(out: &mut W, session: &mut [u8]) -> io::Result<()> {
    let mut buf = [0u8; ROOM];
    let reply = give::give(session, b"", b"", b"", b"", b"", b"", b"", &mut buf, 0);
    match buf.get(..reply.count) {
        Some(bytes) => show(out, b"out: ", bytes),
        None => Ok(()),
    }
}

// Receives bytes of the partner's.
fn received<W: Write>(out: &mut W, session: &mut [u8], bytes: &[u8]) -> io::Result<()> {
    let mut table = [0u8; 0];
    let mut inbox = [0u8; 0];
    let mut store = [0u8; 0];
    let reply = receive::receive(
        session, &mut table, b"", b"", b"", b"", &mut inbox, &mut store, bytes,
    );
    tell(out, b"receive", reply)
}

// 01: "Whole session, called, empty table.", on what the partner sends; then whether the session has ended.
fn whole_session<W: Write>(out: &mut W, input: &[u8]) -> io::Result<()> {
    say(out, b"whole session, called, empty table\n")?;
    let mut session = session_memory();
    opened(out, &mut session)?;
    given(out, &mut session)?;
    show(out, b"in:  ", input)?;
    received(out, &mut session, input)?;
    given(out, &mut session)?;
    received(out, &mut session, b"")
}

// As many spaces as a line has bytes.
fn spaces() -> [u8; LINE_LIMIT]
    ensures { line_len ≡ length result }
{
    [b' '; LINE_LIMIT]
}

// 01: "256 bytes then CR: judged; 257: refusal 2." A proposal, n spaces, and CR, each received by itself.
fn long_line<W: Write>(out: &mut W, n: usize) -> io::Result<()>
    requires { n ≤ line_len }
{
    say_number(out, PROPOSAL + n)?;
    say(out, b" bytes, then CR\n")?;
    let mut session = session_memory();
    opened(out, &mut session)?;
    given(out, &mut session)?;
    received(out, &mut session, b"[TST-1-F$]\r")?;
    received(
        out,
        &mut session,
        b"FB P F6FBB FC1GHV FC1MVP 24657_F6FBB 1345",
    )?;
    received(out, &mut session, &spaces()[..n])?;
    received(out, &mut session, b"\r")
}

fn main(rt: HostRuntime) -> io::Result<()> {
    let mut out = rt.stdout();
    whole_session(&mut out, b"[TST-1-F$]\rFF\r")?;
    long_line(&mut out, MOST_SPACES)?;
    long_line(&mut out, MOST_SPACES + 1)
}
