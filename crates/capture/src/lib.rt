// A capture played to our node (02, Q-11), the called station with nothing on its shelf, in memory that the caller lends. What it would send
// goes into a buffer, since no contract can speak of standard output.
#![tactic(auto)]

ghost use Rattle.std.specs.Prelude.{◌≡◌};
ghost use Rattle.called_station.specs.Station.{station};
ghost use Rattle.capture.specs.Playing.{playing, unplayed, taken_of, play_start_of, play_step_of, play_of};

/// What has come of the capture so far: the answer of the last call, whether the session has ended, and how many bytes of the buffer our
/// node would have sent.
// Stays: three facts, none of which says whether another is there; the theorem `replay_exact` of `replayed` speaks of each in every state.
#[derive(Clone, Copy)]
pub struct Played {
    pub refusal: u8,
    pub over: bool,
    pub count: usize,
}

// All that waits is taken, behind the first n bytes of the buffer; answer: that of the call before it. A receive of no bytes tells whether the
// session has ended, and changes nothing.
fn taken(
    answer: u8,
    session: &mut [u8],
    inbox: &mut [u8],
    store: &mut [u8],
    out: &mut [u8],
    n: usize,
) -> Played
    ensures { playing result (station session.new inbox.new store.new) out.new ≡ taken_of answer (station session.old inbox.old store.old) out.old n }
{
    let count = called_station::take_given(session, inbox, store, out, n);
    let now = called_station::hear(session, inbox, store, b"");
    Played {
        refusal: answer,
        over: now != refusal::NONE,
        count,
    }
}

/// Opens the session and takes what waits.
pub fn play_start(session: &mut [u8], inbox: &mut [u8], store: &mut [u8], out: &mut [u8]) -> Played
    ensures { playing result (station session.new inbox.new store.new) out.new ≡ play_start_of (station session.old inbox.old store.old) out.old }
{
    let answer = called_station::open(session, inbox, store);
    taken(answer, session, inbox, store, out, 0)
}

// One byte in, and all that waits out.
fn play_byte(
    p: Played,
    b: u8,
    session: &mut [u8],
    inbox: &mut [u8],
    store: &mut [u8],
    out: &mut [u8],
) -> Played
    ensures { playing result (station session.new inbox.new store.new) out.new ≡ play_step_of (playing p (station session.old inbox.old store.old) out.old) b }
{
    let one = [b];
    let answer = called_station::hear(session, inbox, store, &one);
    taken(answer, session, inbox, store, out, p.count)
}

/// A portion of the capture, byte by byte, up to an end; what is sent begins the buffer.
pub fn play(
    session: &mut [u8],
    inbox: &mut [u8],
    store: &mut [u8],
    bytes: &[u8],
    out: &mut [u8],
) -> Played
    ensures { playing result (station session.new inbox.new store.new) out.new ≡ play_of (unplayed (station session.old inbox.old store.old) out.old) bytes.now }
{
    let mut p = Played {
        refusal: refusal::NONE,
        over: false,
        count: 0,
    };
    for b in bytes {
        p = play_byte(p, *b, session, inbox, store, out);
        if p.over {
            return p;
        }
    }
    p
}
