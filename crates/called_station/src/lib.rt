// The called station with an empty table, no known BIDs and partner 0 (02, Q-11): the three calls, in memory that the caller lends.
#![tactic(auto)]

ghost use Rattle.std.specs.Prelude.{◌≡◌};
ghost use Rattle.called_station.specs.Station.{station, opened_of, heard_of, sent_of};

// The role of a called station, and its first partner.
const CALLED: u8 = 0;

const FIRST_PARTNER: u8 = 0;

/// Opens the session; what open answers.
pub fn open(session: &mut [u8], inbox: &[u8], store: &[u8]) -> u8
    ensures { record { answer = result; station = station session.new inbox.now store.now } ≡ opened_of (station session.old inbox.now store.now) }
{
    let none: &[u8] = b"";
    let opened = open::open(
        CALLED,
        FIRST_PARTNER,
        session,
        none,
        none,
        none,
        none,
        none,
        inbox,
        store,
    );
    opened.answer
}

/// What receive answers to these bytes.
pub fn hear(session: &mut [u8], inbox: &mut [u8], store: &mut [u8], bytes: &[u8]) -> u8
    ensures { record { answer = result; station = station session.new inbox.new store.new } ≡ heard_of (station session.old inbox.old store.old) bytes.now }
{
    let mut table = [0u8; 0];
    let none: &[u8] = b"";
    let heard = receive::receive(
        session, &mut table, none, none, none, none, inbox, store, bytes,
    );
    heard.answer
}

/// What waits, behind the first n bytes of the buffer and as far as it has room; how many bytes stand there then.
pub fn take_given(session: &mut [u8], inbox: &[u8], store: &[u8], out: &mut [u8], n: usize) -> usize
    ensures { record { count = result; session = session.new; out = out.new } ≡ sent_of (station session.old inbox.now store.now) out.old n }
{
    let none: &[u8] = b"";
    let given = give::give(session, none, none, none, none, none, inbox, store, out, n);
    n + given.count
}
