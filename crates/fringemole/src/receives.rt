// The call receive.
ghost use Rattle.std.specs.Prelude.{◌≡◌};
ghost use Rattle.receive_defined.specs.Receiving.{receive_of};

use give::Reply;

// Takes bytes from the link.
#[unsafe(no_mangle)]
pub extern "C" fn fringemole_receive<'a>(
    session: &mut [u8],
    table: &mut [u8],
    titles: &'a [u8],
    names: &'a [u8],
    bodies: &[u8],
    known: &[u8],
    inbox: &mut [u8],
    store: &mut [u8],
    bytes: &[u8],
) -> Reply
    ensures { record { reply = result; sm = session.new; table = table.new; inbox = inbox.new; store = store.new } ≡ receive_of session.old table.old titles.now names.now bodies.now known.now inbox.old store.old bytes.now }
{
    receive::receive(
        session, table, titles, names, bodies, known, inbox, store, bytes,
    )
}
