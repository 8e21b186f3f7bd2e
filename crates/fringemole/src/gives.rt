// The call give.
ghost use Rattle.std.specs.Prelude.{◌≡◌};
ghost use Rattle.give.specs.Giving.{give_of};

use give::Reply;

// Hands out as many waiting bytes as fit into buf from place on.
#[unsafe(no_mangle)]
pub extern "C" fn fringemole_give<'a>(
    session: &mut [u8],
    table: &[u8],
    titles: &'a [u8],
    names: &'a [u8],
    bodies: &[u8],
    known: &[u8],
    inbox: &[u8],
    store: &[u8],
    buf: &mut [u8],
    place: usize,
) -> Reply
    ensures { record { reply = result; sm = session.new; buf = buf.new } ≡ give_of session.old table.now titles.now names.now bodies.now known.now inbox.now store.now buf.old place }
{
    give::give(
        session, table, titles, names, bodies, known, inbox, store, buf, place,
    )
}
