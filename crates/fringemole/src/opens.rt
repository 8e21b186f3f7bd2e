// The call open.
ghost use Rattle.std.specs.Prelude.{◌≡◌};
ghost use Rattle.open.specs.Lending.{lending};
ghost use Rattle.open.specs.Opening.{open_of};

use give::Reply;

// Opens a session. role: 0 called, 1 caller; partner: 0 to 7.
#[unsafe(no_mangle)]
pub extern "C" fn fringemole_open(
    role: u8,
    partner: u8,
    session: &mut [u8],
    table: &[u8],
    titles: &[u8],
    names: &[u8],
    bodies: &[u8],
    known: &[u8],
    inbox: &[u8],
    store: &[u8],
) -> Reply
    ensures { record { reply = result; sm = session.new } ≡ open_of (lending role partner session.old table.now titles.now names.now bodies.now known.now inbox.now store.now) }
{
    open::open(
        role, partner, session, table, titles, names, bodies, known, inbox, store,
    )
}
