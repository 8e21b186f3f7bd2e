// The call open.
#![tactic(auto)]

ghost use Rattle.std.specs.Prelude.{◌≡◌, ◌&&◌, not, [], ◌<◌, eqb};
ghost use Rattle.grammar.specs.Fields.{form_is, is_call, is_at, is_bid};
ghost use Rattle.grammar.specs.Turns.{is_type};
ghost use Rattle.grammar.specs.Refusals.{bad_memory};
ghost use Rattle.layout.specs.Layout.{extent, byte_at, field_in, title_extent, name_extent, body_extent};
ghost use Rattle.entries.specs.Decoded.{known_limit};
ghost use Rattle.give.specs.Giving.{reply};
ghost use Rattle.places.specs.Places.{at_max, bid_max, call_max, record_form, entry_len, known_len, record_len, session_len};
ghost use Rattle.mail.specs.Mail.{record_limit, place_limit};
ghost use Rattle.record_text.specs.Texts.{file_form};
ghost use Rattle.sheet.specs.Sheet.{no_sheet};
ghost use Rattle.open.specs.Lending.{lending};
ghost use Rattle.open.specs.Opening.{length_ok, states_ok, numbers_ok, fields_ok, within, heading_ok, body_ok, texts_ok, record_ok, place_ok, table_fault, Faults, known_ok, entries_ok, sizes_ok, before_ok, open_of, Opened};

use give::{NO_PLACE, Reply};
use layout::{byte_at, entry, state_for};
use number_read::{number2, number4};
use part::part;
use refusal::Refusal;
use session_memory::Sizes;
use sheet::Sheet;

// Roles: called, caller.
const CALLER: u8 = 1;

// Where a record tells its form, type and size, and where title, name and body lie; 01's largest size.
const RECORD_FORM: usize = places::RECORD_FORM as usize;

const RECORD_TYPE: usize = places::RECORD_TYPE as usize;

const RECORD_SIZE_FIELD: u16 = places::RECORD_SIZE_FIELD as u16;

const SIZE_MAX: usize = 999999;

const RECORD_TITLE: u16 = places::RECORD_TITLE as u16;

const RECORD_TITLE_LEN: usize = places::RECORD_TITLE_LEN as usize;

const RECORD_NAME: u16 = places::RECORD_NAME as u16;

const RECORD_NAME_LEN: usize = places::RECORD_NAME_LEN as usize;

const RECORD_BODY: u16 = places::RECORD_BODY as u16;

const RECORD_BODY_LEN: u16 = places::RECORD_BODY_LEN as u16;

// "up to 64 records", "up to 1,024 BIDs", "up to 64 messages", and how long each is.
const RECORDS_MAX: usize = entries::RECORDS_MAX as usize;

const RECORD: usize = places::RECORD as usize;

const KNOWN_MAX: usize = entries::KNOWN_MAX as usize;

const KNOWN: usize = places::KNOWN as usize;

const MESSAGES_MAX: usize = entries::MESSAGES_MAX as usize;

const ENTRY: usize = places::ENTRY as usize;

// The table of records, and the stores that their titles, names and bodies lie in.
#[derive(Clone, Copy)]
struct Records<'a> {
    table: &'a [u8],
    titles: &'a [u8],
    names: &'a [u8],
    bodies: &'a [u8],
}

// The field's length fits its place.
fn length_ok(c: &[u8], at: u8, n: u8) -> bool
    ensures { result ≡ length_ok c.now at n }
{
    byte_at(c, at as usize) <= n
}

// P or B.
fn type_ok(kind: u8) -> bool
    ensures { result ≡ is_type kind }
{
    matches!(kind, b'P' | b'B')
}

// Every partner's state is one.
fn states_ok(c: &[u8]) -> bool
    ensures { result ≡ states_ok c.now }
{
    for p in 0..places::PARTNERS {
        if phase::STATE_DECLINED < state_for(p, c) {
            return false;
        }
    }
    true
}

// States, form, type and size.
#[tactic(auto, unfolding(crate::specs::Opening::numbers_ok))]
fn numbers_ok(c: &[u8]) -> bool
    ensures { result ≡ numbers_ok c.now }
{
    states_ok(c)
        && byte_at(c, RECORD_FORM) <= record_text::FORM_FILE
        && type_ok(byte_at(c, RECORD_TYPE))
        && number4(c, RECORD_SIZE_FIELD) <= SIZE_MAX
}

// The field at this place is a callsign.
// Stays, beside `at_ok` and `bid_ok`: each of the three is one line; one function for all would need an enum with two methods.
fn call_ok(c: &[u8], at: u8) -> bool
    ensures { result ≡ length_ok c.now at call_max && is_call (field_in call_max at c.now) }
{
    length_ok(c, at, places::CALL_MAX) && field::is_call(layout::field(c, at, places::CALL_MAX))
}

// The field at this place is an at field.
fn at_ok(c: &[u8], at: u8) -> bool
    ensures { result ≡ length_ok c.now at at_max && is_at (field_in at_max at c.now) }
{
    length_ok(c, at, places::AT_MAX) && field::is_at(layout::field(c, at, places::AT_MAX))
}

// The field at this place is a BID.
fn bid_ok(c: &[u8], at: u8) -> bool
    ensures { result ≡ length_ok c.now at bid_max && is_bid (field_in bid_max at c.now) }
{
    length_ok(c, at, places::BID_MAX) && field::is_bid(layout::field(c, at, places::BID_MAX))
}

// From, at, to and BID.
#[tactic(auto, unfolding(crate::specs::Opening::fields_ok))]
fn fields_ok(c: &[u8]) -> bool
    ensures { result ≡ fields_ok c.now }
{
    call_ok(c, places::RECORD_FROM)
        && at_ok(c, places::RECORD_AT)
        && call_ok(c, places::RECORD_TO)
        && bid_ok(c, places::RECORD_BID)
}

// The len bytes from start on lie in the store.
#[tactic(auto, unfolding(crate::specs::Opening::within))]
fn lies_within(s: &[u8], start: usize, len: usize) -> bool
    ensures { result ≡ within s.now (extent start len) }
{
    start <= s.len() && len <= s.len() - start
}

// A title or name; one that is not needed may be empty.
#[tactic(auto, unfolding(crate::specs::Opening::heading_ok))]
fn heading_ok(s: &[u8], start: usize, len: usize, needed: bool) -> bool
    ensures { result ≡ heading_ok s.now (extent start len) needed }
{
    lies_within(s, start, len)
        && if len == 0 {
            !needed
        } else {
            field::is_heading(part(s, start, len))
        }
}

// The title; forms 0 and 1 need one.
fn title_ok(c: &[u8], titles: &[u8]) -> bool
    ensures { result ≡ heading_ok titles.now (title_extent c.now) (not (eqb (byte_at c.now record_form) file_form)) }
{
    heading_ok(
        titles,
        number4(c, RECORD_TITLE),
        byte_at(c, RECORD_TITLE_LEN) as usize,
        byte_at(c, RECORD_FORM) != record_text::FORM_FILE,
    )
}

// The name; form 2 needs one.
fn name_ok(c: &[u8], names: &[u8]) -> bool
    ensures { result ≡ heading_ok names.now (name_extent c.now) (eqb (byte_at c.now record_form) file_form) }
{
    heading_ok(
        names,
        number4(c, RECORD_NAME),
        byte_at(c, RECORD_NAME_LEN) as usize,
        byte_at(c, RECORD_FORM) == record_text::FORM_FILE,
    )
}

// The body.
fn body_ok(c: &[u8], bodies: &[u8]) -> bool
    ensures { result ≡ body_ok bodies.now (body_extent c.now) (form_is (byte_at c.now record_form)) }
{
    let form = byte_at(c, RECORD_FORM);
    let start = number4(c, RECORD_BODY);
    let len = number2(c, RECORD_BODY_LEN);
    lies_within(bodies, start, len) && field::is_body(form, part(bodies, start, len))
}

// Title, name and body.
#[tactic(auto, unfolding(crate::specs::Opening::texts_ok))]
fn texts_ok(c: &[u8], records: &Records) -> bool
    ensures { result ≡ texts_ok c.now records.now.titles.now records.now.names.now records.now.bodies.now }
{
    title_ok(c, records.titles) && name_ok(c, records.names) && body_ok(c, records.bodies)
}

// The record in these bytes is good.
#[tactic(auto, unfolding(crate::specs::Opening::record_ok))]
fn record_ok(c: &[u8], records: &Records) -> bool
    ensures { result ≡ record_ok c.now records.now.titles.now records.now.names.now records.now.bodies.now }
{
    numbers_ok(c) && fields_ok(c) && texts_ok(c, records)
}

// The record at this place is good, and no earlier one has its BID.
#[tactic(auto, unfolding(crate::specs::Opening::place_ok))]
fn place_ok(records: &Records, i: u16) -> bool
    ensures { result ≡ place_ok records.now.table.now records.now.titles.now records.now.names.now records.now.bodies.now i }
{
    let c = entry(places::RECORD, records.table, i);
    record_ok(c, records)
        && !bid::has_bid(
            places::RECORD,
            records.table,
            i,
            places::RECORD_BID,
            layout::field(c, places::RECORD_BID, places::BID_MAX),
        )
}

// Every record of the table is good, or else the place of the first that isn't.
fn table_ok(records: &Records) -> Result<(), u8>
    ensures { Faults result (table_fault records.now.table.now records.now.titles.now records.now.names.now records.now.bodies.now) }
{
    for i in 0..entries::records(records.table) {
        if !place_ok(records, i) {
            return Err(i as u8);
        }
    }
    Ok(())
}

// Every known BID is one.
fn known_ok(known: &[u8]) -> bool
    ensures { result ≡ known_ok known.now }
{
    for i in 0..entries::known_bids(known) {
        if !bid_ok(entry(places::KNOWN, known, i), 0) {
            return false;
        }
    }
    true
}

// A buffer of len bytes holds a whole number of entries of this size, most at most.
fn entries_ok(len: usize, size: usize, most: usize) -> bool
    requires { 0 < size }
    ensures { result ≡ entries_ok len size most }
{
    len % size == 0 && len / size <= most
}

// The lengths of session memory, table, known list and inbox are good.
#[tactic(auto, unfolding(crate::specs::Opening::sizes_ok))]
fn sizes_ok(sm: usize, table: usize, known: usize, inbox: usize) -> bool
    ensures { result ≡ eqb sm session_len && (entries_ok table record_len record_limit && (entries_ok known known_len known_limit && entries_ok inbox entry_len place_limit)) }
{
    sm == places::SESSION
        && entries_ok(table, RECORD, RECORDS_MAX)
        && entries_ok(known, KNOWN, KNOWN_MAX)
        && entries_ok(inbox, ENTRY, MESSAGES_MAX)
}

// All that is tested before the records: partner, role, sizes, known BIDs. It is not shown the stores: no such test looks at them.
#[tactic(auto, unfolding(crate::specs::Opening::sizes_ok))]
fn before_ok(role: u8, partner: u8, sm: &[u8], table: &[u8], known: &[u8], inbox: &[u8]) -> bool
    ensures { result ≡ before_ok (lending role partner sm.now table.now [] [] [] known.now inbox.now []) }
{
    partner < places::PARTNERS
        && role <= CALLER
        && sizes_ok(sm.len(), table.len(), known.len(), inbox.len())
        && known_ok(known)
}

// Answer 1, bad memory, with this place.
fn bad(place: u8) -> Reply
    ensures { result ≡ reply bad_memory place 0 }
{
    Reply {
        answer: Refusal::BadMemory as u8,
        place,
        count: 0,
    }
}

// Answer 0: the session is open.
fn opened() -> Reply
    ensures { result ≡ reply 0 0 0 }
{
    Reply {
        answer: refusal::NONE,
        place: 0,
        count: 0,
    }
}

// "all 0 when open accepts"
fn no_sheet() -> Sheet
    ensures { result ≡ no_sheet }
{
    Sheet {
        proposed: 0,
        forwarded: 0,
        declined: 0,
        deferred: 0,
        unsettled: 0,
    }
}

/// Opens a session in session memory: role 0 called, 1 caller; partner 0 to 7. Answers 0, or 1 (bad memory) with the place of the first bad
/// record, 255 where another test fails; session memory is as it was then.
// Stays: ten parameters, as C lends them to `fringemole_open`.
pub fn open(
    role: u8,
    partner: u8,
    sm: &mut [u8],
    table: &[u8],
    titles: &[u8],
    names: &[u8],
    bodies: &[u8],
    known: &[u8],
    inbox: &[u8],
    store: &[u8],
) -> Reply
    ensures { record { reply = result; sm = sm.new } ≡ open_of (lending role partner sm.old table.now titles.now names.now bodies.now known.now inbox.now store.now) }
{
    if !before_ok(role, partner, sm, table, known, inbox) {
        return bad(NO_PLACE);
    }
    let records = Records {
        table,
        titles,
        names,
        bodies,
    };
    if let Err(place) = table_ok(&records) {
        return bad(place);
    }
    let waiting = tally::counted(partner, table, no_sheet());
    let sizes = Sizes {
        table: table.len(),
        titles: titles.len(),
        names: names.len(),
        bodies: bodies.len(),
        known: known.len(),
        inbox: inbox.len(),
        store: store.len(),
    };
    open_memory::save_sizes(sm, sizes);
    open_memory::save_fresh(sm, role == CALLER, partner, waiting);
    opened()
}
