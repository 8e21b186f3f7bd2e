// Bytes that only make the line or the body under way longer, taken where the state stands in session memory: of its numbers only those
// that change are written. All of the bytes are such, or none is taken.
#![tactic(auto)]

ghost use Rattle.std.specs.Prelude.{◌≡◌, ◌&&◌, eqb, length};
ghost use Rattle.std.specs.List.{list_any};
ghost use Rattle.grammar.specs.Bytes.{Bytes, CR, LF};
ghost use Rattle.phase.specs.Phase.{phase_transfer};
ghost use Rattle.receive_defined.specs.Roomy.{Roomy};
ghost use Rattle.byte_run.specs.Taking.{Takes, TakesBytes, Quiet};

use numbers::Numbers;

// One of the bytes ends a line.
fn has_cr(bytes: &[u8]) -> bool
    ensures { result ≡ list_any (λ b. eqb b CR) bytes.now }
{
    bytes.iter().any(|b| *b == line::CR)
}

// Bytes of a line before its CR, as long as the line has room.
fn line_run(s: Numbers, bytes: &[u8], sm: &mut [u8]) -> bool
    requires { TakesBytes s sm.old bytes.now × Quiet s bytes.now × (s.now.phase ≡ phase_transfer → ⊥) }
    ensures { (store : Bytes) → Takes result sm.old store bytes.now sm.new store }
{
    let len = s.line.len as usize;
    if line::LINE_LIMIT < len || line::LINE_LIMIT - len < bytes.len() || has_cr(bytes) {
        return false;
    }
    buffer::put_whole(
        &mut sm[places::ARRAYS..places::ARRAYS_END],
        places::LINE + len,
        bytes,
    );
    numbers_in_place::put_line_length(sm, len + bytes.len());
    true
}

// Bytes of a body.
fn body_run(s: Numbers, bytes: &[u8], sm: &mut [u8], store: &mut [u8]) -> bool
    requires { TakesBytes s sm.old bytes.now × Quiet s bytes.now × (s.now.phase ≡ phase_transfer) × Roomy s (length store.old) }
    ensures { Takes result sm.old store.old bytes.now sm.new store.new }
{
    let used = s.keep.used;
    let Some(next) = transfer_read::run_on(s.reader, bytes, &mut store[used..]) else {
        return false;
    };
    numbers_in_place::put_read_so_far(sm, next);
    true
}

// The one LF after a CR.
pub fn is_dropped(after_cr: bool, b: u8) -> bool
    ensures { result ≡ after_cr && eqb b LF }
{
    after_cr && b == line::LF
}

// Takes the bytes if all of them only make the line or the body under way longer; whether they do. s: the numbers in session memory.
pub fn take_run(s: Numbers, bytes: &[u8], sm: &mut [u8], store: &mut [u8]) -> bool
    requires { TakesBytes s sm.old bytes.now × Roomy s (length store.old) }
    ensures { Takes result sm.old store.old bytes.now sm.new store.new }
{
    if is_dropped(s.line.after_cr, bytes[0]) || pending::is_waiting(s.say) {
        return false;
    }
    if s.now.phase == phase::TRANSFER {
        return body_run(s, bytes, sm, store);
    }
    line_run(s, bytes, sm)
}
