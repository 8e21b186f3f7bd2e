// Our turn: which records we propose, and what we say where none is left.
#![tactic(auto)]

ghost use Rattle.std.specs.Prelude.{◌≡◌, []};
ghost use Rattle.grammar.specs.Fields.{form_is};
ghost use Rattle.grammar.specs.Turns.{in_mode};
ghost use Rattle.session.specs.Choices.{wanted};
ghost use Rattle.layout.specs.Layout.{record_of, state_for};
ghost use Rattle.numbers.specs.Whole.{Arrays, with_deferred, session_of};
ghost use Rattle.our_turn.specs.Turn.{choose_of, speak_of};

use five::{add, none};
use layout::{byte_at, entry, state_for};
use next_awaited::to_turn;
use number_read::number4;
use numbers::Numbers;
use session_memory::Five;

// "the announced sizes so far are below 10,240"
const SIZES_MAX: usize = 10240;

// Records of this form are proposed in this mode.
fn in_mode(framed: bool, form: u8) -> bool
    ensures { result ≡ in_mode framed (form_is form) }
{
    match form {
        record_text::FORM_MESSAGE | record_text::FORM_FILE => framed,
        _ => !framed,
    }
}

// The record in these bytes waits for the partner, is of the mode's form and was not deferred.
fn wanted(partner: u8, framed: bool, bytes: &[u8], flag: u8) -> bool
    ensures { result ≡ wanted framed (record_of [] [] [] bytes.now) (state_for partner bytes.now) flag }
{
    in_mode(framed, byte_at(bytes, places::RECORD_FORM as usize))
        && state_for(partner, bytes) == phase::STATE_WAITING
        && flag == phase::NOT_DEFERRED
}

// The places of the records that we propose to this partner now.
pub fn choose(partner: u8, table: &[u8], framed: bool, deferred: &[u8]) -> Five
    ensures { result ≡ choose_of partner table.now framed deferred.now }
{
    let mut chosen = none();
    let mut total = 0usize;
    for i in 0..entries::records(table) {
        let bytes = entry(places::RECORD, table, i);
        if !wanted(partner, framed, bytes, byte_at(deferred, i as usize)) {
            continue;
        }
        if phase::BLOCK_LIMIT <= chosen.count || SIZES_MAX <= total {
            return chosen;
        }
        chosen = add(chosen, i as u8);
        total += number4(bytes, places::RECORD_SIZE_FIELD as u16);
    }
    chosen
}

// Our turn, if it is: what we propose, or FF, or FQ where the partner's turn just now was FF. speaks: which turn it is, phase::OUR_TURN and so on.
// A number, not a Turn: docs name this function, and it answers for every number.
pub fn speak(s: &mut Numbers, deferred: &[u8], table: &[u8], speaks: u8)
    ensures { (a : Arrays) → session_of s.new (with_deferred deferred.now a) ≡ speak_of speaks (session_of s.old (with_deferred deferred.now a)) table.now }
{
    if speaks == phase::NOT_OUR_TURN {
        return;
    }
    let chosen = choose(s.keep.terms.partner, table, s.keep.framed, deferred);
    if chosen.count != 0 {
        s.now.phase = phase::FS;
        s.now.ours = chosen;
        s.say.then = phase::PIECE_BLOCK;
    } else if speaks == phase::OUR_TURN_AFTER_FF {
        s.now.phase = phase::LEAVING;
        s.say.then = phase::PIECE_FQ;
    } else {
        to_turn(&mut s.now, true);
        s.say.then = phase::PIECE_FF;
    }
}
