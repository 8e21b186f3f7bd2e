// What a line comes to: whose turn it then is, and the marks to set; or why it is refused.
#![tactic(auto)]

ghost use Rattle.std.specs.Prelude.{◌≡◌, Ok};
ghost use Rattle.numbers.specs.Whole.{Arrays, keep_with, session_of};
ghost use Rattle.numbers.specs.declared.Numbers.{Numbers};
ghost use Rattle.line_effect.specs.Judge.{no_marks, went_on, turn_marks, settled_keep};
ghost use Rattle.line_effect.specs.Verdict.{turn_number, judged_of};

use five::none;
use numbers::KeepNumbers;
use session_memory::Five;

// The records at these places get this state; deferred: how many others an FS line defers.
#[derive(Clone, Copy)]
pub struct Marks {
    pub state: u8,
    pub places: Five,
    pub deferred: u8,
}

// Whose turn it is after a line or a message.
#[derive(Clone, Copy, PartialEq, Eq)]
pub enum Turn {
    Theirs,
    Ours,
    // ours, and the partner's turn just now was FF
    OursAfterFf,
}

impl From<Turn> for u8 {
    ghost from_gives = { λ turn n. n ≡ turn_number turn };

    fn from(turn: Turn) -> u8 {
        turn as u8
    }
}

// What a line that is taken comes to beside the state: whose turn it then is, and the marks to set.
#[derive(Clone, Copy)]
pub struct Verdict {
    pub turn: Turn,
    pub marks: Marks,
}

// Nothing is marked.
pub fn unmarked() -> Marks
    ensures { result ≡ no_marks }
{
    Marks {
        state: phase::STATE_WAITING,
        places: none(),
        deferred: 0,
    }
}

// The line is taken, and nothing else comes of it.
pub fn went() -> Verdict
    ensures { (s : Numbers) (a : Arrays) → judged_of (Ok result) s a ≡ went_on (session_of s a) }
{
    Verdict {
        turn: Turn::Theirs,
        marks: unmarked(),
    }
}

// The turn is whole: what was being sent is forwarded.
pub fn marks_of(keep: KeepNumbers) -> Marks
    ensures { (a : Arrays) → result ≡ turn_marks (keep_with keep a) }
{
    let s = keep.sending;
    Marks {
        state: phase::STATE_FORWARDED,
        places: s,
        deferred: 0,
    }
}

// Nothing is being sent any more.
pub fn marked(keep: KeepNumbers) -> KeepNumbers
    ensures { (a : Arrays) → keep_with result a ≡ settled_keep (keep_with keep a) }
{
    let mut k = keep;
    k.sending = none();
    k
}
