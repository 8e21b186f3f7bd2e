// The last line of a replay (02, Q-11): `refusal N` ended by LF.
#![tactic(auto)]

ghost use Rattle.std.specs.Prelude.{[], ◌∷◌, ◌++◌};
ghost use Rattle.grammar.specs.Bytes.{LF};
ghost use Rattle.grammar.specs.Fields.{decimal};
ghost use Rattle.buffer.specs.Put.{Takes};
ghost use Rattle.refusal_line.specs.Line.{refusal_line};

use buffer::Writer;
use decimal::digits;

// A number in decimal digits, and the LF that ends the line.
fn put_number(w: &mut Writer, n: u8)
    ensures { Takes w.old (decimal n ++ (LF ∷ [])) w.new }
{
    let d = digits(u32::from(n));
    w.put(d.as_bytes());
    w.put_byte(b'\n');
}

/// The line for this number, 0 if nothing was refused.
pub fn write_refusal(w: &mut Writer, n: u8)
    ensures { Takes w.old (refusal_line n) w.new }
{
    w.put(b"refusal ");
    put_number(w, n);
}
