//! A number of 1 to 10 digits.
#![tactic(auto)]

ghost use Rattle.std.specs.Prelude.{◌≡◌, ◌^◌, ◌<◌, IfSome};
ghost use Rattle.pages.specs.Fields.{read_long};
ghost use Rattle.byte.specs.Said.{said};

use size::read_number;

// The most digits that a number has.
const MOST_DIGITS: usize = 10;

/// The number that a field says.
#[tactic(auto, unfolding(pages::specs::Fields::read_long, pages::specs::Fields::is_long))]
pub fn read_long(s: &[u8]) -> Option<u64>
    ensures value { said result ≡ read_long s.now }
    ensures below { IfSome result (λ n. n < 10 ^ 10) }
{
    read_number::<MOST_DIGITS>(s)
}
