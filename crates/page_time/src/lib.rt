//! Dates of the older white pages as seconds that may fall before 1970, and back.
#![tactic(auto)]

ghost use Rattle.std.specs.Prelude.{◌≡◌, ◌<◌, IfSome};
ghost use Rattle.byte.specs.Said.{said};
ghost use Rattle.dates.specs.Dates.{all_days};
ghost use Rattle.date_digits.specs.Meaning.{read_date_is};
ghost use Rattle.pages.specs.Stamps.{seconds_of, day_of, to_seconds, to_date};

use calendar::Date;
use date_digits::read_date;
use day_number::{date_of, number_of};

const DAY_SECONDS: u64 = 86400;

// The last second before the year 2070.
const LAST_SECOND: i64 = 3155759999;

// The seconds of midnight of a day, less one day.
#[tactic(auto, unfolding(pages::specs::Stamps::seconds_of))]
fn seconds_of(day: u32) -> i64
    requires { day < all_days }
    ensures { result ≡ seconds_of day }
{
    let n = u64::from(day) * DAY_SECONDS;
    (n as i64) - (DAY_SECONDS as i64)
}

// The day of a time, the time of day cut off; `None` before 1970 and from 2070 on.
#[tactic(auto, unfolding(pages::specs::Stamps::day_of))]
fn day_of(t: i64) -> Option<u32>
    ensures value { said result ≡ day_of t }
    ensures below { IfSome result (λ n. n < all_days) }
{
    match t {
        0..=LAST_SECOND => Some((t as u64 / DAY_SECONDS) as u32),
        _ => None,
    }
}

/// There: six digits as the seconds of that midnight GMT less one day; `None` where they are no date.
#[tactic(auto, unfolding(pages::specs::Stamps::to_seconds))]
pub fn to_seconds(text: &[u8]) -> Option<i64>
    ensures { said result ≡ to_seconds text.now }
{
    let date = read_date(text)?;
    Some(seconds_of(number_of(date)))
}

/// Back: the date of a time; `None` before 1970 and from 2070 on.
#[tactic(auto, unfolding(pages::specs::Stamps::to_date))]
pub fn to_date(t: i64) -> Option<Date>
    ensures { read_date_is result ≡ to_date t }
{
    Some(date_of(day_of(t)?))
}
