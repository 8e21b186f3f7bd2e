//! Whether year, month and day are a date of 1970 to 2069, and hour and minute a time.
#![tactic(auto)]

ghost use Rattle.std.specs.Prelude.{◌≡◌, ◌≤◌};
ghost use Rattle.dates.specs.Dates.{days_in, is_date, is_time, last_month};
ghost use Rattle.calendar.specs.Meaning.{date_is, time_is};

pub const FIRST_YEAR: u16 = 1970;

const LAST_YEAR: u16 = 2069;

pub const MONTHS: u8 = 12;

// Every fourth year is a long one.
pub const CYCLE_YEARS: u16 = 4;

const FEBRUARY: u8 = 2;

// February's days in a short year and in a long one.
const FEBRUARY_DAYS: u8 = 28;

const LONG_FEBRUARY_DAYS: u8 = FEBRUARY_DAYS + 1;

const LAST_HOUR: u8 = 23;

const LAST_MINUTE: u8 = 59;

/// A date, the year in full. Any numbers: whether they are a date says `is_valid`.
// The month stays a number: `fringemole_route_add` takes any and `RouteHop` gives it, and `is_valid` is asked of all.
#[derive(Clone, Copy)]
pub struct Date {
    pub year: u16,
    pub month: u8,
    pub day: u8,
}

/// A time of day. Any numbers: whether they are a time says `is_valid`.
#[derive(Clone, Copy)]
pub struct Time {
    pub hour: u8,
    pub minute: u8,
}

// How many days a month has, in a long year or a short one.
fn days_in(leap: bool, month: u8) -> u8
    requires { (1 ≤ month) × (month ≤ last_month) }
    ensures { result ≡ days_in leap month }
{
    match month {
        FEBRUARY if leap => LONG_FEBRUARY_DAYS,
        FEBRUARY => FEBRUARY_DAYS,
        4 | 6 | 9 | 11 => 30,
        _ => 31,
    }
}

impl Date {
    /// Month 1 to 12, and a day that fits the month; years 1970 to 2069.
    #[tactic(auto, unfolding(dates::specs::Dates::is_date))]
    pub fn is_valid(self) -> bool
        ensures { result ≡ is_date (date_is self) }
    {
        (FIRST_YEAR..=LAST_YEAR).contains(&self.year)
            && (1..=MONTHS).contains(&self.month)
            && 1 <= self.day
            && self.day <= days_in(self.year % CYCLE_YEARS == 0, self.month)
    }
}

impl Time {
    /// Hour to 23, minute to 59.
    #[tactic(auto, unfolding(dates::specs::Dates::is_time))]
    pub fn is_valid(self) -> bool
        ensures { result ≡ is_time (time_is self) }
    {
        self.hour <= LAST_HOUR && self.minute <= LAST_MINUTE
    }
}
