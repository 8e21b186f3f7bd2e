//! Days from 1970-01-01: the number of a date, and the date of a number.
#![tactic(auto)]

ghost use Rattle.std.specs.Prelude.{◌≡◌, true, false, ◌≤◌, ◌<◌};
ghost use Rattle.dates.specs.Dates.{is_date, month_start, month_of, day_number, year_in, year_start, date_of, last_month, cycle_years, all_days};
ghost use Rattle.calendar.specs.Meaning.{date_is};
ghost use Rattle.day_number.specs.Meaning.{year_length};

use calendar::Date;

const FIRST_YEAR: u16 = calendar::FIRST_YEAR;

const YEAR_DAYS: u32 = 365;

const LONG_YEAR_DAYS: u32 = YEAR_DAYS + 1;

const MONTHS: u8 = calendar::MONTHS;

// Four years: the third of them, counted from 1970, is the long one.
const CYCLE_YEARS: u32 = calendar::CYCLE_YEARS as u32;

const CYCLE_DAYS: u32 = CYCLE_YEARS * YEAR_DAYS + 1;

const LONG_YEAR: u32 = 2;

const LAST_OF_CYCLE: u32 = CYCLE_YEARS - 1;

const THIRD_YEAR: u32 = LONG_YEAR * YEAR_DAYS;

const FOURTH_YEAR: u32 = THIRD_YEAR + LONG_YEAR_DAYS;

// How many days of the year come before a month.
fn start_of(leap: bool, month: u8) -> u16
    requires { (1 ≤ month) × (month ≤ last_month) }
    ensures { result ≡ month_start leap month }
{
    let at = usize::from(month - 1);
    // each year with an array of its own, which the compiler keeps as a constant: one made by the `if` is written to the stack at each call
    if leap {
        let starts: [u16; 13] = [0, 31, 60, 91, 121, 152, 182, 213, 244, 274, 305, 335, 366];
        starts[at]
    } else {
        let starts: [u16; 13] = [0, 31, 59, 90, 120, 151, 181, 212, 243, 273, 304, 334, 365];
        starts[at]
    }
}

/// The number of a date: its days from 1970-01-01.
pub fn number_of(d: Date) -> u32
    requires { is_date (date_is d) ≡ true }
    ensures value { result ≡ day_number (date_is d) }
    ensures below { result < all_days }
{
    let years = u32::from(d.year - FIRST_YEAR);
    let long_years = u32::from((d.year - (FIRST_YEAR - 1)) / calendar::CYCLE_YEARS);
    let start = u32::from(start_of(d.year % calendar::CYCLE_YEARS == 0, d.month));
    let day = u32::from(d.day - 1);
    YEAR_DAYS * years + long_years + (start + day)
}

// The year of a day of a cycle, from 0.
fn year_in(day: u32) -> u32
    ensures { result ≡ year_in day }
{
    match day {
        ..YEAR_DAYS => 0,
        ..THIRD_YEAR => 1,
        ..FOURTH_YEAR => LONG_YEAR,
        _ => LAST_OF_CYCLE,
    }
}

// How many days of a cycle come before a year of it.
fn year_start(year: u32) -> u32
    requires { year < cycle_years }
    ensures { result ≡ year_start year }
{
    let starts = [0u32, YEAR_DAYS, THIRD_YEAR, FOURTH_YEAR];
    let i = year as usize;
    starts[i]
}

// The month of a day of the year, from 0: the last that starts by it.
fn month_of(leap: bool, day: u32) -> u8
    requires { day < year_length leap }
    ensures value { result ≡ month_of leap day }
    ensures least { 1 ≤ result }
    ensures most { result ≤ last_month }
    ensures starts { month_start leap result ≤ day }
{
    for month in 1..MONTHS {
        if day < u32::from(start_of(leap, month + 1)) {
            return month;
        }
    }
    MONTHS
}

/// The date of a number of days from 1970-01-01.
pub fn date_of(n: u32) -> Date
    requires { n < all_days }
    ensures { date_is result ≡ date_of n }
{
    let in_cycle = n % CYCLE_DAYS;
    let year = year_in(in_cycle);
    let day = in_cycle - year_start(year);
    let leap = year == LONG_YEAR;
    let month = month_of(leap, day);
    let start = u32::from(start_of(leap, month));
    Date {
        year: (u32::from(FIRST_YEAR) + CYCLE_YEARS * (n / CYCLE_DAYS) + year) as u16,
        month,
        day: (day - start + 1) as u8,
    }
}
