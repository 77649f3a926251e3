// Which numbers are days of the Gregorian calendar, written as year, month and day.

#![tactic(auto)]

ghost use Rattle.std.specs.Prelude.{◌≡◌};
ghost use Rattle.days.specs.Day.{leap_year, month_days, is_day};

// The days of each month of a year that is no leap year, from month 1 on.
pub const MONTHS: [u32; 13] = [0, 31, 28, 31, 30, 31, 30, 31, 31, 30, 31, 30, 31];

#[tactic(auto, unfolding(crate::specs::Day::leap_year))]
fn is_leap_year(year: u32) -> bool
    ensures { result ≡ leap_year year }
{
    (year % 4 == 0 && year % 100 != 0) || year % 400 == 0
}

// How many days a month has: where there is no such month, none, so its 0 is a number of days like any other.
#[tactic(auto, unfolding(crate::specs::Day::month_days))]
fn month_days(year: u32, month: u32) -> u32
    ensures { result ≡ month_days year month }
{
    if month == 2 && is_leap_year(year) {
        return 29;
    }
    MONTHS.get(month as usize).copied().unwrap_or(0)
}

// Whether a number is a day from 19500101 to 20991231.
#[tactic(auto, unfolding(crate::specs::Day::is_day, crate::specs::Day::gregorian))]
pub fn is_day(number: u32) -> bool
    ensures { result ≡ is_day number }
{
    let year = number / 10_000;
    let month = number / 100 % 100;
    let day = number % 100;
    (1..=month_days(year, month)).contains(&day) && (19_500_101..=20_991_231).contains(&number)
}
