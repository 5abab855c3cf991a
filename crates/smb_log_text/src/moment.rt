//! Moments as dates of the calendar.

use std::alloc::AllocError;

/// Units of 100 ns in a millisecond.
const MILLISECOND: u64 = 10_000;

/// Milliseconds of a day.
const DAY: u64 = 86_400_000;

/// Days of 400 years, of 100 years whose last is no leap year, of 4 years whose last is one, and of a year that is none.
const FOUR_CENTURIES: u64 = 146_097;

const CENTURY: u64 = 36_524;

const FOUR_YEARS: u64 = 1_461;

const YEAR: u64 = 365;

/// Days of the months of a year that is no leap year.
const MONTHS: [u64; 12] = [31, 28, 31, 30, 31, 30, 31, 31, 30, 31, 30, 31];

/// A day of the calendar.
#[derive(Clone, Copy)]
struct Date {
    year: u64,
    /// 1 to 12.
    month: u64,
    /// 1 to 31.
    day: u64,
}

/// How many whole parts of a length there are, at most so many, and what is left behind them.
fn whole_parts(days: u64, length: u64, most: u64) -> (u64, u64) {
    let count = days.checked_div(length).unwrap_or(0).min(most);
    (count, days.saturating_sub(count.saturating_mul(length)))
}

/// The day that is so many days behind the first of January 1601, with which 400 years of the calendar begin.
fn date_of(days: u64) -> Date {
    let (cycles, days) = whole_parts(days, FOUR_CENTURIES, u64::MAX);
    let (centuries, days) = whole_parts(days, CENTURY, 3);
    let (quarters, days) = whole_parts(days, FOUR_YEARS, 24);
    let (years, mut left) = whole_parts(days, YEAR, 3);
    let is_leap = years == 3 && (quarters < 24 || centuries == 3);
    let year = cycles
        .saturating_mul(400)
        .saturating_add(centuries.saturating_mul(100))
        .saturating_add(quarters.saturating_mul(4))
        .saturating_add(years)
        .saturating_add(1601);
    let mut month = 1u64;
    for length in MONTHS {
        let length = if is_leap && month == 2 { 29 } else { length };
        if left < length {
            break;
        }
        left = left.saturating_sub(length);
        month = month.saturating_add(1);
    }
    let day = left.saturating_add(1);
    Date { year, month, day }
}

/// Adds a moment, in units of 100 ns since 1601, as a day and a time of UTC, cut to milliseconds.
pub fn put_moment(moment: u64, text: &mut String) -> Result<(), AllocError> {
    let milliseconds = moment / MILLISECOND;
    let Date { year, month, day } = date_of(milliseconds / DAY);
    let of_day = milliseconds % DAY;
    let (hour, minute) = (of_day / 3_600_000, of_day / 60_000 % 60);
    let (second, fraction) = (of_day / 1_000 % 60, of_day % 1_000);
    write!(text, "{year:04}-{month:02}-{day:02} ")?;
    write!(text, "{hour:02}:{minute:02}:{second:02}.{fraction:03}")
}
