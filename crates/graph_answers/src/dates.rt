//! Days of the calendar, and times.

use jiff_core::civil::DateTime;
use std::alloc::{AllocError, Global};

/// The nanoseconds of a second.
const SECOND: i128 = 1_000_000_000;

/// Returns the time of a second since 1970 in UTC, or `None` after the year 9999.
fn moment_of(seconds: u64) -> Option<DateTime> {
    DateTime::from_nanosecond((seconds as i128).saturating_mul(SECOND)).ok()
}

/// Returns the day of a second since 1970 in UTC, as `YYYY-MM-DD`, or `None` after the year 9999.
pub fn day_of(alloc: Global, seconds: u64) -> Result<Option<String>, AllocError> {
    let Some(moment) = moment_of(seconds) else {
        return Ok(None);
    };
    let (year, month, day) = (moment.date.year, moment.date.month, moment.date.day);
    Ok(Some(format!(in alloc; "{year}-{month:02}-{day:02}")?))
}

/// Returns the time of a second since 1970 in UTC, as `YYYY-MM-DDTHH:MM:SSZ`, or `None` after the year 9999.
pub fn time_of(alloc: Global, seconds: u64) -> Result<Option<String>, AllocError> {
    let Some(moment) = moment_of(seconds) else {
        return Ok(None);
    };
    let Some(day) = day_of(alloc, seconds)? else {
        return Ok(None);
    };
    let (hour, minute, second) = (moment.time.hour, moment.time.minute, moment.time.second);
    Ok(Some(format!(in alloc; "{day}T{hour:02}:{minute:02}:{second:02}Z")?))
}
