//! The time of a moment, as RFC 3339 section 5.6 writes it.

ghost use Rattle.std.specs.Prelude.{◌≡◌, ◌*◌, ◌≤◌, pos};
ghost use Rattle.jiff_core.specs.DateTime.{civil_nanos};
ghost use Rattle.lisp_json.specs.Time.{IsTimeOf, last_digit, last_ms, moment_text};

use jiff_core::civil::DateTime;

/// The last ms of the year 9999, from 1970 on.
const LAST_MS: u64 = 253_402_300_799_999;

/// The time so many ms after 1970-01-01T00:00:00Z, in UTC, as `2026-12-01T04:33:12.345Z`; of later ones that of the last ms of the year 9999.
pub(crate) fn time_of(ms: u64) -> [u8; 24]
    ensures { IsTimeOf ms result }
{
    moment_text(moment_at(ms.min(LAST_MS)))
}

fn moment_at(ms: u64) -> DateTime
    requires { ms ≤ last_ms }
    ensures { civil_nanos result ≡ pos (ms * 1000000) }
{
    DateTime::from_nanosecond_in_range(i128::from(ms) * 1_000_000)
}

fn moment_text(moment: DateTime) -> [u8; 24]
    ensures { result ≡ moment_text moment }
{
    let DateTime { date, time } = moment;
    let year = u32::from(date.year.unsigned_abs());
    let month = u32::from(date.month);
    let day = u32::from(date.day);
    let hour = u32::from(time.hour);
    let minute = u32::from(time.minute);
    let second = u32::from(time.second);
    let millisecond = time.subsec_nanosecond / 1_000_000;
    [
        last_digit(year / 1000),
        last_digit(year / 100),
        last_digit(year / 10),
        last_digit(year),
        b'-',
        last_digit(month / 10),
        last_digit(month),
        b'-',
        last_digit(day / 10),
        last_digit(day),
        b'T',
        last_digit(hour / 10),
        last_digit(hour),
        b':',
        last_digit(minute / 10),
        last_digit(minute),
        b':',
        last_digit(second / 10),
        last_digit(second),
        b'.',
        last_digit(millisecond / 100),
        last_digit(millisecond / 10),
        last_digit(millisecond),
        b'Z',
    ]
}

// The last digit of a number.
fn last_digit(number: u32) -> u8
    ensures { result ≡ last_digit number }
{
    b'0' + (number % 10) as u8
}
