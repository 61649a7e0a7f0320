// How a civil minute is written.
ghost use Rattle.std.specs.Prelude.{◌≡◌, ◌+◌, ◌/◌, ◌%◌, IfOk};
ghost use Rattle.bottimers.specs.Civil.{two_digits, four_digits, time_words, time_line, cron_words};

use crate::calendar::CivilMinute;
use bytetext::{NoMemory, Text, Texts};
use std::alloc::Global;

/// Returns the text that a time mask is tried on at the minute `at`: `mm hh dd MM yyyy`, with the month from `00` for
/// January to `11`.
///
/// # Errors
/// `NoMemory` if the text can't be allocated.
pub fn time_text(alloc: Global, at: &CivilMinute) -> Result<Text, NoMemory>
    ensures { IfOk result (λ text. text ≡ time_line at.now) }
{
    let [m, n] = two(at.minute);
    let [h, i] = two(at.hour);
    let [d, e] = two(at.day);
    let [o, p] = two(at.month.saturating_sub(1));
    let [y, z, a, b] = four(at.year.unsigned_abs());
    let s = b' ';
    Text::from_slice(alloc, &[m, n, s, h, i, s, d, e, s, o, p, s, y, z, a, b])
}

/// Returns the arguments of a time call at the minute `at`: the five words of the time text.
///
/// # Errors
/// `NoMemory` if they can't be allocated.
pub fn time_args(alloc: Global, at: &CivilMinute) -> Result<Texts, NoMemory>
    ensures { IfOk result (λ texts. texts ≡ time_words at.now) }
{
    let minute = Text::from_slice(alloc, &two(at.minute))?;
    let hour = Text::from_slice(alloc, &two(at.hour))?;
    let day = Text::from_slice(alloc, &two(at.day))?;
    let month = Text::from_slice(alloc, &two(at.month.saturating_sub(1)))?;
    let year = Text::from_slice(alloc, &four(at.year.unsigned_abs()))?;
    Ok(Texts::new(vec![in alloc; minute, hour, day, month, year]?))
}

/// Returns the arguments of a cron call at the minute `at`: minute, hour, day, the month from `01`, weekday from `00`
/// for Sunday, of two digits each.
///
/// # Errors
/// `NoMemory` if they can't be allocated.
pub fn cron_args(alloc: Global, at: &CivilMinute) -> Result<Texts, NoMemory>
    ensures { IfOk result (λ texts. texts ≡ cron_words at.now) }
{
    let minute = Text::from_slice(alloc, &two(at.minute))?;
    let hour = Text::from_slice(alloc, &two(at.hour))?;
    let day = Text::from_slice(alloc, &two(at.day))?;
    let month = Text::from_slice(alloc, &two(at.month))?;
    let weekday = Text::from_slice(alloc, &two(at.weekday))?;
    Ok(Texts::new(vec![in alloc; minute, hour, day, month, weekday]?))
}

// Returns the last two decimal digits.
fn two(n: u8) -> [u8; 2]
    ensures { result ≡ two_digits n }
{
    let n = n as u16;
    [digit(n / 10), digit(n)]
}

// Returns the last four decimal digits.
fn four(n: u16) -> [u8; 4]
    ensures { result ≡ four_digits n }
{
    [digit(n / 100 / 10), digit(n / 100), digit(n / 10), digit(n)]
}

// Returns the last decimal digit.
fn digit(n: u16) -> u8
    ensures { result ≡ 48 + n % 10 }
{
    b'0' + (n % 10) as u8
}
