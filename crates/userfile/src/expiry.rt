// When a ban ends.
ghost use Rattle.std.specs.Prelude.{◌≡◌, ◌<◌};
ghost use Rattle.userfile.specs.Persons.{expires_at};

use bytetext::MOMENTS_END;

/// Returns the expiry of a ban that is made at `now` for `minutes` minutes, or 0 if `minutes` is 0: such a ban never
/// ends. Moments are seconds since 1970-01-01 UTC; `now` is before the year 3000.
pub fn expires_at(now: u64, minutes: u32) -> u64
    requires { now < MOMENTS_END }
    ensures { result ≡ expires_at now minutes }
{
    if minutes == 0 {
        0
    } else {
        now + 60 * u64::from(minutes)
    }
}
