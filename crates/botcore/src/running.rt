// What happens in the seconds of a reading.
ghost use Rattle.std.specs.Prelude.{◌≡◌, ◌<◌, map, IfOk, OnOk};
ghost use Rattle.bytetext.specs.declared.moment.TheConstants.{MOMENTS_END};
ghost use Rattle.bottimers.specs.Held.{IsAbove, calls_at, passed};
ghost use Rattle.botcore.specs.Happenings.{minute_of, second_of, seconds_of, passed_all};
ghost use Rattle.procs.specs.declared.trigger.Trigger.TheVariants.{Due};
ghost use Rattle.botcore.specs.Shown.{AreOccasions};
ghost use Rattle.botcore.specs.Rising.{Rise};

use crate::config::Config;
use bottimers::{Timers, Zone, civil};
use bytetext::NoMemory;
use procs::Trigger;
use std::alloc::Global;

// Advances the timers through these seconds, and returns what happens in them.
pub(crate) fn run_seconds(
    alloc: Global,
    timers: &mut Timers,
    config: &Config,
    seconds: &[u64],
) -> Result<Vec<Trigger>, NoMemory>
    requires rise { Rise timers.old.last seconds.now }
    ensures occasions { IfOk result (λ occasions. AreOccasions (seconds_of config.now.zone timers.old seconds.now) occasions.items) }
    ensures passed { OnOk result (timers.new ≡ passed_all timers.old seconds.now) }
{
    let mut occasions = Vec::new(alloc);
    let mut rest = seconds;
    while let Some((second, behind)) = rest.split_first() {
        let mut more = run_second(alloc, timers, config, *second)?;
        occasions.append(&mut more)?;
        rest = behind;
    }
    Ok(occasions)
}

// Advances the timers through a second, and returns what happens in it.
fn run_second(
    alloc: Global,
    timers: &mut Timers,
    config: &Config,
    second: u64,
) -> Result<Vec<Trigger>, NoMemory>
    requires above { IsAbove timers.old.last second }
    requires moment { second < MOMENTS_END }
    ensures occasions { IfOk result (λ occasions. AreOccasions (second_of config.now.zone second timers.old) occasions.items) }
    ensures passed { OnOk result (timers.new ≡ passed second timers.old) }
{
    let mut occasions = due_of(alloc, timers, second)?;
    let mut more = minute_of(alloc, &config.zone, second)?;
    occasions.append(&mut more)?;
    Ok(occasions)
}

// Returns the timers that are due at a second.
fn due_of(alloc: Global, timers: &mut Timers, second: u64) -> Result<Vec<Trigger>, NoMemory>
    requires above { IsAbove timers.old.last second }
    ensures occasions { IfOk result (λ occasions. occasions.items ≡ map (λ c. Due c.proc c.text) (calls_at second timers.old)) }
    ensures passed { OnOk result (timers.new ≡ passed second timers.old) }
{
    let calls = timers.due(alloc, second)?;
    Ok(
        calls
            .into_iter()
            .map(|call| Trigger::Due {
                proc: call.proc,
                text: call.text,
            })
            .collect(alloc)?,
    )
}

// Returns the minute that begins at a second, if one does.
fn minute_of(alloc: Global, zone: &Zone, second: u64) -> Result<Vec<Trigger>, NoMemory>
    requires moment { second < MOMENTS_END }
    ensures { IfOk result (λ occasions. AreOccasions (minute_of zone.now second) occasions.items) }
{
    let mut occasions = Vec::new(alloc);
    if second % 60 == 0 {
        let minute = civil(second, zone).unwrap();
        occasions.push(Trigger::Time(minute))?;
        occasions.push(Trigger::Cron(minute))?;
    }
    Ok(occasions)
}
