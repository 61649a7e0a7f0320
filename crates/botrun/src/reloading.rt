// The configuration file, read again while the bot runs.
ghost use Rattle.std.specs.Prelude.{◌≡◌, ◌<◌, None, IfSome, OnErr, OnOk};
ghost use Rattle.bytetext.specs.declared.moment.TheConstants.{MOMENTS_END};
ghost use Rattle.watching.specs.Following.{IsWatched, StepsQuietly};
ghost use Rattle.upkeep.specs.Reloading.{changed_word};

use crate::rebinding::swap_binds;
use botcore::Bot;
use disks::FileDisk;
use net::Log;
use procs::{ProcStore, Promise, Run};
use serverlink::IrcConnection;
use settings::Settings;
use std::alloc::Global;
use std::fs::File;
use std::net::Net;
use std::rt::Files;
use upkeep::{
    NoReload, Reloading, RunError, account_of, other_log, reload_answer, settings_in, take_uplink,
    use_log,
};
use watching::Watcher;

// Reads the configuration file again, and takes all of it or nothing. Returns the answer to the admin who asks for it.
pub(crate) fn reload<R, P: Promise, B: Run, W: Watcher>(
    rt: &R,
    log: &mut Log,
    bot: &mut Bot<FileDisk>,
    uplink: &mut IrcConnection,
    reloading: &mut Reloading,
    store: &ProcStore<P, B>,
    settings: &Settings,
    now: u64,
    watcher: &mut W,
) -> Result<Vec<u8>, RunError>
where
    R: AllocGlobal + Net + Files<File = File> + Print,
    requires moment { now < MOMENTS_END }
    requires watched { IsWatched P.promised store.now W.may (W.past watcher.old) bot.old }
    ensures { StepsQuietly P.promised store.now W.may (W.past watcher.old) (W.past watcher.new) bot.new }
{
    match take_file(
        rt, log, bot, uplink, reloading, store, settings, now, watcher,
    ) {
        Ok(()) => Ok(Vec::from_slice(rt.alloc(), b"reloaded\n")?),
        Err(why) => reload_answer(rt.alloc(), reloading.file.as_str(), why),
    }
}

// Reads the file and takes all of it; on an error nothing. What can be refused comes first.
fn take_file<R, P: Promise, B: Run, W: Watcher>(
    rt: &R,
    log: &mut Log,
    bot: &mut Bot<FileDisk>,
    uplink: &mut IrcConnection,
    reloading: &mut Reloading,
    store: &ProcStore<P, B>,
    settings: &Settings,
    now: u64,
    watcher: &mut W,
) -> Result<(), NoReload>
where
    R: AllocGlobal + Net + Files<File = File> + Print,
    requires moment { now < MOMENTS_END }
    requires watched { IsWatched P.promised store.now W.may (W.past watcher.old) bot.old }
    ensures quietly { StepsQuietly P.promised store.now W.may (W.past watcher.old) (W.past watcher.new) bot.new }
    // A refused reload leaves the settings as they are.
    ensures nothing { OnErr result (reloading.new ≡ reloading.old) }
    // Another one counts only if it has the same words that can't change.
    ensures fixed { OnOk result (IfSome reloading.new.next (λ new. changed_word settings.now new ≡ None)) }
{
    if reloading.next.is_some() {
        return Err(NoReload::Twice);
    }
    let new = settings_in(rt, store, settings, reloading.file.as_str())?;
    let other = other_log(rt, settings, &new)?;
    let account = account_of(rt, &new)?;
    rebind(rt.alloc(), bot, store, settings, &new, watcher)?;
    use_log(rt, log, other, &new);
    uplink.account = account;
    take_uplink(rt, log, uplink, settings, &new, now)?;
    reloading.next = Some(new);
    Ok(())
}

// Swaps the binds of `old` for those of `new`. If the table of binds has no room for one, brings those of `old` back.
fn rebind<P: Promise, B: Run, W: Watcher>(
    alloc: Global,
    bot: &mut Bot<FileDisk>,
    store: &ProcStore<P, B>,
    old: &Settings,
    new: &Settings,
    watcher: &mut W,
) -> Result<(), RunError>
    requires watched { IsWatched P.promised store.now W.may (W.past watcher.old) bot.old }
    ensures { StepsQuietly P.promised store.now W.may (W.past watcher.old) (W.past watcher.new) bot.new }
{
    let swapped = swap_binds(alloc, bot, store, old, new, watcher);
    if let Err(RunError::Bind { .. }) = swapped {
        let _back = swap_binds(alloc, bot, store, new, old, watcher);
    }
    swapped
}
