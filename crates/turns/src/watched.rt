// What a watcher is told of: steps, and packets that are taken.
ghost use Rattle.std.specs.Prelude.{◌≡◌, ◌∷◌, IfOk};
ghost use Rattle.std.specs.List.{AllByRecursion};
ghost use Rattle.botcore.specs.declared.event.BotEvent.TheVariants.{Line as line_event};
ghost use Rattle.botcore.specs.Steps.{IsGoodEvent, TakesStep};
ghost use Rattle.sharelink.specs.Shapes.{AreGood, HasGoodRecords};
ghost use Rattle.watching.specs.Acts.{Told as Tells, Made, IsHeard, MayStep, MayTake, sent_by};
ghost use Rattle.watching.specs.Following.{Follows, IsWatched, SaysNothing};

use botcore::{Bot, BotEvent, Report};
use bytetext::NoMemory;
use disks::Disk;
use ircline::Line;
use procs::{ProcStore, Promise, Run};
use sharewire::Packet;
use std::alloc::Global;
use watching::{Mailbox, Watcher};

/// Makes one step of `bot`, as [`Bot::step`] does for `event` with the procs of `store`, and tells `watcher` before it
/// and after it. The event must not be a restart: a process opens its bot again instead. A packet must be one that the
/// watcher took for the process.
pub fn watched_step<P: Promise, D: Disk, B: Run, W: Watcher>(
    alloc: Global,
    bot: &mut Bot<D>,
    store: &ProcStore<P, B>,
    event: BotEvent,
    watcher: &mut W,
) -> Report
    requires good { IsGoodEvent event }
    requires takes { MayTake (W.past watcher.old) event }
    requires watched { IsWatched P.promised store.now W.may (W.past watcher.old) bot.old }
    ensures takes { TakesStep P.promised store.now bot.old event result bot.new }
    ensures good { AreGood result.packets }
    ensures past { W.past watcher.new ≡ Made result bot.new ∷ Tells bot.old event ∷ W.past watcher.old }
    ensures follows { Follows (MayStep P.promised store.now) (W.past watcher.old) (W.past watcher.new) }
    ensures watched { IsWatched P.promised store.now W.may (W.past watcher.new) bot.new }
{
    watcher.tells(bot, &event);
    let report = bot.step(alloc, store, event);
    bot.know_disks();
    watcher.made(&report, bot);
    report
}

// The same for a line, which stays the caller's.
pub(crate) fn watched_line<P: Promise, D: Disk, B: Run, W: Watcher>(
    alloc: Global,
    bot: &mut Bot<D>,
    store: &ProcStore<P, B>,
    line: &Line,
    watcher: &mut W,
) -> Report
    requires watched { IsWatched P.promised store.now W.may (W.past watcher.old) bot.old }
    ensures takes { TakesStep P.promised store.now bot.old (line_event line.now) result bot.new }
    ensures good { AreGood result.packets }
    ensures past { W.past watcher.new ≡ Made result bot.new ∷ Tells bot.old (line_event line.now) ∷ W.past watcher.old }
    ensures follows { Follows (MayStep P.promised store.now) (W.past watcher.old) (W.past watcher.new) }
    ensures watched { IsWatched P.promised store.now W.may (W.past watcher.new) bot.new }
{
    watcher.tells_line(bot, line);
    let report = bot.take_line(alloc, store, line);
    bot.know_disks();
    watcher.made(&report, bot);
    report
}

/// Has `watcher` take the packets that wait in `mailbox` for `_bot`, which it watches over the procs of `_store`. Each of
/// them may be told to the bot from now on. The mailbox must have been told what the watcher was told of, and nothing
/// else.
///
/// # Errors
/// `NoMemory` if an allocation fails.
pub fn watched_packets<P: Promise, D: Disk, B: Run, M: Mailbox, W: Watcher>(
    alloc: Global,
    _bot: &Bot<D>,
    _store: &ProcStore<P, B>,
    mailbox: &mut M,
    watcher: &mut W,
) -> Result<Vec<Packet>, NoMemory>
    requires watched { IsWatched P.promised _store.now W.may (W.past watcher.old) _bot.now }
    requires told { M.told mailbox.old ≡ sent_by (W.past watcher.old) }
    ensures heard { IfOk result (λ packets. AllByRecursion (IsHeard (W.past watcher.new)) packets.items) }
    ensures good { IfOk result (λ packets. AllByRecursion HasGoodRecords packets.items) }
    ensures gives { IfOk result (λ packets. M.gives mailbox.old packets.items mailbox.new) }
    ensures follows { Follows (MayStep P.promised _store.now) (W.past watcher.old) (W.past watcher.new) }
    ensures watched { IsWatched P.promised _store.now W.may (W.past watcher.new) _bot.now }
    ensures quiet { SaysNothing (W.past watcher.old) (W.past watcher.new) }
    ensures told { M.told mailbox.new ≡ M.told mailbox.old }
{
    let packets = watcher.hears(alloc, mailbox)?;
    Ok(packets)
}
