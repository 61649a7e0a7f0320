// Who is told what a process does with its bot.
ghost use Rattle.std.specs.Prelude.{◌≡◌, ◌∷◌, List, IfOk, OnOk, OnErr};
ghost use Rattle.std.specs.List.{AllByRecursion};
ghost use Rattle.sharewire.specs.declared.packet.Packet.{Packet as Arrived};
ghost use Rattle.sharelink.specs.Shapes.{HasGoodRecords};
ghost use Rattle.botcore.specs.declared.event.BotEvent.TheVariants.{Line as line_event};
ghost use Rattle.watching.specs.Acts.{Act, Opens, Creates, Began, Told, Made, Forgets, Hears, Sends, Waits, sent_by};

use crate::mailbox::Mailbox;
use botcore::{Bot, BotEvent, Report};
use bytetext::NoMemory;
use disks::Disk;
use ircline::Line;
use sharelink::Outgoing;
use sharewire::Packet;
use std::alloc::Global;

/// Is told what a process does with its bot.
pub trait Watcher {
    /// What the watcher was told, the newest act first.
    ghost past: { Self → List Act };

    /// Which acts the watcher allows after a past.
    ghost may: { List Act → Act → Type 0 };

    /// The process is about to open its bot from the disks `first` and `second`.
    fn opens<D: Disk>(&mut self, first: &D, second: &D)
        requires { may (past self.old) (Opens (D.state first.now).seen (D.state second.now).seen) }
        ensures { past self.new ≡ Opens (D.state first.now).seen (D.state second.now).seen ∷ past self.old };

    /// The process is about to create its bot on the disks `first` and `second`. If the bot is a leaf, its requests are
    /// numbered above `last`.
    fn creates<D: Disk>(&mut self, first: &D, second: &D, last: u32)
        requires { may (past self.old) (Creates (D.state first.now).seen (D.state second.now).seen last) }
        ensures { past self.new ≡ Creates (D.state first.now).seen (D.state second.now).seen last ∷ past self.old };

    /// The process has opened or created its bot, which is `bot`.
    fn began<D: Disk>(&mut self, bot: &Bot<D>)
        requires { may (past self.old) (Began bot.now) }
        ensures { past self.new ≡ Began bot.now ∷ past self.old };

    /// `bot` is about to make a step of `event`.
    fn tells<D: Disk>(&mut self, bot: &Bot<D>, event: &BotEvent)
        requires { may (past self.old) (Told bot.now event.now) }
        ensures { past self.new ≡ Told bot.now event.now ∷ past self.old };

    /// `bot` is about to make the step of `line`, which stays the caller's.
    fn tells_line<D: Disk>(&mut self, bot: &Bot<D>, line: &Line)
        requires { may (past self.old) (Told bot.now (line_event line.now)) }
        ensures { past self.new ≡ Told bot.now (line_event line.now) ∷ past self.old };

    /// The bot has made its step. It reported `report`, and is now `bot`.
    fn made<D: Disk>(&mut self, report: &Report, bot: &Bot<D>)
        requires { may (past self.old) (Made report.now bot.now) }
        ensures { past self.new ≡ Made report.now bot.now ∷ past self.old };

    /// The process is about to forget the journal of `bot`, to begin again without it.
    fn forgets<D: Disk>(&mut self, bot: &Bot<D>)
        requires { may (past self.old) (Forgets bot.now) }
        ensures { past self.new ≡ Forgets bot.now ∷ past self.old };

    /// Takes for the process the packets that wait in `mailbox`, and returns them. The mailbox must have been told what the
    /// watcher was told of, and nothing else.
    ///
    /// # Errors
    /// `NoMemory` if an allocation fails.
    fn hears<M: Mailbox>(&mut self, alloc: Global, mailbox: &mut M) -> Result<Vec<Packet>, NoMemory>
        requires may { (packets : List Arrived) → may (past self.old) (Hears packets) }
        requires told { M.told mailbox.old ≡ sent_by (past self.old) }
        ensures past { IfOk result (λ packets. past self.new ≡ Hears packets.items ∷ past self.old) }
        ensures same { OnErr result (past self.new ≡ past self.old) }
        ensures good { IfOk result (λ packets. AllByRecursion HasGoodRecords packets.items) }
        ensures gives { IfOk result (λ packets. M.gives mailbox.old packets.items mailbox.new) }
        ensures told { M.told mailbox.new ≡ M.told mailbox.old };

    /// Queues the packet of `outgoing` in `mailbox` for the process, at second `now`. The mailbox must have been told what
    /// the watcher was told of, and nothing else.
    ///
    /// # Errors
    /// `NoMemory` if an allocation fails.
    fn sends<M: Mailbox>(
        &mut self,
        alloc: Global,
        mailbox: &mut M,
        outgoing: &Outgoing,
        now: u64,
    ) -> Result<(), NoMemory>
        requires may { may (past self.old) (Sends outgoing.now) }
        requires good { HasGoodRecords outgoing.now.packet }
        requires told { M.told mailbox.old ≡ sent_by (past self.old) }
        ensures past { past self.new ≡ Sends outgoing.now ∷ past self.old }
        ensures posts { OnOk result (M.posts outgoing.now mailbox.old mailbox.new) }
        ensures told { OnOk result (M.told mailbox.new ≡ outgoing.now ∷ M.told mailbox.old) };

    /// The process is about to wait until there may be something to do.
    fn waits(&mut self)
        requires { may (past self.old) Waits }
        ensures { past self.new ≡ Waits ∷ past self.old };
}
