// The watcher of a program that nobody watches.
ghost use Rattle.std.specs.Prelude.{◌≡◌, ◌∷◌, [], List};
ghost use Rattle.std.specs.Borrow.{ftrue};
ghost use Rattle.watching.specs.Acts.{Act, Hears};

use crate::mailbox::Mailbox;
use crate::watcher::Watcher;
use botcore::{Bot, BotEvent, Report};
use bytetext::NoMemory;
use disks::Disk;
use ircline::Line;
use sharelink::Outgoing;
use sharewire::Packet;
use std::alloc::Global;
use std::marker::Model;

/// A watcher that allows every act and does nothing.
///
/// Only contracts see the acts. At run time it is empty, so it allocates nothing.
#[derive(Drop)]
pub struct NoWatcher {
    pub ghost acts: { List Act },
}

impl Model for NoWatcher {
    ghost also_owns = { λ _. ftrue };
}

impl NoWatcher {
    /// Creates a watcher that was told nothing yet.
    pub fn new() -> NoWatcher
        ensures { result.acts ≡ [] }
    {
        NoWatcher {}
    }

    /// Notes that the process has these packets, from wherever it took them.
    pub fn note_heard(&mut self, packets: &Vec<Packet>)
        ensures { self.new.acts ≡ Hears packets.now.items ∷ self.old.acts }
    {
        *self = self.after(packets, packets, packets);
    }

    // The watcher after one more act, which is about `_first`, `_second` and `_third`.
    fn after<A, B, C>(&self, _first: &A, _second: &B, _third: &C) -> NoWatcher
        ghost act: { Act }
        ensures { result.acts ≡ act ∷ self.now.acts }
    {
        NoWatcher {}
    }
}

impl Watcher for NoWatcher {
    ghost past = { λ watcher. watcher.acts };

    ghost may = { λ _ _. Unit {0} };

    fn opens<D: Disk>(&mut self, first: &D, second: &D) {
        *self = self.after(first, second, second);
    }

    fn creates<D: Disk>(&mut self, first: &D, second: &D, last: u32) {
        *self = self.after(first, second, &last);
    }

    fn began<D: Disk>(&mut self, bot: &Bot<D>) {
        *self = self.after(bot, bot, bot);
    }

    fn tells<D: Disk>(&mut self, bot: &Bot<D>, event: &BotEvent) {
        *self = self.after(bot, event, event);
    }

    fn tells_line<D: Disk>(&mut self, bot: &Bot<D>, line: &Line) {
        *self = self.after(bot, line, line);
    }

    fn made<D: Disk>(&mut self, report: &Report, bot: &Bot<D>) {
        *self = self.after(report, bot, report);
    }

    fn forgets<D: Disk>(&mut self, bot: &Bot<D>) {
        *self = self.after(bot, bot, bot);
    }

    fn hears<M: Mailbox>(
        &mut self,
        alloc: Global,
        mailbox: &mut M,
    ) -> Result<Vec<Packet>, NoMemory> {
        let packets = mailbox.take_packets(alloc)?;
        *self = self.after(&packets, &packets, &packets);
        Ok(packets)
    }

    fn sends<M: Mailbox>(
        &mut self,
        alloc: Global,
        mailbox: &mut M,
        outgoing: &Outgoing,
        now: u64,
    ) -> Result<(), NoMemory> {
        *self = self.after(outgoing, outgoing, outgoing);
        mailbox.tell(alloc, outgoing, now)
    }

    fn waits(&mut self) {
        *self = self.after(&(), &(), &());
    }
}
