// What a turn's reports mean for the other bots, and for those who ask for changes.
ghost use Rattle.std.specs.Prelude.{◌≡◌, ◌++◌, OnOk};
ghost use Rattle.sharelink.specs.Shapes.{AreGood};
ghost use Rattle.watching.specs.Acts.{sent_by};
ghost use Rattle.watching.specs.Following.{LetsSend, after_sends};
ghost use Rattle.botrun.specs.Askers.{noted, proc_askers};

use crate::others::Others;
use crate::proc_asks::put_procs;
use administrators::{LogEntry, requests_in};
use botcore::{End, Note, Refusal, Report};
use bytetext::NoMemory;
use net::Log;
use sharelink::{LinkFault, Outgoing};
use std::alloc::Global;
use watching::Watcher;

impl Others {
    // Has `watcher` queue `packets` for the other bots, in order.
    pub(crate) fn send_all<W: Watcher>(
        &mut self,
        alloc: Global,
        packets: &[Outgoing],
        now: u64,
        watcher: &mut W,
    ) -> Result<(), NoMemory>
        requires good { AreGood packets.now }
        requires lets { LetsSend W.may (W.past watcher.old) packets.now }
        requires told { self.old.mail.account.told ≡ sent_by (W.past watcher.old) }
        ensures past { OnOk result (W.past watcher.new ≡ after_sends packets.now (W.past watcher.old)) }
        ensures told { OnOk result (self.new.mail.account.told ≡ sent_by (W.past watcher.new)) }
        ensures asks { OnOk result (self.new.asks ≡ self.old.asks) }
    {
        let mut rest = packets;
        while let Some((outgoing, behind)) = rest.split_first() {
            watcher.sends(alloc, self, outgoing, now)?;
            rest = behind;
        }
        Ok(())
    }

    // Has `watcher` queue the packets of a step for the other bots, in order, and notes the changes that the step asked
    // for. A leaf decides from the note of the link when to say hello.
    pub(crate) fn pass<R: AllocGlobal, W: Watcher>(
        &mut self,
        rt: &R,
        log: &mut Log,
        report: &Report,
        now: u64,
        watcher: &mut W,
    ) -> Result<(), NoMemory>
        requires good { AreGood report.now.packets }
        requires lets { LetsSend W.may (W.past watcher.old) report.now.packets }
        requires told { self.old.mail.account.told ≡ sent_by (W.past watcher.old) }
        ensures past { OnOk result (W.past watcher.new ≡ after_sends report.now.packets (W.past watcher.old)) }
        ensures told { OnOk result (self.new.mail.account.told ≡ sent_by (W.past watcher.new)) }
        ensures asks { OnOk result (self.new.asks.askers.items
            ≡ noted self.old.asks.asker report.now.note (self.old.asks.askers.items ++ proc_askers report.now)) }
        ensures asker { OnOk result (self.new.asks.asker ≡ self.old.asks.asker) }
    {
        self.send_all(rt.alloc(), report.packets.as_slice(), now, watcher)?;
        let count = self.asks.len();
        put_procs(&mut self.asks, rt.alloc(), report)?;
        if self.asks.len() > count {
            self.mail.links.ask();
        }
        log_layout(log, report.end, now);
        let Some(Note::Link(note)) = &report.note else {
            return Ok(());
        };
        // Whether more changes wait than are out.
        let more = self.asks.len() > requests_in(report.packets.as_slice());
        self.mail.links.note(note, more);
        self.asks.note(note)
    }
}

// Logs that a leaf's hello is refused since its journal has another layout.
fn log_layout(log: &mut Log, end: End, now: u64) {
    match end {
        End::Refused(Refusal::Link(LinkFault::OtherLayout)) => log.note(
            now,
            &LogEntry::OtherLayout,
        ),
        End::Refused(_) | End::Done | End::NoMemory => {}
    }
}
