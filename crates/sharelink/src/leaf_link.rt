// A leaf's end of the link.
use crate::MAX_ASKS;
use crate::answer::{Answer, Outgoing};
use crate::error::{LinkError, LinkFault};
use crate::fields::know_change;
use crate::held_snapshot::HeldSnapshot;
use crate::kept::Kept;
use crate::leaf_packets::{again_note, hello_and_requests, request_packet};
use crate::leaf_record::LeafRecord;
use crate::leaf_state::LeafState;
use crate::note::LinkNote;
use crate::parts::KeptParts;
use crate::texts::{Route, text_by, text_fault};
use bytejournal::{Disks, Returned};
use bytetext::{Failure, Seq, TryCopy, refuse};
use disks::Disk;
use std::alloc::Global;
use std::collections::VecDeque;
use std::marker::Model;
use userfile::{Change, Userfile, shape};

// A leaf's end: its userfile at a version, the waiting asks, with room for the most that may wait, the outstanding
// requests, and the journal.
pub(crate) struct LeafLink<D: Disk> {
    pub(crate) leaves: u16,
    pub(crate) kept: Kept<LeafState, D>,
    pub(crate) waiting: VecDeque<Change>,
    pub(crate) parts: Option<KeptParts>,
}

// By hand, so that this is proved once, and not in each crate in which a leaf ends.
impl<D: Disk> Drop for LeafLink<D> {
    fn drop(self) {
        let LeafLink {
            leaves: _,
            kept: _,
            waiting: _,
            parts: _,
        } = self;
    }
}

impl<D: Disk> Model for LeafLink<D> {
    ghost use Rattle.sharelink.specs.LeafLinks.{LeafEnd};

    ghost Value = { LeafEnd };

    ghost use Rattle.sharelink.specs.LeafLinks.{leaf_end, IsLink};

    ghost view = { λ l. leaf_end l.leaves l.kept (record { waiting = l.waiting.items; parts = l.parts }) };

    ghost use Rattle.std.specs.Prelude.{◌≤◌};
    ghost use Rattle.std.specs.VecDeque.{deque_capacity};
    ghost use Rattle.sharelink.specs.declared.TheConstants.{MAX_ASKS};

    // It is a leaf of the net, and has room for the most asks that may wait.
    ghost invariant = { λ l. IsLink l.leaves l.kept.who l.waiting.items × (MAX_ASKS ≤ deque_capacity l.waiting) };
}

impl<D: Disk> LeafLink<D> {
    ghost use Rattle.std.specs.Prelude.{◌≡◌, ◌≢◌, ◌<◌, ◌≤◌, ◌+◌, [], length, option_map, Err, IfOk, OnErr};
    ghost use Rattle.bytetext.specs.declared.failure.Failure.TheVariants.{NoMemory as no_memory};
    ghost use Rattle.disks.specs.State.{IsSettled};
    ghost use Rattle.botjournal.specs.declared.TheConstants.{WINDOW};
    ghost use Rattle.sharelink.specs.declared.TheConstants.{MAX_LEAVES};
    ghost use Rattle.protocol.specs.Journals.{leaf_meaning};
    ghost use Rattle.protocol.specs.LeafRules.{no_loose, leaf_folded};
    ghost use Rattle.sharelink.specs.BotLinks.{leaf_after};
    ghost use Rattle.sharelink.specs.Telling.{held_of};
    ghost use Rattle.botjournal.specs.Ledger.{AreStill};
    ghost use Rattle.sharelink.specs.Kept.{MayLeave};
    ghost use Rattle.sharelink.specs.StateOpening.{AreCurrent, KeepsGates, device_after};
    ghost use Rattle.sharelink.specs.StateEnds.{Creates, Opens, OpensAtEachMoment};
    ghost use Rattle.sharelink.specs.Shapes.{GoOut};
    ghost use Rattle.sharelink.specs.LeafLinks.{Calls, CallsRestart, RenewsLeaf, asked, keeps_asks, pumped, sent_again_at, compacted, restarted, told};
    ghost use Rattle.sharelink.specs.Texts.{Sends};

    // See `BotLink::create_after`: the leaf `number`, from 1.
    pub(crate) fn create(
        alloc: Global,
        first: D,
        second: D,
        number: u16,
        leaves: u16,
        last: u32,
    ) -> Result<LeafLink<D>, Returned<D>>
        requires first_settled { IsSettled (D.state first) }
        requires second_settled { IsSettled (D.state second) }
        requires numbered { (0 < number) × (number ≤ leaves) }
        requires few { leaves ≤ MAX_LEAVES }
        ensures row { Creates D.state first second number leaves no_loose (leaf_after last).kept result }
    {
        let Ok(waiting) = VecDeque::with_capacity(alloc, MAX_ASKS) else {
            return Err(Returned {
                error: Failure::NoMemory,
                disks: Disks { first, second },
            });
        };
        match Kept::create(alloc, first, second, number, last) {
            Ok(kept) => Ok(LeafLink {
                leaves,
                kept,
                waiting,
                parts: None,
            }),
            Err(returned) => Err(returned),
        }
    }

    // See `BotLink::open`. A journal of an older layout is rewritten with the outstanding request, if it has one.
    pub(crate) fn open(
        alloc: Global,
        first: D,
        second: D,
        number: u16,
        leaves: u16,
    ) -> Result<LeafLink<D>, Returned<D>>
        requires first_settled { IsSettled (D.state first) }
        requires second_settled { IsSettled (D.state second) }
        requires numbered { (0 < number) × (number ≤ leaves) }
        requires few { leaves ≤ MAX_LEAVES }
        ensures row { Opens D.state first second number leaves no_loose (leaf_meaning number) RenewsLeaf result }
        // Nothing happened to disks that have the present layout.
        ensures still { AreCurrent D.state first second → IfOk result (λ link. AreStill (D.state first) (D.state second) link.device) }
        // At each moment of the call a crash leaves what the disks meant, or that rewritten.
        ensures any_moment { OpensAtEachMoment D.state first second (leaf_meaning number) RenewsLeaf result }
        ensures gates { KeepsGates D.state first second (device_after D.state (λ link. link.device) result) }
    {
        let Ok(waiting) = VecDeque::with_capacity(alloc, MAX_ASKS) else {
            return Err(Returned {
                error: Failure::NoMemory,
                disks: Disks { first, second },
            });
        };
        match Kept::open(alloc, first, second, number) {
            Ok(kept) => Ok(LeafLink {
                leaves,
                kept,
                waiting,
                parts: None,
            }),
            Err(returned) => Err(returned),
        }
    }

    // See `BotLink::version`: the number of the last change that was applied, or the version of the records that were
    // installed.
    pub(crate) fn version(&self) -> u32
        ensures { result ≡ self.now.bot.kept.version }
    {
        self.kept.state().version()
    }

    // See `BotLink::userfile`.
    pub(crate) fn userfile(&self) -> &Userfile
        ensures { result.now ≡ self.now.bot.kept.records }
    {
        self.kept.state().userfile()
    }

    // See `BotLink::last_request`.
    pub(crate) fn last_request(&self) -> u32
        ensures { result ≡ self.now.bot.kept.last }
    {
        self.kept.state().last_request()
    }

    // See `BotLink::held_parts`.
    pub(crate) fn held_parts(&self) -> Option<HeldSnapshot>
        ensures { result ≡ option_map held_of self.now.bot.loose.parts }
    {
        match &self.parts {
            Some(parts) => Some(parts.held()),
            None => None,
        }
    }

    // See `BotLink::is_down`.
    pub(crate) fn is_down(&self) -> bool
        ensures { result ≡ self.now.bot.down }
    {
        self.kept.is_down()
    }

    // See `BotLink::ask_count`.
    pub(crate) fn ask_count(&self) -> usize
        ensures { result ≡ length self.now.bot.loose.waiting }
    {
        self.waiting.len()
    }

    // See `BotLink::keep_asks`.
    pub(crate) fn keep_asks(&mut self, count: usize)
        ensures { self.new ≡ keeps_asks self.old count }
    {
        self.waiting.truncate(count);
    }

    // See `BotLink::ask`.
    pub(crate) fn ask(&mut self, alloc: Global, change: Change) -> Result<Answer, LinkError>
        ensures row { Calls self.old (asked self.old change) result self.new }
        ensures few { IfOk result (λ answer. answer.packets ≡ []) }
        // The call uses no disk, and an error leaves all as it was.
        ensures quiet { self.new.device ≡ self.old.device }
        ensures stays { OnErr result (self.new ≡ self.old) }
        ensures memory { result ≢ Err no_memory }
    {
        if self.kept.is_down() {
            return Err(Failure::Refused(LinkFault::Down));
        }
        if let Some(fault) = shape(&change) {
            return Err(Failure::Refused(LinkFault::BadChange(fault)));
        }
        if self.waiting.len() >= MAX_ASKS {
            return Err(Failure::Refused(LinkFault::AsksFull));
        }
        know_change(&change);
        self.waiting.push_back_reserved(change);
        Ok(Answer::only(alloc, LinkNote::Queued))
    }

    // See `BotLink::pump`. First a hello, with the layout of the journal and the leaf's version; then all outstanding
    // requests again, by rising number; then the oldest ask under the next number, if that is less than eight above the
    // lowest outstanding one. `Sent` has the highest number that is sent. `NumbersSpent` after request 4,294,967,295, if an
    // ask waits and no request is outstanding.
    pub(crate) fn pump(&mut self, alloc: Global) -> Result<Answer, LinkError>
        ensures row { Calls self.old (pumped self.old) result self.new }
        ensures few { GoOut (WINDOW + 1) result }
    {
        if self.kept.is_down() {
            return Err(Failure::Refused(LinkFault::Down));
        }
        if !self.kept.state().may_go_out() {
            if !self.waiting.is_empty() && self.kept.state().out().is_empty() {
                return Err(Failure::Refused(LinkFault::NumbersSpent));
            }
            return self.send_again(alloc);
        }
        let Some(change) = self.waiting.front() else {
            return self.send_again(alloc);
        };
        self.kept.know_state();
        let leaf = self.kept.who();
        let state = self.kept.state();
        let request = state.last_request() + 1;
        let mut packets = hello_and_requests(alloc, leaf, state.version(), state.out())?;
        packets.push(request_packet(alloc, leaf, request, change)?)?;
        let out = LeafRecord::out(change.copy(alloc)?);
        match self.kept.journal(alloc, out) {
            Ok(()) => {
                let _ = self.waiting.pop_front();
                Ok(Answer {
                    note: LinkNote::Sent(request),
                    packets: Seq::new(packets),
                })
            }
            Err(error) => Err(error),
        }
    }

    // Sends a hello, and the outstanding requests again.
    fn send_again(&self, alloc: Global) -> Result<Answer, LinkError>
        ensures row { Calls self.now (sent_again_at self.now) result self.now }
        ensures few { GoOut (WINDOW + 1) result }
    {
        self.kept.know_state();
        let state = self.kept.state();
        let packets = hello_and_requests(alloc, self.kept.who(), state.version(), state.out())?;
        Ok(Answer {
            note: again_note(state.out()),
            packets: Seq::new(packets),
        })
    }

    // See `BotLink::send_text`: the packet goes to the hub, which relays it.
    pub(crate) fn send_text(
        &self,
        alloc: Global,
        to: u16,
        text: &[u8],
        sent: usize,
    ) -> Result<Outgoing, LinkError>
        ensures row { Sends (told self.now to text.now) sent result }
    {
        if self.kept.is_down() {
            return Err(Failure::Refused(LinkFault::Down));
        }
        refuse(text_fault(self.leaves, self.kept.who(), to, text, sent))?;
        let route = Route {
            next: 0,
            from: self.kept.who(),
            to,
        };
        Ok(text_by(alloc, route, text)?)
    }

    // See `BotLink::compact`.
    pub(crate) fn compact(&mut self, alloc: Global) -> Result<Answer, LinkError>
        ensures row { Calls self.old (compacted self.old) result self.new }
        ensures few { IfOk result (λ answer. answer.packets ≡ []) }
    {
        if self.kept.is_down() {
            return Err(Failure::Refused(LinkFault::Down));
        }
        if self.kept.state().generation() == u32::MAX {
            return Err(Failure::Refused(LinkFault::NumbersSpent));
        }
        match self.kept.journal(alloc, LeafRecord::compact()) {
            Ok(()) => Ok(Answer::only(alloc, LinkNote::Compacted)),
            Err(error) => Err(error),
        }
    }

    // See `BotLink::restart`: the parts that were kept are lost too.
    pub(crate) fn restart(&mut self, alloc: Global) -> Result<Answer, LinkError>
        ensures row { CallsRestart self.old (restarted self.old) result self.new }
        ensures few { IfOk result (λ answer. answer.packets ≡ []) }
    {
        match self.kept.restart(alloc) {
            Ok(()) => {
                self.waiting.clear();
                self.parts = None;
                Ok(Answer::only(alloc, LinkNote::Restarted(self.kept.state().version())))
            }
            Err(error) => Err(error),
        }
    }

    // See `BotLink::know_disks`.
    pub(crate) fn know_disks(&self)
        // What is the leaf's, with the record in doubt or without it.
        ensures left { MayLeave (leaf_meaning self.now.number) leaf_folded self.now.bot.kept self.now.bot.doubt self.now.device.first self.now.device.second }
    {
        self.kept.know_disks();
    }

    // See `BotLink::into_disks`.
    pub(crate) fn into_disks(self) -> Disks<D>
        // Whatever a crash leaves on them is the leaf's, with the record in doubt or without it.
        ensures left { MayLeave (leaf_meaning self.number) leaf_folded self.bot.kept self.bot.doubt (D.state result.first) (D.state result.second) }
    {
        let LeafLink {
            leaves: _,
            kept,
            waiting: _,
            parts: _,
        } = self;
        kept.into_disks()
    }
}
