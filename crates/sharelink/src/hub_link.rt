// The hub's end of the link.
use crate::MAX_ASKS;
use crate::accepted::AcceptedChange;
use crate::answer::{Answer, Outgoing};
use crate::error::{LinkError, LinkFault};
use crate::hub_accepting::accept;
use crate::hub_record::HubRecord;
use crate::hub_state::HubState;
use crate::kept::Kept;
use crate::note::LinkNote;
use crate::texts::{Route, text_by, text_fault};
use bytejournal::{Disks, Returned};
use bytetext::{Failure, TryCopy, refuse};
use disks::Disk;
use std::alloc::Global;
use std::collections::VecDeque;
use std::marker::Model;
use userfile::{Change, Userfile, shape};

// The hub's end: what its journal keeps, and the waiting asks, with room for the most that may wait.
pub(crate) struct HubLink<D: Disk> {
    pub(crate) kept: Kept<HubState, D>,
    waiting: VecDeque<Change>,
}

// By hand, so that this is proved once, and not in each crate in which a hub ends.
impl<D: Disk> Drop for HubLink<D> {
    fn drop(self) {
        let HubLink {
            kept: _,
            waiting: _,
        } = self;
    }
}

impl<D: Disk> Model for HubLink<D> {
    ghost use Rattle.sharelink.specs.HubLinks.{HubEnd};

    ghost Value = { HubEnd };

    ghost use Rattle.sharelink.specs.HubLinks.{hub_end};

    ghost view = { λ h. hub_end h.kept h.waiting.items };

    ghost use Rattle.std.specs.Prelude.{◌≤◌};
    ghost use Rattle.std.specs.VecDeque.{deque_capacity};
    ghost use Rattle.sharelink.specs.declared.TheConstants.{MAX_ASKS};

    // There is room for the most asks that may wait.
    ghost invariant = { λ h. MAX_ASKS ≤ deque_capacity h.waiting };
}

impl<D: Disk> HubLink<D> {
    ghost use Rattle.std.specs.Prelude.{◌≡◌, ◌≢◌, ◌≤◌, ◌+◌, [], false, length, Err, IfOk, OnErr};
    ghost use Rattle.bytetext.specs.declared.failure.Failure.TheVariants.{NoMemory as no_memory};
    ghost use Rattle.disks.specs.State.{IsSettled};
    ghost use Rattle.protocol.specs.Bots.{unless_down};
    ghost use Rattle.protocol.specs.Numbers.{item_at};
    ghost use Rattle.protocol.specs.HubRules.{version_of, last_request, kept_in, hub_asked, text_told, hub_pumped, hub_pumped_up, hub_compacted, hub_restarted, hub_folded};
    ghost use Rattle.protocol.specs.Network.{new_hub};
    ghost use Rattle.protocol.specs.Journals.{hub_meaning};
    ghost use Rattle.sharelink.specs.declared.TheConstants.{MAX_LEAVES};
    ghost use Rattle.sharelink.specs.Texts.{Sends};
    ghost use Rattle.sharelink.specs.Shapes.{GoOut};
    ghost use Rattle.botjournal.specs.Ledger.{AreStill};
    ghost use Rattle.sharelink.specs.Kept.{MayLeave};
    ghost use Rattle.sharelink.specs.StateOpening.{AreCurrent, KeepsGates, device_after};
    ghost use Rattle.sharelink.specs.StateEnds.{Creates, Opens, OpensAtEachMoment};
    ghost use Rattle.sharelink.specs.HubLinks.{Calls, CallsRestart, RenewsHub, with_oldest};

    // See `BotLink::create`: the hub of `leaves` leaves.
    pub(crate) fn create(
        alloc: Global,
        first: D,
        second: D,
        leaves: u16,
    ) -> Result<HubLink<D>, Returned<D>>
        requires first_settled { IsSettled (D.state first) }
        requires second_settled { IsSettled (D.state second) }
        requires few { leaves ≤ MAX_LEAVES }
        ensures row { Creates D.state first second 0 leaves [] (new_hub leaves).kept result }
    {
        let Ok(waiting) = VecDeque::with_capacity(alloc, MAX_ASKS) else {
            return Err(Returned {
                error: Failure::NoMemory,
                disks: Disks { first, second },
            });
        };
        match Kept::create(alloc, first, second, leaves, 0) {
            Ok(kept) => Ok(HubLink { kept, waiting }),
            Err(returned) => Err(returned),
        }
    }

    // See `BotLink::open`. `NotAJournal` also for a journal with a reply to a leaf above `leaves`, with records that no
    // userfile holds, or with an entry that no hub writes there.
    pub(crate) fn open(
        alloc: Global,
        first: D,
        second: D,
        leaves: u16,
    ) -> Result<HubLink<D>, Returned<D>>
        requires first_settled { IsSettled (D.state first) }
        requires second_settled { IsSettled (D.state second) }
        requires few { leaves ≤ MAX_LEAVES }
        ensures row { Opens D.state first second 0 leaves [] (hub_meaning leaves) RenewsHub result }
        // Nothing happened to disks that have the present layout.
        ensures still { AreCurrent D.state first second → IfOk result (λ link. AreStill (D.state first) (D.state second) link.device) }
        // At each moment of the call a crash leaves what the disks meant, or that rewritten.
        ensures any_moment { OpensAtEachMoment D.state first second (hub_meaning leaves) RenewsHub result }
        ensures gates { KeepsGates D.state first second (device_after D.state (λ link. link.device) result) }
    {
        let Ok(waiting) = VecDeque::with_capacity(alloc, MAX_ASKS) else {
            return Err(Returned {
                error: Failure::NoMemory,
                disks: Disks { first, second },
            });
        };
        match Kept::open(alloc, first, second, leaves) {
            Ok(kept) => Ok(HubLink { kept, waiting }),
            Err(returned) => Err(returned),
        }
    }

    // See `BotLink::version`: how many changes the hub ever accepted.
    pub(crate) fn version(&self) -> u32
        ensures { result ≡ version_of self.now.bot.kept }
    {
        self.kept.state().version()
    }

    // See `BotLink::userfile`.
    pub(crate) fn userfile(&self) -> &Userfile
        ensures { result.now ≡ self.now.bot.kept.records }
    {
        self.kept.state().userfile()
    }

    // See `BotLink::accepted`.
    pub(crate) fn accepted(&self) -> &[AcceptedChange]
        ensures { result.now ≡ self.now.bot.kept.tail }
    {
        self.kept.state().tail()
    }

    // See `BotLink::last_reply`.
    pub(crate) fn last_reply(&self, leaf: u16) -> u32
        ensures { result ≡ last_request (kept_in (item_at self.now.bot.kept.replies leaf)) }
    {
        match self.kept.state().replies_to(leaf) {
            Some(replies) => replies.last_request(),
            None => 0,
        }
    }

    // See `BotLink::is_down`.
    pub(crate) fn is_down(&self) -> bool
        ensures { result ≡ self.now.bot.down }
    {
        self.kept.is_down()
    }

    // See `BotLink::ask_count`.
    pub(crate) fn ask_count(&self) -> usize
        ensures { result ≡ length self.now.bot.loose }
    {
        self.waiting.len()
    }

    // See `BotLink::keep_asks`.
    pub(crate) fn keep_asks(&mut self, count: usize)
        ensures { self.new ≡ with_oldest self.old count }
    {
        self.waiting.truncate(count);
    }

    // See `BotLink::ask`.
    pub(crate) fn ask(&mut self, alloc: Global, change: Change) -> Result<Answer, LinkError>
        ensures row { Calls self.old (λ how. hub_asked self.old.bot change) result self.new }
        ensures quiet { self.new.device ≡ self.old.device }
        ensures stays { OnErr result (self.new ≡ self.old) }
        ensures packets { GoOut 0 result }
        ensures memory { result ≢ Err no_memory }
    {
        if self.kept.is_down() {
            return Err(Failure::Refused(LinkFault::Down));
        }
        if let Some(fault) = shape(&change) {
            return Err(Failure::Refused(LinkFault::BadChange(fault)));
        }
        if self.waiting.len() >= MAX_ASKS {
            return Err(Failure::Refused(LinkFault::AsksFull));
        }
        self.waiting.push_back_reserved(change);
        Ok(Answer::only(alloc, LinkNote::Queued))
    }

    // See `BotLink::pump`. If `NumbersSpent` or `JournalFault` comes, the ask still waits. `Idle` and `Refused` allocate
    // nothing.
    pub(crate) fn pump(&mut self, alloc: Global) -> Result<Answer, LinkError>
        ensures row { Calls self.old (λ how. hub_pumped self.old.leaves how self.old.bot) result self.new }
        ensures packets { GoOut (MAX_LEAVES + 1) result }
    {
        if self.kept.is_down() {
            return Err(Failure::Refused(LinkFault::Down));
        }
        self.pump_oldest(alloc)
    }

    fn pump_oldest(&mut self, alloc: Global) -> Result<Answer, LinkError>
        requires up { self.old.bot.down ≡ false }
        ensures row { Calls self.old (λ how. hub_pumped_up self.old.leaves how self.old.bot self.old.bot.loose) result self.new }
        ensures packets { GoOut (MAX_LEAVES + 1) result }
    {
        let Some(change) = self.waiting.front() else {
            return Ok(Answer::only(alloc, LinkNote::Idle));
        };
        if let Some(fault) = self.kept.state().userfile().refusal_of(change) {
            let _ = self.waiting.pop_front();
            return Ok(Answer::only(alloc, LinkNote::Refused(fault)));
        }
        match accept(alloc, &mut self.kept, 0, 0, change) {
            Ok(answer) => {
                let _ = self.waiting.pop_front();
                Ok(answer)
            }
            Err(error) => Err(error),
        }
    }

    // See `BotLink::send_text`: the packet goes to the leaf `to` itself.
    pub(crate) fn send_text(
        &self,
        alloc: Global,
        to: u16,
        text: &[u8],
        sent: usize,
    ) -> Result<Outgoing, LinkError>
        ensures row { Sends (unless_down self.now.bot (text_told self.now.bot self.now.leaves 0 to to text.now)) sent result }
    {
        if self.kept.is_down() {
            return Err(Failure::Refused(LinkFault::Down));
        }
        refuse(text_fault(self.kept.who(), 0, to, text, sent))?;
        let route = Route {
            next: to,
            from: 0,
            to,
        };
        Ok(text_by(alloc, route, text)?)
    }

    // See `BotLink::compact`. From then on, a leaf whose version is below the hub's gets all records.
    pub(crate) fn compact(&mut self, alloc: Global) -> Result<Answer, LinkError>
        ensures row { Calls self.old (λ how. hub_compacted self.old.leaves how self.old.bot) result self.new }
        ensures packets { GoOut 0 result }
    {
        if self.kept.is_down() {
            return Err(Failure::Refused(LinkFault::Down));
        }
        if self.kept.state().generation() == u32::MAX {
            return Err(Failure::Refused(LinkFault::NumbersSpent));
        }
        match self.kept.journal(alloc, HubRecord::rebase()) {
            Ok(()) => Ok(Answer::only(alloc, LinkNote::Compacted)),
            Err(error) => Err(error),
        }
    }

    // See `BotLink::restart`.
    pub(crate) fn restart(&mut self, alloc: Global) -> Result<Answer, LinkError>
        ensures row { CallsRestart self.old (λ how. hub_restarted self.old.leaves how self.old.bot) result self.new }
        ensures packets { GoOut 0 result }
    {
        match self.kept.restart(alloc) {
            Ok(()) => {
                self.waiting.clear();
                Ok(Answer::only(alloc, LinkNote::Restarted(self.kept.state().version())))
            }
            Err(error) => Err(error),
        }
    }

    // See `BotLink::know_disks`.
    pub(crate) fn know_disks(&self)
        // What is the hub's, with the record in doubt or without it.
        ensures left { MayLeave (hub_meaning self.now.leaves) hub_folded self.now.bot.kept self.now.bot.doubt self.now.device.first self.now.device.second }
    {
        self.kept.know_disks();
    }

    // See `BotLink::into_disks`.
    pub(crate) fn into_disks(self) -> Disks<D>
        // Whatever a crash leaves on them is the hub's, with the record in doubt or without it.
        ensures left { MayLeave (hub_meaning self.leaves) hub_folded self.bot.kept self.bot.doubt (D.state result.first) (D.state result.second) }
    {
        let HubLink { kept, waiting: _ } = self;
        kept.into_disks()
    }
}
