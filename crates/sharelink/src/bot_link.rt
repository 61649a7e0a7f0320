// A bot's end of the link.
use crate::accepted::AcceptedChange;
use crate::answer::{Answer, Outgoing};
use crate::ends::Ends;
use crate::error::LinkError;
use crate::held_snapshot::HeldSnapshot;
use crate::hub_link::HubLink;
use crate::leaf_link::LeafLink;
use bytejournal::{Disks, Returned};
use disks::Disk;
use sharewire::Packet;
use std::alloc::Global;
use std::marker::Model;
use userfile::{Change, Userfile};

/// A bot's end of the link: the hub's if its number is 0, otherwise a leaf's.
pub struct BotLink<D: Disk> {
    end: Ends<D>,
}

// By hand, so that this is proved once, and not in each crate in which a bot's end of the link ends.
impl<D: Disk> Drop for BotLink<D> {
    fn drop(self) {
        let BotLink { end: _ } = self;
    }
}

impl<D: Disk> Model for BotLink<D> {
    ghost use Rattle.sharelink.specs.BotLinks.{BotEnd};

    ghost Value = { BotEnd };

    ghost use Rattle.sharelink.specs.BotEnds.{bot_of, IsNumbered};

    ghost view = { λ l. bot_of l.end };

    ghost invariant = { λ l. IsNumbered l.end };
}

impl<D: Disk> BotLink<D> {
    ghost use Rattle.std.specs.Prelude.{◌≡◌, ◌≢◌, ◌≤◌, ◌+◌, length, Err, IfOk};
    ghost use Rattle.bytetext.specs.declared.failure.Failure.TheVariants.{NoMemory as no_memory};
    ghost use Rattle.disks.specs.State.{IsSettled};
    ghost use Rattle.protocol.specs.Network.{Pump, Compact};
    ghost use Rattle.protocol.specs.Ends.{end_version, end_records, end_is_down, end_asks};
    ghost use Rattle.sharelink.specs.declared.TheConstants.{MAX_LEAVES};
    ghost use Rattle.sharelink.specs.Shapes.{HasGoodRecords, GoOut};
    ghost use Rattle.sharelink.specs.BotLinks.{Calls, CallsRestart, Asks, Tells, did, took, keeps_asks};
    ghost use Rattle.botjournal.specs.Ledger.{AreStill};
    ghost use Rattle.sharelink.specs.BotOpening.{Makes, MakesAfter, Opens, OpensAtEachMoment, AreCurrent, StaysBots};
    ghost use Rattle.sharelink.specs.BotLinks.{MayLeave};
    ghost use Rattle.sharelink.specs.Telling.{end_tail, end_last_request, end_last_reply, end_held};

    /// Creates the bot `number`, from 0 to `leaves`, on the disks `first` and `second`, before the first change. What
    /// the disks held is lost.
    ///
    /// # Errors
    /// Each hands the disks back. `NoMemory` if it cannot allocate room: nothing was written. `DiskFault` if a disk
    /// failed: what the disks hold is then unknown.
    pub fn create(
        alloc: Global,
        first: D,
        second: D,
        number: u16,
        leaves: u16,
    ) -> Result<BotLink<D>, Returned<D>>
        requires first_settled { IsSettled (D.state first) }
        requires second_settled { IsSettled (D.state second) }
        requires numbered { number ≤ leaves }
        requires few { leaves ≤ MAX_LEAVES }
        ensures row { Makes D.state number leaves first second result }
    {
        BotLink::create_after(alloc, first, second, number, leaves, 0)
    }

    /// Creates the bot `number` as [`create`](BotLink::create) does, but a leaf's first request has the number after
    /// `last`. So the hub does not take it for a repeated one of an earlier journal of that leaf. At the hub, `last`
    /// has no effect.
    ///
    /// # Errors
    /// Those of `create`.
    pub fn create_after(
        alloc: Global,
        first: D,
        second: D,
        number: u16,
        leaves: u16,
        last: u32,
    ) -> Result<BotLink<D>, Returned<D>>
        requires first_settled { IsSettled (D.state first) }
        requires second_settled { IsSettled (D.state second) }
        requires numbered { number ≤ leaves }
        requires few { leaves ≤ MAX_LEAVES }
        ensures row { MakesAfter D.state number leaves first second last result }
    {
        if number == 0 {
            return match HubLink::create(alloc, first, second, leaves) {
                Ok(hub) => Ok(BotLink {
                    end: Ends::Hub(hub),
                }),
                Err(returned) => Err(returned),
            };
        }
        match LeafLink::create(alloc, first, second, number, leaves, last) {
            Ok(leaf) => Ok(BotLink {
                end: Ends::Leaf(leaf),
            }),
            Err(returned) => Err(returned),
        }
    }

    /// Opens the bot `number`, in a net of `leaves` leaves, from its journal on the disks `first` and `second`. A
    /// journal of the present layout stays as it is. One of an older layout is rewritten before the call returns, as
    /// `compact` does it: the bot keeps its version and records.
    ///
    /// # Errors
    /// Each hands the disks back; they mean what they meant before, or that rewritten. `DiskFault` if a read failed.
    /// `NotAJournal` if the disks hold no journal, or one that no bot of this number writes in such a net. `NoMemory`
    /// if it cannot allocate room for what they hold, or for the asks. Then, only for an older layout:
    /// `GenerationsSpent` if there is no next generation, `NoMemory`, or `DiskFault` if a disk failed while the journal
    /// was rewritten.
    pub fn open(
        alloc: Global,
        first: D,
        second: D,
        number: u16,
        leaves: u16,
    ) -> Result<BotLink<D>, Returned<D>>
        requires first_settled { IsSettled (D.state first) }
        requires second_settled { IsSettled (D.state second) }
        requires numbered { number ≤ leaves }
        requires few { leaves ≤ MAX_LEAVES }
        ensures row { Opens D.state number leaves first second result }
        // Nothing happened to disks that have the present layout.
        ensures still { AreCurrent D.state first second → IfOk result (λ link. AreStill (D.state first) (D.state second) link.device) }
        // At each moment of the call a crash leaves what the disks meant, or that rewritten.
        ensures any_moment { OpensAtEachMoment D.state number leaves first second result }
        // If the disks hold a journal of this bot, what a crash leaves at each moment is a journal of this bot.
        ensures bots { StaysBots D.state number leaves first second result }
    {
        if number == 0 {
            return match HubLink::open(alloc, first, second, leaves) {
                Ok(hub) => Ok(BotLink {
                    end: Ends::Hub(hub),
                }),
                Err(returned) => Err(returned),
            };
        }
        match LeafLink::open(alloc, first, second, number, leaves) {
            Ok(leaf) => Ok(BotLink {
                end: Ends::Leaf(leaf),
            }),
            Err(returned) => Err(returned),
        }
    }

    /// Returns the version: how many changes the hub has accepted, or the number of the last one that the leaf holds.
    pub fn version(&self) -> u32
        ensures { result ≡ end_version self.now.end }
    {
        match &self.end {
            Ends::Hub(hub) => hub.version(),
            Ends::Leaf(leaf) => leaf.version(),
        }
    }

    /// Returns the userfile at that version.
    pub fn userfile(&self) -> &Userfile
        ensures { result.now ≡ end_records self.now.end }
    {
        match &self.end {
            Ends::Hub(hub) => hub.userfile(),
            Ends::Leaf(leaf) => leaf.userfile(),
        }
    }

    /// Returns the accepted changes that the hub's journal holds one by one, the oldest first: the last one's number is the
    /// version. A leaf returns none.
    pub fn accepted(&self) -> &[AcceptedChange]
        ensures { result.now ≡ end_tail self.now.end }
    {
        match &self.end {
            Ends::Hub(hub) => hub.accepted(),
            Ends::Leaf(_) => &[],
        }
    }

    /// Returns the number of a leaf's last request, or 0 before its first. The hub, which sends no request, returns 0.
    pub fn last_request(&self) -> u32
        ensures { result ≡ end_last_request self.now.end }
    {
        match &self.end {
            Ends::Hub(_) => 0,
            Ends::Leaf(leaf) => leaf.last_request(),
        }
    }

    /// Returns the number of the last request of `leaf` that the hub replied to, or 0 if it replied to none or there is
    /// no such leaf. A leaf, which replies to no request, returns 0.
    pub fn last_reply(&self, leaf: u16) -> u32
        ensures { result ≡ end_last_reply self.now.end leaf }
    {
        match &self.end {
            Ends::Hub(hub) => hub.last_reply(leaf),
            Ends::Leaf(_) => 0,
        }
    }

    /// Returns which parts of a snapshot a leaf holds, or `None` if it holds none. The hub returns `None`.
    pub fn held_parts(&self) -> Option<HeldSnapshot>
        ensures { result ≡ end_held self.now.end }
    {
        match &self.end {
            Ends::Hub(_) => None,
            Ends::Leaf(leaf) => leaf.held_parts(),
        }
    }

    /// Whether, since the journal was last opened, a disk failed or a restart did not finish: the bot then takes
    /// nothing but a restart.
    pub fn is_down(&self) -> bool
        ensures { result ≡ end_is_down self.now.end }
    {
        match &self.end {
            Ends::Hub(hub) => hub.is_down(),
            Ends::Leaf(leaf) => leaf.is_down(),
        }
    }

    /// Returns how many asks wait.
    pub fn ask_count(&self) -> usize
        ensures { result ≡ length (end_asks self.now.end) }
    {
        match &self.end {
            Ends::Hub(hub) => hub.ask_count(),
            Ends::Leaf(leaf) => leaf.ask_count(),
        }
    }

    /// Keeps the oldest `count` asks and withdraws the others. Allocates nothing.
    ///
    /// A caller that asks for several things, all or none, counts the asks before it begins, and returns to that count
    /// if it has to give up.
    pub fn keep_asks(&mut self, count: usize)
        ensures { self.new ≡ keeps_asks self.old count }
    {
        match &mut self.end {
            Ends::Hub(hub) => hub.keep_asks(count),
            Ends::Leaf(leaf) => leaf.keep_asks(count),
        }
    }

    /// Queues `change` for a pump: `Queued`, and nothing to send. Allocates nothing.
    ///
    /// # Errors
    /// `Down`, then `BadChange` for a bad shape, of who asks or of the edit, then `AsksFull` if 64 asks wait; each leaves
    /// the bot as it was. The bot doesn't judge here whether who asks has the right to the edit: the hub does, by its
    /// records just before it accepts the change.
    pub fn ask(&mut self, alloc: Global, change: Change) -> Result<Answer, LinkError>
        ensures row { Asks self.old change result self.new }
        ensures packets { GoOut (MAX_LEAVES + 1) result }
        ensures memory { result ≢ Err no_memory }
    {
        match &mut self.end {
            Ends::Hub(hub) => hub.ask(alloc, change),
            Ends::Leaf(leaf) => leaf.ask(alloc, change),
        }
    }

    /// Does the next piece of work.
    ///
    /// The hub takes its oldest ask: `Accepted`, once that is journaled, with the change for each leaf; `Refused` if
    /// the userfile refuses it; `Idle` if none waits.
    ///
    /// A leaf sends a hello, with its journal's layout and its version, and then its outstanding requests, by rising
    /// number. Then its oldest ask goes under the next number, once that is journaled, if this number is less than
    /// eight above the lowest outstanding one. It returns `Sent` with the highest number that it sends, or `Idle` if it
    /// sends only the hello.
    ///
    /// # Errors
    /// `Down`; then `NumbersSpent`; then `NoMemory`; each leaves the bot as it was. `JournalFault` if a disk failed in
    /// this call: the bot is down, sends nothing, and what was being journaled is in doubt.
    pub fn pump(&mut self, alloc: Global) -> Result<Answer, LinkError>
        ensures row { Calls self.old (did self.old Pump) result self.new }
        ensures packets { GoOut (MAX_LEAVES + 1) result }
    {
        match &mut self.end {
            Ends::Hub(hub) => hub.pump(alloc),
            Ends::Leaf(leaf) => leaf.pump(alloc),
        }
    }

    /// Takes `packet`.
    ///
    /// The hub takes:
    /// - a leaf's hello: `Served`, with the changes that follow the leaf's version, at most 16, or with all records in
    ///   parts if the hub no longer keeps those changes one by one;
    /// - a leaf's request: `Accepted` or `Refused`, once that is journaled, with a reply to the leaf, and the change
    ///   for each leaf if it is accepted. A request that it replied to before is `Repeat`, with the same reply, if that
    ///   is one of the last eight, and otherwise `Old`. It is `Gap` if an earlier request is missing;
    /// - a text: `Text` if it is for the hub, and otherwise `Relayed` to the leaf that it is for.
    ///
    /// A leaf takes:
    /// - a change: `Applied` if its number is one above the leaf's version, `Old` if it is lower, `Early` if it is
    ///   higher;
    /// - a reply to an outstanding request, which ends it: `Accepted` with the change's number, or `Refused`. Any other
    ///   reply is `Old`;
    /// - a part of the records at a later version: `Kept` until the leaf has all parts of that version, and then
    ///   `Installed`. A part is `Old` if its version is not above the leaf's, or is below that of the kept parts. A
    ///   part of another version or count replaces all kept parts;
    /// - a text for the leaf: `Text`.
    ///
    /// Any other packet is `Stray`.
    ///
    /// # Errors
    /// `Down`; then `OtherLayout` at the hub for a hello of another layout; `Diverged` if a leaf's records refuse the
    /// next change or the parts are not those of one userfile, which drops the kept parts; then `NumbersSpent`; then
    /// `NoMemory`; the last two leave the bot as it was. `JournalFault` if a disk failed in this call: the bot is down,
    /// shows what it showed before, sends nothing, and what was being journaled is in doubt.
    pub fn receive(&mut self, alloc: Global, packet: &Packet) -> Result<Answer, LinkError>
        requires records { HasGoodRecords packet.now }
        ensures row { Calls self.old (took self.old packet.now) result self.new }
        ensures packets { GoOut (MAX_LEAVES + 1) result }
    {
        match &mut self.end {
            Ends::Hub(hub) => hub.receive(alloc, packet),
            Ends::Leaf(leaf) => leaf.receive(alloc, packet),
        }
    }

    /// Returns `text` for the bot `to`, which the caller is to send, when its step has sent `sent` texts so far. The
    /// bot stays as it was.
    ///
    /// # Errors
    /// `Down`; `BadBotText` if there is no bot `to`, it is this one, or no bot may send such a text; then `TextsFull`
    /// if `sent` is 64 or more; then `NoMemory`.
    pub fn send_text(
        &self,
        alloc: Global,
        to: u16,
        text: &[u8],
        sent: usize,
    ) -> Result<Outgoing, LinkError>
        ensures row { Tells self.now to text.now sent result }
    {
        match &self.end {
            Ends::Hub(hub) => hub.send_text(alloc, to, text, sent),
            Ends::Leaf(leaf) => leaf.send_text(alloc, to, text, sent),
        }
    }

    /// Writes the state alone into the journal, in its next generation: `Compacted`, and nothing to send.
    ///
    /// # Errors
    /// `Down`; then `NumbersSpent` at generation 4,294,967,295; then `NoMemory`; each leaves the bot as it was.
    /// `JournalFault` if a disk failed in this call: the bot is down, and it is in doubt whether the journal was
    /// written.
    pub fn compact(&mut self, alloc: Global) -> Result<Answer, LinkError>
        ensures row { Calls self.old (did self.old Compact) result self.new }
        ensures packets { GoOut (MAX_LEAVES + 1) result }
    {
        match &mut self.end {
            Ends::Hub(hub) => hub.compact(alloc),
            Ends::Leaf(leaf) => leaf.compact(alloc),
        }
    }

    /// Crashes both disks, as if the program had ended, and opens the journal on what the crash left: `Restarted` with
    /// the version. The record that was in doubt counts, or doesn't. The waiting asks are lost, and so are a leaf's
    /// kept parts.
    ///
    /// # Errors
    /// `DiskFault` if a disk failed, or `NoMemory`: the bot is down, and all else is as it was.
    pub fn restart(&mut self, alloc: Global) -> Result<Answer, LinkError>
        ensures row { CallsRestart self.old result self.new }
        ensures packets { GoOut (MAX_LEAVES + 1) result }
    {
        match &mut self.end {
            Ends::Hub(hub) => hub.restart(alloc),
            Ends::Leaf(leaf) => leaf.restart(alloc),
        }
    }

    /// States what a crash leaves at this moment, between two calls. It does nothing.
    pub fn know_disks(&self)
        // What is the bot's, with the record in doubt or without it.
        ensures left { MayLeave self.now.device.first self.now.device.second self.now }
    {
        match &self.end {
            Ends::Hub(hub) => hub.know_disks(),
            Ends::Leaf(leaf) => leaf.know_disks(),
        }
    }

    /// Returns the two disks, in the order in which they were given.
    pub fn into_disks(self) -> Disks<D>
        // Whatever a crash leaves on them is the bot's, with the record in doubt or without it.
        ensures left { MayLeave (D.state result.first) (D.state result.second) self }
    {
        let BotLink { end } = self;
        match end {
            Ends::Hub(hub) => hub.into_disks(),
            Ends::Leaf(leaf) => leaf.into_disks(),
        }
    }
}
