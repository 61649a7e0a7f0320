// What a hub keeps.
ghost use Rattle.std.specs.Prelude.{◌≡◌, ◌++◌, ◌∷◌, ◌+◌, ◌≤◌, ◌&&◌, [], length, nat_lt, is_none, None, OnOk, OnErr};
ghost use Rattle.userfile.specs.Apply.{refusal, changed};
ghost use Rattle.protocol.specs.Numbers.{last_number};
ghost use Rattle.protocol.specs.Journals.{is_next};

use crate::accepted::AcceptedChange;
use crate::fields::know_change;
use crate::journaled::{base_journaled, change_journaled};
use crate::leaf_replies::LeafReplies;
use crate::moved::moved_change;
use crate::next_change::apply_next;
use crate::records::{items_of, userfile_of};
use crate::replies::{
    is_next, is_next_of, know_replies, put_reply, replies_at, replies_in, replies_of,
};
use crate::state_fault::{StateError, StateFault};
use botjournal::{Base, Entry, Ledger, LedgerError, Reply, Verdict};
use bytetext::{Failure, NoMemory, Seq, TryCopy};
use disks::Disk;
use std::alloc::Global;
use std::marker::Model;
use std::mem;
use usercodec::Record;
use userfile::{Change, ChangeFault, Userfile};

/// What survives a restart of a hub: its userfile, the changes accepted since the base, and the last replies to each
/// leaf.
pub struct HubState {
    floor: u32,
    tail: Vec<AcceptedChange>,
    userfile: Userfile,
    replies: Vec<LeafReplies>,
    generation: u32,
}

// By hand, so that this is proved once, and not in each crate in which a hub's state ends.
impl Drop for HubState {
    fn drop(self) {
        let HubState {
            floor: _,
            tail: _,
            userfile: _,
            replies: _,
            generation: _,
        } = self;
    }
}

impl Model for HubState {
    ghost use Rattle.std.specs.Prelude.{◌+◌, ◌≤◌, length};
    ghost use Rattle.protocol.specs.Numbers.{last_number};
    ghost use Rattle.protocol.specs.HubRules.{HubState as Hub};

    ghost Value = { Hub };

    ghost view = { λ h. record {
      floor = h.floor;
      tail = h.tail.items;
      records = h.userfile;
      replies = h.replies.items;
      generation = h.generation;
    } };

    ghost invariant = { λ h. h.floor + length h.tail.items ≤ last_number };
}

impl HubState {
    ghost use Rattle.std.specs.Prelude.{◌≡◌, ◌≢◌, ◌&&◌, ◌<◌, ◌≤◌, ◌+◌, ◌-◌, ◌*◌, ◌^◌, true, false, nat_lt, is_none, None, Err, IfOk, IfErr, OnOk, OnErr, length};
    ghost use Rattle.std.specs.Option.{option_copied};
    ghost use Rattle.bytetext.specs.declared.failure.Failure.TheVariants.{NoMemory as no_memory, Refused};
    ghost use Rattle.sharelink.specs.declared.state_fault.StateFault.TheVariants.{NotAJournal};
    ghost use Rattle.userfile.specs.Apply.{refusal};
    ghost use Rattle.usercodec.specs.Records.{IsGoodRecord};
    ghost use Rattle.botjournal.specs.Bases.{AreListed, IsGoodBase};
    ghost use Rattle.botjournal.specs.declared.TheConstants.{LAYOUT};
    ghost use Rattle.botjournal.specs.Ledger.{Adding, Rebasing};
    ghost use Rattle.botjournal.specs.declared.entry.Entry.TheVariants.{Accepted, Settled};
    ghost use Rattle.protocol.specs.Numbers.{last_number, item_at};
    ghost use Rattle.protocol.specs.HubRules.{Accept, Settle, Rebase, version_of, hub_folded};
    ghost use Rattle.protocol.specs.Snapshots.{items_of};
    ghost use Rattle.protocol.specs.Network.{new_hub};
    ghost use Rattle.protocol.specs.Journals.{hub_of, hub_base, hub_record, hub_meaning, replies_in, is_next, is_next_of, IsHubState};
    ghost use Rattle.sharelink.specs.States.{Reads, Takes, TakesAll, ArePlaced, hub_on, is_hubs, empty_base, is_accepted};
    ghost use Rattle.sharelink.specs.Kept.{WritesAny, LeavesWritten};

    /// Creates the state of a hub with `leaves` leaves before the first change, in the first generation of its journal.
    ///
    /// # Errors
    /// `NoMemory` if it cannot allocate room for the replies; never without leaves.
    pub fn new(alloc: Global, leaves: u16) -> Result<HubState, NoMemory>
        ensures start { IfOk result (λ hub. hub ≡ (new_hub leaves).kept) }
        ensures empty { IfOk result (λ hub. hub ≡ hub_of leaves 1 (empty_base 0 0)) }
        ensures state { IfOk result (λ hub. IsHubState leaves hub) }
        ensures memory { IfErr result (λ _. 0 < leaves) }
    {
        let replies = replies_of(alloc, leaves, &[])?;
        Ok(HubState {
            floor: 0,
            tail: Vec::new(alloc),
            userfile: Userfile::new(alloc),
            replies,
            generation: 1,
        })
    }

    /// Returns what a journal's `base` and `entries` mean, in this `generation`, to a hub with `leaves` leaves. The
    /// base has a spelling, as it has whenever a journal was opened with it. The records and changes are moved into the
    /// state.
    ///
    /// # Errors
    /// `NotAJournal` if they mean nothing: the base is no hub's, has a reply to leaf 0 or to a leaf above the last, or
    /// records that no userfile holds, or an entry is one that a hub doesn't write in the state before it. Or
    /// `NoMemory`, but not if the base is no hub's or has such a reply.
    pub fn read(
        alloc: Global,
        leaves: u16,
        generation: u32,
        base: Base,
        entries: Seq<Entry>,
    ) -> Result<HubState, StateError>
        requires good { IsGoodBase base }
        // In any layout that they had.
        ensures reads { (layout : _) → Reads (hub_meaning leaves (record { layout = layout; generation = generation; base = base; entries = entries })) result }
        ensures foreign { is_hubs leaves base ≡ false → result ≡ Err (Refused NotAJournal) }
        // Each leaf has a place for its replies, and each reply is at its leaf's place.
        ensures state { IfOk result (λ hub. IsHubState leaves hub) }
        ensures generation { IfOk result (λ hub. hub.generation ≡ generation) }
    {
        let mut hub = HubState::on_base(alloc, leaves, generation, base)?;
        match hub.take_all(alloc, entries) {
            Ok(()) => Ok(hub),
            Err(error) => Err(error),
        }
    }

    // Creates a hub on a base alone, in that generation of the journal.
    fn on_base(
        alloc: Global,
        leaves: u16,
        generation: u32,
        base: Base,
    ) -> Result<HubState, StateError>
        requires good { IsGoodBase base }
        ensures reads { Reads (hub_on leaves generation base) result }
        ensures foreign { is_hubs leaves base ≡ false → result ≡ Err (Refused NotAJournal) }
    {
        if !is_hubs(&base, leaves) {
            return Err(Failure::Refused(StateFault::NotAJournal));
        }
        let mut base = base;
        let records = mem::replace(&mut base.records, Seq::empty(alloc));
        let userfile = userfile_of(alloc, records.into_vec())?;
        let replies = replies_of(alloc, leaves, base.replies.as_slice())?;
        Ok(HubState {
            floor: base.version,
            tail: Vec::new(alloc),
            userfile,
            replies,
            generation,
        })
    }

    /// Returns the version: how many changes the hub ever accepted.
    pub fn version(&self) -> u32
        ensures { result ≡ version_of self.now }
    {
        self.floor + self.tail.len() as u32
    }

    /// Returns the version of the journal's base. The hub no longer keeps the changes up to it one by one.
    pub fn floor(&self) -> u32
        ensures { result ≡ self.now.floor }
    {
        self.floor
    }

    /// Returns the changes accepted since the journal's base, the oldest first.
    pub fn tail(&self) -> &[AcceptedChange]
        ensures { result.now ≡ self.now.tail }
    {
        self.tail.as_slice()
    }

    /// Returns the userfile at the hub's version.
    pub fn userfile(&self) -> &Userfile
        ensures { result.now ≡ self.now.records }
    {
        &self.userfile
    }

    /// Returns the last replies to `leaf`, or `None` if that is no leaf of the hub.
    pub fn replies_to(&self, leaf: u16) -> Option<&LeafReplies>
        ensures { option_copied result ≡ item_at self.now.replies leaf }
    {
        replies_at(self.replies.as_slice(), leaf)
    }

    /// Returns the journal's generation.
    pub fn generation(&self) -> u32
        ensures { result ≡ self.now.generation }
    {
        self.generation
    }

    /// Folds in `entry`, the next one in the journal.
    ///
    /// # Errors
    /// `NotAJournal` if it is one that a hub doesn't write in this state, or `NoMemory`, which only an accepted change
    /// can cause. Both leave the state as it was.
    pub fn take(&mut self, alloc: Global, entry: Entry) -> Result<(), StateError>
        ensures takes { Takes hub_record hub_folded self.old entry result self.new }
        ensures memory { result ≡ Err no_memory → is_accepted entry ≡ true }
    {
        let mut entry = entry;
        match &mut entry {
            Entry::Accepted {
                origin,
                request,
                change,
            } => self.accept(alloc, *origin, *request, moved_change(alloc, change)),
            Entry::Settled {
                leaf,
                request,
                fault,
            } => self.settle(*leaf, *request, *fault),
            Entry::Applied { .. } | Entry::ReqOut { .. } | Entry::ReqDone { .. } => {
                Err(Failure::Refused(StateFault::NotAJournal))
            }
        }
    }

    fn take_all(&mut self, alloc: Global, entries: Seq<Entry>) -> Result<(), StateError>
        ensures { TakesAll hub_record hub_folded self.old entries result self.new }
    {
        // Room for all at once: nearly all entries are accepted changes.
        self.tail.reserve(entries.len())?;
        for entry in entries.into_vec() {
            match self.take(alloc, entry) {
                Ok(()) => {}
                Err(error) => return Err(error),
            }
        }
        Ok(())
    }

    fn accept(
        &mut self,
        alloc: Global,
        origin: u16,
        request: u32,
        change: Change,
    ) -> Result<(), StateError>
        ensures { Takes hub_record hub_folded self.old (Accepted origin request change) result self.new }
    {
        if !self.may_accept(origin, request, &change) {
            return Err(Failure::Refused(StateFault::NotAJournal));
        }
        let number = self.version() + 1;
        let entry = AcceptedChange::new(origin, request, change);
        apply_next(alloc, &mut self.userfile, &mut self.tail, entry)?;
        put_reply(&mut self.replies, origin, request, Verdict::Taken(number));
        Ok(())
    }

    fn may_accept(&self, origin: u16, request: u32, change: &Change) -> bool
        ensures may { result ≡ (is_none (refusal self.now.records change.now)
            && (nat_lt (version_of self.now) last_number && is_next self.now.replies origin request)) }
        ensures free { result ≡ true → refusal self.now.records change.now ≡ None }
        ensures room { result ≡ true → version_of self.now < last_number }
        ensures next { result ≡ true → is_next self.now.replies origin request ≡ true }
    {
        self.userfile.refusal_of(change).is_none()
            && self.version() < u32::MAX
            && is_next(self.replies.as_slice(), origin, request)
    }

    fn settle(&mut self, leaf: u16, request: u32, fault: ChangeFault) -> Result<(), StateError>
        ensures takes { Takes hub_record hub_folded self.old (Settled leaf request fault) result self.new }
        ensures memory { result ≢ Err no_memory }
    {
        if !is_next_of(self.replies_to(leaf), request) {
            return Err(Failure::Refused(StateFault::NotAJournal));
        }
        put_reply(&mut self.replies, leaf, request, Verdict::Refused(fault));
        Ok(())
    }

    // Journals a change that isn't refused as the next one, and applies it. It allocates everything before the
    // journal's first device call. The change is the next request of the leaf that asked for it, or the hub's own.
    pub(crate) fn accept_next<D: Disk>(
        &mut self,
        alloc: Global,
        ledger: &mut Ledger<D>,
        entry: AcceptedChange,
    ) -> Result<(), LedgerError>
        requires up { ledger.old.account.down ≡ false }
        requires current { ledger.old.account.contents.layout ≡ LAYOUT }
        requires taken { refusal self.old.records entry.change ≡ None }
        requires numbered { nat_lt (version_of self.old) last_number ≡ true }
        requires next { is_next self.old.replies entry.origin entry.request ≡ true }
        ensures row { WritesAny ledger.old (Adding (Accepted entry.origin entry.request entry.change)) result ledger.new }
        ensures any_moment { LeavesWritten (Adding (Accepted entry.origin entry.request entry.change)) ledger.old ledger.new }
        ensures accepts { OnOk result (self.new ≡ hub_folded self.old (Accept entry)) }
        ensures stays { OnErr result (self.new ≡ self.old) }
    {
        know_change(entry.change());
        let number = self.version() + 1;
        let origin = entry.origin();
        let request = entry.request();
        let record = Entry::Accepted {
            origin,
            request,
            change: entry.change().copy(alloc)?,
        };
        self.tail.reserve(1)?;
        match change_journaled(alloc, &mut self.userfile, ledger, entry.change(), &record) {
            Ok(()) => {
                self.tail.push_reserved(entry);
                put_reply(&mut self.replies, origin, request, Verdict::Taken(number));
                Ok(())
            }
            Err(error) => Err(error),
        }
    }

    // Journals that a leaf's next request is rejected, and keeps that as the reply to it.
    pub(crate) fn refuse_next<D: Disk>(
        &mut self,
        alloc: Global,
        ledger: &mut Ledger<D>,
        leaf: u16,
        request: u32,
        fault: ChangeFault,
    ) -> Result<(), LedgerError>
        requires up { ledger.old.account.down ≡ false }
        requires current { ledger.old.account.contents.layout ≡ LAYOUT }
        requires next { is_next_of (item_at self.old.replies leaf) request ≡ true }
        ensures row { WritesAny ledger.old (Adding (Settled leaf request fault)) result ledger.new }
        ensures any_moment { LeavesWritten (Adding (Settled leaf request fault)) ledger.old ledger.new }
        ensures settles { OnOk result (self.new ≡ hub_folded self.old (Settle leaf fault)) }
        ensures stays { OnErr result (self.new ≡ self.old) }
    {
        let entry = Entry::Settled {
            leaf,
            request,
            fault,
        };
        match ledger.append(alloc, &entry) {
            Ok(()) => {
                put_reply(&mut self.replies, leaf, request, Verdict::Refused(fault));
                Ok(())
            }
            Err(error) => Err(error),
        }
    }

    // Writes the state alone into the journal, in its next generation: the hub no longer keeps the changes so far one
    // by one.
    pub(crate) fn rebase<D: Disk>(
        &mut self,
        alloc: Global,
        ledger: &mut Ledger<D>,
    ) -> Result<(), LedgerError>
        requires up { ledger.old.account.down ≡ false }
        requires left { ledger.old.account.contents.generation ≢ 2 ^ 32 - 1 }
        requires numbered { nat_lt self.old.generation last_number ≡ true }
        requires placed { ArePlaced self.old.replies }
        requires few { 8 * length self.old.replies < 2 ^ 16 }
        ensures row { WritesAny ledger.old (Rebasing (hub_base self.old)) result ledger.new }
        ensures any_moment { LeavesWritten (Rebasing (hub_base self.old)) ledger.old ledger.new }
        ensures rebases { OnOk result (self.new ≡ hub_folded self.old Rebase) }
        ensures stays { OnErr result (self.new ≡ self.old) }
    {
        let base = self.base(alloc)?;
        match base_journaled(alloc, ledger, &base) {
            Ok(()) => {
                self.floor = self.version();
                self.tail.clear();
                self.generation += 1;
                Ok(())
            }
            Err(error) => Err(error),
        }
    }

    /// Returns the userfile's records one by one, its users first: at most 700, each of which has a spelling.
    ///
    /// # Errors
    /// `NoMemory` if it cannot allocate room for copies; never if there are no records.
    pub fn items(&self, alloc: Global) -> Result<Vec<Record>, NoMemory>
        ensures items { IfOk result (λ items. items.items ≡ items_of self.now.records) }
        ensures good { IfOk result (λ items. AreListed IsGoodRecord items.items) }
        ensures few { IfOk result (λ items. length items.items ≤ 700) }
        ensures memory { IfErr result (λ _. 0 < length (items_of self.now.records)) }
    {
        items_of(alloc, &self.userfile)
    }

    /// Returns the base of this state, from which a rewritten journal starts. It has a spelling if each reply is at its
    /// leaf's place, as in each state that was read, and there are not too many leaves for the count of replies.
    ///
    /// # Errors
    /// `NoMemory` if it cannot allocate room for copies; never if there are no records and no replies.
    pub fn base(&self, alloc: Global) -> Result<Base, NoMemory>
        ensures base { IfOk result (λ base. base ≡ hub_base self.now) }
        ensures good { IfOk result (λ base. ArePlaced self.now.replies → 8 * length self.now.replies < 2 ^ 16 → IsGoodBase base) }
        ensures memory { IfErr result (λ _. 0 < length (items_of self.now.records) + length (replies_in self.now.replies)) }
    {
        let records = items_of(alloc, &self.userfile)?;
        let replies = replies_in(alloc, self.replies.as_slice())?;
        know_replies(replies.as_slice());
        Ok(base_of(alloc, self.version(), records, replies))
    }
}

ghost use Rattle.std.specs.List.{list_all};
ghost use Rattle.protocol.specs.Journals.{is_to_leaf};
ghost use Rattle.sharelink.specs.States.{is_hubs};

// Whether a base is a hub's, and has replies to at most `leaves` leaves.
fn is_hubs(base: &Base, leaves: u16) -> bool
    ensures { result ≡ is_hubs leaves base.now }
{
    base.bot == 0 && are_within(base.replies.as_slice(), leaves)
}

// Whether each reply is to one of the `leaves` leaves.
fn are_within(replies: &[Reply], leaves: u16) -> bool
    ensures { result ≡ list_all (is_to_leaf leaves) replies.now }
{
    replies
        .iter()
        .all(|reply| 0 < reply.leaf && reply.leaf <= leaves)
}

ghost use Rattle.std.specs.Prelude.{true, ◌<◌, ◌^◌};
ghost use Rattle.std.specs.List.{AllByRecursion};
ghost use Rattle.usercodec.specs.Records.{IsGoodRecord};
ghost use Rattle.botjournal.specs.Bases.{AreListed, IsGoodReply, IsGoodBase, are_kept};

// Creates the base of these parts. Its version is in range, as its type says.
fn base_of(alloc: Global, version: u32, records: Vec<Record>, replies: Vec<Reply>) -> Base
    requires records { AreListed IsGoodRecord records.items }
    requires replies { AllByRecursion IsGoodReply replies.items }
    ensures base { result ≡ record {
      bot = 0;
      version = version;
      records = records.items;
      replies = replies.items;
      last_request = 0;
      out = [];
    } }
    ensures good { length replies.items < 2 ^ 16 → are_kept replies.items ≡ true → IsGoodBase result }
{
    Base {
        bot: 0,
        version,
        records: Seq::new(records),
        replies: Seq::new(replies),
        last_request: 0,
        out: Seq::empty(alloc),
    }
}
