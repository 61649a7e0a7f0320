// What a leaf keeps.
use crate::fields::know_change;
use crate::journaled::{base_journaled, change_journaled};
use crate::moved::moved_change;
use crate::records::{items_of, userfile_of};
use crate::requests::{has_room, is_out, remove_request};
use crate::state_fault::{StateError, StateFault};
use botjournal::{Base, Entry, Ledger, LedgerError, Request};
use bytetext::{Failure, NoMemory, Seq, TryCopy, copies_of};
use disks::Disk;
use std::alloc::Global;
use std::marker::Model;
use std::mem;
use usercodec::Record;
use userfile::{Change, Userfile};

/// What survives a restart of a leaf: its version and userfile, the number of its last request, and its outstanding
/// requests.
pub struct LeafState {
    version: u32,
    userfile: Userfile,
    last: u32,
    out: Vec<Request>,
    generation: u32,
}

// By hand, so that this is proved once, and not in each crate in which a leaf's state ends.
impl Drop for LeafState {
    fn drop(self) {
        let LeafState {
            version: _,
            userfile: _,
            last: _,
            out: _,
            generation: _,
        } = self;
    }
}

impl Model for LeafState {
    ghost use Rattle.protocol.specs.LeafRules.{LeafState as Leaf};

    ghost Value = { Leaf };

    ghost view = { λ l. record {
      version = l.version;
      records = l.userfile;
      last = l.last;
      out = l.out.items;
      generation = l.generation;
    } };
}

impl LeafState {
    ghost use Rattle.std.specs.Prelude.{◌≡◌, ◌≢◌, ◌<◌, ℕ, ◌+◌, ◌-◌, ◌^◌, ◌==◌, ◌&&◌, true, false, nat_lt, is_none, None, Err, IfOk, IfErr, OnOk, OnErr, length};
    ghost use Rattle.bytetext.specs.declared.failure.Failure.TheVariants.{NoMemory as no_memory, Refused};
    ghost use Rattle.sharelink.specs.declared.state_fault.StateFault.TheVariants.{NotAJournal};
    ghost use Rattle.userfile.specs.Apply.{refusal, grows};
    ghost use Rattle.std.specs.List.{AllByRecursion};
    ghost use Rattle.botjournal.specs.Bases.{IsGoodBase, AreOut};
    ghost use Rattle.botjournal.specs.Entries.{IsGoodEntry};
    ghost use Rattle.botjournal.specs.declared.TheConstants.{LAYOUT};
    ghost use Rattle.botjournal.specs.Ledger.{Adding, Rebasing};
    ghost use Rattle.botjournal.specs.declared.entry.Entry.TheVariants.{Applied, ReqOut, ReqDone};
    ghost use Rattle.protocol.specs.Numbers.{last_number};
    ghost use Rattle.protocol.specs.Snapshots.{items_of};
    ghost use Rattle.protocol.specs.LeafRules.{Apply, Out, Done, Install, Compact, is_out, may_go_out, leaf_folded};
    ghost use Rattle.sharelink.specs.Records.{start_leaf};
    ghost use Rattle.protocol.specs.Journals.{leaf_of, leaf_base, leaf_record, leaf_meaning};
    ghost use Rattle.sharelink.specs.States.{Reads, Takes, TakesAll, leaf_on, empty_base, wants_room};
    ghost use Rattle.sharelink.specs.Kept.{WritesAny, LeavesWritten};
    ghost use Rattle.usercodec.specs.Changes.{IsGoodChange};

    /// Creates the state of a leaf before the first change, in the first generation of its journal. Its last request
    /// has the number `last`. Allocates nothing.
    pub fn new(alloc: Global, last: u32) -> LeafState
        ensures start { result ≡ start_leaf last }
        ensures empty { (number : ℕ) → result ≡ leaf_of 1 (empty_base number last) }
    {
        LeafState {
            version: 0,
            userfile: Userfile::new(alloc),
            last,
            out: Vec::new(alloc),
            generation: 1,
        }
    }

    /// Returns what a journal's `base` and `entries` mean, in this `generation`, to the leaf `number`. The base has a
    /// spelling, as it has whenever a journal was opened with it. The records and requests are moved into the state.
    ///
    /// # Errors
    /// `NotAJournal` if they mean nothing: the base is another bot's or has records that no userfile holds, or an entry
    /// is one that a leaf doesn't write in the state before it. Or `NoMemory`, but not if the base is another bot's.
    pub fn read(
        alloc: Global,
        number: u16,
        generation: u32,
        base: Base,
        entries: Seq<Entry>,
    ) -> Result<LeafState, StateError>
        requires good { IsGoodBase base }
        // In any layout that they had.
        ensures reads { (layout : _) → Reads (leaf_meaning number (record { layout = layout; generation = generation; base = base; entries = entries })) result }
        ensures foreign { base.bot ≢ number → result ≡ Err (Refused NotAJournal) }
        // If the entries have spellings, so have the outstanding requests, and a base may hold them.
        ensures good { IfOk result (λ leaf. AllByRecursion IsGoodEntry entries → AreOut leaf.last leaf.out) }
    {
        let mut leaf = LeafState::on_base(alloc, number, generation, base)?;
        match leaf.take_all(alloc, entries) {
            Ok(()) => Ok(leaf),
            Err(error) => Err(error),
        }
    }

    // Creates a leaf on a base alone, in that generation of the journal.
    fn on_base(
        alloc: Global,
        number: u16,
        generation: u32,
        base: Base,
    ) -> Result<LeafState, StateError>
        requires good { IsGoodBase base }
        ensures reads { Reads (leaf_on number generation base) result }
        ensures foreign { base.bot ≢ number → result ≡ Err (Refused NotAJournal) }
    {
        if base.bot != number {
            return Err(Failure::Refused(StateFault::NotAJournal));
        }
        let mut base = base;
        let records = mem::replace(&mut base.records, Seq::empty(alloc));
        let out = mem::replace(&mut base.out, Seq::empty(alloc));
        let userfile = userfile_of(alloc, records.into_vec())?;
        Ok(LeafState {
            version: base.version,
            userfile,
            last: base.last_request,
            out: out.into_vec(),
            generation,
        })
    }

    /// Returns the version: the number of the last change that was applied, or the version of the records that were
    /// installed.
    pub fn version(&self) -> u32
        ensures { result ≡ self.now.version }
    {
        self.version
    }

    /// Returns the userfile at that version.
    pub fn userfile(&self) -> &Userfile
        ensures { result.now ≡ self.now.records }
    {
        &self.userfile
    }

    /// Returns the number of the last request: 0 before the first.
    pub fn last_request(&self) -> u32
        ensures { result ≡ self.now.last }
    {
        self.last
    }

    /// Returns the requests that have no reply yet, by rising number.
    pub fn out(&self) -> &[Request]
        ensures { result.now ≡ self.now.out }
    {
        self.out.as_slice()
    }

    /// Whether the request of the number `request` is outstanding.
    pub fn is_out(&self, request: u32) -> bool
        ensures { result ≡ is_out request self.now.out }
    {
        is_out(request, self.out.as_slice())
    }

    /// Whether a next request may go out: its number exists, and is less than eight above the lowest outstanding one.
    pub fn may_go_out(&self) -> bool
        ensures { result ≡ may_go_out self.now.last self.now.out }
    {
        self.last < u32::MAX && has_room(self.last, self.out.as_slice())
    }

    /// Returns the journal's generation.
    pub fn generation(&self) -> u32
        ensures { result ≡ self.now.generation }
    {
        self.generation
    }

    /// Folds in `entry`, the next one in the journal.
    ///
    /// # Errors
    /// `NotAJournal` if it is one that a leaf doesn't write in this state, or `NoMemory`, which only a change that is
    /// kept or that adds something can cause. Both leave the state as it was.
    pub fn take(&mut self, alloc: Global, entry: Entry) -> Result<(), StateError>
        ensures takes { Takes leaf_record leaf_folded self.old entry result self.new }
        ensures memory { result ≡ Err no_memory → wants_room entry ≡ true }
    {
        let mut entry = entry;
        match &mut entry {
            Entry::Applied { number, change } => self.apply(alloc, *number, change),
            Entry::ReqOut { request, change } => self.send(*request, moved_change(alloc, change)),
            Entry::ReqDone { request } => self.end(*request),
            Entry::Accepted { .. } | Entry::Settled { .. } => {
                Err(Failure::Refused(StateFault::NotAJournal))
            }
        }
    }

    fn take_all(&mut self, alloc: Global, entries: Seq<Entry>) -> Result<(), StateError>
        ensures { TakesAll leaf_record leaf_folded self.old entries result self.new }
    {
        for entry in entries.into_vec() {
            match self.take(alloc, entry) {
                Ok(()) => {}
                Err(error) => return Err(error),
            }
        }
        Ok(())
    }

    // Folds in the hub's next change.
    fn apply(&mut self, alloc: Global, number: u32, change: &Change) -> Result<(), StateError>
        ensures takes { Takes leaf_record leaf_folded self.old (Applied number change.now) result self.new }
        ensures memory { result ≡ Err no_memory → grows change.now ≡ true }
    {
        if !self.may_apply(number, change) {
            return Err(Failure::Refused(StateFault::NotAJournal));
        }
        self.userfile
            .apply(alloc, change)
            .map_err(|_| Failure::NoMemory)?;
        self.version = number;
        Ok(())
    }

    fn may_apply(&self, number: u32, change: &Change) -> bool
        ensures { result ≡ (is_none (refusal self.now.records change.now) && (number == (self.now.version + 1))) }
    {
        self.userfile.refusal_of(change).is_none() && is_one_above(number, self.version)
    }

    // Folds in a request that goes out.
    fn send(&mut self, request: u32, change: Change) -> Result<(), StateError>
        ensures { Takes leaf_record leaf_folded self.old (ReqOut request change) result self.new }
    {
        if !self.may_send(request) {
            return Err(Failure::Refused(StateFault::NotAJournal));
        }
        self.out.push(Request {
            number: request,
            change,
        })?;
        self.last = request;
        Ok(())
    }

    fn may_send(&self, request: u32) -> bool
        ensures { result ≡ (may_go_out self.now.last self.now.out && (request == (self.now.last + 1))) }
    {
        self.may_go_out() && is_one_above(request, self.last)
    }

    // Folds in that a request got its reply.
    fn end(&mut self, request: u32) -> Result<(), StateError>
        ensures takes { Takes leaf_record leaf_folded self.old (ReqDone request) result self.new }
        ensures memory { result ≢ Err no_memory }
    {
        if !self.is_out(request) {
            return Err(Failure::Refused(StateFault::NotAJournal));
        }
        remove_request(&mut self.out, request);
        Ok(())
    }

    // Applies the hub's next change, after journaling it. It allocates everything before that.
    pub(crate) fn apply_next<D: Disk>(
        &mut self,
        alloc: Global,
        ledger: &mut Ledger<D>,
        change: &Change,
    ) -> Result<(), LedgerError>
        requires up { ledger.old.account.down ≡ false }
        requires current { ledger.old.account.contents.layout ≡ LAYOUT }
        requires numbered { nat_lt self.old.version last_number ≡ true }
        requires taken { refusal self.old.records change.now ≡ None }
        ensures row { WritesAny ledger.old (Adding (Applied (self.old.version + 1) change.now)) result ledger.new }
        ensures any_moment { LeavesWritten (Adding (Applied (self.old.version + 1) change.now)) ledger.old ledger.new }
        ensures applies { OnOk result (self.new ≡ leaf_folded self.old (Apply change.now)) }
        ensures stays { OnErr result (self.new ≡ self.old) }
    {
        know_change(change);
        let number = self.version + 1;
        let entry = Entry::Applied {
            number,
            change: change.copy(alloc)?,
        };
        match change_journaled(alloc, &mut self.userfile, ledger, change, &entry) {
            Ok(()) => {
                self.version = number;
                Ok(())
            }
            Err(error) => Err(error),
        }
    }

    // Journals a change under the next request number, and makes it outstanding. It allocates everything before the
    // journal's first device call.
    pub(crate) fn put_out<D: Disk>(
        &mut self,
        alloc: Global,
        ledger: &mut Ledger<D>,
        change: Change,
    ) -> Result<(), LedgerError>
        requires up { ledger.old.account.down ≡ false }
        requires current { ledger.old.account.contents.layout ≡ LAYOUT }
        requires numbered { nat_lt self.old.last last_number ≡ true }
        requires good { IsGoodChange change }
        ensures row { WritesAny ledger.old (Adding (ReqOut (self.old.last + 1) change)) result ledger.new }
        ensures any_moment { LeavesWritten (Adding (ReqOut (self.old.last + 1) change)) ledger.old ledger.new }
        ensures out { OnOk result (self.new ≡ leaf_folded self.old (Out change)) }
        ensures stays { OnErr result (self.new ≡ self.old) }
    {
        self.out.reserve(1)?;
        let number = self.last + 1;
        let entry = Entry::ReqOut {
            request: number,
            change: change.copy(alloc)?,
        };
        match ledger.append(alloc, &entry) {
            Ok(()) => {
                self.last = number;
                self.out.push_reserved(Request { number, change });
                Ok(())
            }
            Err(error) => Err(error),
        }
    }

    // Ends the outstanding request of this number.
    pub(crate) fn end_request<D: Disk>(
        &mut self,
        alloc: Global,
        ledger: &mut Ledger<D>,
        request: u32,
    ) -> Result<(), LedgerError>
        requires up { ledger.old.account.down ≡ false }
        requires current { ledger.old.account.contents.layout ≡ LAYOUT }
        ensures row { WritesAny ledger.old (Adding (ReqDone request)) result ledger.new }
        ensures any_moment { LeavesWritten (Adding (ReqDone request)) ledger.old ledger.new }
        ensures done { OnOk result (self.new ≡ leaf_folded self.old (Done request)) }
        ensures stays { OnErr result (self.new ≡ self.old) }
    {
        let entry = Entry::ReqDone { request };
        match ledger.append(alloc, &entry) {
            Ok(()) => {
                remove_request(&mut self.out, request);
                Ok(())
            }
            Err(error) => Err(error),
        }
    }

    // Replaces the records by those of a version, in the next generation of the journal.
    pub(crate) fn install<D: Disk>(
        &mut self,
        alloc: Global,
        number: u16,
        ledger: &mut Ledger<D>,
        version: u32,
        userfile: Userfile,
    ) -> Result<(), LedgerError>
        requires up { ledger.old.account.down ≡ false }
        requires left { ledger.old.account.contents.generation ≢ 2 ^ 32 - 1 }
        requires counted { nat_lt self.old.generation last_number ≡ true }
        requires numbered { 0 < number }
        requires good { AreOut self.old.last self.old.out }
        ensures row { WritesAny ledger.old (Rebasing (leaf_base number (record self.old { version = version; records = userfile }))) result ledger.new }
        ensures any_moment { LeavesWritten (Rebasing (leaf_base number (record self.old { version = version; records = userfile }))) ledger.old ledger.new }
        ensures installs { OnOk result (self.new ≡ leaf_folded self.old (Install version userfile)) }
        ensures stays { OnErr result (self.new ≡ self.old) }
    {
        let base = self.base_with(alloc, number, version, &userfile)?;
        match base_journaled(alloc, ledger, &base) {
            Ok(()) => {
                self.version = version;
                self.userfile = userfile;
                self.generation += 1;
                Ok(())
            }
            Err(error) => Err(error),
        }
    }

    // Writes the state alone into the journal, in its next generation.
    pub(crate) fn compact<D: Disk>(
        &mut self,
        alloc: Global,
        number: u16,
        ledger: &mut Ledger<D>,
    ) -> Result<(), LedgerError>
        requires up { ledger.old.account.down ≡ false }
        requires left { ledger.old.account.contents.generation ≢ 2 ^ 32 - 1 }
        requires counted { nat_lt self.old.generation last_number ≡ true }
        requires numbered { 0 < number }
        requires good { AreOut self.old.last self.old.out }
        ensures row { WritesAny ledger.old (Rebasing (leaf_base number self.old)) result ledger.new }
        ensures any_moment { LeavesWritten (Rebasing (leaf_base number self.old)) ledger.old ledger.new }
        ensures compacts { OnOk result (self.new ≡ leaf_folded self.old Compact) }
        ensures stays { OnErr result (self.new ≡ self.old) }
    {
        let base = self.base(alloc, number)?;
        match base_journaled(alloc, ledger, &base) {
            Ok(()) => {
                self.generation += 1;
                Ok(())
            }
            Err(error) => Err(error),
        }
    }

    /// Returns the base of this state of the leaf `number`, from which a rewritten journal starts. It has a spelling if
    /// a base may hold the outstanding requests.
    ///
    /// # Errors
    /// `NoMemory` if it cannot allocate room for copies; never if there are no records, and no outstanding requests.
    pub fn base(&self, alloc: Global, number: u16) -> Result<Base, NoMemory>
        ensures base { IfOk result (λ base. base ≡ leaf_base number self.now) }
        ensures good { IfOk result (λ base. 0 < number → AreOut self.now.last self.now.out → IsGoodBase base) }
        ensures memory { IfErr result (λ _. 0 < length (items_of self.now.records) + length self.now.out) }
    {
        self.base_with(alloc, number, self.version, &self.userfile)
    }

    /// Returns the same base of the leaf `number`, with the records of another `version`, those of `userfile`, instead
    /// of this state's.
    ///
    /// # Errors
    /// `NoMemory` if it cannot allocate room for copies; never if there are no records, and no outstanding requests.
    pub fn base_with(
        &self,
        alloc: Global,
        number: u16,
        version: u32,
        userfile: &Userfile,
    ) -> Result<Base, NoMemory>
        ensures base { IfOk result (λ base. base ≡ leaf_base number (record self.now { version = version; records = userfile.now })) }
        ensures good { IfOk result (λ base. 0 < number → AreOut self.now.last self.now.out → IsGoodBase base) }
        ensures memory { IfErr result (λ _. 0 < length (items_of userfile.now) + length self.now.out) }
    {
        let records = items_of(alloc, userfile)?;
        let out = copies_of(alloc, self.out.as_slice())?;
        Ok(base_of(alloc, number, version, records, self.last, out))
    }
}

ghost use Rattle.std.specs.Prelude.{◌≡◌, ◌+◌, ◌==◌, ◌<◌, []};
ghost use Rattle.usercodec.specs.Records.{IsGoodRecord};
ghost use Rattle.botjournal.specs.Bases.{AreListed, IsGoodBase, AreOut};

// Creates the base of these parts. Its numbers are in range, as their types say.
fn base_of(
    alloc: Global,
    number: u16,
    version: u32,
    records: Vec<Record>,
    last: u32,
    out: Vec<Request>,
) -> Base
    requires good { AreListed IsGoodRecord records.items }
    ensures base { result ≡ record {
      bot = number;
      version = version;
      records = records.items;
      replies = [];
      last_request = last;
      out = out.items;
    } }
    ensures good { 0 < number → AreOut last out.items → IsGoodBase result }
{
    Base {
        bot: number,
        version,
        records: Seq::new(records),
        replies: Seq::empty(alloc),
        last_request: last,
        out: Seq::new(out),
    }
}

// Whether a number is one above another.
fn is_one_above(number: u32, other: u32) -> bool
    ensures { result ≡ (number == (other + 1)) }
{
    number != 0 && number - 1 == other
}
