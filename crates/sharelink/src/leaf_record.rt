// What a leaf keeps and journals.
use crate::end_state::EndState;
use crate::leaf_state::LeafState;
use crate::state_fault::StateError;
use botjournal::{Base, Entry, Ledger, LedgerError};
use bytetext::{NoMemory, Seq};
use disks::Disk;
use std::alloc::Global;
use std::marker::Model;
use userfile::{Change, Userfile};

#[derive(Drop)]
enum What {
    Apply(Change),
    Out(Change),
    Done(u32),
    Install(u32, Userfile),
    Compact,
}

/// What a leaf journals: the next change, a request that goes out or is done, the records of a version, or its state
/// alone.
#[derive(Drop)]
pub struct LeafRecord {
    what: What,
}

impl Model for LeafRecord {
    ghost use Rattle.protocol.specs.LeafRules.{LeafRecord as Record};

    ghost Value = { Record };

    ghost use Rattle.sharelink.specs.LeafRecords.{shown};

    ghost view = { λ r. shown r.what };
}

impl LeafRecord {
    ghost use Rattle.std.specs.Prelude.{◌≡◌};
    ghost use Rattle.protocol.specs.LeafRules.{Apply, Out, Done, Install, Compact};

    /// Creates the record that the next change, `change`, is applied.
    pub fn apply(change: Change) -> LeafRecord
        ensures { result ≡ Apply change }
    {
        LeafRecord {
            what: What::Apply(change),
        }
    }

    /// Creates the record that `change` goes out under the next request number.
    pub fn out(change: Change) -> LeafRecord
        ensures { result ≡ Out change }
    {
        LeafRecord {
            what: What::Out(change),
        }
    }

    /// Creates the record that the outstanding request of the number `request` is done.
    pub fn done(request: u32) -> LeafRecord
        ensures { result ≡ Done request }
    {
        LeafRecord {
            what: What::Done(request),
        }
    }

    /// Creates the record that the records of `userfile`, at `version`, replace those before.
    pub fn install(version: u32, userfile: Userfile) -> LeafRecord
        ensures { result ≡ Install version userfile }
    {
        LeafRecord {
            what: What::Install(version, userfile),
        }
    }

    /// Creates the record of the state alone.
    pub fn compact() -> LeafRecord
        ensures { result ≡ Compact }
    {
        LeafRecord {
            what: What::Compact,
        }
    }
}

impl EndState for LeafState {
    type Record = LeafRecord;

    ghost use Rattle.std.specs.Prelude.{◌<◌};
    ghost use Rattle.std.proofs.Common.{refl};
    ghost use Rattle.protocol.specs.LeafRules.{leaf_folded, Compact};
    ghost use Rattle.protocol.specs.Journals.{leaf_meaning};
    ghost use Rattle.sharelink.specs.Records.{start_leaf, IsLeafState, leaf_pending, LeafMayWrite};
    ghost use Rattle.sharelink.specs.EndLaws.{leaf_writes, leaf_stays};

    ghost is_end = { λ number. 0 < number };

    ghost bot = { λ number. number };

    ghost start = { λ _. start_leaf };

    ghost is_state = { λ _. IsLeafState };

    ghost meaning = { leaf_meaning };

    ghost may = { LeafMayWrite };

    ghost pending = { leaf_pending };

    ghost folded = { leaf_folded };

    ghost renewal = { Compact };

    fn bot(number: u16) -> u16 {
        number
    }

    fn start(alloc: Global, _number: u16, last: u32) -> Result<LeafState, NoMemory> {
        let leaf = LeafState::new(alloc, last);
        leaf.userfile().are_sound();
        Ok(leaf)
    }

    fn read(
        alloc: Global,
        number: u16,
        generation: u32,
        base: Base,
        entries: Seq<Entry>,
    ) -> Result<LeafState, StateError> {
        match LeafState::read(alloc, number, generation, base, entries) {
            Ok(leaf) => {
                leaf.userfile().are_sound();
                Ok(leaf)
            }
            Err(error) => Err(error),
        }
    }

    fn write<D: Disk>(
        &mut self,
        alloc: Global,
        number: u16,
        ledger: &mut Ledger<D>,
        entry: LeafRecord,
    ) -> Result<(), LedgerError> {
        match entry.what {
            What::Apply(change) => self.apply_next(alloc, ledger, &change),
            What::Out(change) => self.put_out(alloc, ledger, change),
            What::Done(request) => self.end_request(alloc, ledger, request),
            What::Install(version, userfile) => {
                self.install(alloc, number, ledger, version, userfile)
            }
            What::Compact => self.compact(alloc, number, ledger),
        }
    }

    fn renew<D: Disk>(
        &mut self,
        alloc: Global,
        number: u16,
        ledger: &mut Ledger<D>,
    ) -> Result<(), LedgerError> {
        // For the proof: it is a u32, so if it is not the last one it has a next one.
        let _generation = self.generation();
        self.compact(alloc, number, ledger)
    }

    ghost writes = { leaf_writes };

    ghost renews_layout = { λ _ _ _. refl };

    ghost stays_state = { leaf_stays };
}
