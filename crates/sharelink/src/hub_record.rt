// What a hub keeps and journals.
ghost use Rattle.std.specs.Prelude.{◌≡◌, ◌<◌, ◌^◌};
ghost use Rattle.std.specs.Option.{option_copied};
ghost use Rattle.protocol.specs.HubRules.{next_number};

use crate::accepted::AcceptedChange;
use crate::end_state::EndState;
use crate::hub_state::HubState;
use crate::leaf_replies::LeafReplies;
use crate::state_fault::StateError;
use botjournal::{Base, Entry, Ledger, LedgerError};
use bytetext::{NoMemory, Seq};
use disks::Disk;
use std::alloc::Global;
use std::marker::Model;
use userfile::ChangeFault;

#[derive(Drop)]
enum What {
    Accept(AcceptedChange),
    Settle(u16, ChangeFault),
    Rebase,
}

/// What a hub journals: an accepted change, the rejection of a leaf's next request, or its state alone.
#[derive(Drop)]
pub struct HubRecord {
    what: What,
}

impl Model for HubRecord {
    ghost use Rattle.protocol.specs.HubRules.{HubRecord as Record};

    ghost Value = { Record };

    ghost use Rattle.sharelink.specs.HubRecords.{shown};

    ghost view = { λ r. shown r.what };
}

impl HubRecord {
    ghost use Rattle.std.specs.Prelude.{◌≡◌};
    ghost use Rattle.protocol.specs.HubRules.{Accept, Settle, Rebase};

    /// Creates the record that the change `entry` is accepted under the next number.
    pub fn accept(entry: AcceptedChange) -> HubRecord
        ensures { result ≡ Accept entry }
    {
        HubRecord {
            what: What::Accept(entry),
        }
    }

    /// Creates the record that the next request of `leaf` is rejected for `fault`.
    pub fn settle(leaf: u16, fault: ChangeFault) -> HubRecord
        ensures { result ≡ Settle leaf fault }
    {
        HubRecord {
            what: What::Settle(leaf, fault),
        }
    }

    /// Creates the record of the state alone.
    pub fn rebase() -> HubRecord
        ensures { result ≡ Rebase }
    {
        HubRecord { what: What::Rebase }
    }
}

impl EndState for HubState {
    type Record = HubRecord;

    ghost use Rattle.std.specs.Prelude.{◌≤◌};
    ghost use Rattle.std.proofs.Common.{refl};
    ghost use Rattle.protocol.specs.HubRules.{hub_folded, Rebase};
    ghost use Rattle.protocol.specs.Journals.{hub_meaning, IsHubState};
    ghost use Rattle.sharelink.specs.declared.TheConstants.{MAX_LEAVES};
    ghost use Rattle.sharelink.specs.Records.{start_hub, hub_pending, HubMayWrite};
    ghost use Rattle.sharelink.specs.EndLaws.{hub_writes, hub_stays};

    ghost is_end = { λ leaves. leaves ≤ MAX_LEAVES };

    ghost bot = { λ _. 0 };

    ghost start = { start_hub };

    ghost is_state = { IsHubState };

    ghost meaning = { hub_meaning };

    ghost may = { HubMayWrite };

    ghost pending = { λ _. hub_pending };

    ghost folded = { hub_folded };

    ghost renewal = { Rebase };

    fn bot(_leaves: u16) -> u16 {
        0
    }

    fn start(alloc: Global, leaves: u16, _last: u32) -> Result<HubState, NoMemory> {
        HubState::new(alloc, leaves)
    }

    fn read(
        alloc: Global,
        leaves: u16,
        generation: u32,
        base: Base,
        entries: Seq<Entry>,
    ) -> Result<HubState, StateError> {
        HubState::read(alloc, leaves, generation, base, entries)
    }

    fn write<D: Disk>(
        &mut self,
        alloc: Global,
        _leaves: u16,
        ledger: &mut Ledger<D>,
        entry: HubRecord,
    ) -> Result<(), LedgerError> {
        match entry.what {
            What::Accept(accepted) => self.accept_next(alloc, ledger, accepted),
            What::Settle(leaf, fault) => {
                let request = next_number(self.replies_to(leaf));
                self.refuse_next(alloc, ledger, leaf, request, fault)
            }
            What::Rebase => self.rebase(alloc, ledger),
        }
    }

    fn renew<D: Disk>(
        &mut self,
        alloc: Global,
        _leaves: u16,
        ledger: &mut Ledger<D>,
    ) -> Result<(), LedgerError> {
        // For the proof: it is a u32, so if it is not the last one it has a next one.
        let _generation = self.generation();
        self.rebase(alloc, ledger)
    }

    ghost writes = { hub_writes };

    ghost renews_layout = { λ _ _ _. refl };

    ghost stays_state = { hub_stays };
}

// Returns the number of a leaf's next request.
fn next_number(kept: Option<&LeafReplies>) -> u32
    requires { next_number (option_copied kept) < 2 ^ 32 }
    ensures { result ≡ next_number (option_copied kept.entry) }
{
    match kept {
        Some(kept) => kept.last_request() + 1,
        None => 1,
    }
}
