// Writing into a journal that takes records.
ghost use Rattle.std.specs.Prelude.{◌≡◌, ◌≢◌, ◌-◌, ◌^◌, false, None, OnOk, OnErr};
ghost use Rattle.userfile.specs.Apply.{refusal, changed};
ghost use Rattle.botjournal.specs.declared.TheConstants.{LAYOUT};
ghost use Rattle.botjournal.specs.Bases.{IsGoodBase};
ghost use Rattle.botjournal.specs.Entries.{IsGoodEntry};
ghost use Rattle.botjournal.specs.Ledger.{Adding, Rebasing};
ghost use Rattle.sharelink.specs.Kept.{WritesAny, LeavesWritten};

use botjournal::{Base, Entry, Ledger, LedgerError, RebaseFault};
use bytetext::Failure;
use disks::{Disk, DiskFault};
use std::alloc::Global;
use userfile::{Change, Userfile};

// Replaces the base, if there are generations left.
pub(crate) fn base_journaled<D: Disk>(
    alloc: Global,
    ledger: &mut Ledger<D>,
    base: &Base,
) -> Result<(), LedgerError>
    requires up { ledger.old.account.down ≡ false }
    requires left { ledger.old.account.contents.generation ≢ 2 ^ 32 - 1 }
    requires good { IsGoodBase base.now }
    ensures row { WritesAny ledger.old (Rebasing base.now) result ledger.new }
    ensures any_moment { LeavesWritten (Rebasing base.now) ledger.old ledger.new }
{
    match ledger.rebase(alloc, base) {
        Ok(()) => Ok(()),
        Err(Failure::NoMemory) => Err(Failure::NoMemory),
        Err(Failure::Refused(RebaseFault::GenerationsSpent)) => unreachable!(),
        Err(Failure::Refused(RebaseFault::DiskFault)) => Err(Failure::Refused(DiskFault)),
    }
}

// Appends the entry of a change that the userfile doesn't refuse, and then applies the change. It allocates everything
// before the first device call; if a disk failed, or memory ran out, the userfile is as it was.
#[tactic(auto, using(crate::proofs::WritingLaws::appended_written))]
pub(crate) fn change_journaled<D: Disk>(
    alloc: Global,
    userfile: &mut Userfile,
    ledger: &mut Ledger<D>,
    change: &Change,
    entry: &Entry,
) -> Result<(), LedgerError>
    requires up { ledger.old.account.down ≡ false }
    requires current { ledger.old.account.contents.layout ≡ LAYOUT }
    requires good { IsGoodEntry entry.now }
    requires taken { refusal userfile.old change.now ≡ None }
    ensures row { WritesAny ledger.old (Adding entry.now) result ledger.new }
    ensures any_moment { LeavesWritten (Adding entry.now) ledger.old ledger.new }
    ensures changes { OnOk result (userfile.new ≡ changed userfile.old change.now) }
    ensures stays { OnErr result (userfile.new ≡ userfile.old) }
{
    let update = match userfile.ready(alloc, change) {
        Ok(update) => update,
        Err(_) => return Err(Failure::NoMemory),
    };
    match ledger.append(alloc, entry) {
        Ok(()) => {
            update.commit();
            Ok(())
        }
        Err(error) => {
            update.cancel();
            Err(error)
        }
    }
}
