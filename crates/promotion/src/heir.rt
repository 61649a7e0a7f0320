// The journal of an heir's hub.
ghost use Rattle.std.specs.Prelude.{◌≡◌, IfErr, IfOk};
ghost use Rattle.disks.specs.State.{IsSettled};
ghost use Rattle.botjournal.specs.Bases.{IsGoodBase};
ghost use Rattle.botjournal.specs.Contents.{new_contents};
ghost use Rattle.botjournal.specs.Ledger.{Leaves, settled};
ghost use Rattle.promotion.specs.Faults.{CannotMake};
ghost use Rattle.promotion.specs.Promotions.{Promotes, heir_base};

use crate::fault::{PromotionError, PromotionFault};
use crate::leaf::Leaf;
use botfolder::FolderFault;
use botjournal::{Base, Ledger};
use bytejournal::{Disks, JournalFault};
use bytetext::{Failure, NoMemory, Seq, copies_of};
use disks::Disk;
use std::alloc::Global;

/// Creates on the disks `first` and `second` the journal of the hub of an heir: at the version of `leaf`, with its
/// records, and without replies. What the disks held is lost.
///
/// # Errors
/// `NoMemory` if an allocation fails, and `Heir(DiskFails)` if a disk failed. The disks are dropped.
pub fn make_heir<D: Disk>(
    alloc: Global,
    leaf: &Leaf,
    first: D,
    second: D,
) -> Result<Disks<D>, PromotionError>
    requires first_settled { IsSettled (D.state first) }
    requires second_settled { IsSettled (D.state second) }
    // A process that opens the leaf shows a version and records, and whatever a crash leaves on the disks means the hub
    // of an heir at that version with those records, whatever the number of its leaves.
    ensures promotes { IfOk result (λ disks. Promotes leaf.now (D.state disks.first) (D.state disks.second)) }
    // It is a new journal: of the heir's base alone, in the first generation.
    ensures journal { IfOk result (λ disks. Leaves (D.state disks.first) (D.state disks.second)
        (settled (new_contents (heir_base leaf.now.base)))) }
    ensures fault { IfErr result CannotMake }
{
    leaf.know();
    let base = hub_base(alloc, leaf)?;
    match Ledger::create(alloc, first, second, &base) {
        Ok(ledger) => Ok(ledger.into_disks()),
        Err(returned) => Err(create_error(returned.error)),
    }
}

// The base of the hub of an heir.
fn hub_base(alloc: Global, leaf: &Leaf) -> Result<Base, NoMemory>
    ensures base { IfOk result (λ base. base ≡ heir_base leaf.now.base) }
    ensures good { IfOk result IsGoodBase }
{
    leaf.know();
    Ok(Base {
        bot: 0,
        version: leaf.version(),
        records: Seq::new(copies_of(alloc, leaf.records())?),
        replies: Seq::empty(alloc),
        last_request: 0,
        out: Seq::empty(alloc),
    })
}

// Why the journal can't be created.
fn create_error(error: Failure<JournalFault>) -> PromotionError
    ensures { CannotMake result }
{
    match error {
        Failure::NoMemory => Failure::NoMemory,
        Failure::Refused(
            JournalFault::DiskFault
            | JournalFault::NotAJournal
            | JournalFault::Spent
            | JournalFault::GenerationsSpent,
        ) => Failure::Refused(PromotionFault::Heir(FolderFault::DiskFails)),
    }
}
