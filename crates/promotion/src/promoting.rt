// The folder of a stopped leaf, of which that of an heir's hub is made.
ghost use Rattle.std.specs.Prelude.{◌≡◌, ◌≢◌, ◌<◌, Err, IfErr, IfOk, Some, length};
ghost use Rattle.bytetext.specs.declared.failure.Failure.TheVariants.{Refused};
ghost use Rattle.disks.specs.Memory.{state_of};
ghost use Rattle.botfolder.specs.declared.fault.FolderFault.TheVariants.{LongName};
ghost use Rattle.botfolder.specs.declared.number_file.TheConstants.{NUMBER_DIGITS};
ghost use Rattle.botfolder.specs.declared.paths.TheConstants.{MAX_PATH};
ghost use Rattle.botfolder.specs.Folders.{AreReady};
ghost use Rattle.handshake.specs.Digits.{digits_in};
ghost use Rattle.promotion.specs.declared.fault.PromotionFault.TheVariants.{Folder};
ghost use Rattle.promotion.specs.Faults.{IsOfPromotion};
ghost use Rattle.handshake.specs.Parents.{parent_line};
ghost use Rattle.promotion.specs.Promotions.{Promotes};

use crate::fault::{PromotionError, PromotionFault, heir_error};
use crate::heir::make_heir;
use crate::leaf::Leaf;
use crate::numbers::{draw_other, parent_line};
use crate::reading::{leaf_in, net_of, taken};
use botfolder::{Begun, BotFolder, FolderError, FolderFault};
use bytejournal::Disks;
use bytetext::Failure;
use disks::{FileDisk, Pair};
use handshake::DrawnNumber;
use std::fs;
use std::fs::File;
use std::random::RandomSource;
use std::rt::Files;
use std::snapshot::Snapshot;
use std::time::Clock;

/// A leaf that was promoted.
#[derive(Drop)]
pub struct Promoted {
    /// The leaf.
    pub leaf: Leaf,
    /// The number of its net.
    pub parent: DrawnNumber,
    /// The number of the heir's net.
    pub net: DrawnNumber,
    /// The disks of the heir's journal as they were made, for contracts alone.
    pub disks: Snapshot<Disks<FileDisk>>,
}

/// Makes the folder `heir` of an heir's hub, of the stopped leaf of `folder`. That folder is only read, and locked
/// meanwhile; a file `lock` may be created there. At `Ok` a start finds the hub, whatever crash comes; before that
/// nothing has the name `heir`, and a second call ends well.
///
/// # Errors
/// Those of [`standing_of`](crate::standing_of); `Heir(Exists)` if something has the name `heir`, and `Heir` with what else
/// bars that folder; `Beside` if a bot has its name with `.heir` after it; `System` if the system draws no number;
/// `NoMemory` if an allocation fails. Nothing has the name `heir` then, unless the fault is `Heir` with `Full` or
/// `DiskFails`; beside it the folder `heir.heir` may be left, which the next call takes.
pub fn promote<R: AllocGlobal + Files<File = File> + RandomSource + Clock>(
    rt: &R,
    folder: &str,
    heir: &str,
) -> Result<Promoted, PromotionError>
    // The heir's net has a number of its own.
    ensures other_net { IfOk result (λ promoted. promoted.net ≢ promoted.parent) }
    // The journal that was made is that of an heir's hub, of the leaf that is returned.
    ensures promotes { IfOk result (λ promoted. Promotes promoted.leaf (state_of promoted.disks.value.first.mirror)
        (state_of promoted.disks.value.second.mirror)) }
    ensures parent { IfOk result (λ promoted. digits_in NUMBER_DIGITS promoted.parent ≡ Some promoted.parent) }
    ensures long_name { MAX_PATH < length folder.now → result ≡ Err (Refused (Folder LongName)) }
    ensures fault { IfErr result IsOfPromotion }
{
    let folder = taken(rt, folder)?;
    let leaf = leaf_in(rt, &folder)?;
    let parent = net_of(rt, &folder)?;
    let net = draw_other(rt, &parent)?;
    let line = parent_line(rt.alloc(), &parent, leaf.version())?;
    let made = match BotFolder::take_heir(rt, heir) {
        Ok(made) => made,
        Err(error) => return Err(not_taken(rt, heir, error)),
    };
    let disks = fill(rt, &made, &leaf, &parent, &net, line.as_slice())?;
    name(rt, made, heir)?;
    Ok(Promoted {
        leaf,
        parent,
        net,
        disks,
    })
}

// Why the folder in which the heir is made can't be taken.
fn not_taken<R: Files>(rt: &R, heir: &str, error: FolderError) -> PromotionError
    ensures { IsOfPromotion result }
{
    match error {
        Failure::Refused(FolderFault::Exists) if fs::symlink_metadata(rt, heir).is_err() => {
            Failure::Refused(PromotionFault::Beside)
        }
        error => heir_error(error),
    }
}

// Makes all that the heir's hub needs in its folder. The journal comes last: a folder that has one has all.
fn fill<R: AllocGlobal + Files<File = File> + Clock>(
    rt: &R,
    made: &BotFolder,
    leaf: &Leaf,
    parent: &DrawnNumber,
    net: &DrawnNumber,
    line: &[u8],
) -> Result<Snapshot<Disks<FileDisk>>, PromotionError>
    requires other { net.now ≢ parent.now }
    requires line { line.now ≡ parent_line parent.now leaf.now.base.version }
    ensures promotes { IfOk result (λ disks. Promotes leaf.now (state_of disks.value.first.mirror)
        (state_of disks.value.second.mirror)) }
    ensures fault { IfErr result IsOfPromotion }
{
    let Pair { first, second } = empty_disks(rt, made)?;
    if let Err(error) = made.keep_parent(rt, line) {
        return Err(heir_error(error));
    }
    if let Err(error) = made.keep_net(rt, net.as_bytes()) {
        return Err(heir_error(error));
    }
    // They are locked while their folder gets its name.
    let disks = make_heir(rt.alloc(), leaf, first, second)?;
    match made.finish(rt) {
        Ok(()) => Ok(Snapshot::of(&disks)),
        Err(error) => Err(heir_error(error)),
    }
}

// Returns two empty disks of the heir's folder.
fn empty_disks<R: AllocGlobal + Files<File = File> + Clock>(
    rt: &R,
    made: &BotFolder,
) -> Result<Pair, PromotionError>
    ensures ready { IfOk result AreReady }
    ensures fault { IfErr result IsOfPromotion }
{
    match made.begin(rt) {
        Ok(Begun::Empty(disks)) => Ok(disks),
        Ok(Begun::Found(_)) => Err(Failure::Refused(PromotionFault::Heir(FolderFault::Exists))),
        Err(error) => Err(heir_error(error)),
    }
}

// Gives the heir's folder its name.
fn name<R: Files<File = File>>(rt: &R, made: BotFolder, heir: &str) -> Result<(), PromotionError>
    ensures fault { IfErr result IsOfPromotion }
{
    match made.name_heir(rt, heir) {
        Ok(()) => Ok(()),
        Err(error) => Err(heir_error(error)),
    }
}
