// The stopped leaf of a folder.
ghost use Rattle.std.specs.Prelude.{◌≡◌, ◌<◌, ◌↔◌, Err, IfErr, IfOk, Some, length};
ghost use Rattle.bytetext.specs.declared.failure.Failure.TheVariants.{Refused};
ghost use Rattle.botfolder.specs.declared.fault.FolderFault.TheVariants.{LongName};
ghost use Rattle.botfolder.specs.declared.number_file.TheConstants.{NUMBER_DIGITS};
ghost use Rattle.botfolder.specs.declared.paths.TheConstants.{MAX_PATH};
ghost use Rattle.handshake.specs.Digits.{digits_in};
ghost use Rattle.promotion.specs.declared.fault.PromotionFault.TheVariants.{Folder};
ghost use Rattle.promotion.specs.Faults.{IsOfLeaf};
ghost use Rattle.promotion.specs.Leaves.{IsStanding};

use crate::fault::{PromotionError, PromotionFault, folder_error};
use crate::leaf::Leaf;
use botfolder::{BotFolder, read_stopped};
use bytetext::Failure;
use handshake::DrawnNumber;
use std::fs::File;
use std::rt::Files;
use std::time::Clock;

/// Where a stopped leaf stands.
#[derive(Clone, Copy)]
pub struct LeafStanding {
    /// The leaf's number.
    pub number: u16,
    /// The number of its net.
    pub net: DrawnNumber,
    /// The version of its records.
    pub version: u32,
}

/// Returns where the stopped leaf of `folder` stands.
///
/// # Errors
/// `Folder` if the folder can't be used, or a bot runs on it; `NoNet`, `BadNet`, `IsHub`, `OlderLayout`, `Unread` and
/// `GenerationsSpent`, as [`PromotionFault`] describes them; `NoMemory` if an allocation fails.
pub fn standing_of<R: AllocGlobal + Files<File = File> + Clock>(
    rt: &R,
    folder: &str,
) -> Result<LeafStanding, PromotionError>
    // The journal of a leaf says so, which `Leaf::standing` reads: of a number above 0, at the version of its records.
    ensures standing { IfOk result IsStanding }
    ensures long_name { MAX_PATH < length folder.now → result ≡ Err (Refused (Folder LongName)) }
    ensures fault { IfErr result IsOfLeaf }
{
    let folder = taken(rt, folder)?;
    let leaf = leaf_in(rt, &folder)?;
    let net = net_of(rt, &folder)?;
    leaf.know();
    Ok(leaf.standing(net))
}

// Takes the folder of a bot that does not run.
pub(crate) fn taken<R: AllocGlobal + Files<File = File> + Clock>(
    rt: &R,
    folder: &str,
) -> Result<BotFolder, PromotionError>
    ensures long_name { (MAX_PATH < length folder.now) ↔ (result ≡ Err (Refused (Folder LongName))) }
    ensures fault { IfErr result IsOfLeaf }
{
    match BotFolder::take_stopped(rt, folder) {
        Ok(folder) => Ok(folder),
        Err(error) => Err(folder_error(error)),
    }
}

// Reads the leaf of a folder that was taken.
pub(crate) fn leaf_in<R: AllocGlobal + Files<File = File>>(
    rt: &R,
    folder: &BotFolder,
) -> Result<Leaf, PromotionError>
    ensures fault { IfErr result IsOfLeaf }
{
    match read_stopped(rt, folder.path()) {
        Ok(copies) => Leaf::read(rt.alloc(), copies),
        Err(error) => Err(folder_error(error)),
    }
}

// Reads the number of a leaf's net.
pub(crate) fn net_of<R: AllocGlobal + Files<File = File>>(
    rt: &R,
    folder: &BotFolder,
) -> Result<DrawnNumber, PromotionError>
    ensures net { IfOk result (λ net. digits_in NUMBER_DIGITS net ≡ Some net) }
    ensures fault { IfErr result IsOfLeaf }
{
    match folder.net(rt) {
        Ok(Some(digits)) => match DrawnNumber::read(&digits) {
            Some(net) => Ok(net),
            None => Err(Failure::Refused(PromotionFault::BadNet)),
        },
        Ok(None) => Err(Failure::Refused(PromotionFault::NoNet)),
        Err(error) => Err(folder_error(error)),
    }
}
