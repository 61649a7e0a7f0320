// A stopped leaf that begins again, as a new leaf of another net.
ghost use Rattle.std.specs.Prelude.{◌≡◌, ◌<◌, Err, IfErr, IfOk, Some, length};
ghost use Rattle.bytetext.specs.declared.failure.Failure.TheVariants.{Refused};
ghost use Rattle.botfolder.specs.declared.fault.FolderFault.TheVariants.{LongName};
ghost use Rattle.botfolder.specs.declared.number_file.TheConstants.{NUMBER_DIGITS};
ghost use Rattle.botfolder.specs.declared.paths.TheConstants.{MAX_PATH};
ghost use Rattle.handshake.specs.Digits.{digits_in};
ghost use Rattle.promotion.specs.declared.fault.PromotionFault.TheVariants.{Folder};
ghost use Rattle.promotion.specs.Faults.{IsOfLeaf};

use crate::fault::{PromotionError, PromotionFault, folder_error};
use crate::leaf::Leaf;
use crate::reading::{leaf_in, net_of, taken};
use botfolder::{BotFolder, FolderFault};
use bytetext::Failure;
use handshake::DrawnNumber;
use std::fs::File;
use std::rt::Files;
use std::str;
use std::time::Clock;

/// A stopped leaf whose journal may be put aside.
pub struct Leaving {
    folder: BotFolder,
    /// The number of its net.
    pub net: DrawnNumber,
    /// The leaf; `None` if its journal was put aside before.
    pub leaf: Option<Leaf>,
}

// By hand, so that this is proved once, and not in each function in which one ends.
impl Drop for Leaving {
    fn drop(self) {
        let Leaving {
            folder: _,
            net: _,
            leaf: _,
        } = self;
    }
}

impl Leaving {
    /// Takes the folder of a stopped leaf. Nothing is moved yet, so that what the leaf had asked can be told first.
    ///
    /// # Errors
    /// Those of [`standing_of`](crate::standing_of).
    pub fn take<R: AllocGlobal + Files<File = File> + Clock>(
        rt: &R,
        folder: &str,
    ) -> Result<Leaving, PromotionError>
        ensures net { IfOk result (λ leaving. digits_in NUMBER_DIGITS leaving.net ≡ Some leaving.net) }
        ensures long_name { MAX_PATH < length folder.now → result ≡ Err (Refused (Folder LongName)) }
        ensures fault { IfErr result IsOfLeaf }
    {
        let folder = taken(rt, folder)?;
        let leaf = match leaf_in(rt, &folder) {
            Ok(leaf) => Some(leaf),
            Err(Failure::Refused(PromotionFault::Folder(FolderFault::NoBot))) => None,
            Err(error) => return Err(error),
        };
        let net = net_of(rt, &folder)?;
        Ok(Leaving { folder, net, leaf })
    }

    /// Puts the journal aside, as [`put_journal_aside`](BotFolder::put_journal_aside) does: the next start of the leaf is
    /// that of a new leaf, which forgets the number of its net and joins any. If that was done before, does nothing.
    ///
    /// # Errors
    /// `Folder`, with `NoBot` if there is no journal and none was put aside, and `AsideBefore` if there are both; `NoMemory`
    /// if an allocation fails. The leaf is then as it was, or its journal is aside.
    pub fn start_over<R: AllocGlobal + Files<File = File>>(
        &self,
        rt: &R,
    ) -> Result<(), PromotionError>
        ensures fault { IfErr result IsOfLeaf }
    {
        let Ok(net) = str::from_utf8(self.net.as_bytes()) else {
            return Err(Failure::Refused(PromotionFault::BadNet));
        };
        match self.folder.put_journal_aside(rt, net) {
            Ok(()) => Ok(()),
            Err(error) => Err(folder_error(error)),
        }
    }
}
