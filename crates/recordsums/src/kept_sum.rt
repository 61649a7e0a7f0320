// The sum of the bot's records, computed once for each version.
ghost use Rattle.std.specs.Prelude.{◌≡◌, ◌+◌, ◌<◌, Some, length, IfOk, IfErr, OnErr};
ghost use Rattle.recordsums.specs.KeptSums.{kept_at, no_sum, sum_at};

use crate::record_sum::sum_of;
use bytetext::NoMemory;
use std::alloc::Global;
use userfile::Userfile;

// The sum of the records at a version.
#[derive(Clone, Copy)]
pub(crate) struct SumAt {
    pub(crate) version: u32,
    pub(crate) sum: [u8; 16],
}

/// The last sum that was computed, so that it is computed once for each version.
#[derive(Clone, Copy)]
pub struct KeptSum {
    kept: Option<SumAt>,
}

impl KeptSum {
    /// No sum was computed yet.
    pub fn new() -> KeptSum
        ensures { result ≡ no_sum }
    {
        KeptSum { kept: None }
    }

    /// Returns the sum of the records of `userfile`, which is at `version`. Computes it only if the last one is of another
    /// version.
    ///
    /// # Errors
    /// `NoMemory` as for [`sum_of`]; then the last sum stays.
    pub fn at(
        &mut self,
        alloc: Global,
        version: u32,
        userfile: &Userfile,
    ) -> Result<[u8; 16], NoMemory>
        ensures sum { IfOk result (λ sum. sum ≡ sum_at self.old version userfile.now) }
        ensures kept { IfOk result (λ sum. self.new ≡ kept_at version sum) }
        ensures memory { IfErr result (λ _. 0 < length userfile.now.users + length userfile.now.bans) }
        ensures same { OnErr result (self.new ≡ self.old) }
    {
        match self.kept {
            Some(kept) if kept.version == version => Ok(kept.sum),
            Some(_) | None => {
                let sum = sum_of(alloc, userfile)?;
                self.kept = Some(SumAt { version, sum });
                Ok(sum)
            }
        }
    }
}
