// Why a table rejects a bind.
ghost use Rattle.std.specs.Prelude.{◌≡◌};
ghost use Rattle.procs.specs.Tables.{code_of};

use bytetext::Failure;
use thiserror::Error;

/// Why a bind is not made or not removed, in the order in which the causes are tested.
#[derive(Clone, Copy, Debug, PartialEq, Eq, Error)]
pub enum BindFault {
    /// B1: the flags are no flag expression.
    #[error("write the flags as *, or as letters with + - and | or & between parts")]
    BadFlags,
    /// B2: the mask is empty or has more than 120 bytes, or it has a space though the kind takes one word.
    #[error("give a mask of 1 to 120 bytes, for msg, pub and bot one word without a space")]
    BadMask,
    /// B3: the mask of a cron bind isn't cron fields.
    #[error("bad cron mask: write up to five fields, as '0-30/10 8,20 * * 1-5'")]
    BadCron,
    /// B4: the table has 500 binds and the new one replaces none, or no number is left.
    #[error("unbind something first: the table is full, or its numbers are spent")]
    Full,
    /// B5: no bind has this kind, mask and proc.
    #[error("no such bind: give the kind, the mask and the proc of one that is held")]
    NoSuchBind,
}

impl BindFault {
    /// Returns the short code that transcripts print: `B1` to `B5`.
    pub fn code(self) -> &'static str
        ensures { result.now ≡ code_of self }
    {
        match self {
            BindFault::BadFlags => "B1",
            BindFault::BadMask => "B2",
            BindFault::BadCron => "B3",
            BindFault::Full => "B4",
            BindFault::NoSuchBind => "B5",
        }
    }
}

/// Why [`BindTable::bind`](crate::BindTable::bind) made no bind: a fault, or out of memory if there is no fault.
pub type BindError = Failure<BindFault>;
