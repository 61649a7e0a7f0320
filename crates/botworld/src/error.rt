// Why a world is not made.
ghost use Rattle.std.specs.Prelude.{◌≡◌};
ghost use Rattle.botworld.specs.Codes.{fault_code};

use botcore::Bot;
use disks::Disk;
use procs::{Body, ProcStore, Promise, Run};
use thiserror::Error;

/// A refusal to make a world.
#[derive(Clone, Copy, Debug, PartialEq, Eq, Error)]
pub enum WorldFault {
    /// O1: the bots are not numbered 0 to N, in order, each with N leaves.
    #[error("give the bots in order, numbered from 0, each with as many leaves as follow the hub")]
    BadWorld,
}

impl WorldFault {
    /// Returns the letter and number of the refusal.
    pub fn code(self) -> &'static str
        ensures { result.now ≡ fault_code self }
    {
        match self {
            WorldFault::BadWorld => "O1",
        }
    }
}

/// The bots and the store that the caller passed, of which no world was made.
#[derive(Drop)]
pub struct RefusedWorld<P: Promise, D: Disk, B: Run = Body> {
    /// Why no world was made.
    pub why: WorldFault,
    /// The bots, with their disks.
    pub bots: Vec<Bot<D>>,
    /// The store.
    pub store: ProcStore<P, B>,
}
