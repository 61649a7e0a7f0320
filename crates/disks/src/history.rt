// What happened to a disk, for contracts alone.
ghost use Rattle.std.specs.Prelude.{◌≡◌, List, [], ◌∷◌};
ghost use Rattle.std.specs.Borrow.{ftrue};
ghost use Rattle.disks.specs.Events.{Event, event_of};

use std::marker::{Model, PhantomData};

/// The writes, syncs and openings of a disk, the newest first, each with the bytes that a read gave before it.
///
/// Only contracts see them: at run time a history holds nothing and allocates nothing. A disk notes each event here,
/// and the definitions derive from the noted events what a crash may leave.
#[derive(Drop)]
pub struct History {
    marker: PhantomData<u8>,
    pub ghost events: { List Event },
}

impl Model for History {
    ghost also_owns = { λ _. ftrue };
}

impl History {
    /// Creates a history of no events.
    pub fn new() -> History
        ensures { result.events ≡ [] }
    {
        History {
            marker: PhantomData,
        }
    }

    /// Notes an event. `_numbers` says whether it is a write (1), a sync (0) or an opening (2), at which offset, and
    /// how many bytes long; `_before` is what a read gave before the event.
    pub fn note(&mut self, _numbers: &[u64], _before: &[u8])
        ensures { self.new.events ≡ event_of _numbers.now _before.now ∷ self.old.events }
    {}
}
