// A change that the hub accepted.
ghost use Rattle.std.specs.Prelude.{◌≡◌};

use bytetext::{NoMemory, TryCopy};
use std::alloc::Global;
use std::marker::Model;
use userfile::Change;

/// An accepted change, and who asked for it.
#[derive(Drop)]
pub struct AcceptedChange {
    origin: u16,
    request: u32,
    change: Change,
}

impl Model for AcceptedChange {
    ghost use Rattle.protocol.specs.Packets.{AcceptedChange as Accepted};

    ghost Value = { Accepted };

    ghost view = { λ a. record { origin = a.origin; request = a.request; change = a.change } };
}

impl AcceptedChange {
    ghost use Rattle.std.specs.Prelude.{◌≡◌};

    /// Creates the accepted change of `change`, which the bot `origin` asked for under its own request number
    /// `request`. Both numbers are 0 for the hub's own changes.
    pub fn new(origin: u16, request: u32, change: Change) -> AcceptedChange
        ensures { result ≡ record { origin = origin; request = request; change = change } }
    {
        AcceptedChange {
            origin,
            request,
            change,
        }
    }

    /// Returns the bot that asked: 0 for the hub.
    pub fn origin(&self) -> u16
        ensures { result ≡ self.now.origin }
    {
        self.origin
    }

    /// Returns the asking leaf's request number: 0 for the hub's own.
    pub fn request(&self) -> u32
        ensures { result ≡ self.now.request }
    {
        self.request
    }

    /// Returns the change itself.
    pub fn change(&self) -> &Change
        ensures { result.now ≡ self.now.change }
    {
        &self.change
    }
}

impl TryCopy for AcceptedChange {
    fn copy(&self, alloc: Global) -> Result<AcceptedChange, NoMemory> {
        let change = self.change.copy(alloc)?;
        Ok(AcceptedChange::new(self.origin, self.request, change))
    }
}
