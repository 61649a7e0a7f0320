// What the server knows of a client.
ghost use Rattle.std.specs.Prelude.{◌≡◌};
ghost use Rattle.miniircd.specs.People.{is_registered, is_called, blank};

use crate::texts::is_same;
use bytetext::{NoMemory, Text, TryCopy};
use std::alloc::Global;

/// What the server knows of a client: its nick and its user name, each empty until the client has given it.
#[derive(Debug)]
pub struct ClientIdentity {
    /// The nick.
    pub nick: Text,
    /// The user name.
    pub user: Text,
}

// Written by hand, so that it is proved once and not in each function that drops a `ClientIdentity`.
impl Drop for ClientIdentity {
    fn drop(self) {
        let ClientIdentity { nick: _, user: _ } = self;
    }
}

impl ClientIdentity {
    // Creates a client that has said nothing yet. Allocates nothing.
    pub(crate) fn blank(alloc: Global) -> ClientIdentity
        ensures { result ≡ blank }
    {
        ClientIdentity {
            nick: Text::empty(alloc),
            user: Text::empty(alloc),
        }
    }

    // Returns whether both are given.
    pub(crate) fn is_registered(&self) -> bool
        ensures { result ≡ is_registered self.now }
    {
        self.nick.len() > 0 && self.user.len() > 0
    }

    // Returns whether the client holds `nick`.
    pub(crate) fn is_called(&self, nick: &[u8]) -> bool
        ensures { result ≡ is_called nick.now self.now }
    {
        self.nick.len() > 0 && is_same(nick, self.nick.as_bytes())
    }
}

impl TryCopy for ClientIdentity {
    fn copy(&self, alloc: Global) -> Result<ClientIdentity, NoMemory> {
        Ok(ClientIdentity {
            nick: self.nick.copy(alloc)?,
            user: self.user.copy(alloc)?,
        })
    }
}
