// A client of the small server that lives in memory.
ghost use Rattle.std.specs.Prelude.{◌≡◌, IsSome, OnSome, position};
ghost use Rattle.live.specs.Present.{is_named};

use bytetext::{NoMemory, Text};
use miniircd::Client;
use std::alloc::Global;
use std::mem;

/// A client in memory, with the lines that it has received since they were last taken.
#[derive(Drop)]
pub struct Guest {
    pub client: Client,
    /// The nick as which it was invited.
    pub nick: Text,
    lines: Vec<Text>,
}

impl Guest {
    /// Creates the guest that is `client` to the server and is invited as `nick`. Never allocates.
    pub fn new(alloc: Global, client: Client, nick: Text) -> Guest {
        Guest {
            client,
            nick,
            lines: Vec::new(alloc),
        }
    }

    /// Returns whether the guest was invited as `nick`, even if it has changed its nick since.
    pub fn is_named(&self, nick: &[u8]) -> bool
        ensures { result ≡ is_named nick.now self.now }
    {
        self.nick.as_bytes() == nick
    }

    /// Gives the guest `line` to read.
    ///
    /// # Errors
    /// `NoMemory` if memory cannot be allocated.
    pub fn tell(&mut self, alloc: Global, line: &[u8]) -> Result<(), NoMemory> {
        self.lines.push(Text::from_slice(alloc, line)?)?;
        Ok(())
    }

    /// Returns the lines that the guest has received since the last call, in order. Never allocates.
    pub fn take_lines(&mut self, alloc: Global) -> Vec<Text> {
        mem::replace(&mut self.lines, Vec::new(alloc))
    }
}

/// Returns the client of the first of `guests` that was invited as `nick`.
pub fn client_of(guests: &[Guest], nick: &[u8]) -> Option<Client>
    ensures { OnSome result (IsSome (position (is_named nick.now) guests.now)) }
{
    let place = place_of(guests, nick)?;
    let guest = guests.get(place)?;
    Some(guest.client)
}

/// Returns the place of the first of `guests` that was invited as `nick`.
pub fn place_of(guests: &[Guest], nick: &[u8]) -> Option<usize>
    ensures { result ≡ position (is_named nick.now) guests.now }
{
    guests.iter().position(|guest| guest.is_named(nick))
}
