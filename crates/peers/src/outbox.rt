// The bytes that wait to be sealed.
ghost use Rattle.std.specs.Prelude.{◌≡◌, ◌≤◌, ◌-◌, drop, length};

use bytetext::NoMemory;
use std::alloc::Global;
use std::marker::Model;

// The frames that wait to be sealed, in order. Contracts see their bytes. Those that were sealed stay in front until they
// are half of all, and are then removed at once: a snapshot of some megabytes goes out in thousands of pieces.
pub(crate) struct Outbox {
    bytes: Vec<u8>,
    // How many of the bytes were sealed.
    sealed: usize,
}

// Written by hand, so that the drop is proved once, and not in each function that drops one.
impl Drop for Outbox {
    fn drop(self) {
        let Outbox {
            bytes: _,
            sealed: _,
        } = self;
    }
}

impl Model for Outbox {
    ghost use Rattle.std.specs.Prelude.{List, ℕ, ◌≤◌, drop, vec_len};

    ghost Value = { List ℕ };

    ghost view = { λ o. drop o.sealed o.bytes.items };

    ghost invariant = { λ o. o.sealed ≤ vec_len o.bytes };
}

impl Outbox {
    ghost use Rattle.std.specs.Prelude.{◌≡◌, ◌≤◌, ◌<◌, ◌++◌, ◌↔◌, [], IsTrue, take, drop, length, OnOk, OnErr};

    // An empty outbox. Allocates nothing.
    pub(crate) fn new(alloc: Global) -> Outbox
        ensures { result ≡ [] }
    {
        Outbox {
            bytes: Vec::new(alloc),
            sealed: 0,
        }
    }

    // The number of bytes that wait.
    pub(crate) fn len(&self) -> usize
        ensures { result ≡ length self.now }
    {
        self.bytes.len() - self.sealed
    }

    // Appends `bytes`.
    pub(crate) fn put(&mut self, bytes: &[u8]) -> Result<(), NoMemory>
        ensures ok { OnOk result (self.new ≡ self.old ++ bytes.now) }
        ensures err { OnErr result (self.new ≡ self.old) }
    {
        self.bytes.extend_from_slice(bytes)?;
        Ok(())
    }

    // The first `most` bytes, or all if there are fewer.
    pub(crate) fn front(&self, most: usize) -> &[u8]
        ensures { result.now ≡ take most self.now }
    {
        let waiting = &self.bytes[self.sealed..];
        &waiting[..most.min(waiting.len())]
    }

    // Removes the first `count` bytes. Allocates nothing.
    pub(crate) fn take_front(&mut self, count: usize)
        requires { count ≤ length self.old }
        ensures { self.new ≡ drop count self.old }
    {
        self.sealed += count;
        if self.sealed >= self.bytes.len() - self.sealed {
            remove_front(&mut self.bytes, self.sealed);
            self.sealed = 0;
        }
    }
}

// Removes the first `count` bytes. If none is left, gives back the room: a hub has an outbox for each leaf, mostly empty.
fn remove_front(bytes: &mut Vec<u8>, count: usize)
    requires { count ≤ length bytes.old.items }
    ensures { bytes.new.items ≡ drop count bytes.old.items }
{
    let left = bytes.len() - count;
    bytes.copy_within(count.., 0);
    bytes.truncate(left);
    if left == 0 {
        bytes.shrink_to_fit();
    }
}
