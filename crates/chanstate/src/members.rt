// A list of members.
ghost use Rattle.std.specs.Prelude.{◌≡◌, ◌<◌, [], length, IfOk, IfErr};

use crate::member::Member;
use crate::roster::Roster;
use bytetext::{NoMemory, TryCopy, copies_of};
use std::alloc::Global;
use std::marker::Model;

/// The members of a channel, in the order in which they came. Contracts see the list of them.
#[derive(Debug, Drop)]
pub struct Members {
    items: Vec<Member>,
}

impl Model for Members {
    ghost use Rattle.std.specs.Prelude.{List};
    ghost use Rattle.chanstate.specs.declared.member.Member.{Member};

    ghost Value = { List Member };

    ghost view = { λ m. m.items.items };
}

impl Members {
    /// Creates an empty list. Allocates nothing.
    pub fn new(alloc: Global) -> Members
        ensures { result ≡ [] }
    {
        Members {
            items: Vec::new(alloc),
        }
    }

    /// Returns the members, in order.
    pub fn as_slice(&self) -> &[Member]
        ensures { result.now ≡ self.now }
    {
        self.items.as_slice()
    }

    /// Returns how many members there are.
    pub fn len(&self) -> usize
        ensures { result ≡ length self.now }
    {
        self.items.len()
    }

    // Copies the members of `roster`, in order.
    pub(crate) fn copied(alloc: Global, roster: &Roster) -> Result<Members, NoMemory>
        ensures members { IfOk result (λ m. m ≡ roster.now) }
        ensures memory { IfErr result (λ _. 0 < length roster.now) }
    {
        let items = roster.copies(alloc)?;
        Ok(Members { items })
    }
}

impl TryCopy for Members {
    fn copy(&self, alloc: Global) -> Result<Members, NoMemory> {
        let items = copies_of(alloc, self.items.as_slice())?;
        Ok(Members { items })
    }
}
