// What a server tells of a person, wherever that person is a member.
ghost use Rattle.std.specs.Prelude.{◌≡◌, IfOk, OnErr, not, true};
ghost use Rattle.std.specs.Option.{option_copied};
ghost use Rattle.chanstate.specs.Memory.{retells};
ghost use Rattle.chanstate.specs.Seen.{detail_seen};

use crate::detail_parts::DetailParts;
use bytetext::{NoMemory, Text};
use std::alloc::Global;

/// What a server tells of a person.
#[derive(Drop)]
pub enum Detail {
    // The account under which the person is logged in; empty if the person is logged out.
    Account(Text),
    // The user and host.
    Address { user: Text, host: Text },
}

impl Detail {
    // Copies the parts of a detail.
    pub(crate) fn of(alloc: Global, parts: DetailParts<'_>) -> Result<Detail, NoMemory>
        ensures { IfOk result (λ detail. detail ≡ detail_seen parts.entry) }
    {
        match parts {
            DetailParts::Account(account) => Ok(Detail::Account(Text::from_slice(alloc, account)?)),
            DetailParts::Address { user, host } => {
                let user = Text::from_slice(alloc, user)?;
                let host = Text::from_slice(alloc, host)?;
                Ok(Detail::Address { user, host })
            }
        }
    }
}
