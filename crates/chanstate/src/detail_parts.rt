// What a message tells of a person, as borrowed parts of its parameters.
ghost use Rattle.std.specs.Prelude.{◌≡◌};
ghost use Rattle.std.specs.Option.{option_copied};
ghost use Rattle.chanstate.specs.Memory.{retells};
ghost use Rattle.chanstate.specs.Seen.{detail_seen};

use crate::member::Member;

/// What a message tells of a person.
#[derive(Clone, Copy)]
pub enum DetailParts<'a> {
    Account(&'a [u8]),
    Address { user: &'a [u8], host: &'a [u8] },
}

impl DetailParts<'_> {
    // Returns whether there is a member, and this is news of it.
    pub(crate) fn is_news_of(self, member: Option<&Member>) -> bool
        ensures { result ≡ retells (detail_seen self.entry) (option_copied member.entry) }
    {
        let Some(member) = member else {
            return false;
        };
        match self {
            DetailParts::Account(account) => member.account.as_bytes() != account,
            DetailParts::Address { user, host } => {
                member.user.as_bytes() != user || member.host.as_bytes() != host
            }
        }
    }
}
