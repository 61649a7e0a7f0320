// What a bot's connections were told, for contracts alone.
ghost use Rattle.std.specs.Prelude.{◌≡◌, ◌∷◌, [], List};
ghost use Rattle.std.specs.Borrow.{ftrue};
ghost use Rattle.sharelink.specs.declared.answer.Outgoing.{Outgoing as Told};

use sharelink::Outgoing;
use std::marker::Model;

/// An account of all packets that a bot's connections were told, the newest first.
///
/// Only contracts see it. At run time it is empty, so it allocates nothing.
#[derive(Drop)]
pub struct MailAccount {
    pub ghost told: { List Told },
}

impl Model for MailAccount {
    ghost also_owns = { λ _. ftrue };
}

impl MailAccount {
    // Nothing was told yet.
    pub(crate) fn new() -> MailAccount
        ensures { result.told ≡ [] }
    {
        MailAccount {}
    }

    // Notes that the packet of `outgoing` was told.
    pub(crate) fn note(&mut self, outgoing: &Outgoing)
        ensures { self.new.told ≡ outgoing.now ∷ self.old.told }
    {
        *self = self.after(outgoing);
    }

    // The account after one more packet.
    fn after<A>(&self, _outgoing: &A) -> MailAccount
        ghost sent: { Told }
        ensures { result.told ≡ sent ∷ self.now.told }
    {
        MailAccount {}
    }
}
