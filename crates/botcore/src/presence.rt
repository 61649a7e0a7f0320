// The channels that a bot is on, and how it leaves them all without allocating.

use bytetext::{NoMemory, TryCopy};
use chanstate::ChanState;
use ircline::Message;
use std::alloc::Global;
use std::marker::Model;

// The channels that a bot is on.
//
// A bot whose journal was opened again is on no channel, and getting there must not fail. So the state of a bot that
// has just connected is created once and kept beside the current one.
#[derive(Drop)]
pub(crate) struct Presence {
    // The state on no channel, under the nick of the configuration.
    first: ChanState,
    // The state after the lines since then, if there were any.
    since: Option<ChanState>,
}

impl Model for Presence {
    ghost use Rattle.std.specs.Prelude.{unwrap_or};
    ghost use Rattle.botcore.specs.Presence.{Presence};

    ghost Value = { Presence };

    ghost view = { λ p. record { first = p.first; current = unwrap_or p.since p.first } };
}

impl Presence {
    ghost use Rattle.std.specs.Prelude.{◌≡◌, ◌≢◌, false, IfOk, IsOk, OnOk, OnErr};
    ghost use Rattle.chanstate.specs.Memory.{takes_memory};
    ghost use Rattle.chanstate.specs.Steps.{after};
    ghost use Rattle.botcore.specs.Presence.{absent};

    // Creates the state on no channel, under this nick.
    pub(crate) fn new(alloc: Global, nick: &[u8]) -> Result<Presence, NoMemory>
        ensures { IfOk result (λ presence. presence ≡ absent nick.now) }
    {
        let first = ChanState::new(alloc, nick)?;
        Ok(Presence { first, since: None })
    }

    // Returns the current channels.
    pub(crate) fn current(&self) -> &ChanState
        ensures { result.now ≡ self.now.current }
    {
        match &self.since {
            Some(since) => since,
            None => &self.first,
        }
    }

    // Leaves all channels. Does not allocate.
    pub(crate) fn leave_all(&mut self)
        ensures { self.new ≡ record self.old { current = self.old.first } }
    {
        self.since = None;
    }

    // Applies a message. If `since` exists, a message with nothing to keep does not allocate.
    pub(crate) fn apply(&mut self, alloc: Global, message: &Message) -> Result<(), NoMemory>
        ensures ok { OnOk result (self.new ≡ record self.old { current = after message.now self.old.current }) }
        ensures err { OnErr result (self.new ≡ self.old) }
        ensures needs_none { takes_memory message.now self.old.current ≡ false → self.old.current ≢ self.old.first
            → IsOk result }
    {
        match &mut self.since {
            Some(since) => since.apply(alloc, message),
            None => {
                let mut since = self.first.copy(alloc)?;
                since.apply(alloc, message)?;
                self.since = Some(since);
                Ok(())
            }
        }
    }
}
