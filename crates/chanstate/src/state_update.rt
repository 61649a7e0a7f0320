// A message that is about to be taken in.
ghost use Rattle.std.specs.Prelude.{◌≡◌, true, IfOk, OnErr};
ghost use Rattle.std.specs.Borrow.{sem};
ghost use Rattle.chanstate.specs.Items.{items_of};
ghost use Rattle.chanstate.specs.Steps.{after};
ghost use Rattle.chanstate.specs.Memory.{takes_memory};
ghost use Rattle.chanstate.specs.Plans.{IsReady, Suits};
ghost use Rattle.chanstate.specs.Updates.{rests_if_refused};

use crate::channels::Channels;
use crate::message_plan::MessagePlan;
use crate::state::ChanState;
use bytetext::{NoMemory, Text};
use ircline::Message;
use std::alloc::Global;
use std::marker::Model;
use std::mem;

/// What was prepared for a message, with the state that it is for. Contracts see that state, and the state after the
/// message if the message allocates.
#[derive(Drop)]
pub struct Made {
    state: ChanState,
    plan: MessagePlan,
    alloc: Global,
}

impl Model for Made {
    ghost use Rattle.std.specs.Prelude.{false, Option};
    ghost use Rattle.chanstate.specs.declared.state.ChanState.{ChanState};
    ghost use Rattle.chanstate.specs.Plans.{after_plan, settled};

    ghost Value = { ChanState × Option ChanState };

    ghost view = { λ m. (settled false m.plan m.state, after_plan m.plan m.state) };
}

impl Made {
    // Returns the state as it is.
    fn undone(self) -> ChanState
        ensures { result ≡ self.0 }
    {
        let Made {
            mut state,
            plan,
            ..
        } = self;
        state.settle(plan, false);
        state
    }

    // Returns the state after `message`.
    fn done(self, message: &Message) -> ChanState
        requires { Suits (items_of message.now) self.0 self.1 }
        ensures { result ≡ after message.now self.0 }
    {
        let Made {
            mut state,
            plan,
            alloc,
        } = self;
        let plain = plan.is_plain();
        state.settle(plan, true);
        if plain {
            state.take_in(alloc, message);
        }
        state
    }
}

/// A state that is about to take in a message, with everything allocated for it. It borrows the state until
/// [`commit`](Update::commit) or [`cancel`](Update::cancel), one of which must be called.
pub struct StateUpdate<'a, M> {
    state: &'a mut ChanState,
    made: M,
}

impl ChanState {
    /// Allocates all that `message` needs, before anything visible changes.
    ///
    /// # Errors
    /// Returns `NoMemory` if an allocation fails, for the messages that [`apply`](ChanState::apply) names; the state is
    /// then unchanged.
    pub fn ready(
        &mut self,
        alloc: Global,
        message: &Message,
    ) -> Result<StateUpdate<'_, Made>, NoMemory>
        ensures* unchanged_at_err { sem 𝓛 (rests_if_refused self.entry result) }
        ensures same_reference { IfOk result (λ update. update.state.ghost_name ≡ self.entry.ghost_name) }
        ensures ready { IfOk result (λ update. IsReady message.now self.old update.made) }
        ensures memory { OnErr result (takes_memory message.now self.old ≡ true) }
    {
        let made = make(self, alloc, message)?;
        Ok(StateUpdate { state: self, made })
    }

    // Makes `state` the state.
    fn put(&mut self, state: ChanState)
        ensures { self.new ≡ state }
    {
        *self = state;
    }
}

impl StateUpdate<'_, Made> {
    /// Takes in `message`, which was made ready. Allocates nothing.
    pub fn commit(self, message: &Message)
        requires { Suits (items_of message.now) self.made.0 self.made.1 }
        ensures { self.exit.0.now ≡ after message.now self.entry.made.0 }
    {
        let StateUpdate { state, made } = self;
        state.put(made.done(message));
    }

    /// Gives the message up: the state is as it was before [`ready`](ChanState::ready). Allocates nothing.
    pub fn cancel(self)
        ensures { self.exit.0.now ≡ self.entry.made.0 }
    {
        let StateUpdate { state, made } = self;
        state.put(made.undone());
    }
}

// Prepares `message`. The state is left without what it held.
fn make(state: &mut ChanState, alloc: Global, message: &Message) -> Result<Made, NoMemory>
    ensures ready { IfOk result (λ made. IsReady message.now state.old made) }
    ensures memory { OnErr result (takes_memory message.now state.old ≡ true) }
    ensures err { OnErr result (state.new ≡ state.old) }
{
    let plan = state.plan(alloc, message)?;
    let empty = ChanState {
        nick: Text::empty(alloc),
        channels: Channels::new(alloc),
        support: state.support,
    };
    let state = mem::replace(state, empty);
    Ok(Made { state, plan, alloc })
}
