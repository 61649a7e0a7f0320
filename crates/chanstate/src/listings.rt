// The names of a channel are listed (RFC 2812 section 3.2.5, reply 353).
ghost use Rattle.std.specs.Prelude.{◌≡◌, ◌∷◌, [], true, OnErr, MatchResult};
ghost use Rattle.chanstate.specs.Items.{NamesTold};
ghost use Rattle.chanstate.specs.Memory.{any_adds};
ghost use Rattle.chanstate.specs.Plans.{IsPlanFor};

use crate::message_plan::MessagePlan;
use crate::newcomers::named_by;
use crate::state::ChanState;
use crate::task::Task;
use bytetext::NoMemory;
use std::alloc::Global;

impl ChanState {
    // Prepares a listing of the members of a channel.
    pub(crate) fn ready_list(
        &mut self,
        alloc: Global,
        channel: &[u8],
        names: &[u8],
    ) -> Result<MessagePlan, NoMemory>
        ensures memory { OnErr result (any_adds (NamesTold channel.now names.now ∷ []) self.old ≡ true) }
        ensures ready { MatchResult result (λ plan. IsPlanFor (NamesTold channel.now names.now ∷ []) plan self.new self.old) (λ _. self.new ≡ self.old) }
    {
        let mapping = self.casemapping();
        let Some(at) = self
            .channels
            .place_lacking(mapping, &self.support, channel, names)
        else {
            return Ok(MessagePlan::Plain);
        };
        let ones = named_by(alloc, mapping, &self.support, names)?;
        let mut takes = Vec::new(alloc);
        self.channels
            .take(alloc, mapping, at, Task::List(ones), &mut takes)?;
        Ok(MessagePlan::Seat { own: None, takes })
    }
}
