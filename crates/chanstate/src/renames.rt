// Nicks change (RFC 2812 section 3.1.2): on every channel, or on none if memory runs out.
ghost use Rattle.std.specs.Prelude.{◌≡◌, ◌<◌, ◌≤◌, ◌∷◌, true, false, if◌then◌else◌, unwrap_or, ℕ, List, [], length, IfOk, OnOk, OnErr, MatchResult};
ghost use Rattle.chanstate.specs.Channels.{all_renamed};
ghost use Rattle.chanstate.specs.Items.{Renamed};
ghost use Rattle.chanstate.specs.Memory.{adds, any_adds};
ghost use Rattle.chanstate.specs.Views.{mapping_of};
ghost use Rattle.chanstate.specs.Plans.{IsPlanFor};
ghost use Rattle.rfccase.specs.Casemapping.{is_same_by};
ghost use Rattle.chanstate.specs.Members.{renamed};
ghost use Rattle.chanstate.specs.Takes.{IsTaken, given, is_taken, on_place};

use crate::channels::Channels;
use crate::message_plan::MessagePlan;
use crate::names::is_same;
use crate::state::ChanState;
use crate::take::Take;
use crate::task::Task;
use bytetext::{NoMemory, Text};
use rfccase::Casemapping;
use std::alloc::Global;

impl Channels {
    // Prepares the change of the nick `old` on the channel at place `at`, from which nothing was taken out before.
    fn ready_renaming_at(
        &mut self,
        alloc: Global,
        mapping: Casemapping,
        at: usize,
        old: &[u8],
        new: &[u8],
        takes: &mut Vec<Take>,
    ) -> Result<(), NoMemory>
        requires within { at < length self.old }
        requires fresh { (i : ℕ) → at ≤ i → is_taken i takes.old.items ≡ false }
        ensures fresh { (i : ℕ) → at < i → is_taken i takes.new.items ≡ false }
        ensures back { given false takes.new.items self.new ≡ given false takes.old.items self.old }
        ensures done { OnOk result (given true takes.new.items self.new ≡ on_place at (renamed mapping old.now new.now) (given true takes.old.items self.old)) }
    {
        if !self.as_slice()[at].members.holds(mapping, old) {
            return Ok(());
        }
        let task = Task::rename(alloc, mapping, old, new)?;
        self.take(alloc, mapping, at, task, takes)?;
        Ok(())
    }

    // Prepares a change of nick on every channel.
    pub(crate) fn ready_renaming(
        &mut self,
        alloc: Global,
        mapping: Casemapping,
        old: &[u8],
        new: &[u8],
    ) -> Result<Vec<Take>, NoMemory>
        ensures { MatchResult result (λ takes. IsTaken (all_renamed mapping old.now new.now) takes.items self.new self.old) (λ _. self.new ≡ self.old) }
    {
        let mut takes = Vec::new(alloc);
        for at in 0..self.as_slice().len() {
            match self.ready_renaming_at(alloc, mapping, at, old, new, &mut takes) {
                Ok(()) => {}
                Err(refused) => {
                    self.give(takes, false);
                    return Err(refused);
                }
            }
        }
        Ok(takes)
    }
}

impl ChanState {
    // Returns whether `old` is the bot's own nick or that of a member, and is spelled there otherwise than `new`.
    fn respells(&self, old: &[u8], new: &[u8]) -> bool
        ensures { result ≡ adds (Renamed old.now new.now) self.now }
    {
        let mapping = self.casemapping();
        let own = self.nick.as_bytes();
        is_same(mapping, old, own) && own != new || self.channels.respell(mapping, old, new)
    }

    // Prepares a change of nick that changes the spelling.
    pub(crate) fn ready_nick(
        &mut self,
        alloc: Global,
        old: &[u8],
        new: &[u8],
    ) -> Result<MessagePlan, NoMemory>
        ensures memory { OnErr result (any_adds (Renamed old.now new.now ∷ []) self.old ≡ true) }
        ensures ready { MatchResult result (λ plan. IsPlanFor (Renamed old.now new.now ∷ []) plan self.new self.old) (λ _. self.new ≡ self.old) }
    {
        if !self.respells(old, new) {
            return Ok(MessagePlan::Plain);
        }
        let own = self.own_after(alloc, old, new)?;
        let mapping = self.casemapping();
        let takes = self.channels.ready_renaming(alloc, mapping, old, new)?;
        Ok(MessagePlan::Seat { own, takes })
    }

    // Returns the bot's new nick, if `old` is the bot's nick.
    fn own_after(&self, alloc: Global, old: &[u8], new: &[u8]) -> Result<Option<Text>, NoMemory>
        ensures { IfOk result (λ own. unwrap_or own self.now.nick ≡ (if is_same_by (mapping_of self.now) old.now self.now.nick then new.now else self.now.nick)) }
    {
        if is_same(self.casemapping(), old, self.nick.as_bytes()) {
            Ok(Some(Text::from_slice(alloc, new)?))
        } else {
            Ok(None)
        }
    }
}
