// What is told of a nick on every channel, prepared so that taking it in allocates nothing.
ghost use Rattle.std.specs.Prelude.{◌≡◌, ◌++◌, ◌∷◌, [], ◌==◌, IfOk, OnOk, OnErr, true, find, map};
ghost use Rattle.std.specs.List.{list_any, slice_split};
ghost use Rattle.chanstate.specs.Firsts.{first_changed};
ghost use Rattle.chanstate.specs.Members.{is_called, with_detail};
ghost use Rattle.chanstate.specs.Memory.{any_adds, retells, tells};
ghost use Rattle.chanstate.specs.Items.{Told};
ghost use Rattle.chanstate.specs.Plans.{IsPlanFor, told};
ghost use Rattle.chanstate.specs.Seen.{detail_seen};
ghost use Rattle.chanstate.specs.Takes.{on_place};
ghost use Rattle.chanstate.specs.Tellings.{told_each};

use crate::channel::Channel;
use crate::channels::Channels;
use crate::detail::Detail;
use crate::detail_parts::DetailParts;
use crate::message_plan::MessagePlan;
use crate::state::ChanState;
use bytetext::{NoMemory, Text};
use rfccase::Casemapping;
use std::alloc::Global;

/// What is told of `nick`: a copy for each channel.
#[derive(Drop)]
pub struct Telling {
    pub(crate) nick: Text,
    pub(crate) details: Vec<Detail>,
}

impl Telling {
    // Creates what `parts` tells of `nick`, with a copy for each of `channels`.
    pub(crate) fn each(
        alloc: Global,
        nick: &[u8],
        parts: DetailParts<'_>,
        channels: &[Channel],
    ) -> Result<Telling, NoMemory>
        ensures nick { IfOk result (λ t. t.nick ≡ nick.now) }
        ensures copies { IfOk result (λ t. t.details.items ≡ map (λ _. detail_seen parts.entry) channels.now) }
    {
        let details = copies(alloc, parts, channels)?;
        let nick = Text::from_slice(alloc, nick)?;
        Ok(Telling { nick, details })
    }

    // Creates what `parts` tells of `nick`, with a copy for each of `channels` and for each piece of `list`.
    pub(crate) fn at_join(
        alloc: Global,
        nick: &[u8],
        parts: DetailParts<'_>,
        channels: &[Channel],
        list: &[u8],
    ) -> Result<Telling, NoMemory>
        ensures nick { IfOk result (λ t. t.nick ≡ nick.now) }
        ensures copies { IfOk result (λ t. t.details.items
            ≡ map (λ _. detail_seen parts.entry) channels.now ++ map (λ _. detail_seen parts.entry) (slice_split (λ b. b == 44) list.now)) }
    {
        let mut details = copies(alloc, parts, channels)?;
        push_copies(&mut details, alloc, parts, list)?;
        let nick = Text::from_slice(alloc, nick)?;
        Ok(Telling { nick, details })
    }
}

// Returns a copy of `parts` for each of `channels`.
fn copies(
    alloc: Global,
    parts: DetailParts<'_>,
    channels: &[Channel],
) -> Result<Vec<Detail>, NoMemory>
    ensures { IfOk result (λ details. details.items ≡ map (λ _. detail_seen parts.entry) channels.now) }
{
    let mut details = Vec::with_capacity(alloc, channels.len())?;
    for _channel in channels {
        push_copy(&mut details, alloc, parts)?;
    }
    Ok(details)
}

// Appends a copy of `parts` for each piece of `list`.
fn push_copies(
    details: &mut Vec<Detail>,
    alloc: Global,
    parts: DetailParts<'_>,
    list: &[u8],
) -> Result<(), NoMemory>
    ensures { OnOk result (details.new.items
        ≡ details.old.items ++ map (λ _. detail_seen parts.entry) (slice_split (λ b. b == 44) list.now)) }
{
    for _piece in list.split(|byte| *byte == b',') {
        push_copy(details, alloc, parts)?;
    }
    Ok(())
}

// Appends a copy of `parts`.
fn push_copy(
    details: &mut Vec<Detail>,
    alloc: Global,
    parts: DetailParts<'_>,
) -> Result<(), NoMemory>
    ensures { OnOk result (details.new.items ≡ details.old.items ++ detail_seen parts.entry ∷ []) }
{
    details.push(Detail::of(alloc, parts)?)?;
    Ok(())
}

impl Channels {
    // Takes in what is told of `nick`, on the channel at place `at`.
    fn tell_at(&mut self, at: usize, mapping: Casemapping, nick: &[u8], detail: Detail)
        ensures { self.new ≡ on_place at (first_changed (is_called mapping nick.now) (with_detail detail)) self.old }
    {
        if at < self.items.len() {
            let channel = &mut self.items[at];
            channel.members.tell(mapping, nick, detail);
        }
    }

    // Takes in what is told of `nick`, one of `details` for each channel.
    pub(crate) fn tell(&mut self, mapping: Casemapping, nick: &[u8], mut details: Vec<Detail>)
        ensures { self.new ≡ told_each mapping nick.now details.items self.old }
    {
        while let Some(detail) = details.pop() {
            self.tell_at(details.len(), mapping, nick, detail);
        }
    }

    // Returns whether `parts` is news of a member called `nick`.
    pub(crate) fn lacks_detail(
        &self,
        mapping: Casemapping,
        nick: &[u8],
        parts: DetailParts<'_>,
    ) -> bool
        ensures { result ≡ list_any (λ c. retells (detail_seen parts.entry) (find (is_called mapping nick.now) c.members)) self.now }
    {
        self.items.iter().any(|channel| parts.is_news_of(channel.members.find(mapping, nick)))
    }
}

impl ChanState {
    // Takes in what is told, if there is anything.
    pub(crate) fn tell(&mut self, telling: Option<Telling>)
        ensures { self.new ≡ told telling self.old }
    {
        if let Some(Telling { nick, details }) = telling {
            let mapping = self.casemapping();
            self.channels.tell(mapping, nick.as_bytes(), details);
        }
    }

    // Returns whether `parts` is news of a member called `nick`.
    pub(crate) fn tells(&self, nick: &[u8], parts: DetailParts<'_>) -> bool
        ensures { result ≡ tells nick.now (detail_seen parts.entry) self.now }
    {
        self.channels.lacks_detail(self.casemapping(), nick, parts)
    }

    // Prepares what a message tells of `nick` on every channel.
    pub(crate) fn ready_news(
        &self,
        alloc: Global,
        nick: &[u8],
        parts: DetailParts<'_>,
    ) -> Result<MessagePlan, NoMemory>
        ensures memory { OnErr result (any_adds (Told nick.now (detail_seen parts.entry) ∷ []) self.now ≡ true) }
        ensures ready { IfOk result (λ plan. IsPlanFor (Told nick.now (detail_seen parts.entry) ∷ []) plan self.now self.now) }
    {
        if !self.tells(nick, parts) {
            return Ok(MessagePlan::Plain);
        }
        let telling = Telling::each(alloc, nick, parts, self.channels.as_slice())?;
        Ok(MessagePlan::Tell(telling))
    }
}
