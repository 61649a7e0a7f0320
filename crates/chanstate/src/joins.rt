// People join channels (RFC 2812 section 3.2.1).
ghost use Rattle.std.specs.Prelude.{◌≡◌, ◌<◌, ◌++◌, ◌||◌, ◌&&◌, true, false, [], ◌∷◌, length, filter, IfOk, OnOk, OnErr, MatchResult, map};
ghost use Rattle.chanstate.specs.Channels.{is_held, opened};
ghost use Rattle.chanstate.specs.Memory.{any_adds, join_adds, tells};
ghost use Rattle.chanstate.specs.Seen.{joins_in, detail_seen};
ghost use Rattle.chanstate.specs.Items.{ToldAtJoin, any_named, channels_on, is_channel_on};
ghost use Rattle.chanstate.specs.Views.{mapping_of};
ghost use Rattle.chanstate.specs.Members.{arrived, unmarked};
ghost use Rattle.std.specs.List.{list_any};
ghost use Rattle.chanstate.specs.Takes.{AreKept, IsTaken, came_each, given};
ghost use Rattle.rfccase.specs.Casemapping.{is_same_by};
ghost use Rattle.chanstate.specs.Plans.{IsPlanFor, IsToldAfter, told};
ghost use Rattle.chanstate.specs.Steps.{steps};

use crate::channel::Channel;
use crate::channels::Channels;
use crate::detail_parts::DetailParts;
use crate::member::Member;
use crate::message_plan::MessagePlan;
use crate::names::is_same;
use crate::state::ChanState;
use crate::support::Support;
use crate::take::{Take, is_taken};
use crate::task::Task;
use crate::telling::Telling;
use bytetext::NoMemory;
use ircline::Person;
use rfccase::Casemapping;
use std::alloc::Global;

impl Channels {
    // Prepares the join of another person on the channel that `piece` names, if the bot is on it.
    fn ready_arrival(
        &mut self,
        alloc: Global,
        mapping: Casemapping,
        support: &Support,
        person: Person<'_>,
        piece: &[u8],
        takes: &mut Vec<Take>,
    ) -> Result<(), NoMemory>
        requires { AreKept (arrived mapping (unmarked person.nick.now person.user.now person.host.now)) takes.old.items }
        ensures kept { AreKept (arrived mapping (unmarked person.entry.nick.now person.entry.user.now person.entry.host.now)) takes.new.items }
        ensures back { given false takes.new.items self.new ≡ given false takes.old.items self.old }
        ensures done { OnOk result (given true takes.new.items self.new
            ≡ came_each mapping (unmarked person.entry.nick.now person.entry.user.now person.entry.host.now) (filter (is_channel_on support.now) (piece.now ∷ []))
            (given true takes.old.items self.old)) }
        ensures named { OnErr result (is_channel_on support.now piece.now ≡ true) }
        ensures held { OnErr result (is_held mapping piece.now self.old ≡ true) }
    {
        if !support.is_channel(piece) {
            return Ok(());
        }
        let Some(at) = self.place(mapping, piece) else {
            return Ok(());
        };
        if is_taken(takes.as_slice(), at) {
            return Ok(());
        }
        let task = Task::arrive(alloc, mapping, person)?;
        self.take(alloc, mapping, at, task, takes)?;
        Ok(())
    }

    // Prepares the joins of another person on the channels of a list.
    pub(crate) fn ready_arrivals(
        &mut self,
        alloc: Global,
        mapping: Casemapping,
        support: &Support,
        person: Person<'_>,
        list: &[u8],
    ) -> Result<Vec<Take>, NoMemory>
        ensures memory { OnErr result (list_any (λ name. is_held mapping name self.old) (channels_on support.now list.now) ≡ true) }
        ensures ready { MatchResult result (λ takes. IsTaken
            (came_each mapping (unmarked person.entry.nick.now person.entry.user.now person.entry.host.now) (channels_on support.now list.now)) takes.items self.new self.old)
            (λ _. self.new ≡ self.old) }
    {
        let mut takes = Vec::new(alloc);
        for piece in list.split(|byte| *byte == b',') {
            match self.ready_arrival(alloc, mapping, support, person, piece, &mut takes) {
                Ok(()) => {}
                Err(refused) => {
                    self.give(takes, false);
                    return Err(refused);
                }
            }
        }
        Ok(takes)
    }
}

impl ChanState {
    // Prepares the joins of the bot on the channels of `list`, and then `telling`.
    fn ready_own_join(
        &mut self,
        alloc: Global,
        person: Person<'_>,
        list: &[u8],
        telling: Option<Telling>,
    ) -> Result<MessagePlan, NoMemory>
        requires { is_same_by (mapping_of self.old) person.nick.now self.old.nick ≡ true }
        ensures memory { OnErr result (any_adds (joins_in person.entry list.now) self.old ≡ true) }
        ensures ready { MatchResult result (λ plan. IsToldAfter (joins_in person.entry list.now) telling plan self.new self.old) (λ _. self.new ≡ self.old) }
    {
        let opened = opened_each(alloc, self.casemapping(), &self.support, person, list)?;
        let mapping = self.casemapping();
        let opening = self.channels.ready_opening(alloc, mapping, opened)?;
        Ok(MessagePlan::Open {
            joined: names_channel(&self.support, list),
            opening,
            telling,
        })
    }

    // Prepares the joins of a person on the channels of a list.
    pub(crate) fn ready_join(
        &mut self,
        alloc: Global,
        person: Person<'_>,
        list: &[u8],
    ) -> Result<MessagePlan, NoMemory>
        ensures memory { OnErr result (any_adds (joins_in person.entry list.now) self.old ≡ true) }
        ensures ready { MatchResult result (λ plan. IsPlanFor (joins_in person.entry list.now) plan self.new self.old) (λ _. self.new ≡ self.old) }
    {
        let plan = self.ready_joins(alloc, person, list, None)?;
        Ok(plan)
    }

    // Prepares the joins of a person on the channels of a list, and then what the JOIN tells of the account.
    pub(crate) fn ready_join_as(
        &mut self,
        alloc: Global,
        person: Person<'_>,
        list: &[u8],
        account: &[u8],
    ) -> Result<MessagePlan, NoMemory>
        ensures memory { OnErr result (any_adds
            (joins_in person.entry list.now ++ ToldAtJoin person.entry.nick.now account.now ∷ []) self.old ≡ true) }
        ensures ready { MatchResult result (λ plan. IsPlanFor
            (joins_in person.entry list.now ++ ToldAtJoin person.entry.nick.now account.now ∷ []) plan self.new self.old) (λ _. self.new ≡ self.old) }
    {
        let telling = self.ready_join_telling(alloc, person, list, account)?;
        let plan = self.ready_joins(alloc, person, list, telling)?;
        Ok(plan)
    }

    // Prepares the joins of a person on the channels of a list, and then `telling`.
    fn ready_joins(
        &mut self,
        alloc: Global,
        person: Person<'_>,
        list: &[u8],
        telling: Option<Telling>,
    ) -> Result<MessagePlan, NoMemory>
        ensures memory { OnErr result (any_adds (joins_in person.entry list.now) self.old ≡ true) }
        ensures ready { MatchResult result (λ plan. IsToldAfter (joins_in person.entry list.now) telling plan self.new self.old) (λ _. self.new ≡ self.old) }
    {
        if is_same(self.casemapping(), person.nick, self.nick.as_bytes()) {
            return self.ready_own_join(alloc, person, list, telling);
        }
        let mapping = self.casemapping();
        let takes = self
            .channels
            .ready_arrivals(alloc, mapping, &self.support, person, list)?;
        Ok(MessagePlan::Come {
            joined: names_channel(&self.support, list),
            takes,
            telling,
        })
    }

    // Returns whether `piece` names a channel, and a join of `nick` there brings a text to keep.
    fn piece_adds(&self, nick: &[u8], piece: &[u8]) -> bool
        ensures { result ≡ (is_channel_on self.now.support piece.now && join_adds nick.now piece.now self.now) }
    {
        self.support.is_channel(piece)
            && (is_same(self.casemapping(), nick, self.nick.as_bytes()) || self.holds(piece))
    }

    // Returns whether joins of `nick` on the channels of `list` bring a text to keep.
    fn joins_add(&self, nick: &[u8], list: &[u8]) -> bool
        ensures { result ≡ list_any (λ name. join_adds nick.now name self.now) (channels_on self.now.support list.now) }
    {
        for piece in list.split(|byte| *byte == b',') {
            if self.piece_adds(nick, piece) {
                return true;
            }
        }
        false
    }

    // Returns whether what a JOIN tells is news of a member, or the joins bring a text to keep.
    fn tells_at_join(&self, nick: &[u8], list: &[u8], parts: DetailParts<'_>) -> bool
        ensures { result ≡ (tells nick.now (detail_seen parts.entry) self.now
            || list_any (λ name. join_adds nick.now name self.now) (channels_on self.now.support list.now)) }
    {
        self.tells(nick, parts) || self.joins_add(nick, list)
    }

    // Prepares what a JOIN tells of the account, if JOINs tell it and that may be news.
    fn ready_join_telling(
        &self,
        alloc: Global,
        person: Person<'_>,
        list: &[u8],
        account: &[u8],
    ) -> Result<Option<Telling>, NoMemory>
        ensures memory { OnErr result (any_adds
            (joins_in person.entry list.now ++ ToldAtJoin person.entry.nick.now account.now ∷ []) self.now ≡ true) }
        ensures told { IfOk result (λ t. told t (steps (joins_in person.entry list.now) self.now)
            ≡ steps (joins_in person.entry list.now ++ ToldAtJoin person.entry.nick.now account.now ∷ []) self.now) }
    {
        let parts = DetailParts::Account(account);
        if !self.support.joins_tell() {
            return Ok(None);
        }
        if !self.tells_at_join(person.nick, list, parts) {
            return Ok(None);
        }
        let telling = Telling::at_join(alloc, person.nick, parts, self.channels.as_slice(), list)?;
        Ok(Some(telling))
    }
}

// Returns whether a piece of `list` is the name of a channel on this server.
pub(crate) fn names_channel(support: &Support, list: &[u8]) -> bool
    ensures { result ≡ any_named (channels_on support.now list.now) }
{
    for piece in list.split(|byte| *byte == b',') {
        if support.is_channel(piece) {
            return true;
        }
    }
    false
}

// Creates the channels of `list`, as the bot has just joined them.
fn opened_each(
    alloc: Global,
    mapping: Casemapping,
    support: &Support,
    person: Person<'_>,
    list: &[u8],
) -> Result<Vec<Channel>, NoMemory>
    ensures opened { IfOk result (λ channels. channels.items
        ≡ map (λ name. opened name (unmarked person.entry.nick.now person.entry.user.now person.entry.host.now)) (channels_on support.now list.now)) }
    ensures memory { OnErr result (0 < length (channels_on support.now list.now)) }
{
    let mut channels = Vec::new(alloc);
    for piece in list.split(|byte| *byte == b',') {
        open_piece(&mut channels, alloc, mapping, support, person, piece)?;
    }
    Ok(channels)
}

// Appends the channel that `piece` names, if it names one.
fn open_piece(
    channels: &mut Vec<Channel>,
    alloc: Global,
    mapping: Casemapping,
    support: &Support,
    person: Person<'_>,
    piece: &[u8],
) -> Result<(), NoMemory>
    ensures opened { OnOk result (channels.new.items ≡ channels.old.items
        ++ map (λ name. opened name (unmarked person.entry.nick.now person.entry.user.now person.entry.host.now)) (filter (is_channel_on support.now) (piece.now ∷ []))) }
    ensures named { OnErr result (is_channel_on support.now piece.now ≡ true) }
{
    if support.is_channel(piece) {
        let bot = Member::new(alloc, person.nick, person.user, person.host)?;
        channels.push(Channel::open(alloc, mapping, piece, bot)?)?;
    }
    Ok(())
}
