// What a bot does when somebody else removes a sticky ban from a channel.
ghost use Rattle.std.specs.Prelude.{◌≡◌, ◌++◌, [], true, IfOk, OnOk, IsOk};
ghost use Rattle.std.specs.List.{flat_map};
ghost use Rattle.std.specs.Option.{option_to_list};
ghost use Rattle.ircline.specs.View.{seen};
ghost use Rattle.chanstate.specs.Items.{mode_items, single_at, singles};
ghost use Rattle.chanstate.specs.Steps.{steps};
ghost use Rattle.chanstate.specs.Views.{member_in};
ghost use Rattle.botcore.specs.Automatic.{is_own, mode_wishes, set_again};
ghost use Rattle.botcore.specs.Operators.{is_op_after, op_left};

use crate::wish::ban_wish;
use bytetext::{NoMemory, Text};
use chanstate::modes::{argument, is_mode, mark_in, next_arguments, next_sign};
use chanstate::{ChanState, Mark, Support};
use ircline::Source;
use procs::PutWish;
use rfccase::{Casemapping, same_by};
use std::alloc::Global;
use userfile::Userfile;

// A mode string with its arguments, and the modes that the server supports.
#[derive(Clone, Copy)]
struct Modes<'a> {
    support: &'a Support,
    letters: &'a [u8],
    arguments: &'a [Text],
}

// A channel, and what decides which bans the bot sets on it again.
#[derive(Clone, Copy)]
struct Place<'a> {
    channel: &'a [u8],
    // How the server compares names.
    mapping: Casemapping,
    userfile: &'a Userfile,
    second: u64,
}

// Returns the lines that a bot queues at a second for the MODE with these parameters, by its channels before the MODE.
// It does not allocate if it queues none.
pub(crate) fn on_mode(
    alloc: Global,
    from: Source<'_>,
    params: &[Text],
    state: &ChanState,
    userfile: &Userfile,
    second: u64,
) -> Result<Vec<PutWish>, NoMemory>
    ensures lines { IfOk result (λ wishes. wishes.items ≡ mode_wishes
        userfile.now.bans second (seen from.entry) params.now (steps (mode_items params.now) state.now)) }
    ensures needs_none { mode_wishes
        userfile.now.bans second (seen from.entry) params.now (steps (mode_items params.now) state.now) ≡ [] → IsOk result }
{
    let [name, letters, arguments @ ..] = params else {
        return Ok(Vec::new(alloc));
    };
    let modes = Modes {
        support: state.support(),
        letters: letters.as_bytes(),
        arguments,
    };
    if is_own(state, from) {
        return Ok(Vec::new(alloc));
    }
    if !modes.leave_op(state, name.as_bytes()) {
        return Ok(Vec::new(alloc));
    }
    let Some(channel) = state.held(name.as_bytes()) else {
        return Ok(Vec::new(alloc));
    };
    let place = Place {
        channel,
        mapping: state.casemapping(),
        userfile,
        second,
    };
    modes.bring_back(alloc, place)
}

// Whether the bot itself is the source.
fn is_own(state: &ChanState, from: Source<'_>) -> bool
    ensures { result ≡ is_own (seen from.entry) state.now }
{
    match from {
        Source::None => false,
        Source::Server(_) => false,
        Source::Person(person) => same_by(state.casemapping(), person.nick, state.own_nick()),
    }
}

impl Modes<'_> {
    // Whether the bot is op on a channel after these modes of it.
    fn leave_op(&self, state: &ChanState, channel: &[u8]) -> bool
        ensures { result ≡ is_op_after self.now.support.now state.now.nick
            (singles self.now.support.now true self.now.letters.now self.now.arguments.now)
            (member_in channel.now state.now.nick state.now) }
    {
        match state.member(channel, state.own_nick()) {
            Some(member) => self.leave_mark(state.own_nick(), member.op),
            None => false,
        }
    }

    // Whether a member with this nick is op after these modes, given whether it was op before them.
    fn leave_mark(&self, nick: &[u8], was: bool) -> bool
        ensures { result ≡ op_left self.now.support.now nick.now
            (singles self.now.support.now true self.now.letters.now self.now.arguments.now) was }
    {
        let mut op = was;
        let mut on = true;
        let mut rest = self.arguments;
        for byte in self.letters {
            op = op_at(self.support, nick, op, on, *byte, rest);
            rest = next_arguments(self.support, on, *byte, rest);
            on = next_sign(on, *byte);
        }
        op
    }

    // Returns the lines that set the sticky bans again that these modes remove from a channel.
    fn bring_back(&self, alloc: Global, place: Place<'_>) -> Result<Vec<PutWish>, NoMemory>
        ensures lines { IfOk result (λ wishes. wishes.items ≡ flat_map
            (set_again place.entry.mapping place.entry.userfile.now.bans place.entry.second place.entry.channel.now)
            (singles self.now.support.now true self.now.letters.now self.now.arguments.now)) }
        ensures needs_none { flat_map
            (set_again place.entry.mapping place.entry.userfile.now.bans place.entry.second place.entry.channel.now)
            (singles self.now.support.now true self.now.letters.now self.now.arguments.now) ≡ [] → IsOk result }
    {
        let mut wishes = Vec::new(alloc);
        let mut on = true;
        let mut rest = self.arguments;
        for byte in self.letters {
            place.push_back(&mut wishes, alloc, self.support, on, *byte, rest)?;
            rest = next_arguments(self.support, on, *byte, rest);
            on = next_sign(on, *byte);
        }
        Ok(wishes)
    }
}

// Whether the member is op after a byte of a mode string.
fn op_at(support: &Support, nick: &[u8], was: bool, on: bool, byte: u8, arguments: &[Text]) -> bool
    ensures { result ≡ op_left support.now nick.now (option_to_list (single_at support.now on byte arguments.now)) was }
{
    let marks_op = matches!(mark_in(support, byte), Some(Mark::Op));
    let argument = argument(support, on, byte, arguments);
    if is_mode(byte) && marks_op && same_by(support.casemapping(), nick, argument) {
        on
    } else {
        was
    }
}

impl Place<'_> {
    // Appends the line that sets a ban again, if a byte of a mode string removes a sticky ban.
    fn push_back(
        &self,
        wishes: &mut Vec<PutWish>,
        alloc: Global,
        support: &Support,
        on: bool,
        byte: u8,
        arguments: &[Text],
    ) -> Result<(), NoMemory>
        ensures more { OnOk result (wishes.new.items ≡ wishes.old.items ++ flat_map
            (set_again self.now.mapping self.now.userfile.now.bans self.now.second self.now.channel.now)
            (option_to_list (single_at support.now on byte arguments.now))) }
        ensures needs_none { flat_map
            (set_again self.now.mapping self.now.userfile.now.bans self.now.second self.now.channel.now)
            (option_to_list (single_at support.now on byte arguments.now)) ≡ [] → IsOk result }
    {
        if on || byte != b'b' {
            return Ok(());
        }
        let mask = argument(support, on, byte, arguments);
        match self
            .userfile
            .sticky_ban(self.mapping, self.channel, mask, self.second)
        {
            Some(ban) => {
                wishes.push(ban_wish(alloc, self.channel, ban)?)?;
                Ok(())
            }
            None => Ok(()),
        }
    }
}
