// What a bot does when a person joins a channel from which a ban excludes this person.
ghost use Rattle.std.specs.Prelude.{◌≡◌, ◌≢◌, ◌∷◌, ◌++◌, [], true, false, Some, filter, length, nat_lt};
ghost use Rattle.std.specs.Prelude.{IfOk, OnOk, IsOk};
ghost use Rattle.std.specs.List.{filter_map, flat_map};
ghost use Rattle.std.specs.Option.{option_copied, option_to_list};
ghost use Rattle.rfccase.specs.Casemapping.{is_same_by};
ghost use Rattle.rfccase.specs.Channels.{is_channel_name};
ghost use Rattle.ircline.specs.View.{seen};
ghost use Rattle.chanstate.specs.Comings.{hostmask};
ghost use Rattle.chanstate.specs.Given.{address_of};
ghost use Rattle.chanstate.specs.Views.{mapping_of};
ghost use Rattle.botcore.specs.Automatic.{guarded_as, guarded, watched, reason_of, ban_wishes, kept_off, barred};

use crate::wish::{ban_wish, wish};
use bytetext::{NoMemory, Text};
use chanstate::ChanState;
use ircline::{Person, Source};
use outqueue::Queue;
use procs::PutWish;
use rfccase::{Casemapping, is_channel_name, same_by};
use std::alloc::Global;
use userfile::{Ban, Userfile};

// A person who has joined, and what decides whether a ban excludes this person.
#[derive(Clone, Copy)]
struct Newcomer<'a> {
    nick: &'a [u8],
    // nick!user@host
    who: &'a [u8],
    // How the server compares names.
    mapping: Casemapping,
    userfile: &'a Userfile,
    second: u64,
}

// Returns the lines that a bot queues at a second for the JOIN with these parameters. It does not allocate if nobody
// else joins a channel on which the bot is op.
pub(crate) fn on_join(
    alloc: Global,
    from: Source<'_>,
    params: &[Text],
    state: &ChanState,
    userfile: &Userfile,
    second: u64,
) -> Result<Vec<PutWish>, NoMemory>
    ensures lines { IfOk result (λ wishes. wishes.items
        ≡ flat_map (barred (mapping_of state.now) userfile.now.bans second (seen from.entry))
        (watched (seen from.entry) params.now state.now)) }
    ensures needs_none { watched (seen from.entry) params.now state.now ≡ [] → IsOk result }
{
    let Source::Person(person) = from else {
        return Ok(Vec::new(alloc));
    };
    let [list, ..] = params else {
        return Ok(Vec::new(alloc));
    };
    if is_own(state, person.nick) || !guards_any(state, list.as_bytes()) {
        return Ok(Vec::new(alloc));
    }
    let who = who_of(alloc, person)?;
    let newcomer = Newcomer {
        nick: person.nick,
        who: who.as_bytes(),
        mapping: state.casemapping(),
        userfile,
        second,
    };
    newcomer.wishes_on(alloc, state, list.as_bytes())
}

// Whether a nick is the bot's own.
pub(crate) fn is_own(state: &ChanState, nick: &[u8]) -> bool
    ensures { result ≡ is_same_by (mapping_of state.now) nick.now state.now.nick }
{
    same_by(state.casemapping(), nick, state.own_nick())
}

// Returns a piece of a list as the bot spells it, if it names a channel on which the bot is op.
fn guarded_piece<'a>(state: &'a ChanState, piece: &[u8]) -> Option<&'a [u8]>
    ensures { option_to_list (option_copied result)
        ≡ filter_map (guarded_as state.now) (filter is_channel_name (piece.now ∷ [])) }
{
    if is_channel_name(piece) && state.is_op(piece, state.own_nick()) {
        state.held(piece)
    } else {
        None
    }
}

// Whether the list names a channel on which the bot is op.
fn guards_any(state: &ChanState, list: &[u8]) -> bool
    ensures some { result ≡ true → guarded state.now list.now ≢ [] }
    ensures none { result ≡ false → guarded state.now list.now ≡ [] }
{
    list.split(|byte| *byte == b',')
        .any(|piece| is_guarded(state, piece))
}

// Whether a piece names such a channel.
fn is_guarded(state: &ChanState, piece: &[u8]) -> bool
    ensures { result
        ≡ nat_lt 0 (length (filter_map (guarded_as state.now) (filter is_channel_name (piece.now ∷ [])))) }
{
    guarded_piece(state, piece).is_some()
}

// Returns the person, as hostmasks match one.
fn who_of(alloc: Global, person: Person<'_>) -> Result<Text, NoMemory>
    ensures { IfOk result (λ who. who
        ≡ hostmask person.entry.nick.now (address_of person.entry.user.now person.entry.host.now)) }
{
    let mut who = Vec::from_slice(alloc, person.nick)?;
    who.push(b'!')?;
    who.extend_from_slice(person.user)?;
    who.push(b'@')?;
    who.extend_from_slice(person.host)?;
    Ok(Text::new(who))
}

impl Newcomer<'_> {
    // Returns the lines about the person for the channels of a list on which the bot is op.
    fn wishes_on(
        &self,
        alloc: Global,
        state: &ChanState,
        list: &[u8],
    ) -> Result<Vec<PutWish>, NoMemory>
        ensures { IfOk result (λ wishes. wishes.items ≡ flat_map
            (kept_off self.now.mapping self.now.userfile.now.bans self.now.second self.now.nick.now self.now.who.now)
            (guarded state.now list.now)) }
    {
        let mut wishes = Vec::new(alloc);
        for piece in list.split(|byte| *byte == b',') {
            self.push_on(&mut wishes, alloc, guarded_piece(state, piece))?;
        }
        Ok(wishes)
    }

    // Appends the lines about the person for a channel.
    fn push_on(
        &self,
        wishes: &mut Vec<PutWish>,
        alloc: Global,
        channel: Option<&[u8]>,
    ) -> Result<(), NoMemory>
        ensures { OnOk result (wishes.new.items ≡ wishes.old.items ++ flat_map
            (kept_off self.now.mapping self.now.userfile.now.bans self.now.second self.now.nick.now self.now.who.now)
            (option_to_list (option_copied channel.entry))) }
    {
        let Some(channel) = channel else {
            return Ok(());
        };
        match self
            .userfile
            .ban_for(self.mapping, channel, self.who, self.second)
        {
            Some(ban) => push_ban(wishes, alloc, self.nick, channel, ban),
            None => Ok(()),
        }
    }
}

// Appends the lines that set a ban on a channel and kick the person with this nick.
fn push_ban(
    wishes: &mut Vec<PutWish>,
    alloc: Global,
    nick: &[u8],
    channel: &[u8],
    ban: &Ban,
) -> Result<(), NoMemory>
    ensures { OnOk result (wishes.new.items ≡ wishes.old.items ++ ban_wishes nick.now channel.now (Some ban.now)) }
{
    wishes.push(ban_wish(alloc, channel, ban)?)?;
    let kick = [b"KICK ", channel, b" ", nick, b" :", reason_of(ban)];
    wishes.push(wish(alloc, Queue::Mode, &kick)?)?;
    Ok(())
}

// Returns the reason that the kick gives.
fn reason_of(ban: &Ban) -> &[u8]
    ensures { result.now ≡ reason_of ban.now }
{
    if ban.comment.is_empty() {
        b"banned"
    } else {
        ban.comment.as_bytes()
    }
}
