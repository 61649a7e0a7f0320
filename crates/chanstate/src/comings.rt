// The events of people who join, leave, change nick, or log in.
ghost use Rattle.std.specs.Prelude.{◌≡◌, [], ◌∷◌, IfOk, filter, map};
ghost use Rattle.std.specs.List.{filter_map};
ghost use Rattle.std.specs.Option.{option_copied, option_to_list};
ghost use Rattle.chanstate.specs.Items.{is_channel_on};
ghost use Rattle.chanstate.specs.Comings.{spelled, listed_in, joins, parts, signs_off, renames, logins};
ghost use Rattle.chanstate.specs.Deeds.{told};
ghost use Rattle.chanstate.specs.Members.{has_member};
ghost use Rattle.chanstate.specs.Views.{channels_with};

use crate::channel::Channel;
use crate::deed::{Author, Deed, joined};
use crate::event::{EventKind, IrcEvent};
use crate::names::is_same;
use crate::state::ChanState;
use crate::words::{account_but, param, text_at};
use bytetext::{NoMemory, Text};
use rfccase::Casemapping;
use std::alloc::Global;

// Returns the events of a JOIN.
pub(crate) fn join(
    alloc: Global,
    by: Author<'_>,
    params: &[Text],
    state: &ChanState,
) -> Result<Vec<IrcEvent>, NoMemory>
    ensures { IfOk result (λ v. v.items ≡ joins by.entry.nick.now by.entry.address.now params.now state.now) }
{
    let Some(list) = param(params, 0) else {
        return Ok(Vec::new(alloc));
    };
    let mask = joined(alloc, by.nick, b'!', by.address)?;
    let deed = Deed {
        kind: EventKind::Join,
        by,
        about: mask.as_bytes(),
        more: &[],
    };
    let own = is_same(state.casemapping(), by.nick, state.own_nick());
    on_listed(alloc, &deed, own, list, state)
}

// Returns the events of a PART.
pub(crate) fn part(
    alloc: Global,
    by: Author<'_>,
    params: &[Text],
    state: &ChanState,
) -> Result<Vec<IrcEvent>, NoMemory>
    ensures { IfOk result (λ v. v.items ≡ parts by.entry.nick.now by.entry.address.now params.now state.now) }
{
    let Some(list) = param(params, 0) else {
        return Ok(Vec::new(alloc));
    };
    let mask = joined(alloc, by.nick, b'!', by.address)?;
    let deed = Deed {
        kind: EventKind::Part,
        by,
        about: mask.as_bytes(),
        more: &[text_at(params, 1)],
    };
    on_listed(alloc, &deed, false, list, state)
}

// Returns the events of a QUIT.
pub(crate) fn quit(
    alloc: Global,
    by: Author<'_>,
    params: &[Text],
    state: &ChanState,
) -> Result<Vec<IrcEvent>, NoMemory>
    ensures { IfOk result (λ v. v.items ≡ signs_off by.entry.nick.now by.entry.address.now params.now state.now) }
{
    let mask = joined(alloc, by.nick, b'!', by.address)?;
    let deed = Deed {
        kind: EventKind::Sign,
        by,
        about: mask.as_bytes(),
        more: &[text_at(params, 0)],
    };
    on_shared(alloc, &deed, state)
}

// Returns the events of a NICK.
pub(crate) fn rename(
    alloc: Global,
    by: Author<'_>,
    params: &[Text],
    state: &ChanState,
) -> Result<Vec<IrcEvent>, NoMemory>
    ensures { IfOk result (λ v. v.items ≡ renames by.entry.nick.now by.entry.address.now params.now state.now) }
{
    let Some(new) = param(params, 0) else {
        return Ok(Vec::new(alloc));
    };
    let deed = Deed {
        kind: EventKind::Nick,
        by,
        about: new,
        more: &[new],
    };
    on_shared(alloc, &deed, state)
}

// Returns the events of an ACCOUNT.
pub(crate) fn login(
    alloc: Global,
    by: Author<'_>,
    params: &[Text],
    state: &ChanState,
) -> Result<Vec<IrcEvent>, NoMemory>
    ensures { IfOk result (λ v. v.items ≡ logins by.entry.nick.now by.entry.address.now params.now state.now) }
{
    let Some(text) = param(params, 0) else {
        return Ok(Vec::new(alloc));
    };
    let account = account_but(b"*", text);
    let mask = joined(alloc, by.nick, b'!', by.address)?;
    let about = joined(alloc, mask.as_bytes(), b' ', account)?;
    let deed = Deed {
        kind: EventKind::Account,
        by,
        about: about.as_bytes(),
        more: &[account],
    };
    on_shared(alloc, &deed, state)
}

// Returns the channel that `piece` names, as events spell it. If `own`, any channel has events, spelled as in `piece`;
// if not, only one that the bot is on has, spelled as the bot spells it.
fn spelled_piece<'a>(own: bool, piece: &'a [u8], state: &'a ChanState) -> Option<&'a [u8]>
    ensures { option_to_list (option_copied result) ≡ filter_map (spelled own state.now) (filter (is_channel_on state.now.support) (piece.now ∷ [])) }
{
    if !state.support().is_channel(piece) {
        return None;
    }
    if own { Some(piece) } else { state.held(piece) }
}

// Returns the events of `deed` on the channels of `list`, in its order.
fn on_listed(
    alloc: Global,
    deed: &Deed<'_>,
    own: bool,
    list: &[u8],
    state: &ChanState,
) -> Result<Vec<IrcEvent>, NoMemory>
    ensures { IfOk result (λ v. v.items ≡ map (told deed.now) (listed_in own state.now list.now)) }
{
    let mut events = Vec::new(alloc);
    for piece in list.split(|byte| *byte == b',') {
        deed.push_on(&mut events, alloc, spelled_piece(own, piece, state))?;
    }
    Ok(events)
}

// Returns the events of `deed` on the channels that its author is on, in the order in which the bot joined them.
fn on_shared(alloc: Global, deed: &Deed<'_>, state: &ChanState) -> Result<Vec<IrcEvent>, NoMemory>
    ensures { IfOk result (λ v. v.items ≡ map (told deed.now) (channels_with deed.now.by.nick.now state.now)) }
{
    on_each(alloc, state.casemapping(), deed, state.channels.as_slice())
}

// Returns the events of `deed` on those of `channels` that its author is on.
fn on_each(
    alloc: Global,
    mapping: Casemapping,
    deed: &Deed<'_>,
    channels: &[Channel],
) -> Result<Vec<IrcEvent>, NoMemory>
    ensures { IfOk result (λ v. v.items
        ≡ map (λ channel. told deed.now channel.name) (filter (λ channel. has_member mapping deed.now.by.nick.now channel.members) channels.now)) }
{
    let mut events = Vec::new(alloc);
    for channel in channels {
        if channel.members.holds(mapping, deed.by.nick) {
            events.push(deed.on(alloc, channel.name.as_bytes())?)?;
        }
    }
    Ok(events)
}
