// The proc by which masters ask who somebody is.
ghost use Rattle.std.specs.Prelude.{◌≡◌, ◌++◌, find, IfOk};
ghost use Rattle.std.specs.List.{list_all};
ghost use Rattle.std.specs.Option.{option_copied};
ghost use Rattle.eggprocs.specs.Everyone.{address_of};
ghost use Rattle.eggprocs.specs.Rights.{standing_of};
ghost use Rattle.eggprocs.specs.Whois.{listed, info_text, described, has_host, shows_host, best_channel, member_if, account_by, is_by_account, handle_seen};
ghost use Rattle.eggprocs.specs.Whois.{is_under, has_most, mask_found, deciding_mask, member_shown, means_of, recognized, strange_account, recognized_if, identified, identified_if};
ghost use Rattle.eggprocs.specs.Whois.{name_asked, whois, asked_by_whois};

use crate::args::told_of;
use crate::everyone::address_of;
use crate::people::{FOR_MASTERS, only_told};
use crate::rights::{Requester, standing_of};
use bytetext::{NoMemory, Text, first_word};
use chanstate::Member;
use procs::{Actions, Call, View, claim_by, handle_by};
use rfccase::Casemapping;
use std::alloc::Global;
use userfile::{Hostmask, User};

// What `whois` requests: a NOTICE to a master that says who a user or a member of a channel is.
pub(crate) fn asked_by_whois(
    alloc: Global,
    call: &Call,
    view: &View<'_>,
) -> Result<Actions, NoMemory>
    ensures { IfOk result (λ actions.
        actions ≡ asked_by_whois (standing_of call.now view.now) call.now view.now) }
{
    let standing = standing_of(call, view);
    match standing {
        Requester::Elsewhere => Ok(Actions::empty(alloc)),
        Requester::Stranger => only_told(alloc, call, FOR_MASTERS),
        Requester::Master => {
            let words = whois(alloc, call, view)?;
            only_told(alloc, call, words.as_bytes())
        }
    }
}

// The name that `whois` asks about.
fn name_asked(call: &Call) -> &[u8]
    ensures { result.now ≡ name_asked call.now }
{
    first_word(told_of(call))
}

// What the NOTICE says about the user whose handle `whois` names, or else about the member whose nick it names.
fn whois(alloc: Global, call: &Call, view: &View<'_>) -> Result<Text, NoMemory>
    ensures { IfOk result (λ words. words ≡ whois call.now view.now) }
{
    let name = name_asked(call);
    if let Some(user) = view.userfile().user(name) {
        return described(alloc, user);
    }
    let names = view.channels().channels_of(alloc, name)?;
    identified_if(
        alloc,
        member_if(best_channel(name, view, names.as_slice()), name, view),
        view,
    )
}

// What the NOTICE says about a user.
fn described(alloc: Global, user: &User) -> Result<Text, NoMemory>
    ensures { IfOk result (λ words. words ≡ described user.now) }
{
    let flags = user.global.text(alloc)?;
    let masks = listed(alloc, user.masks.as_slice())?;
    let mut words = Vec::from_slice(alloc, user.handle.as_bytes())?;
    words.extend_from_slice(b" has the flags ")?;
    words.extend_from_slice(flags.as_bytes())?;
    words.extend_from_slice(b" and the hostmasks")?;
    words.extend_from_slice(masks.as_bytes())?;
    words.extend_from_slice(info_text(alloc, user.info.as_bytes())?.as_bytes())?;
    Ok(Text::new(words))
}

// An info line, if there is one.
fn info_text(alloc: Global, info: &[u8]) -> Result<Text, NoMemory>
    ensures { IfOk result (λ text. text ≡ info_text info.now) }
{
    if info.is_empty() {
        return Ok(Text::empty(alloc));
    }
    let mut text = Vec::from_slice(alloc, b"; info: ")?;
    text.extend_from_slice(info)?;
    Ok(Text::new(text))
}

// The hostmasks, each after a space.
fn listed(alloc: Global, masks: &[Hostmask]) -> Result<Text, NoMemory>
    ensures { IfOk result (λ text. text ≡ listed masks.now) }
{
    let mut text = Vec::new(alloc);
    for mask in masks {
        text.extend_from_slice(b" ")?;
        text.extend_from_slice(mask.as_bytes())?;
    }
    Ok(Text::new(text))
}

// Whether the bot knows a member's host.
fn has_host(member: &Member) -> bool
    ensures { result ≡ has_host member.now }
{
    !member.host.is_empty()
}

// Whether a channel has somebody of this nick whose host the bot knows.
fn shows_host(nick: &[u8], view: &View<'_>, channel: &[u8]) -> bool
    ensures { result ≡ shows_host nick.now view.now channel.now }
{
    match view.channels().member(channel, nick) {
        Some(member) => has_host(member),
        None => false,
    }
}

// The first of these channels that shows the host of somebody.
fn first_showing<'a>(nick: &[u8], view: &View<'_>, names: &'a [Text]) -> Option<&'a Text>
    ensures { option_copied result ≡ find (shows_host nick.now view.now) names.now }
{
    names
        .iter()
        .find(|name| shows_host(nick, view, name.as_bytes()))
}

// The first of these channels that shows the host of somebody, or else the first of all.
fn best_channel<'a>(nick: &[u8], view: &View<'_>, names: &'a [Text]) -> Option<&'a Text>
    ensures { option_copied result ≡ best_channel nick.now view.now names.now }
{
    match first_showing(nick, view, names) {
        Some(name) => Some(name),
        None => names.first(),
    }
}

// The member of this nick on a channel, if there is a channel.
fn member_if<'a>(channel: Option<&Text>, nick: &[u8], view: &'a View<'_>) -> Option<&'a Member>
    ensures { option_copied result ≡ member_if (option_copied channel.entry) nick.now view.now }
{
    match channel {
        Some(channel) => view.channels().member(channel.as_bytes(), nick),
        None => None,
    }
}

// What the NOTICE says about a member, or about a name that nobody has.
fn identified_if(alloc: Global, member: Option<&Member>, view: &View<'_>) -> Result<Text, NoMemory>
    ensures { IfOk result (λ words. words ≡ identified_if (option_copied member.entry) view.now) }
{
    match member {
        Some(member) => identified(alloc, member, view),
        None => Text::from_slice(alloc, b"there is no such user"),
    }
}

// What the NOTICE says about a member.
fn identified(alloc: Global, member: &Member, view: &View<'_>) -> Result<Text, NoMemory>
    ensures { IfOk result (λ words. words ≡ identified member.now view.now) }
{
    if !is_by_account(alloc, member, view)? && !has_host(member) {
        let mut words = Vec::from_slice(alloc, member.nick.as_bytes())?;
        words.extend_from_slice(b" has no known host")?;
        words.extend_from_slice(strange_account(alloc, member, view)?.as_bytes())?;
        return Ok(Text::new(words));
    }
    let who = address_of(alloc, member)?;
    let handle = handle_seen(member, who.as_bytes(), view);
    recognized_if(alloc, view.userfile().user(handle), member, view)
}

// The account under which a member is logged in, as binds see it.
fn account_by<'a>(member: &Member, view: &'a View<'_>) -> &'a [u8]
    ensures { result.now ≡ account_by member.now view.now }
{
    view.channels().account_of(member.nick.as_bytes())
}

// Whether a user has a hostmask of that account. Then the member's claim is the account's, and not the address.
fn is_by_account(alloc: Global, member: &Member, view: &View<'_>) -> Result<bool, NoMemory>
    ensures { IfOk result (λ by_account. by_account ≡ is_by_account member.now view.now) }
{
    let who = address_of(alloc, member)?;
    let mapping = view.channels().casemapping();
    let account = account_by(member, view);
    let claim = claim_by(alloc, view.userfile(), mapping, account, who.as_bytes())?;
    Ok(!claim.is_same(who.as_bytes()))
}

// The handle of a member of this address, `nick!user@host`.
fn handle_seen<'a>(member: &Member, who: &[u8], view: &'a View<'_>) -> &'a [u8]
    requires { who.now ≡ address_of member.now }
    ensures { result.now ≡ handle_seen member.now view.now }
{
    let mapping = view.channels().casemapping();
    handle_by(view.userfile(), mapping, account_by(member, view), who)
}

// What the NOTICE says about a member who is this user, or none.
fn recognized_if(
    alloc: Global,
    user: Option<&User>,
    member: &Member,
    view: &View<'_>,
) -> Result<Text, NoMemory>
    ensures { IfOk result (λ words. words ≡ recognized_if (option_copied user.entry) member.now view.now) }
{
    let Some(user) = user else {
        let mut words = member_shown(alloc, member)?.into_vec();
        words.extend_from_slice(b" is known to no user")?;
        words.extend_from_slice(strange_account(alloc, member, view)?.as_bytes())?;
        return Ok(Text::new(words));
    };
    recognized(alloc, user, member, view)
}

// NICK (nick!user@host) is HANDLE by the account NAME, or by the hostmask MASK.
fn recognized(
    alloc: Global,
    user: &User,
    member: &Member,
    view: &View<'_>,
) -> Result<Text, NoMemory>
    ensures { IfOk result (λ words. words ≡ recognized user.now member.now view.now) }
{
    let who = address_of(alloc, member)?;
    let means = means_of(alloc, user, member, view)?;
    let mut words = member_shown(alloc, member)?.into_vec();
    words.extend_from_slice(b" is ")?;
    words.extend_from_slice(handle_seen(member, who.as_bytes(), view))?;
    words.extend_from_slice(b" by the ")?;
    words.extend_from_slice(means.as_bytes())?;
    Ok(Text::new(words))
}

// NICK (nick!user@host).
fn member_shown(alloc: Global, member: &Member) -> Result<Text, NoMemory>
    ensures { IfOk result (λ words. words ≡ member_shown member.now) }
{
    let mut words = Vec::from_slice(alloc, member.nick.as_bytes())?;
    words.extend_from_slice(b" (")?;
    if has_host(member) {
        words.extend_from_slice(address_of(alloc, member)?.as_bytes())?;
    } else {
        words.extend_from_slice(b"no known host")?;
    }
    words.extend_from_slice(b")")?;
    Ok(Text::new(words))
}

// By what a member is a user: the account that decides, or the hostmask.
fn means_of(alloc: Global, user: &User, member: &Member, view: &View<'_>) -> Result<Text, NoMemory>
    ensures { IfOk result (λ words. words ≡ means_of user.now member.now view.now) }
{
    if is_by_account(alloc, member, view)? {
        return of_two(alloc, b"account ", account_by(member, view));
    }
    let who = address_of(alloc, member)?;
    let mapping = view.channels().casemapping();
    let mask = deciding_mask(mapping, who.as_bytes(), user.masks.as_slice());
    of_two(alloc, b"hostmask ", mask)
}

// The hostmask of a user that decides.
fn deciding_mask<'a>(mapping: Casemapping, who: &[u8], masks: &'a [Hostmask]) -> &'a [u8]
    ensures { result.now ≡ deciding_mask mapping who.now masks.now }
{
    match mask_found(mapping, who, masks) {
        Some(mask) => mask.as_bytes(),
        None => b"",
    }
}

// Of the hostmasks that match a person, the first with most literals.
fn mask_found<'a>(mapping: Casemapping, who: &[u8], masks: &'a [Hostmask]) -> Option<&'a Hostmask>
    ensures { option_copied result ≡ mask_found mapping who.now masks.now }
{
    masks
        .iter()
        .find(|mask| has_most(mapping, who, masks, mask))
}

// Whether a hostmask matches a person, and none of these hostmasks that match has more literals.
fn has_most(mapping: Casemapping, who: &[u8], masks: &[Hostmask], mask: &Hostmask) -> bool
    ensures { result ≡ has_most mapping who.now masks.now mask.now }
{
    mask.matches(mapping, who) && are_under(mapping, who, mask.literals(), masks)
}

// Whether none of these hostmasks that match a person has more than this many literals.
fn are_under(mapping: Casemapping, who: &[u8], most: u8, masks: &[Hostmask]) -> bool
    ensures { result ≡ list_all (is_under mapping who.now most) masks.now }
{
    masks.iter().all(|mask| is_under(mapping, who, most, mask))
}

// Whether a hostmask does not match a person, or has at most this many literals.
fn is_under(mapping: Casemapping, who: &[u8], most: u8, mask: &Hostmask) -> bool
    ensures { result ≡ is_under mapping who.now most mask.now }
{
    !mask.matches(mapping, who) || mask.literals() <= most
}

// The account of a member who is known to no user, if there is one.
fn strange_account(alloc: Global, member: &Member, view: &View<'_>) -> Result<Text, NoMemory>
    ensures { IfOk result (λ words. words ≡ strange_account member.now view.now) }
{
    let account = account_by(member, view);
    if account.is_empty() {
        return Ok(Text::empty(alloc));
    }
    let mut words = Vec::from_slice(alloc, b"; ")?;
    words.extend_from_slice(member.nick.as_bytes())?;
    words.extend_from_slice(b" is logged in to the account ")?;
    words.extend_from_slice(account)?;
    words.extend_from_slice(b", which no user has")?;
    Ok(Text::new(words))
}

// Two texts as one.
fn of_two(alloc: Global, front: &[u8], rest: &[u8]) -> Result<Text, NoMemory>
    ensures { IfOk result (λ text. text ≡ front.now ++ rest.now) }
{
    let mut text = Vec::from_slice(alloc, front)?;
    text.extend_from_slice(rest)?;
    Ok(Text::new(text))
}
