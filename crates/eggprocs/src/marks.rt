// The procs of sticky bans, and the one that lists bans.
ghost use Rattle.std.specs.Prelude.{◌≡◌, map, take, drop, IfOk};
ghost use Rattle.procs.specs.declared.limits.TheConstants.{MAX_ACTIONS};
ghost use Rattle.eggprocs.specs.Args.{told_of};
ghost use Rattle.eggprocs.specs.Marks.{marked, stick, unstick, mark_text, ban_text, told_ban, left_out, told_bans, asked_by_bans};
ghost use Rattle.eggprocs.specs.Rights.{standing_of};

use crate::args::{or_else, told_of};
use crate::people::{FOR_MASTERS, only_told, told};
use crate::rights::{Requester, standing_of};
use bytetext::{NoMemory, Text, after_word, first_word};
use procs::{Action, Actions, Call, MAX_ACTIONS, View, starts_with_word};
use recordtext::bot_number;
use std::alloc::Global;
use userfile::{Ban, Edit, Userfile};

// The edit that `stick` means: MASK CHANNEL.
pub(crate) fn stick(alloc: Global, text: &[u8]) -> Result<Option<Edit>, NoMemory>
    ensures { IfOk result (λ wish. wish ≡ stick text.now) }
{
    marked(alloc, text, true)
}

// The edit that `unstick` means: MASK CHANNEL.
pub(crate) fn unstick(alloc: Global, text: &[u8]) -> Result<Option<Edit>, NoMemory>
    ensures { IfOk result (λ wish. wish ≡ unstick text.now) }
{
    marked(alloc, text, false)
}

// An edit of whether a ban is sticky: of the ban on all channels if no channel is given.
fn marked(alloc: Global, text: &[u8], on: bool) -> Result<Option<Edit>, NoMemory>
    ensures { IfOk result (λ wish. wish ≡ marked text.now on) }
{
    if !starts_with_word(text) {
        return Ok(None);
    }
    let channel = Text::from_slice(alloc, first_word(after_word(text)))?;
    let mask = Text::from_slice(alloc, first_word(text))?;
    Ok(Some(Edit::SetSticky { channel, mask, on }))
}

// What `bans` requests: NOTICEs that list the bans to a master, as many as an answer has room for.
pub(crate) fn asked_by_bans(
    alloc: Global,
    call: &Call,
    view: &View<'_>,
) -> Result<Actions, NoMemory>
    ensures { IfOk result (λ actions.
        actions ≡ asked_by_bans (standing_of call.now view.now) call.now view.now) }
{
    match standing_of(call, view) {
        Requester::Elsewhere => Ok(Actions::empty(alloc)),
        Requester::Stranger => only_told(alloc, call, FOR_MASTERS),
        Requester::Master => told_bans(alloc, call, view.userfile(), left_out(told_of(call))),
    }
}

// How many bans a text leaves out.
fn left_out(text: &[u8]) -> u16
    ensures { result ≡ left_out text.now }
{
    match bot_number(first_word(text)) {
        Some(number) => number.saturating_sub(1),
        None => 0,
    }
}

// A NOTICE for each ban after the first `left_out`, or one if there is none.
fn told_bans(
    alloc: Global,
    call: &Call,
    userfile: &Userfile,
    left_out: u16,
) -> Result<Actions, NoMemory>
    ensures { IfOk result (λ actions.
        actions ≡ told_bans call.now (take MAX_ACTIONS (drop left_out userfile.now.bans))) }
{
    if userfile.ban_count() <= usize::from(left_out) {
        return only_told(alloc, call, b"there is no such ban");
    }
    some_bans(alloc, call, userfile, left_out)
}

// A NOTICE for each ban after the first `left_out`.
fn some_bans(
    alloc: Global,
    call: &Call,
    userfile: &Userfile,
    left_out: u16,
) -> Result<Actions, NoMemory>
    ensures { IfOk result (λ actions.
        actions ≡ map (told_ban call.now) (take MAX_ACTIONS (drop left_out userfile.now.bans))) }
{
    let mut actions = Actions::empty(alloc);
    for count in 0..MAX_ACTIONS {
        let Some(ban) = userfile.ban_at(usize::from(left_out) + count) else {
            return Ok(actions);
        };
        match actions.push(told_ban(alloc, call, ban)?) {
            Ok(()) => {}
            Err(_) => return Err(NoMemory),
        }
    }
    Ok(actions)
}

// A NOTICE to the caller that shows a ban.
fn told_ban(alloc: Global, call: &Call, ban: &Ban) -> Result<Action, NoMemory>
    ensures { IfOk result (λ action. action ≡ told_ban call.now ban.now) }
{
    let words = ban_text(alloc, ban)?;
    told(alloc, call, words.as_bytes())
}

// CHANNEL MASK by HANDLE, with * for all channels.
fn ban_text(alloc: Global, ban: &Ban) -> Result<Text, NoMemory>
    ensures { IfOk result (λ text. text ≡ ban_text ban.now) }
{
    let mut text = Vec::from_slice(alloc, or_else(ban.channel.as_bytes(), b"*"))?;
    text.extend_from_slice(b" ")?;
    text.extend_from_slice(ban.mask.as_bytes())?;
    text.extend_from_slice(b" by ")?;
    text.extend_from_slice(ban.creator.as_bytes())?;
    text.extend_from_slice(mark_text(ban.sticky))?;
    Ok(Text::new(text))
}

// A sticky ban's mark.
fn mark_text(sticky: bool) -> &'static [u8]
    ensures { result.now ≡ mark_text sticky }
{
    if sticky { b", sticky" } else { b"" }
}
