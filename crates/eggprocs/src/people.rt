// The procs by which masters change the userfile.
ghost use Rattle.std.specs.Prelude.{◌≡◌, ◌∷◌, [], IfOk};
ghost use Rattle.eggprocs.specs.People.{told, asked_by_command, asked_by_master, asked_for, asked_unless, plus_user, minus_user, plus_host, minus_host, chattr};
ghost use Rattle.eggprocs.specs.Rights.{standing_of};

use crate::args::nick_of;
use crate::askers::in_callers_name;
use crate::lines::notice;
use crate::outcomes::{mask_added, refusal_text};
use crate::pairs::two;
use crate::rights::{Requester, standing_of};
use bytetext::{NoMemory, Text, after_word, first_word};
use flagexpr::Flags;
use loosemask::looseness_of;
use outqueue::Queue;
use procs::{Action, Actions, Call, PutWish, View, starts_with_word};
use std::alloc::Global;
use userfile::{Change, ChangeFault, Edit};

// What the NOTICE to a stranger says.
pub(crate) const FOR_MASTERS: &[u8] = b"only masters and owners may do that";

// A NOTICE to the caller.
pub(crate) fn told(alloc: Global, call: &Call, words: &[u8]) -> Result<Action, NoMemory>
    ensures { IfOk result (λ action. action ≡ told call.now words.now) }
{
    let line = notice(alloc, nick_of(call), words)?;
    let queue = Queue::Help;
    Ok(Action::Put(PutWish { queue, line }))
}

// A NOTICE to the caller, and no other action.
pub(crate) fn only_told(alloc: Global, call: &Call, words: &[u8]) -> Result<Actions, NoMemory>
    ensures { IfOk result (λ actions. actions ≡ told call.now words.now ∷ []) }
{
    let action = told(alloc, call, words)?;
    Actions::one(alloc, action)
}

// What a command to the bot requests.
pub(crate) fn asked_by_command(
    alloc: Global,
    call: &Call,
    view: &View<'_>,
    usage: &[u8],
    wish: Option<Edit>,
) -> Result<Actions, NoMemory>
    ensures { IfOk result (λ actions.
        actions ≡ asked_by_command (standing_of call.now view.now) call.now view.now usage.now wish) }
{
    match standing_of(call, view) {
        Requester::Elsewhere => Ok(Actions::empty(alloc)),
        Requester::Stranger => only_told(alloc, call, FOR_MASTERS),
        Requester::Master => asked_by_master(alloc, call, view, usage, wish),
    }
}

// What a master's command requests: its edit, or a NOTICE of how it is used.
fn asked_by_master(
    alloc: Global,
    call: &Call,
    view: &View<'_>,
    usage: &[u8],
    wish: Option<Edit>,
) -> Result<Actions, NoMemory>
    ensures { IfOk result (λ actions. actions ≡ asked_by_master call.now view.now usage.now wish) }
{
    match wish {
        Some(edit) => asked_for(alloc, call, view, edit),
        None => only_told(alloc, call, usage),
    }
}

// The request of an edit in the caller's name, or a NOTICE of why the bot's userfile would refuse it.
pub(crate) fn asked_for(
    alloc: Global,
    call: &Call,
    view: &View<'_>,
    edit: Edit,
) -> Result<Actions, NoMemory>
    ensures { IfOk result (λ actions. actions ≡ asked_for call.now view.now edit) }
{
    let change = in_callers_name(alloc, call, view, edit)?;
    let fault = view.userfile().refusal_of(&change);
    asked_unless(alloc, fault, call, change)
}

// The request of a change, with a warning if it adds a loose hostmask, or a NOTICE of why the userfile refuses it.
fn asked_unless(
    alloc: Global,
    fault: Option<ChangeFault>,
    call: &Call,
    change: Change,
) -> Result<Actions, NoMemory>
    ensures { IfOk result (λ actions. actions ≡ asked_unless fault call.now change) }
{
    match fault {
        Some(fault) => {
            let words = refusal_text(alloc, fault)?;
            only_told(alloc, call, words.as_bytes())
        }
        None => match looseness_of(mask_added(&change.edit)) {
            Some(looseness) => {
                let warning = told(alloc, call, looseness.warning().as_bytes())?;
                two(alloc, Action::Ask(change), warning)
            }
            None => Actions::one(alloc, Action::Ask(change)),
        },
    }
}

// The edit that `+user` means: HANDLE.
pub(crate) fn plus_user(alloc: Global, text: &[u8]) -> Result<Option<Edit>, NoMemory>
    ensures { IfOk result (λ wish. wish ≡ plus_user text.now) }
{
    if !starts_with_word(text) {
        return Ok(None);
    }
    let handle = Text::from_slice(alloc, first_word(text))?;
    Ok(Some(Edit::AddUser { handle }))
}

// The edit that `-user` means: HANDLE.
pub(crate) fn minus_user(alloc: Global, text: &[u8]) -> Result<Option<Edit>, NoMemory>
    ensures { IfOk result (λ wish. wish ≡ minus_user text.now) }
{
    if !starts_with_word(text) {
        return Ok(None);
    }
    let handle = Text::from_slice(alloc, first_word(text))?;
    Ok(Some(Edit::DelUser { handle }))
}

// The edit that `+host` means: HANDLE MASK.
pub(crate) fn plus_host(alloc: Global, text: &[u8]) -> Result<Option<Edit>, NoMemory>
    ensures { IfOk result (λ wish. wish ≡ plus_host text.now) }
{
    let rest = after_word(text);
    if !(starts_with_word(text) && starts_with_word(rest)) {
        return Ok(None);
    }
    let handle = Text::from_slice(alloc, first_word(text))?;
    let mask = Text::from_slice(alloc, first_word(rest))?;
    Ok(Some(Edit::AddHost { handle, mask }))
}

// The edit that `-host` means: HANDLE MASK.
pub(crate) fn minus_host(alloc: Global, text: &[u8]) -> Result<Option<Edit>, NoMemory>
    ensures { IfOk result (λ wish. wish ≡ minus_host text.now) }
{
    let rest = after_word(text);
    if !(starts_with_word(text) && starts_with_word(rest)) {
        return Ok(None);
    }
    let handle = Text::from_slice(alloc, first_word(text))?;
    let mask = Text::from_slice(alloc, first_word(rest))?;
    Ok(Some(Edit::DelHost { handle, mask }))
}

// The edit that `chattr` means: HANDLE FLAGS.
pub(crate) fn chattr(alloc: Global, text: &[u8]) -> Result<Option<Edit>, NoMemory>
    ensures { IfOk result (λ wish. wish ≡ chattr text.now) }
{
    let rest = after_word(text);
    if !(starts_with_word(text) && starts_with_word(rest)) {
        return Ok(None);
    }
    let Ok(flags) = Flags::parse(first_word(rest)) else {
        return Ok(None);
    };
    let handle = Text::from_slice(alloc, first_word(text))?;
    Ok(Some(Edit::SetGlobal { handle, flags }))
}
