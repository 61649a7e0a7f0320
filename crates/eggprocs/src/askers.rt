// In whose name a proc requests a change.
ghost use Rattle.std.specs.Prelude.{◌≡◌, IfOk};
ghost use Rattle.eggprocs.specs.Askers.{caller_address, caller_claim, asker_of, in_callers_name};

use crate::args::{arg_at, nick_of};
use bytetext::{NoMemory, Text};
use procs::{Call, View, claim_by};
use std::alloc::Global;
use userfile::{Asker, Change, Edit};

// The caller as nick!user@host.
pub(crate) fn caller_address(alloc: Global, call: &Call) -> Result<Text, NoMemory>
    ensures { IfOk result (λ who. who ≡ caller_address call.now) }
{
    let mut who = Vec::from_slice(alloc, nick_of(call))?;
    who.extend_from_slice(b"!")?;
    who.extend_from_slice(arg_at(call.args.as_slice(), 1))?;
    Ok(Text::new(who))
}

// The caller's claim: `$a:NAME` if a user has a hostmask of the caller's account NAME, and else nick!user@host.
fn caller_claim(alloc: Global, call: &Call, view: &View<'_>) -> Result<Text, NoMemory>
    ensures { IfOk result (λ claim. claim ≡ caller_claim call.now view.now) }
{
    let who = caller_address(alloc, call)?;
    let channels = view.channels();
    let account = channels.account_of(nick_of(call));
    let mapping = channels.casemapping();
    claim_by(alloc, view.userfile(), mapping, account, who.as_bytes())
}

// Who asks for what a caller wants: the caller, as the bot's server compares hostmasks.
fn asker_of(alloc: Global, call: &Call, view: &View<'_>) -> Result<Asker, NoMemory>
    ensures { IfOk result (λ asker. asker ≡ asker_of call.now view.now) }
{
    let person = caller_claim(alloc, call, view)?;
    let casemapping = view.channels().casemapping();
    Ok(Asker {
        person,
        casemapping,
    })
}

// An edit of the userfile, requested in the caller's name.
pub(crate) fn in_callers_name(
    alloc: Global,
    call: &Call,
    view: &View<'_>,
    edit: Edit,
) -> Result<Change, NoMemory>
    ensures { IfOk result (λ change. change ≡ in_callers_name call.now view.now edit) }
{
    let asker = asker_of(alloc, call, view)?;
    Ok(Change::by_person(asker, edit))
}
