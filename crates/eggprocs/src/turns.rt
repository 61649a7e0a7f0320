// What a bot requests of what it would request alone.
ghost use Rattle.std.specs.Prelude.{◌≡◌, ◌≤◌, true, take, IfOk};
ghost use Rattle.std.specs.List.{filter_map};
ghost use Rattle.procs.specs.declared.limits.TheConstants.{MAX_ACTIONS};
ghost use Rattle.eggprocs.specs.declared.looks.TheConstants.{MAX_TURN};
ghost use Rattle.eggprocs.specs.Looks.{look_for};
ghost use Rattle.eggprocs.specs.Turns.{turn_of, has_look, share_out};

use crate::duties::{Duty, is_each, is_heard_by_all, needs_op, takes_turns};
use crate::everyone::push_if_room;
use crate::hands::rank;
use crate::looks::{MAX_TURN, look_for};
use bytetext::NoMemory;
use procs::{Action, Actions, Call, View};
use std::alloc::Global;

// What a bot requests of what it would request alone: all if it is the first, and otherwise later looks or nothing.
pub(crate) fn share_out(
    alloc: Global,
    duty: Duty,
    call: &Call,
    view: &View<'_>,
    wanted: Actions,
) -> Result<Actions, NoMemory>
    ensures { IfOk result (λ actions. actions ≡ share_out duty call.now view.now wanted) }
{
    if wanted.is_empty() {
        return Ok(wanted);
    }
    let turn = turn_of(alloc, duty, call, view)?;
    if turn == 0 {
        return Ok(wanted);
    }
    if !has_look(duty, turn) {
        return Ok(Actions::empty(alloc));
    }
    let actions = looks(alloc, turn as u32, call, view, wanted.as_slice())?;
    Ok(actions)
}

// Whether a bot looks at this turn.
fn has_look(duty: Duty, turn: usize) -> bool
    ensures look { result ≡ has_look duty turn }
    ensures near { result ≡ true → turn ≤ MAX_TURN }
{
    takes_turns(duty) && turn <= MAX_TURN as usize
}

// How many bots have their turn before this one.
fn turn_of(alloc: Global, duty: Duty, call: &Call, view: &View<'_>) -> Result<usize, NoMemory>
    ensures { IfOk result (λ turn. turn ≡ turn_of duty call.now view.now) }
{
    if is_each(duty) || !is_heard_by_all(call.kind) {
        return Ok(0);
    }
    rank(alloc, needs_op(duty), call, view)
}

// The looks for these actions.
fn looks(
    alloc: Global,
    turn: u32,
    call: &Call,
    view: &View<'_>,
    wanted: &[Action],
) -> Result<Actions, NoMemory>
    requires { turn ≤ MAX_TURN }
    ensures { IfOk result (λ actions. actions ≡ take MAX_ACTIONS (filter_map (look_for turn call.now view.now) wanted.now)) }
{
    let mut actions = Actions::empty(alloc);
    for action in wanted {
        let look = look_for(alloc, turn, call, view, action)?;
        push_if_room(&mut actions, look)?;
    }
    Ok(actions)
}
