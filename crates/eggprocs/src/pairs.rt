// Two actions, three, and four.
ghost use Rattle.std.specs.Prelude.{◌≡◌, ◌∷◌, [], IfOk};
ghost use Rattle.eggprocs.specs.Bans.{and_then};

use bytetext::NoMemory;
use procs::{Action, Actions};
use std::alloc::Global;

// Two actions, in this order.
pub(crate) fn two(alloc: Global, first: Action, second: Action) -> Result<Actions, NoMemory>
    ensures { IfOk result (λ actions. actions ≡ first ∷ second ∷ []) }
{
    let mut actions = Actions::one(alloc, first)?;
    match actions.push(second) {
        Ok(()) => Ok(actions),
        Err(_) => Err(NoMemory),
    }
}

// Two actions, and a third if there is one.
pub(crate) fn and_then(
    alloc: Global,
    first: Action,
    second: Action,
    third: Option<Action>,
) -> Result<Actions, NoMemory>
    ensures { IfOk result (λ actions. actions ≡ and_then first second third) }
{
    let mut actions = two(alloc, first, second)?;
    let Some(third) = third else {
        return Ok(actions);
    };
    match actions.push(third) {
        Ok(()) => Ok(actions),
        Err(_) => Err(NoMemory),
    }
}

// An action, two more, and a fourth if there is one.
pub(crate) fn after_one(
    alloc: Global,
    front: Action,
    first: Action,
    second: Action,
    third: Option<Action>,
) -> Result<Actions, NoMemory>
    ensures { IfOk result (λ actions. actions ≡ front ∷ and_then first second third) }
{
    let mut actions = two(alloc, front, first)?;
    match actions.push(second) {
        Ok(()) => {}
        Err(_) => return Err(NoMemory),
    }
    let Some(third) = third else {
        return Ok(actions);
    };
    match actions.push(third) {
        Ok(()) => Ok(actions),
        Err(_) => Err(NoMemory),
    }
}
