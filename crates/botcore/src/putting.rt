// Puts lines into queues.
ghost use Rattle.std.specs.Prelude.{◌≡◌, ◌++◌, [], OnOk};
ghost use Rattle.botcore.specs.Putting.{HasMoreLines, PutsIn, put_all, put_faults, queued, refusal_in, with_line_fault};

use crate::fault::StepFault;
use crate::manner::Manner;
use crate::report::Faults;
use bytetext::{Failure, NoMemory};
use outqueue::{PutError, Queues};
use procs::PutWish;

// Queues lines of the bot's own in this manner, in order, and appends the refusals to the faults. Out of memory, some of
// them may be queued.
pub(crate) fn put_all(
    queues: &mut Queues,
    faults: &mut Faults,
    manner: Manner,
    wishes: Vec<PutWish>,
) -> Result<(), NoMemory>
    ensures queues { OnOk result (queues.new ≡ put_all manner queues.old wishes.items) }
    ensures faults { OnOk result (faults.new ≡ faults.old ++ put_faults manner queues.old wishes.items) }
    ensures kept { HasMoreLines queues.old queues.new }
{
    for wish in wishes {
        put_one(queues, faults, manner, wish)?;
    }
    Ok(())
}

// Queues a line of the bot's own, or appends the refusal to the faults.
fn put_one(
    queues: &mut Queues,
    faults: &mut Faults,
    manner: Manner,
    wish: PutWish,
) -> Result<(), NoMemory>
    ensures queues { OnOk result (queues.new ≡ queued manner queues.old wish) }
    ensures faults { OnOk result (faults.new ≡ faults.old ++ with_line_fault (refusal_in manner queues.old wish) []) }
    ensures kept { HasMoreLines queues.old queues.new }
{
    match put_in(queues, manner, wish) {
        Ok(()) => Ok(()),
        Err(Failure::Refused(fault)) => faults.push(StepFault::Line(fault)),
        Err(Failure::NoMemory) => Err(NoMemory),
    }
}

// Queues a line in this manner.
#[tactic(auto, using(crate::proofs::PutLemmas::HasMoreLines_puts, crate::proofs::PutLemmas::HasMoreLines_once, crate::proofs::PutLemmas::HasMoreLines_prompt))]
pub(crate) fn put_in(queues: &mut Queues, manner: Manner, wish: PutWish) -> Result<(), PutError>
    ensures puts { PutsIn manner queues.old wish result queues.new }
    ensures kept { HasMoreLines queues.old queues.new }
{
    match manner {
        Manner::InTurn => queues.put(wish.queue, wish.line),
        Manner::Once => queues.put_once(wish.queue, wish.line),
        Manner::Prompt => queues.put_prompt(wish.line),
    }
}
