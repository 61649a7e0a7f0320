// The changes that the procs of a step asked for.
ghost use Rattle.std.specs.Prelude.{◌≡◌, ◌++◌, OnOk, count_by};
ghost use Rattle.botrun.specs.Askers.{asked_by_procs, is_refused_ask, proc_askers};

use administrators::{Asks, asks_in, is_ask_fault};
use botcore::{ActionFault, Faults, Report, StepFault};
use bytetext::NoMemory;
use std::alloc::Global;

// Notes that the procs of a step asked for changes that the link took. If the link did not take all, it is unknown
// which ones it took, and nobody waits for an answer.
pub(crate) fn put_procs(asks: &mut Asks, alloc: Global, report: &Report) -> Result<(), NoMemory>
    ensures last { OnOk result (asks.new.askers.items ≡ asks.old.askers.items ++ proc_askers report.now) }
    ensures same { asks.new.asker ≡ asks.old.asker }
{
    if refused_in(&report.faults) > 0 {
        return asks.put_many(asked_by_procs(report));
    }
    asks.put_callers(alloc, &report.calls)
}

// The number of changes that the procs of a step asked for and the link took.
fn asked_by_procs(report: &Report) -> usize
    ensures { result ≡ asked_by_procs report.now }
{
    asks_in(&report.calls).saturating_sub(refused_in(&report.faults))
}

// The number of changes among these that the link refused.
pub(crate) fn refused_in(faults: &Faults) -> usize
    ensures { result ≡ count_by is_refused_ask faults.now }
{
    faults
        .as_slice()
        .iter()
        .filter(|fault| is_refused_ask(fault))
        .count()
}

// Whether the link refused a change that a proc asked for. Once the link is down, nothing is answered any more.
fn is_refused_ask(fault: &StepFault) -> bool
    ensures { result ≡ is_refused_ask fault.now }
{
    match fault {
        StepFault::Action(ActionFault::Link(fault)) => is_ask_fault(*fault),
        StepFault::Action(ActionFault::Clock(_) | ActionFault::Queue(_))
        | StepFault::Unbound(_)
        | StepFault::Line(_) => false,
    }
}
