// What the procs promise.
use procs::Promise;

/// What the procs of the programs promise: each proc's code, and exactly what it requests, given its call and what it
/// sees of its bot. Any of them may run out of memory. `specs/Procs` has the promise, proc by proc.
#[derive(Drop)]
pub struct Ours;

impl Promise for Ours {
    ghost use Rattle.eggprocs.specs.Procs.{ours};

    ghost promised = { ours };
}
