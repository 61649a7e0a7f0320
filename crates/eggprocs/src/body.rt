// The code that runs under the name of a proc.
use crate::actions::actions_by;
use crate::proc_name::ProcName;
use bytetext::NoMemory;
use procs::{Call, ProcReply, Run, View};
use std::alloc::Global;

/// The body of a proc. It allocates the lists of its answers on an allocator of its own.
#[derive(Drop)]
pub struct EggProc {
    alloc: Global,
    which: ProcName,
}

impl EggProc {
    ghost use Rattle.std.specs.Prelude.{◌≡◌};

    // The body of this proc.
    pub(crate) fn new(alloc: Global, which: ProcName) -> EggProc
        ensures { result.which ≡ which }
    {
        EggProc { alloc, which }
    }
}

impl Run for EggProc {
    ghost use Rattle.eggprocs.specs.Procs.{answers_by};

    ghost can_run = { λ body. Unit {0} };

    ghost answers = { λ body call seen answer. answers_by body.which call seen answer };

    fn run(&self, call: &Call, view: &View<'_>) -> Result<ProcReply, NoMemory> {
        let actions = actions_by(self.alloc, self.which, call, view)?;
        let code = self.which.code();
        Ok(ProcReply { code, actions })
    }
}
