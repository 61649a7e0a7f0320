// The procs that run under the names, and what they promise.
use crate::our_procs::{NAMES, actions_of};
use bytetext::{NoMemory, Text};
use procs::{AddError, Call, Code, Proc, ProcReply, ProcStore, Promise, Run, View};
use std::alloc::Global;

/// What the procs of this program promise, proc by proc, as `specs/Ours.antt` has it.
#[derive(Drop)]
pub struct Ours;

impl Promise for Ours {
    ghost use Rattle.examplebot.specs.Ours.{ours};

    ghost promised = { ours };
}

/// The proc of a name. It allocates its answers on an allocator of its own.
#[derive(Drop)]
pub struct OurProc {
    alloc: Global,
    name: Text,
}

impl Run for OurProc {
    ghost use Rattle.std.specs.Prelude.{◌≡◌, IfOk};
    ghost use Rattle.examplebot.specs.Ours.{reply_of};

    ghost can_run = { λ proc. Unit {0} };

    ghost answers = { λ proc call seen answer. IfOk answer (λ reply. reply ≡ reply_of proc.name call seen) };

    fn run(&self, call: &Call, view: &View<'_>) -> Result<ProcReply, NoMemory> {
        let code = Code::Zero;
        let actions = actions_of(self.alloc, self.name.as_bytes(), call, view)?;
        Ok(ProcReply { code, actions })
    }
}

/// Creates a store of all procs.
///
/// # Errors
/// `NameTaken` if two procs have one name, and `NoMemory` if an allocation fails.
pub(crate) fn store(alloc: Global) -> Result<ProcStore<Ours, OurProc>, AddError> {
    let mut store = ProcStore::new(alloc);
    for name in NAMES {
        let name = Text::from_slice(alloc, name)?;
        let body = OurProc {
            alloc,
            name: Text::from_slice(alloc, name.as_bytes())?,
        };
        if let Err(refused) = store.add(alloc, Proc::new(name, body)) {
            return Err(refused.why);
        }
    }
    Ok(store)
}
