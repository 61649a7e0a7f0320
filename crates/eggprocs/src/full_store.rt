// The procs in a store.
ghost use Rattle.std.specs.Prelude.{◌≡◌, ◌++◌, ◌∷◌, [], map, IfOk, OnOk};
ghost use Rattle.eggprocs.specs.Procs.{name_of, every};

use crate::body::EggProc;
use crate::proc_name::{EVERY, ProcName};
use crate::promise::Ours;
use bytetext::{NoMemory, Text};
use procs::{Proc, ProcStore};
use std::alloc::Global;

/// Creates a store of all the procs, in the order of [`EVERY`](crate::EVERY).
///
/// # Errors
/// `NoMemory` if memory cannot be allocated.
pub fn store(alloc: Global) -> Result<ProcStore<Ours, EggProc>, NoMemory>
    ensures { IfOk result (λ store. store ≡ map name_of every) }
{
    store_of(alloc, &EVERY)
}

// A store of these procs, in this order.
fn store_of(alloc: Global, procs: &[ProcName]) -> Result<ProcStore<Ours, EggProc>, NoMemory>
    ensures { IfOk result (λ store. store ≡ map name_of procs.now) }
{
    let mut store = ProcStore::new(alloc);
    for which in procs {
        add(alloc, &mut store, *which)?;
    }
    Ok(store)
}

// Adds a proc. There are few procs and their names differ, so only memory can be lacking.
fn add(alloc: Global, store: &mut ProcStore<Ours, EggProc>, which: ProcName) -> Result<(), NoMemory>
    ensures { OnOk result (store.new ≡ store.old ++ name_of which ∷ []) }
{
    let name = Text::from_slice(alloc, which.name())?;
    let proc = Proc::new(name, EggProc::new(alloc, which));
    match store.add(alloc, proc) {
        Ok(()) => Ok(()),
        Err(_) => Err(NoMemory),
    }
}
