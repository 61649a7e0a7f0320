// Procs by name.
ghost use Rattle.std.specs.Prelude.{◌≡◌};
ghost use Rattle.procs.specs.Calling.{as_called};

use crate::call::Call;
use crate::limits::MAX_PROCS;
use crate::proc::Proc;
use crate::proc_fault::{AddError, AddFault, CallError, CallFault};
use crate::promise::Promise;
use crate::reply::ProcReply;
use crate::run::{Body, Run};
use crate::view::View;
use bytetext::{Failure, NoMemory, TryCopy};
use indexmap::IndexMap;
use std::alloc::Global;
use std::marker::Model;

/// At most 200 procs, each found by its name, byte for byte. Contracts see the list of the names, in the order in which
/// the procs were added.
///
/// ```text
/// let mut store: ProcStore<Ours, Body> = ProcStore::new(alloc);
/// store.add(alloc, Proc::new(name, body))?;
/// let reply = store.call(b"greet", &call, &view)?;
/// ```
#[derive(Drop)]
pub struct ProcStore<P: Promise, B: Run = Body> {
    procs: IndexMap<Vec<u8>, Proc<P, B>>,
}

impl<P: Promise, B: Run> Model for ProcStore<P, B> {
    ghost use Rattle.std.specs.Prelude.{List, ℕ, ◌≤◌, length};
    ghost use Rattle.procs.specs.Named.{names_of, AreKeyed};
    ghost use Rattle.procs.specs.declared.limits.TheConstants.{MAX_PROCS};

    ghost Value = { List (List ℕ) };

    ghost view = { λ s. names_of s.procs.entries };

    ghost invariant = { λ s. AreKeyed s.procs.entries × (length (names_of s.procs.entries) ≤ MAX_PROCS) };
}

/// A proc that was not added, and why.
#[derive(Drop)]
pub struct NotAdded<P: Promise, B: Run = Body> {
    /// The proc that the caller passed.
    pub proc: Proc<P, B>,
    /// Why the store does not add it.
    pub why: AddError,
}

impl<P: Promise, B: Run> ProcStore<P, B> {
    ghost use Rattle.std.specs.Prelude.{◌≡◌, ◌≤◌, ◌++◌, ◌∷◌, [], None, length, OnOk, OnErr, IfErr};
    ghost use Rattle.procs.specs.Calling.{holds, refusal, IsWhy, IsCalled};

    /// Creates a store without procs. Does not allocate.
    pub fn new(alloc: Global) -> ProcStore<P, B>
        ensures { result ≡ [] }
    {
        ProcStore {
            procs: IndexMap::new(alloc),
        }
    }

    /// Returns the number of procs.
    pub fn len(&self) -> usize
        ensures count { result ≡ length self.now }
        ensures few { result ≤ MAX_PROCS }
    {
        self.procs.len()
    }

    /// Returns whether a proc has this `name`, byte for byte.
    pub fn holds(&self, name: &[u8]) -> bool
        ensures { result ≡ holds self.now name.now }
    {
        self.procs.contains_key(name)
    }

    /// Appends `proc`.
    ///
    /// # Errors
    /// `NameTaken` (P1) if a proc has its name, `Full` (P2) if there are 200 procs, and `NoMemory` if neither holds
    /// and the store can't grow. The store is unchanged and returns `proc`.
    pub fn add(&mut self, alloc: Global, proc: Proc<P, B>) -> Result<(), NotAdded<P, B>>
        ensures added { OnOk result (self.new ≡ self.old ++ proc.name ∷ []) }
        ensures allowed { OnOk result (refusal self.old proc.name ≡ None) }
        ensures why { IfErr result (λ refused. IsWhy (refusal self.old proc.name) refused.why) }
        ensures handed_back { IfErr result (λ refused. refused.proc ≡ proc) }
        ensures unchanged { OnErr result (self.new ≡ self.old) }
    {
        if let Some(fault) = self.refusal_of(proc.name()) {
            let why = Failure::Refused(fault);
            return Err(NotAdded { proc, why });
        }
        let why = Failure::NoMemory;
        let name = match Vec::from_slice(alloc, proc.name()) {
            Ok(name) => name,
            Err(_) => return Err(NotAdded { proc, why }),
        };
        match self.procs.insert(name, proc) {
            Ok(_) => Ok(()),
            Err(refused) => Err(NotAdded {
                proc: refused.value.1,
                why,
            }),
        }
    }

    // Returns why no proc of this name can be added.
    fn refusal_of(&self, name: &[u8]) -> Option<AddFault>
        ensures { result ≡ refusal self.now name.now }
    {
        if self.holds(name) {
            return Some(AddFault::NameTaken);
        }
        if self.len() >= MAX_PROCS {
            return Some(AddFault::Full);
        }
        None
    }

    /// Calls the proc `name` with `call` and `view`. The store itself does not allocate.
    ///
    /// # Errors
    /// `NoSuchProc` (P3) if and only if no proc has this name. `NoMemory` (P4) if the proc runs out of memory and its
    /// promise allows that for this call.
    pub fn call(&self, name: &[u8], call: &Call, view: &View<'_>) -> Result<ProcReply, CallError>
        ensures { IsCalled P.promised self.now name.now call.now view.now result }
    {
        match self.procs.get(name) {
            Some(proc) => as_called(proc.body.run(call, view)),
            None => Err(Failure::Refused(CallFault::NoSuchProc)),
        }
    }
}

// Turns the answer of a proc into the answer of a call by name.
fn as_called(answer: Result<ProcReply, NoMemory>) -> Result<ProcReply, CallError>
    ensures { result ≡ as_called answer }
{
    match answer {
        Ok(reply) => Ok(reply),
        Err(NoMemory) => Err(Failure::NoMemory),
    }
}
