// Checks a configuration before anything is opened.
ghost use Rattle.std.specs.Prelude.{◌<◌, ◌≡◌, ◌≢◌, [], length, IfErr, OnOk};
ghost use Rattle.upkeep.specs.declared.checking.NoBind.TheVariants.{NoMemory as out_of_memory};
ghost use Rattle.upkeep.specs.declared.ending.RunError.TheVariants.{NoServer as no_server, NoMemory as no_memory};

use crate::ending::{KIND, PROC, RunError};
use administrators::fault_answer;
use bytetext::{Failure, NoMemory};
use procs::{BindKind, BindTable, ProcStore, Promise, Run};
use settings::{BindLine, BindWords, Settings};
use std::alloc::Global;

/// Checks whether a bot with these `settings` can run with the procs of `store`, as far as that is known before
/// anything is opened.
///
/// # Errors
/// `NoServer`, as [`RunError`] describes it; then the first bind that is rejected, as `BindKind`, `BindProc` or `Bind`;
/// `NoMemory` if an allocation fails: never if there is no bind.
pub fn check<P: Promise, B: Run>(
    alloc: Global,
    store: &ProcStore<P, B>,
    settings: &Settings,
) -> Result<(), RunError>
    ensures some { OnOk result (0 < length settings.now.servers) }
    ensures server { IfErr result (λ why. why ≡ no_server → settings.now.servers ≡ []) }
    ensures memory { IfErr result (λ why. why ≡ no_memory → 0 < length settings.now.binds) }
{
    if settings.servers.is_empty() {
        return Err(RunError::NoServer);
    }
    let mut table = BindTable::new(alloc);
    for bind in settings.binds.as_slice() {
        check_bind(alloc, store, &mut table, bind)?;
    }
    Ok(())
}

// Adds a bind to a table.
fn check_bind<P: Promise, B: Run>(
    alloc: Global,
    store: &ProcStore<P, B>,
    table: &mut BindTable,
    bind: &BindLine,
) -> Result<(), RunError>
    ensures { IfErr result (λ why. why ≢ no_server) }
{
    let kind = match kind_of(store, &bind.words) {
        Ok(kind) => kind,
        Err(why) => return Err(of_line(bind.line, why)),
    };
    match table.bind(
        alloc,
        kind,
        bind.words.flags.as_bytes(),
        bind.words.mask.as_bytes(),
        bind.words.proc.as_bytes(),
    ) {
        Ok(_) => Ok(()),
        Err(Failure::Refused(fault)) => Err(RunError::Bind {
            line: bind.line,
            fault,
        }),
        Err(Failure::NoMemory) => Err(RunError::NoMemory),
    }
}

/// Why a bind cannot be asked for.
#[derive(Clone, Copy)]
pub enum NoBind {
    /// The type of bind is unknown.
    Kind,
    /// The program lacks the proc.
    Proc,
    /// An allocation failed.
    NoMemory,
}

impl From<NoMemory> for NoBind {
    ghost from_gives = { λ _ e. e ≡ out_of_memory };

    fn from(_refused: NoMemory) -> NoBind {
        NoBind::NoMemory
    }
}

/// Returns the error for a line of the configuration whose bind cannot be asked for.
pub fn of_line(line: u64, why: NoBind) -> RunError
    ensures { result ≢ no_server }
{
    match why {
        NoBind::Kind => RunError::BindKind { line },
        NoBind::Proc => RunError::BindProc { line },
        NoBind::NoMemory => RunError::NoMemory,
    }
}

/// Returns the type of the bind that these words ask for, if the procs of `store` have its proc.
///
/// # Errors
/// `Kind` if there is no such type; then `Proc` if there is no such proc.
pub fn kind_of<P: Promise, B: Run>(
    store: &ProcStore<P, B>,
    words: &BindWords,
) -> Result<BindKind, NoBind> {
    let Some(kind) = BindKind::of_word(words.kind.as_bytes()) else {
        return Err(NoBind::Kind);
    };
    if store.holds(words.proc.as_bytes()) {
        Ok(kind)
    } else {
        Err(NoBind::Proc)
    }
}

/// Returns why a bind cannot be asked for, as the answer to an admin.
///
/// # Errors
/// `NoMemory` if an allocation fails.
pub fn no_bind_answer(alloc: Global, why: NoBind) -> Result<Vec<u8>, NoMemory> {
    match why {
        NoBind::Kind => fault_answer(alloc, &KIND),
        NoBind::Proc => fault_answer(alloc, &PROC),
        NoBind::NoMemory => Err(NoMemory),
    }
}
