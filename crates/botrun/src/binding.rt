// A bind that is made or removed, and the answer to an admin who asks for it.
use administrators::{numbered_answer, refused_answer};
use botcore::{End, NewBind, Note, OldBind, Report};
use bytetext::{NoMemory, TryCopy};
use control::UnbindWords;
use procs::{BindKind, ProcStore, Promise, Run};
use settings::BindWords;
use std::alloc::Global;
use upkeep::{NoBind, kind_of};

// Parses these words as a bind.
pub(crate) fn new_bind<P: Promise, B: Run>(
    alloc: Global,
    store: &ProcStore<P, B>,
    words: &BindWords,
) -> Result<NewBind, NoBind> {
    Ok(NewBind {
        kind: kind_of(store, words)?,
        flags: words.flags.copy(alloc)?,
        mask: words.mask.copy(alloc)?,
        proc: words.proc.copy(alloc)?,
    })
}

// Parses these words as a bind to remove.
pub(crate) fn old_bind(words: UnbindWords) -> Result<OldBind, NoBind> {
    match BindKind::of_word(words.kind.as_bytes()) {
        Some(kind) => Ok(OldBind {
            kind,
            mask: words.mask,
            proc: words.proc,
        }),
        None => Err(NoBind::Kind),
    }
}

// The outcome of adding or removing a bind, as a line.
pub(crate) fn bind_answer(alloc: Global, report: &Report) -> Result<Vec<u8>, NoMemory> {
    match report.end {
        End::Done => bound_answer(alloc, &report.note),
        End::Refused(refusal) => refused_answer(alloc, refusal.code(), &refusal),
        End::NoMemory => Err(NoMemory),
    }
}

fn bound_answer(alloc: Global, note: &Option<Note>) -> Result<Vec<u8>, NoMemory> {
    match note {
        Some(Note::Bound(number)) => numbered_answer(alloc, "bound", *number),
        Some(Note::Unbound(number)) => numbered_answer(alloc, "unbound", *number),
        Some(Note::Link(_) | Note::Bad(_)) | None => Ok(Vec::new(alloc)),
    }
}
