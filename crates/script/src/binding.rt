// The binds that a script makes and removes.
ghost use Rattle.std.specs.Prelude.{◌≡◌, map, IfOk};
ghost use Rattle.script.specs.Binds.{new_bind_of, old_bind_of, new_bind_by, old_bind_by};

use botcore::{NewBind, OldBind};
use bytetext::{NoMemory, Text};
use procs::BindKind;
use recordtext::rest_of;
use std::alloc::Global;

/// Returns the bind of `kind` that `words` spell as FLAGS PROC MASK.., or `None` if they don't or if `kind` is `None`.
///
/// # Errors
/// `NoMemory` if memory cannot be allocated.
pub fn new_bind(
    alloc: Global,
    kind: Option<BindKind>,
    words: &[&[u8]],
) -> Result<Option<NewBind>, NoMemory>
    ensures { IfOk result (λ bind. bind ≡ new_bind_of kind (map (λ word. word.now) words.now)) }
{
    match words {
        [flags, proc, mask, rest @ ..] => {
            let mask = rest_of(alloc, mask, rest)?;
            new_bind_by(alloc, kind, flags, proc, mask)
        }
        [] | [_] | [_, _] => Ok(None),
    }
}

// The same bind, given its parts.
fn new_bind_by(
    alloc: Global,
    kind: Option<BindKind>,
    flags: &[u8],
    proc: &[u8],
    mask: Option<Text>,
) -> Result<Option<NewBind>, NoMemory>
    ensures { IfOk result (λ bind. bind ≡ new_bind_by kind flags.now proc.now mask) }
{
    let (Some(kind), Some(mask)) = (kind, mask) else {
        return Ok(None);
    };
    if flags.is_empty() || proc.is_empty() {
        return Ok(None);
    }
    let flags = Text::from_slice(alloc, flags)?;
    let proc = Text::from_slice(alloc, proc)?;
    Ok(Some(NewBind {
        kind,
        flags,
        mask,
        proc,
    }))
}

/// Returns the bind of `kind` that `words` name as PROC MASK.., or `None` if they don't or if `kind` is `None`.
///
/// # Errors
/// `NoMemory` if memory cannot be allocated.
pub fn old_bind(
    alloc: Global,
    kind: Option<BindKind>,
    words: &[&[u8]],
) -> Result<Option<OldBind>, NoMemory>
    ensures { IfOk result (λ bind. bind ≡ old_bind_of kind (map (λ word. word.now) words.now)) }
{
    match words {
        [proc, mask, rest @ ..] => {
            let mask = rest_of(alloc, mask, rest)?;
            old_bind_by(alloc, kind, proc, mask)
        }
        [] | [_] => Ok(None),
    }
}

// The same bind, given its parts.
fn old_bind_by(
    alloc: Global,
    kind: Option<BindKind>,
    proc: &[u8],
    mask: Option<Text>,
) -> Result<Option<OldBind>, NoMemory>
    ensures { IfOk result (λ bind. bind ≡ old_bind_by kind proc.now mask) }
{
    let (Some(kind), Some(mask)) = (kind, mask) else {
        return Ok(None);
    };
    if proc.is_empty() {
        return Ok(None);
    }
    let proc = Text::from_slice(alloc, proc)?;
    Ok(Some(OldBind { kind, mask, proc }))
}
