// The next change that a hub accepted, applied in memory alone.
ghost use Rattle.std.specs.Prelude.{◌≡◌, ◌++◌, ◌∷◌, [], None, OnOk, OnErr};
ghost use Rattle.userfile.specs.Apply.{refusal, changed};

use crate::accepted::AcceptedChange;
use bytetext::NoMemory;
use std::alloc::Global;
use userfile::Userfile;

// Applies a change that isn't refused, and appends it to the others.
pub(crate) fn apply_next(
    alloc: Global,
    userfile: &mut Userfile,
    tail: &mut Vec<AcceptedChange>,
    entry: AcceptedChange,
) -> Result<(), NoMemory>
    requires taken { refusal userfile.old entry.change ≡ None }
    ensures records { OnOk result (userfile.new ≡ changed userfile.old entry.change) }
    ensures tail { OnOk result (tail.new.items ≡ tail.old.items ++ entry ∷ []) }
    ensures same_records { OnErr result (userfile.new ≡ userfile.old) }
    ensures same_tail { OnErr result (tail.new.items ≡ tail.old.items) }
{
    tail.reserve(1)?;
    match userfile.apply(alloc, entry.change()) {
        Ok(()) => {}
        Err(_) => return Err(NoMemory),
    }
    tail.push_reserved(entry);
    Ok(())
}
