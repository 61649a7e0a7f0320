// A change that is moved out of an entry.
ghost use Rattle.std.specs.Prelude.{◌≡◌};

use bytetext::Text;
use std::alloc::Global;
use std::mem;
use userfile::{Change, Edit};

// Moves a change out of an entry. An entry has a `drop` of its own, so a change that owns no memory takes its place.
pub(crate) fn moved_change(alloc: Global, change: &mut Change) -> Change
    ensures { result ≡ change.old }
{
    let placeholder = Change::by_nobody(Edit::DelUser {
        handle: Text::empty(alloc),
    });
    mem::replace(change, placeholder)
}
