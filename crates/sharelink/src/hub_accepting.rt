// How a hub accepts a change.
ghost use Rattle.std.specs.Prelude.{◌≡◌, ◌+◌, true, false, None};
ghost use Rattle.userfile.specs.Apply.{refusal};
ghost use Rattle.protocol.specs.Journals.{is_next};
ghost use Rattle.sharelink.specs.declared.TheConstants.{MAX_LEAVES};
ghost use Rattle.sharelink.specs.Shapes.{GoOut};
ghost use Rattle.sharelink.specs.HubLinks.{Accepts};

use crate::accepted::AcceptedChange;
use crate::answer::Answer;
use crate::error::{LinkError, LinkFault};
use crate::hub_packets::accepted_packets;
use crate::hub_record::HubRecord;
use crate::hub_state::HubState;
use crate::kept::Kept;
use crate::note::LinkNote;
use bytetext::{Failure, Seq, TryCopy};
use disks::Disk;
use std::alloc::Global;
use userfile::Change;

/// Accepts `change`, which isn't refused, under the next number: journals it, and sends it to each leaf, after the
/// reply to the leaf `origin` that asked for it under the request number `request`. Both are 0 for a change of the
/// hub's own.
///
/// # Errors
/// `NumbersSpent` at the last version; `NoMemory`; `JournalFault` if a disk failed.
pub(crate) fn accept<D: Disk>(
    alloc: Global,
    kept: &mut Kept<HubState, D>,
    origin: u16,
    request: u32,
    change: &Change,
) -> Result<Answer, LinkError>
    requires up { kept.old.down ≡ false }
    requires taken { refusal kept.old.state.records change.now ≡ None }
    requires next { is_next kept.old.state.replies origin request ≡ true }
    ensures accepts { Accepts kept.old (record { origin = origin; request = request; change = change.now }) result kept.new }
    ensures packets { GoOut (MAX_LEAVES + 1) result }
{
    if kept.state().version() == u32::MAX {
        return Err(Failure::Refused(LinkFault::NumbersSpent));
    }
    let number = kept.state().version() + 1;
    let entry = AcceptedChange::new(origin, request, change.copy(alloc)?);
    let packets = accepted_packets(alloc, kept.who(), number, &entry)?;
    match kept.journal(alloc, HubRecord::accept(entry)) {
        Ok(()) => Ok(Answer {
            note: LinkNote::Accepted(number),
            packets: Seq::new(packets),
        }),
        Err(error) => Err(error),
    }
}
