// Why a change is refused, whatever the userfile holds.
ghost use Rattle.std.specs.Prelude.{◌≡◌};
ghost use Rattle.userfile.specs.Apply.{fault_if, fault_unless, first_of_two, bad_asker, bad_edit, bad_shape};
ghost use Rattle.std.specs.Option.{option_copied};
ghost use Rattle.userfile.specs.Shapes.{is_handle, is_hostmask, is_ban_channel};
ghost use Rattle.userfile.specs.declared.error.ChangeFault.TheVariants.{BadHandle, BadMask, BadChannel};

use crate::change::{Asker, Change};
use crate::edit::Edit;
use crate::error::ChangeFault;
use crate::shapes::{is_ban_channel, is_comment, is_handle, is_hostmask, is_info, is_person};
use rfccase::is_channel_name;

/// Returns the refusal of `change` for its own shape, whatever a userfile holds, or `None` if the shape is good. The
/// shape of the person who asks comes first. Does not allocate.
pub fn shape(change: &Change) -> Option<ChangeFault>
    ensures { result ≡ bad_shape change.now }
{
    first_of_two(asker_fault(change.by.as_ref()), edit_fault(&change.edit))
}

// The refusal for who asks.
fn asker_fault(by: Option<&Asker>) -> Option<ChangeFault>
    ensures { result ≡ bad_asker (option_copied by.entry) }
{
    match by {
        Some(asker) => fault_unless(is_person(asker.person.as_bytes()), ChangeFault::BadMask),
        None => None,
    }
}

// The refusal of an edit for its own shape.
fn edit_fault(edit: &Edit) -> Option<ChangeFault>
    ensures { result ≡ bad_edit edit.now }
{
    match edit {
        Edit::AddUser { handle }
        | Edit::DelUser { handle }
        | Edit::SetGlobal { handle, .. }
        | Edit::SetBot { handle, .. } => handle_fault(handle.as_bytes()),
        Edit::AddHost { handle, mask } | Edit::DelHost { handle, mask } => {
            first_of_two(handle_fault(handle.as_bytes()), mask_fault(mask.as_bytes()))
        }
        Edit::SetChan {
            handle,
            channel,
            ..
        } => first_of_two(
            handle_fault(handle.as_bytes()),
            fault_unless(is_channel_name(channel.as_bytes()), ChangeFault::BadChannel),
        ),
        Edit::AddBan {
            channel,
            mask,
            creator,
            comment,
            ..
        } => first_of_two(
            handle_fault(creator.as_bytes()),
            first_of_two(
                ban_fault(channel.as_bytes(), mask.as_bytes()),
                fault_unless(is_comment(comment.as_bytes()), ChangeFault::BadComment),
            ),
        ),
        Edit::SetInfo { handle, info } => first_of_two(
            handle_fault(handle.as_bytes()),
            fault_unless(is_info(info.as_bytes()), ChangeFault::BadComment),
        ),
        Edit::DelBan { channel, mask } | Edit::SetSticky { channel, mask, .. } => {
            ban_fault(channel.as_bytes(), mask.as_bytes())
        }
    }
}

fn handle_fault(handle: &[u8]) -> Option<ChangeFault>
    ensures { result ≡ fault_unless (is_handle handle.now) BadHandle }
{
    fault_unless(is_handle(handle), ChangeFault::BadHandle)
}

fn mask_fault(mask: &[u8]) -> Option<ChangeFault>
    ensures { result ≡ fault_unless (is_hostmask mask.now) BadMask }
{
    fault_unless(is_hostmask(mask), ChangeFault::BadMask)
}

fn ban_fault(channel: &[u8], mask: &[u8]) -> Option<ChangeFault>
    ensures { result ≡ first_of_two (fault_unless (is_hostmask mask.now) BadMask) (fault_unless (is_ban_channel channel.now) BadChannel) }
{
    first_of_two(
        mask_fault(mask),
        fault_unless(is_ban_channel(channel), ChangeFault::BadChannel),
    )
}

// The fault, if the test passes.
pub(crate) fn fault_if(test: bool, fault: ChangeFault) -> Option<ChangeFault>
    ensures { result ≡ fault_if test fault }
{
    if test { Some(fault) } else { None }
}

// The fault, if the test fails.
pub(crate) fn fault_unless(test: bool, fault: ChangeFault) -> Option<ChangeFault>
    ensures { result ≡ fault_unless test fault }
{
    if test { None } else { Some(fault) }
}

// The first of two refusals.
pub(crate) fn first_of_two(
    first: Option<ChangeFault>,
    later: Option<ChangeFault>,
) -> Option<ChangeFault>
    ensures { result ≡ first_of_two first later }
{
    match first {
        Some(fault) => Some(fault),
        None => later,
    }
}
