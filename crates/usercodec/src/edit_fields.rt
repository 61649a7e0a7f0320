// Reads the fields of an edit, after its tag. It reads all of them before the first copy, so it allocates only if the
// bytes are an edit.
ghost use Rattle.std.specs.Prelude.{◌≡◌};
ghost use Rattle.usercodec.specs.Answers.{Makes};
ghost use Rattle.usercodec.specs.Fields.{handle_at};
ghost use Rattle.usercodec.specs.Changes.{handle_and_mask_at, handle_and_flags_at, channel_and_mask_at};
ghost use Rattle.usercodec.specs.Changes.{set_chan_at, add_ban_at, set_info_at, set_sticky_at, edit_fields_at};

use crate::bans::ban_fields;
use crate::fault::{CodecError, CodecFault};
use crate::reader::Reader;
use bytetext::{Failure, Text};
use flagexpr::Flags;
use std::alloc::Global;
use userfile::Edit;

#[tactic(auto, unfolding(crate::specs::Changes::edit_fields_at))]
pub(crate) fn edit_fields(
    alloc: Global,
    tag: u8,
    reader: &mut Reader<'_>,
) -> Result<Edit, CodecError>
    ensures { Makes (λ edit. (edit, reader.new)) result (edit_fields_at tag reader.old) }
{
    match tag {
        1 => {
            let handle = handle(alloc, reader)?;
            Ok(Edit::AddUser { handle })
        }
        2 => {
            let handle = handle(alloc, reader)?;
            Ok(Edit::DelUser { handle })
        }
        3 => {
            let (handle, mask) = handle_and_mask(alloc, reader)?;
            Ok(Edit::AddHost { handle, mask })
        }
        4 => {
            let (handle, mask) = handle_and_mask(alloc, reader)?;
            Ok(Edit::DelHost { handle, mask })
        }
        5 => {
            let (handle, flags) = handle_and_flags(alloc, reader)?;
            Ok(Edit::SetGlobal { handle, flags })
        }
        6 => set_chan(alloc, reader),
        7 => {
            let (handle, flags) = handle_and_flags(alloc, reader)?;
            Ok(Edit::SetBot { handle, flags })
        }
        8 => add_ban(alloc, reader),
        9 => {
            let (channel, mask) = channel_and_mask(alloc, reader)?;
            Ok(Edit::DelBan { channel, mask })
        }
        10 => set_info(alloc, reader),
        11 => set_sticky(alloc, reader),
        _ => Err(Failure::Refused(CodecFault::BadTag)),
    }
}

fn handle(alloc: Global, reader: &mut Reader<'_>) -> Result<Text, CodecError>
    ensures { Makes (λ text. (text, reader.new)) result (handle_at reader.old) }
{
    let handle = reader.handle()?;
    Ok(Text::from_slice(alloc, handle)?)
}

#[tactic(auto, unfolding(crate::specs::Changes::handle_and_mask_at))]
fn handle_and_mask(alloc: Global, reader: &mut Reader<'_>) -> Result<(Text, Text), CodecError>
    ensures { Makes (λ pair. (pair, reader.new)) result (handle_and_mask_at reader.old) }
{
    let handle = reader.handle()?;
    let mask = reader.hostmask()?;
    Ok((
        Text::from_slice(alloc, handle)?,
        Text::from_slice(alloc, mask)?,
    ))
}

#[tactic(auto, unfolding(crate::specs::Changes::handle_and_flags_at))]
fn handle_and_flags(alloc: Global, reader: &mut Reader<'_>) -> Result<(Text, Flags), CodecError>
    ensures { Makes (λ pair. (pair, reader.new)) result (handle_and_flags_at reader.old) }
{
    let handle = reader.handle()?;
    let flags = reader.flags()?;
    Ok((Text::from_slice(alloc, handle)?, flags))
}

#[tactic(auto, unfolding(crate::specs::Changes::channel_and_mask_at))]
fn channel_and_mask(alloc: Global, reader: &mut Reader<'_>) -> Result<(Text, Text), CodecError>
    ensures { Makes (λ pair. (pair, reader.new)) result (channel_and_mask_at reader.old) }
{
    let channel = reader.ban_channel()?;
    let mask = reader.hostmask()?;
    Ok((
        Text::from_slice(alloc, channel)?,
        Text::from_slice(alloc, mask)?,
    ))
}

#[tactic(auto, unfolding(crate::specs::Changes::set_chan_at))]
fn set_chan(alloc: Global, reader: &mut Reader<'_>) -> Result<Edit, CodecError>
    ensures { Makes (λ edit. (edit, reader.new)) result (set_chan_at reader.old) }
{
    let handle = reader.handle()?;
    let channel = reader.channel()?;
    let flags = reader.flags()?;
    Ok(Edit::SetChan {
        handle: Text::from_slice(alloc, handle)?,
        channel: Text::from_slice(alloc, channel)?,
        flags,
    })
}

#[tactic(auto, unfolding(crate::specs::Changes::add_ban_at))]
fn add_ban(alloc: Global, reader: &mut Reader<'_>) -> Result<Edit, CodecError>
    ensures { Makes (λ edit. (edit, reader.new)) result (add_ban_at reader.old) }
{
    let ban = ban_fields(reader)?;
    Ok(Edit::AddBan {
        channel: Text::from_slice(alloc, ban.channel)?,
        mask: Text::from_slice(alloc, ban.mask)?,
        creator: Text::from_slice(alloc, ban.creator)?,
        expires: ban.expires,
        comment: Text::from_slice(alloc, ban.comment)?,
    })
}

#[tactic(auto, unfolding(crate::specs::Changes::set_info_at))]
fn set_info(alloc: Global, reader: &mut Reader<'_>) -> Result<Edit, CodecError>
    ensures { Makes (λ edit. (edit, reader.new)) result (set_info_at reader.old) }
{
    let handle = reader.handle()?;
    let info = reader.info()?;
    Ok(Edit::SetInfo {
        handle: Text::from_slice(alloc, handle)?,
        info: Text::from_slice(alloc, info)?,
    })
}

#[tactic(auto, unfolding(crate::specs::Changes::set_sticky_at))]
fn set_sticky(alloc: Global, reader: &mut Reader<'_>) -> Result<Edit, CodecError>
    ensures { Makes (λ edit. (edit, reader.new)) result (set_sticky_at reader.old) }
{
    let channel = reader.ban_channel()?;
    let mask = reader.hostmask()?;
    let on = reader.mark()?;
    Ok(Edit::SetSticky {
        channel: Text::from_slice(alloc, channel)?,
        mask: Text::from_slice(alloc, mask)?,
        on,
    })
}
