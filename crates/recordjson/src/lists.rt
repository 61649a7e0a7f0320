// Lists: strings, and flags on channels.
ghost use Rattle.std.specs.Prelude.{◌≡◌, ◌++◌, OnOk, slice_get};
ghost use Rattle.flagexpr.specs.Letters.{spelling};
ghost use Rattle.std.specs.Option.{option_copied};
ghost use Rattle.recordjson.specs.Words.{found, listed, quoted};
ghost use Rattle.recordjson.specs.Users.{chan_text};

use crate::line::JsonLine;
use bytetext::NoMemory;
use flagexpr::Flags;
use std::alloc::Global;
use userfile::{ChannelFlags, Hostmask};

// Appends the hostmasks, in order.
pub(crate) fn put_masks(line: &mut JsonLine, masks: &[Hostmask]) -> Result<(), NoMemory>
    ensures { OnOk result (line.new ≡ line.old ++ listed quoted masks.now) }
{
    for place in 0..masks.len() {
        line.put_comma(place)?;
        put_found_mask(line, mask_at(masks, place))?;
    }
    Ok(())
}

// The hostmask at a place.
fn mask_at(masks: &[Hostmask], place: usize) -> Option<&Hostmask>
    ensures { option_copied result ≡ slice_get masks.now place }
{
    masks.get(place)
}

// Appends a hostmask; nothing for `None`.
fn put_found_mask(line: &mut JsonLine, mask: Option<&Hostmask>) -> Result<(), NoMemory>
    ensures { OnOk result (line.new ≡ line.old ++ found quoted (option_copied mask.entry)) }
{
    match mask {
        Some(mask) => line.put_text(mask.as_bytes()),
        None => Ok(()),
    }
}

// Appends the flags on each channel, in order.
pub(crate) fn put_chans(
    alloc: Global,
    line: &mut JsonLine,
    entries: &[ChannelFlags],
) -> Result<(), NoMemory>
    ensures { OnOk result (line.new ≡ line.old ++ listed chan_text entries.now) }
{
    for place in 0..entries.len() {
        line.put_comma(place)?;
        put_found_chan(alloc, line, entry_at(entries, place))?;
    }
    Ok(())
}

// The flags on the channel at a place.
fn entry_at(entries: &[ChannelFlags], place: usize) -> Option<&ChannelFlags>
    ensures { option_copied result ≡ slice_get entries.now place }
{
    entries.get(place)
}

// Appends the flags on a channel; nothing for `None`.
fn put_found_chan(
    alloc: Global,
    line: &mut JsonLine,
    entry: Option<&ChannelFlags>,
) -> Result<(), NoMemory>
    ensures { OnOk result (line.new ≡ line.old ++ found chan_text (option_copied entry.entry)) }
{
    match entry {
        Some(entry) => put_chan(alloc, line, entry),
        None => Ok(()),
    }
}

// {"channel":C,"flags":F}
#[tactic(auto, using(std::proofs::Common::append_assoc))]
fn put_chan(alloc: Global, line: &mut JsonLine, entry: &ChannelFlags) -> Result<(), NoMemory>
    ensures { OnOk result (line.new ≡ line.old ++ chan_text entry.now) }
{
    line.put_first(b"channel")?;
    line.put_text(entry.channel.as_bytes())?;
    line.put_next(b"flags")?;
    put_flags(alloc, line, entry.flags)?;
    line.put_words(b"}")
}

// Appends flags as a string of letters, or `-` if there are none.
pub(crate) fn put_flags(alloc: Global, line: &mut JsonLine, flags: Flags) -> Result<(), NoMemory>
    ensures { OnOk result (line.new ≡ line.old ++ quoted (spelling flags)) }
{
    let letters = flags.text(alloc)?;
    line.put_text(letters.as_bytes())
}
