// How a client enters a channel, in place, and how that is undone.
ghost use Rattle.std.specs.Prelude.{◌≡◌, ◌<◌, IfOk, IfSome, OnErr, OnOk, length, position};
ghost use Rattle.miniircd.specs.Rooms.{is_named, entered, undone};

use crate::channel_edit::{ChannelEdit, edited};
use crate::member::{ServerChannel, opened};
use crate::texts::is_same;
use bytetext::NoMemory;
use std::alloc::Global;
use std::mem;

/// What must be undone if memory runs out later.
#[derive(Drop)]
pub enum UndoStep {
    // Nothing.
    Nowhere,
    // The last channel was created.
    Made,
    // The channel at `place` was `old` before.
    Came { place: usize, old: ServerChannel },
}

// Returns the place of the channel called `name`, by casemapping.
fn place_of(channels: &[ServerChannel], name: &[u8]) -> Option<usize>
    ensures value { result ≡ position (is_named name.now) channels.now }
    ensures within { IfSome result (λ place. place < length channels.now) }
{
    channels
        .iter()
        .position(|channel| is_same(name, channel.name.as_bytes()))
}

/// Adds `client` to the channel called `name`, which it isn't on, or creates the channel.
///
/// # Errors
/// Returns `NoMemory` if an allocation fails; the channels are then unchanged.
#[tactic(auto, using(crate::proofs::ListLemmas::set_back, crate::proofs::ListLemmas::take_pushed))]
pub fn enter(
    alloc: Global,
    channels: &mut Vec<ServerChannel>,
    name: &[u8],
    client: usize,
) -> Result<UndoStep, NoMemory>
    ensures entered { OnOk result (channels.new.items ≡ entered name.now client channels.old.items) }
    ensures back { IfOk result (λ entry. undone entry channels.new.items ≡ channels.old.items) }
    ensures err { OnErr result (channels.new.items ≡ channels.old.items) }
{
    match place_of(channels.as_slice(), name) {
        Some(place) => {
            let after = edited(alloc, &channels[place], ChannelEdit::Enter(client))?;
            let old = mem::replace(&mut channels[place], after);
            Ok(UndoStep::Came { place, old })
        }
        None => {
            let channel = opened(alloc, name, client)?;
            channels.push(channel)?;
            Ok(UndoStep::Made)
        }
    }
}

/// Undoes `entry`: the channels are as they were before it. Allocates nothing.
#[tactic(auto, using(std::proofs::lemmas::List::set_past))]
pub fn undo(channels: &mut Vec<ServerChannel>, entry: UndoStep)
    ensures { channels.new.items ≡ undone entry channels.old.items }
{
    match entry {
        UndoStep::Nowhere => {}
        UndoStep::Made => {
            channels.truncate(channels.len().saturating_sub(1));
        }
        UndoStep::Came { place, old } => {
            if place < channels.len() {
                channels[place] = old;
            }
        }
    }
}
