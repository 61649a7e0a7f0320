// A line that a bot queues by itself.
ghost use Rattle.std.specs.Prelude.{◌≡◌, ◌∷◌, [], map, IfOk};
ghost use Rattle.botcore.specs.Automatic.{wish, ban_wish};

use bytetext::{NoMemory, Text};
use outqueue::Queue;
use procs::PutWish;
use std::alloc::Global;
use userfile::Ban;

// Creates a line of these pieces, for this queue.
pub(crate) fn wish(alloc: Global, queue: Queue, pieces: &[&[u8]]) -> Result<PutWish, NoMemory>
    ensures { IfOk result (λ w. w ≡ wish queue (map (λ piece. piece.now) pieces.now)) }
{
    let mut line = Vec::new(alloc);
    for piece in pieces {
        line.extend_from_slice(piece)?;
    }
    Ok(PutWish {
        queue,
        line: Text::new(line),
    })
}

// Creates the line that sets a ban on a channel.
pub(crate) fn ban_wish(alloc: Global, channel: &[u8], ban: &Ban) -> Result<PutWish, NoMemory>
    ensures { IfOk result (λ w. w ≡ ban_wish channel.now ban.now) }
{
    let pieces = [b"MODE ", channel, b" +b ", ban.mask.as_bytes()];
    wish(alloc, Queue::Mode, &pieces)
}

// Creates a list of this line alone.
pub(crate) fn alone(alloc: Global, wish: PutWish) -> Result<Vec<PutWish>, NoMemory>
    ensures { IfOk result (λ wishes. wishes.items ≡ wish ∷ []) }
{
    let mut wishes = Vec::new(alloc);
    wishes.push(wish)?;
    Ok(wishes)
}
