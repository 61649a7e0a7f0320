// The queue of one stream.
ghost use Rattle.std.specs.Prelude.{◌≡◌, ◌≤◌, ◌+◌, ◌++◌, take, drop, vec_len, vec_capacity};
ghost use Rattle.std.specs.VecDeque.{deque_capacity, deque_len};

use sharewire::Packet;
use std::alloc::Global;
use std::collections::VecDeque;
use std::marker::Model;

/// The most packets that one turn takes from all streams together.
pub const MAX_PACKETS: usize = 256;

/// The most packets that one turn takes from one stream.
pub const MAX_OF_STREAM: usize = 64;

// The queued packets of one stream, the oldest first.
#[derive(Drop)]
pub(crate) struct Queue {
    pub(crate) packets: VecDeque<Packet>,
}

impl Model for Queue {
    ghost use Rattle.std.specs.Prelude.{List};
    ghost use Rattle.std.specs.List.{AllByRecursion};
    ghost use Rattle.sharewire.specs.declared.packet.Packet.{Packet};
    ghost use Rattle.sharelink.specs.Shapes.{HasGoodRecords};

    ghost Value = { List Packet };

    ghost view = { λ q. q.packets.items };

    // All queued packets have records of good shape.
    ghost invariant = { λ q. AllByRecursion HasGoodRecords q.packets.items };
}

impl Queue {
    ghost use Rattle.std.specs.Prelude.{◌≡◌, ◌≤◌, ◌++◌, [], length, take, drop, vec_len, vec_capacity};
    ghost use Rattle.std.specs.List.{AllByRecursion};
    ghost use Rattle.sharelink.specs.Shapes.{HasGoodRecords};
    ghost use Rattle.peers.specs.declared.queue.TheConstants.{MAX_PACKETS};
    ghost use Rattle.peers.specs.Waiting.{share};

    // An empty queue. Allocates nothing.
    pub(crate) fn new(alloc: Global) -> Queue
        ensures { result ≡ [] }
    {
        Queue {
            packets: VecDeque::new(alloc),
        }
    }

    // The number of queued packets.
    pub(crate) fn len(&self) -> usize
        ensures { result ≡ length self.now }
    {
        self.packets.len()
    }

    // Drops all queued packets, and gives back their room.
    pub(crate) fn clear(&mut self)
        ensures { self.new ≡ [] }
    {
        self.packets.clear();
        self.packets.shrink_to_fit();
    }

    // Moves this stream's share to the end of `packets`. Once no packet is left, gives back their room: a hub has a queue
    // for each leaf, mostly empty. Allocates nothing.
    pub(crate) fn give(&mut self, packets: &mut Vec<Packet>)
        requires few { vec_len packets.old ≤ MAX_PACKETS }
        requires room { MAX_PACKETS ≤ vec_capacity packets.old }
        ensures given { packets.new.items ≡ packets.old.items ++ take (share packets.old.items self.old) self.old }
        ensures left { self.new ≡ drop (share packets.old.items self.old) self.old }
        ensures few { vec_len packets.new ≤ MAX_PACKETS }
        ensures room { vec_capacity packets.new ≡ vec_capacity packets.old }
        ensures good { AllByRecursion HasGoodRecords packets.old.items → AllByRecursion HasGoodRecords packets.new.items }
    {
        let share = MAX_OF_STREAM
            .min(self.packets.len())
            .min(MAX_PACKETS - packets.len());
        move_first(&mut self.packets, share, packets);
        give_back(&mut self.packets);
    }
}

// Gives back the room of a queue that is empty.
fn give_back(queue: &mut VecDeque<Packet>)
    ensures same { queue.new.items ≡ queue.old.items }
    ensures frees { deque_len queue.old ≡ 0 → deque_capacity queue.new ≡ 0 }
{
    if queue.is_empty() {
        queue.shrink_to_fit();
    }
}

// Moves the `count` oldest packets of `queue` to the end of `packets`. Allocates nothing.
fn move_first(queue: &mut VecDeque<Packet>, count: usize, packets: &mut Vec<Packet>)
    requires count { count ≤ deque_len queue.old }
    requires room { vec_len packets.old + count ≤ vec_capacity packets.old }
    ensures given { packets.new.items ≡ packets.old.items ++ take count queue.old.items }
    ensures left { queue.new.items ≡ drop count queue.old.items }
    ensures length { vec_len packets.new ≡ vec_len packets.old + count }
    ensures room { vec_capacity packets.new ≡ vec_capacity packets.old }
{
    for _packet in 0..count {
        if let Some(packet) = queue.pop_front() {
            packets.push_reserved(packet);
        }
    }
}
