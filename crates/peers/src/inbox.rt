// A queue of packets for each stream, and the packets of one turn.
ghost use Rattle.std.specs.Prelude.{◌≡◌, ◌<◌, ◌≤◌, ◌-◌, [], length, replicate, IfOk, IfErr, vec_len, vec_capacity};
ghost use Rattle.std.specs.List.{AllByRecursion};
ghost use Rattle.sharelink.specs.Shapes.{HasGoodRecords};
ghost use Rattle.peers.specs.declared.queue.TheConstants.{MAX_PACKETS};
ghost use Rattle.peers.specs.Waiting.{round_of, places_on};

use crate::queue::{MAX_PACKETS, Queue};
use bytetext::NoMemory;
use sharewire::Packet;
use std::alloc::Global;
use std::collections::VecDeque;
use std::marker::Model;

/// The packets that have arrived and wait for a turn, in one queue for each stream. Streams are numbered from 0.
///
/// A turn takes at most [`MAX_PACKETS`](crate::MAX_PACKETS) packets, and at most
/// [`MAX_OF_STREAM`](crate::MAX_OF_STREAM) of one stream: one packet may lead to many answers, each with writes to a
/// disk, and the server waits for its answers meanwhile. The streams are asked one after another. The next turn begins
/// with the stream for which there was no more room, so no stream keeps another waiting for ever.
///
/// A queue has no bound of its own, so do not read a stream while packets of it wait.
///
/// ```text
/// let mut inbox = Inbox::new(alloc, 3)?;
/// inbox.put(2, feed.packets)?;                  // after those that wait of stream 2
/// inbox.count(2);                               // 70
/// let packets = inbox.take(alloc)?;             // the first 64 of them
/// ```
pub struct Inbox {
    queues: Vec<Queue>,
    // The stream that the next turn asks first.
    first: usize,
}

// Written by hand, so that the drop is proved once, and not in each crate that drops an inbox.
impl Drop for Inbox {
    fn drop(self) {
        let Inbox {
            queues: _,
            first: _,
        } = self;
    }
}

impl Model for Inbox {
    ghost use Rattle.std.specs.Prelude.{◌≤◌, vec_len};
    ghost use Rattle.peers.specs.Waiting.{Waiting};

    ghost Value = { Waiting };

    ghost view = { λ i. record { queues = i.queues.items; first = i.first } };

    ghost invariant = { λ i. i.first ≤ vec_len i.queues };
}

impl Inbox {
    ghost use Rattle.std.specs.Prelude.{◌≡◌, ◌≤◌, ◌<◌, [], length, replicate, IfOk, IfErr, OnOk, OnErr, vec_len};
    ghost use Rattle.std.specs.List.{AllByRecursion};
    ghost use Rattle.sharelink.specs.Shapes.{HasGoodRecords};
    ghost use Rattle.peers.specs.declared.queue.TheConstants.{MAX_PACKETS};
    ghost use Rattle.peers.specs.Waiting.{TakesTurn, queue_of, with_queue, with_more};

    /// Creates an empty inbox for `streams` streams.
    ///
    /// # Errors
    /// `NoMemory` if the queues cannot be allocated: never if there are no streams.
    pub fn new(alloc: Global, streams: usize) -> Result<Inbox, NoMemory>
        ensures empty { IfOk result (λ inbox. inbox ≡ record { queues = replicate streams []; first = 0 }) }
        ensures memory { IfErr result (λ _. 0 < streams) }
    {
        Ok(Inbox {
            queues: empty_queues(alloc, streams)?,
            first: 0,
        })
    }

    /// Returns the number of streams.
    pub fn stream_count(&self) -> usize
        ensures { result ≡ length self.now.queues }
    {
        self.queues.len()
    }

    /// Returns the number of packets of `stream` that wait: 0 if there is no such stream.
    pub fn count(&self, stream: usize) -> usize
        ensures { result ≡ length (queue_of self.now stream) }
    {
        match self.queues.get(stream) {
            Some(queue) => queue.len(),
            None => 0,
        }
    }

    /// Appends `packets` to the queue of `stream`. The records of a part must be of good shape, as those of packets
    /// that were read from frames are.
    ///
    /// # Errors
    /// `NoMemory` if an allocation fails: never if `packets` is empty. None of them is queued then.
    pub fn put(&mut self, stream: usize, packets: Vec<Packet>) -> Result<(), NoMemory>
        requires within { stream < length self.old.queues }
        requires good { AllByRecursion HasGoodRecords packets.items }
        ensures ok { OnOk result (self.new ≡ with_more stream packets.items self.old) }
        ensures err { OnErr result (self.new ≡ self.old) }
        ensures memory { OnErr result (0 < vec_len packets) }
    {
        let queue = &mut self.queues[stream];
        if packets.is_empty() {
            return Ok(());
        }
        let mut packets = VecDeque::from(packets);
        queue.packets.append(&mut packets)?;
        Ok(())
    }

    /// Drops the queued packets of `stream`, for example after its connection has ended.
    #[tactic(auto, using(crate::proofs::WaitingLemmas::emptied))]
    pub fn forget(&mut self, stream: usize)
        ensures value { self.new ≡ with_queue stream [] self.old }
        ensures none { queue_of self.new stream ≡ [] }
    {
        if let Some(queue) = self.queues.get_mut(stream) {
            queue.clear();
        }
    }

    /// Takes the packets of one turn. Asks the streams one after another, beginning with the one for which the last
    /// turn had no more room. Each stream gives its oldest packets, in order: at most
    /// [`MAX_OF_STREAM`](crate::MAX_OF_STREAM), and no more than there is room for.
    ///
    /// # Errors
    /// `NoMemory` if an allocation fails; then all packets wait as before.
    pub fn take(&mut self, alloc: Global) -> Result<Vec<Packet>, NoMemory>
        ensures takes { IfOk result (λ packets. TakesTurn self.old packets.items self.new) }
        ensures few { IfOk result (λ packets. vec_len packets ≤ MAX_PACKETS) }
        ensures good { IfOk result (λ packets. AllByRecursion HasGoodRecords packets.items) }
        ensures err { OnErr result (self.new ≡ self.old) }
    {
        let mut packets = Vec::with_capacity(alloc, MAX_PACKETS)?;
        let streams = self.queues.len();
        self.queues.rotate_left(self.first);
        let served = ask_all(self.queues.as_mut_slice(), &mut packets);
        self.queues.rotate_right(self.first);
        self.first = places_on(streams, self.first, served);
        Ok(packets)
    }
}

// Creates `streams` empty queues.
fn empty_queues(alloc: Global, streams: usize) -> Result<Vec<Queue>, NoMemory>
    ensures queues { IfOk result (λ queues. queues.items ≡ replicate streams []) }
    ensures memory { IfErr result (λ _. 0 < streams) }
{
    let mut queues = Vec::with_capacity(alloc, streams)?;
    for _stream in 0..streams {
        queues.push(Queue::new(alloc))?;
    }
    Ok(queues)
}

// The number of the stream that is `served` places after `first`, counted around a ring of `streams` streams.
fn places_on(streams: usize, first: usize, served: usize) -> usize
    requires first { first ≤ streams }
    requires served { served ≤ streams }
    ensures place { result ≡ places_on streams first served }
    ensures within { result ≤ streams }
{
    if served < streams - first {
        first + served
    } else {
        served - (streams - first)
    }
}

// Asks each stream for its share, one after another. Returns how many of them there was room for. Allocates nothing.
fn ask_all(queues: &mut [Queue], packets: &mut Vec<Packet>) -> usize
    requires none { packets.old.items ≡ [] }
    requires room { MAX_PACKETS ≤ vec_capacity packets.old }
    ensures round { round_of queues.old ≡ record { given = packets.new.items; left = queues.new; served = result } }
    ensures few { vec_len packets.new ≤ MAX_PACKETS }
    ensures good { AllByRecursion HasGoodRecords packets.new.items }
    ensures served { result ≤ length queues.old }
    ensures as_many { length queues.new ≡ length queues.old }
{
    let mut served = 0;
    for queue in queues.iter_mut() {
        served += 1.min(MAX_PACKETS - packets.len());
        queue.give(packets);
    }
    served
}
