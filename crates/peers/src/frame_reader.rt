// Packets from the frames of a connection.
use bytetext::NoMemory;
use sharewire::{Feed, WireReader};
use std::alloc::Global;
use std::marker::Model;

/// Reads the frames of a connection from its first byte on, so each packet that it returns has a frame. Contracts see
/// how the stream ends so far, as for a [`WireReader`].
pub struct FrameReader {
    reader: WireReader,
}

// Written by hand, so that the drop is proved once.
impl Drop for FrameReader {
    fn drop(self) {
        let FrameReader { reader: _ } = self;
    }
}

impl Model for FrameReader {
    ghost use Rattle.sharewire.specs.Streams.{Ending};
    ghost use Rattle.peers.specs.Streams.{IsRead};

    ghost Value = { Ending };

    ghost view = { λ r. r.reader };

    ghost invariant = { λ r. IsRead r.reader };
}

impl FrameReader {
    ghost use Rattle.std.specs.Prelude.{◌≡◌, ◌<◌, [], length, Ok, IfOk, IsErr, IsOk, OnErr};
    ghost use Rattle.std.specs.List.{AllByRecursion};
    ghost use Rattle.sharewire.specs.Streams.{Tells, fault_told};
    ghost use Rattle.sharelink.specs.Shapes.{HasGoodRecords};
    ghost use Rattle.peers.specs.Streams.{TellsOn};

    /// Creates a reader for a connection from which no byte was read yet. Allocates nothing.
    pub fn new(alloc: Global) -> FrameReader
        ensures empty { result ≡ Ok [] }
        ensures told { Tells [] [] result }
    {
        FrameReader {
            reader: WireReader::new(alloc),
        }
    }

    /// Reads `bytes`, and returns the packets whose frames end in them, and the fault after those if there is one.
    ///
    /// # Errors
    /// `NoMemory` if an allocation fails: never if `bytes` is empty, nor after a fault. The reader is then as before.
    pub fn feed(&mut self, alloc: Global, bytes: &[u8]) -> Result<Feed, NoMemory>
        // For any stream that contains the packets read so far, that stream and then `bytes` contain those packets and
        // then the returned ones.
        ensures told { TellsOn bytes.now self.old self.new result }
        ensures fault { IfOk result (λ feed. feed.fault ≡ fault_told self.old self.new) }
        ensures good { IfOk result (λ feed. AllByRecursion HasGoodRecords feed.packets) }
        ensures memory { OnErr result (0 < length bytes.now) }
        // A reader that has failed allocates nothing, and stays so.
        ensures failed { IsErr self.old → IsOk result }
        ensures stays { IsErr self.old → self.new ≡ self.old }
        ensures unchanged { OnErr result (self.new ≡ self.old) }
    {
        self.reader.feed(alloc, bytes)
    }
}
