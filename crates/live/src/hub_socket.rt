// A leaf's side of the link.
ghost use Rattle.std.specs.Prelude.{◌≡◌};
ghost use Rattle.live.specs.Present.{is_hello};

use crate::frames::FramePeer;
use crate::peer::Peer;
use bytetext::NoMemory;
use net::Registry;
use sharewire::Packet;
use std::alloc::Global;
use std::io;
use std::net::{Net, SocketAddr};

/// A leaf's connection to the hub. The first packet that it sends is a hello.
pub struct HubSocket {
    pub wire: FramePeer,
    greeted: bool,
}

// By hand, so that this is proved once, and not in each crate in which a leaf's connection to the hub ends.
impl Drop for HubSocket {
    fn drop(self) {
        let HubSocket {
            wire: _,
            greeted: _,
        } = self;
    }
}

impl HubSocket {
    ghost use Rattle.std.specs.Prelude.{◌≡◌, ◌||◌, true, OnErr};
    ghost use Rattle.live.specs.Present.{is_hello};
    ghost use Rattle.sharewire.specs.Frames.{CanBeWritten};
    ghost use Rattle.sharelink.specs.Shapes.{HasGoodRecords};

    /// Begins to connect to the hub at `address`, and returns at once. `registry` watches the connection. Never
    /// allocates.
    ///
    /// # Errors
    /// Those of [`Peer::connect`].
    pub fn connect<R: Net + AllocGlobal>(
        rt: &R,
        registry: &Registry,
        address: SocketAddr,
    ) -> io::Result<HubSocket> {
        let peer = Peer::connect(rt, registry, address)?;
        Ok(HubSocket {
            wire: FramePeer::new(rt.alloc(), peer),
            greeted: false,
        })
    }

    /// Queues `packet` for the hub. Drops every packet before the first hello.
    ///
    /// # Errors
    /// `NoMemory` if memory cannot be allocated; never if the packet has no frame or is dropped.
    pub fn tell(&mut self, alloc: Global, packet: &Packet) -> Result<(), NoMemory>
        requires good { HasGoodRecords packet.now }
        ensures memory { OnErr result (CanBeWritten packet.now) }
        ensures lost { OnErr result ((self.old.greeted || is_hello packet.now) ≡ true) }
    {
        if is_hello(packet) {
            self.greeted = true;
        }
        if self.greeted {
            self.wire.tell(alloc, packet)?;
        }
        Ok(())
    }
}

fn is_hello(packet: &Packet) -> bool
    ensures { result ≡ is_hello packet.now }
{
    matches!(packet, Packet::Hello { .. })
}
