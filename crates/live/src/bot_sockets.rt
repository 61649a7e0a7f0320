// A bot's sockets.
use crate::hub_socket::HubSocket;
use crate::moment::Moment;
use crate::peer::Peer;
use bytetext::{NoMemory, Text};
use ircline::LineReader;
use sharewire::Packet;
use std::alloc::Global;
use std::mem;
use turns::Heard;

/// A bot's connection to the server, and a leaf's to the hub.
pub struct BotSockets {
    /// The line of the server that has begun but not ended.
    pub lines: LineReader,
    pub irc: Peer,
    /// Whether the bot has not heard yet that its connection to the server began.
    pub is_new: bool,
    /// None for the hub.
    pub uplink: Option<HubSocket>,
}

// By hand, so that this is proved once, and not in each function in which a bot's sockets end.
impl Drop for BotSockets {
    fn drop(self) {
        let BotSockets {
            lines: _,
            irc: _,
            is_new: _,
            uplink: _,
        } = self;
    }
}

impl BotSockets {
    ghost use Rattle.std.specs.Prelude.{◌≡◌, [], false, IfOk};
    ghost use Rattle.std.specs.List.{AllByRecursion};
    ghost use Rattle.sharelink.specs.Shapes.{HasGoodRecords};

    /// Creates the sockets of a bot: `irc` to the server and, for a leaf, `uplink` to the hub, both of which are being
    /// made. Never allocates.
    pub fn new(alloc: Global, irc: Peer, uplink: Option<HubSocket>) -> BotSockets {
        BotSockets {
            lines: LineReader::new(alloc),
            irc,
            is_new: true,
            uplink,
        }
    }

    /// Replaces the connection to the server with `irc`, which is being made, and drops the old one.
    pub fn connect(&mut self, irc: Peer) {
        self.irc = irc;
        self.is_new = true;
    }

    /// Reads what has arrived over both connections. Returns whether anything arrived.
    ///
    /// # Errors
    /// `NoMemory` if memory cannot be allocated.
    pub fn read(&mut self) -> Result<bool, NoMemory> {
        let came = self.irc.read()?;
        match &mut self.uplink {
            Some(uplink) => Ok(uplink.wire.peer.read()? || came),
            None => Ok(came),
        }
    }

    /// Writes what waits, as far as the system takes it. Returns whether it took any of it or a connection is lost.
    pub fn send(&mut self) -> bool {
        let moved = self.irc.send() || self.irc.connection.is_over;
        match &mut self.uplink {
            Some(uplink) => uplink.wire.peer.send() || uplink.wire.peer.connection.is_over || moved,
            None => moved,
        }
    }

    /// Returns what the bot hears in a turn in which `packets` have arrived: that its connection to the server began,
    /// if it has not heard that yet; what the server has sent; the clock, which shows `now`; and `pump`, whether the
    /// turn pumps. Never allocates.
    pub fn take_heard(
        &mut self,
        alloc: Global,
        packets: Vec<Packet>,
        now: &Moment,
        pump: bool,
    ) -> Heard
        ensures connected { result.connected ≡ self.old.is_new }
        ensures once { self.new.is_new ≡ false }
        ensures packets { result.packets ≡ packets }
        ensures changes { result.changes.items ≡ [] }
        ensures now { result.now ≡ now.now }
        ensures pump { result.pump ≡ pump }
        ensures compact { result.compact ≡ false }
        ensures lines { self.new.lines ≡ self.old.lines }
    {
        Heard {
            connected: mem::replace(&mut self.is_new, false),
            bytes: self.irc.connection.take_heard(alloc),
            packets,
            changes: Vec::new(alloc),
            now: now.seconds(),
            pump,
            compact: false,
        }
    }

    /// Returns the packets that have arrived from the hub.
    ///
    /// # Errors
    /// `NoMemory` if memory cannot be allocated.
    pub fn take_packets(&mut self, alloc: Global) -> Result<Vec<Packet>, NoMemory>
        ensures good { IfOk result (λ packets. AllByRecursion HasGoodRecords packets.items) }
    {
        match &mut self.uplink {
            Some(uplink) => uplink.wire.take_packets(alloc),
            None => Ok(Vec::new(alloc)),
        }
    }

    /// Queues `lines` for the server, in order, each with CR and LF.
    ///
    /// # Errors
    /// `NoMemory` if memory cannot be allocated.
    pub fn tell_server(&mut self, lines: &[Text]) -> Result<(), NoMemory> {
        for line in lines {
            let _fits = self.irc.connection.tell(line.as_bytes(), b"\r\n")?;
        }
        Ok(())
    }

    /// Queues `packet` for the hub.
    ///
    /// # Errors
    /// `NoMemory` if memory cannot be allocated.
    pub fn tell_hub(&mut self, alloc: Global, packet: &Packet) -> Result<(), NoMemory>
        requires good { HasGoodRecords packet.now }
    {
        match &mut self.uplink {
            Some(uplink) => uplink.tell(alloc, packet),
            None => Ok(()),
        }
    }

    /// Returns whether the connection to the hub is lost.
    pub fn has_lost_hub(&self) -> bool {
        match &self.uplink {
            Some(uplink) => uplink.wire.peer.connection.is_over,
            None => false,
        }
    }
}
