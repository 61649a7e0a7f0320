// The bots and all sockets.
use crate::addresses::local;
use crate::bot_sockets::BotSockets;
use crate::error::LiveError;
use crate::house::House;
use crate::hub_socket::HubSocket;
use crate::link::LinkHouse;
use crate::moment::Moment;
use crate::peer::Peer;
use botcore::{Bot, Report};
use bytetext::NoMemory;
use replay::SteadyDisk;
use sharelink::Outgoings;
use sharewire::Packet;
use std::alloc::Global;
use std::io;
use std::net::{Net, SocketAddr};

// The number of turns from one pump of the bots to the next.
const PUMP_TURNS: u32 = 64;

// The maximum length of a wait for what is on its way, in milliseconds.
const REST: u64 = 100;

/// The server, the hub's listener, and the bots and their sockets by number.
pub struct Network {
    pub house: House,
    pub link: LinkHouse,
    pub bots: Vec<Bot<SteadyDisk>>,
    pub seats: Vec<BotSockets>,
    /// What each bot's clock shows.
    pub now: Moment,
    // How many turns remain before the next one that pumps.
    until_pump: u32,
    server: SocketAddr,
    hub: SocketAddr,
}

// By hand, so that this is proved once, and not in each function in which a botnet ends.
impl Drop for Network {
    fn drop(self) {
        let Network {
            house: _,
            link: _,
            bots: _,
            seats: _,
            now: _,
            until_pump: _,
            server: _,
            hub: _,
        } = self;
    }
}

impl Network {
    ghost use Rattle.std.specs.Prelude.{◌≡◌, ◌≤◌, ◌+◌, IfOk};
    ghost use Rattle.std.specs.List.{AllByRecursion};
    ghost use Rattle.sharelink.specs.Shapes.{AreGood, HasGoodRecords};
    ghost use Rattle.turns.specs.Turns.{AllGood};

    /// Opens the server and the hub's listener for a net of `leaves` leaves. It has no bots yet.
    ///
    /// # Errors
    /// Those of the system.
    pub fn open<R: Net + AllocGlobal>(rt: &R, leaves: u16) -> io::Result<Network> {
        let house = House::open(rt, 0)?;
        let link = LinkHouse::open(rt, house.registry(), leaves)?;
        Network::over(rt.alloc(), house, link)
    }

    // The network of this server and this listener, without bots.
    fn over(alloc: Global, house: House, link: LinkHouse) -> io::Result<Network> {
        let (server, hub) = addresses(&house, &link)?;
        Ok(Network {
            house,
            link,
            bots: Vec::new(alloc),
            seats: Vec::new(alloc),
            now: Moment::first(),
            until_pump: 0,
            server,
            hub,
        })
    }

    /// Begins to make the connections of each bot that has no sockets yet.
    ///
    /// # Errors
    /// `Socket` if the system makes none, and `NoMemory` if memory cannot be allocated.
    pub fn connect_all<R: Net + AllocGlobal>(&mut self, rt: &R) -> Result<(), LiveError> {
        for _place in self.seats.len()..self.bots.len() {
            self.add_seat(rt)?;
        }
        Ok(())
    }

    // Adds the sockets of the next bot.
    fn add_seat<R: Net + AllocGlobal>(&mut self, rt: &R) -> Result<(), LiveError> {
        let uplink = self.next_uplink(rt)?;
        let irc = Peer::connect(rt, self.house.registry(), self.server)?;
        let seat = BotSockets::new(rt.alloc(), irc, uplink);
        if self.seats.push(seat).is_err() {
            return Err(LiveError::NoMemory);
        }
        Ok(())
    }

    // The next bot's connection to the hub; `None` if that bot is the hub.
    fn next_uplink<R: Net + AllocGlobal>(&self, rt: &R) -> io::Result<Option<HubSocket>> {
        if self.seats.is_empty() {
            return Ok(None);
        }
        Ok(Some(self.uplink(rt)?))
    }

    fn uplink<R: Net + AllocGlobal>(&self, rt: &R) -> io::Result<HubSocket> {
        HubSocket::connect(rt, self.house.registry(), self.hub)
    }

    /// Gives the bot at `place` a new connection to the server, of which it hears in its next turn. If no bot is at
    /// `place`, the connection is dropped.
    ///
    /// # Errors
    /// Those of the system, if it makes none.
    pub fn connect<R: Net + AllocGlobal>(&mut self, rt: &R, place: usize) -> io::Result<()> {
        let irc = Peer::connect(rt, self.house.registry(), self.server)?;
        if let Some(seat) = self.seats.get_mut(place) {
            seat.connect(irc);
        }
        Ok(())
    }

    /// Makes new connections for those that are lost. Returns whether any was lost.
    ///
    /// # Errors
    /// Those of the system, if it makes none.
    pub fn mend<R: Net + AllocGlobal>(&mut self, rt: &R) -> io::Result<bool> {
        let mut mended = false;
        for place in 0..self.seats.len() {
            if self.has_lost_server(place) {
                self.connect(rt, place)?;
                mended = true;
            }
            if self.mend_uplink(rt, place)? {
                mended = true;
            }
        }
        Ok(mended)
    }

    fn has_lost_server(&self, place: usize) -> bool {
        match self.seats.get(place) {
            Some(seat) => seat.irc.connection.is_over,
            None => false,
        }
    }

    // Makes a new connection to the hub for a leaf that has lost its own. Returns whether it had.
    fn mend_uplink<R: Net + AllocGlobal>(&mut self, rt: &R, place: usize) -> io::Result<bool> {
        match self.seats.get(place) {
            Some(seat) => {
                if !seat.has_lost_hub() {
                    return Ok(false);
                }
            }
            None => return Ok(false),
        }
        let uplink = self.uplink(rt)?;
        if let Some(seat) = self.seats.get_mut(place) {
            seat.uplink = Some(uplink);
        }
        Ok(true)
    }

    /// Returns whether each bot is at `version` or above.
    pub fn has_reached(&self, version: u32) -> bool {
        self.bots.iter().all(|bot| bot.version() >= version)
    }

    /// Returns whether a version is `wanted` and each bot is at it or above.
    pub fn is_at(&self, wanted: Option<u32>) -> bool {
        match wanted {
            Some(version) => self.has_reached(version),
            None => false,
        }
    }

    /// Accepts the connections that wait at the server and at the hub. Returns whether any came.
    ///
    /// # Errors
    /// `NoMemory` if memory cannot be allocated.
    pub fn let_in(&mut self, alloc: Global) -> Result<bool, NoMemory> {
        let came = self.house.let_in(alloc)?;
        Ok(self.link.let_in(alloc, self.house.registry())? || came)
    }

    /// Reads each socket. Returns whether anything arrived.
    ///
    /// # Errors
    /// `NoMemory` if memory cannot be allocated.
    pub fn read(&mut self) -> Result<bool, NoMemory> {
        let heard = self.house.read()?;
        let mut came = self.link.read()? || heard;
        for seat in self.seats.iter_mut() {
            if seat.read()? {
                came = true;
            }
        }
        Ok(came)
    }

    /// Writes what waits, as far as the system takes it. Returns whether anything moved or a connection is lost.
    ///
    /// # Errors
    /// `NoMemory` if memory cannot be allocated.
    pub fn send(&mut self, alloc: Global) -> Result<bool, NoMemory> {
        let told = self.house.send(alloc)?;
        let mut moved = self.link.send() || told;
        for seat in self.seats.iter_mut() {
            if seat.send() {
                moved = true;
            }
        }
        Ok(moved)
    }

    /// Prepares the next turn after one that moved nothing. If something is still on its way, it waits until a socket
    /// may have something to do, at most 100 milliseconds. Returns how many of the `left` turns count as made: 0 if a
    /// socket has something to do, else those before the next that pumps, in which nothing would move.
    ///
    /// # Errors
    /// Those of the system.
    pub fn rest(&mut self, left: u32) -> io::Result<u32>
        ensures bound { IfOk result (λ count. count ≤ left) }
        ensures counted { IfOk result (λ count. self.old.until_pump ≡ self.new.until_pump + count) }
        ensures same_bots { self.new.bots ≡ self.old.bots }
        ensures same_sockets { (self.new.link ≡ self.old.link) × (self.new.seats ≡ self.old.seats) }
        ensures same_clock { self.new.now ≡ self.old.now }
    {
        if !self.is_settled() && self.house.wait(REST)? {
            return Ok(0);
        }
        let count = left.min(self.until_pump);
        self.until_pump -= count;
        Ok(count)
    }

    // Whether nothing is on its way: each connection has both its sides, and each side has read all that the other has
    // sent or queued.
    fn is_settled(&self) -> bool {
        self.house.count() == self.seats.len()
            && self.link.count() == self.seats.len().saturating_sub(1)
            && self.seats.iter().all(|seat| self.is_even(seat))
    }

    fn is_even(&self, seat: &BotSockets) -> bool {
        self.house.is_even_with(&seat.irc)
            && match &seat.uplink {
                Some(uplink) => self.link.is_even_with(&uplink.wire.peer),
                None => true,
            }
    }

    /// Counts a turn. Returns whether it pumps: the first turn does, and then every 64th.
    pub fn count_pump(&mut self) -> bool {
        let is_due = self.until_pump == 0;
        if is_due {
            self.until_pump = PUMP_TURNS;
        }
        self.until_pump = self.until_pump.saturating_sub(1);
        is_due
    }

    /// Returns the packets that have arrived at the bot at `place`: for the hub those of each connection, one
    /// connection after another, and for a leaf those of the hub.
    ///
    /// # Errors
    /// `NoMemory` if memory cannot be allocated.
    pub fn take_packets(&mut self, alloc: Global, place: usize) -> Result<Vec<Packet>, NoMemory>
        ensures good { IfOk result (λ packets. AllByRecursion HasGoodRecords packets.items) }
    {
        if place == 0 {
            return self.take_from_leaves(alloc);
        }
        match self.seats.get_mut(place) {
            Some(seat) => seat.take_packets(alloc),
            None => Ok(Vec::new(alloc)),
        }
    }

    fn take_from_leaves(&mut self, alloc: Global) -> Result<Vec<Packet>, NoMemory>
        ensures good { IfOk result (λ packets. AllByRecursion HasGoodRecords packets.items) }
    {
        let mut packets = Vec::new(alloc);
        for end in 0..self.link.count() {
            packets.append(&mut self.link.take_packets(alloc, end)?)?;
        }
        Ok(packets)
    }

    /// Queues what the `reports` of the bot at `place` send, in order.
    ///
    /// # Errors
    /// `NoMemory` if memory cannot be allocated.
    pub fn pass_all(
        &mut self,
        alloc: Global,
        place: usize,
        reports: &[Report],
    ) -> Result<(), NoMemory>
        requires good { AllGood reports.now }
    {
        for report in reports {
            self.pass(alloc, place, report)?;
        }
        Ok(())
    }

    /// Queues what the `report` of the bot at `place` sends: its lines for the server, and its packets for the leaves
    /// or, from a leaf, for the hub.
    ///
    /// # Errors
    /// `NoMemory` if memory cannot be allocated.
    pub fn pass(&mut self, alloc: Global, place: usize, report: &Report) -> Result<(), NoMemory>
        requires good { AreGood report.now.packets }
    {
        if let Some(seat) = self.seats.get_mut(place) {
            seat.tell_server(report.lines.as_slice())?;
        }
        self.pass_packets(alloc, place, &report.packets)
    }

    fn pass_packets(
        &mut self,
        alloc: Global,
        place: usize,
        packets: &Outgoings,
    ) -> Result<(), NoMemory>
        requires good { AreGood packets.now }
    {
        for outgoing in packets.as_slice() {
            if place == 0 {
                self.link.tell(alloc, outgoing.to, &outgoing.packet)?;
            } else if let Some(seat) = self.seats.get_mut(place) {
                seat.tell_hub(alloc, &outgoing.packet)?;
            }
        }
        Ok(())
    }
}

// The addresses of the server and the hub.
fn addresses(house: &House, link: &LinkHouse) -> io::Result<(SocketAddr, SocketAddr)> {
    Ok((local(house.port()?), local(link.port()?)))
}
