// The small server and its clients.
use crate::addresses::{TOKEN, listen, port_of};
use crate::caller::Caller;
use crate::guest::{Guest, client_of, place_of};
use crate::peer::Peer;
use bytetext::{Failure, NoMemory, Seq, Text};
use miniircd::{Client, Due, Ircd, IrcdError, MAX_CLIENTS, SentLine, ServerFault};
use net::{Registry, TcpDoor, Watch};
use std::alloc::Global;
use std::io;
use std::io::ErrorKind;
use std::net::Net;

// The maximum number of events that one wait returns.
const MAX_EVENTS: usize = 256;

/// The small server on a port of this machine, with its connections and its guests in memory.
///
/// ```text
/// let mut house = House::open(&rt, 6667)?;
/// house.wait(1_000)?;        // until a socket has something, or a second has gone
/// house.tick(now)?;          // pings silent clients, and disconnects those that are silent for too long
/// house.let_in(alloc)?;      // accepts those that wait
/// house.read()?;             // reads what they sent
/// house.step(alloc)?;        // the server takes their lines
/// house.send(alloc)?;        // writes the answers, and drops connections that are over
/// ```
pub struct House {
    door: TcpDoor,
    watch: Watch,
    server: Ircd,
    callers: Vec<Caller>,
    guests: Vec<Guest>,
    // The second of the last tick. The time of a new connection counts from it.
    now: u64,
}

// By hand, so that this is proved once, and not in each crate in which a server with its clients ends.
impl Drop for House {
    fn drop(self) {
        let House {
            door: _,
            watch: _,
            server: _,
            callers: _,
            guests: _,
            now: _,
        } = self;
    }
}

impl House {
    ghost use Rattle.std.specs.Prelude.{◌≡◌, ◌<◌, IsSome, OnErr, position, vec_len};
    ghost use Rattle.live.specs.Present.{is_named};

    /// Opens a server without clients on `port` of 127.0.0.1. If the port is 0, the system chooses one.
    ///
    /// # Errors
    /// Those of the system, if it cannot listen on the port.
    pub fn open<R: Net + AllocGlobal>(rt: &R, port: u16) -> io::Result<House> {
        let watch = Watch::new(rt, MAX_EVENTS)?;
        let door = listen(rt, watch.registry(), port)?;
        Ok(House {
            door,
            watch,
            server: Ircd::new(rt.alloc()),
            callers: Vec::new(rt.alloc()),
            guests: Vec::new(rt.alloc()),
            now: 0,
        })
    }

    /// Returns the registry of the sockets that [`House::wait`] waits for. A program can add sockets of its own to it.
    pub fn registry(&self) -> &Registry {
        self.watch.registry()
    }

    /// Waits at most `millis` milliseconds until the listener, a connection or an added socket may have something to
    /// do. Returns whether one of them may. After a turn that moved something, more work may be ready at once, so wait
    /// 0 milliseconds then.
    ///
    /// # Errors
    /// Those of the system.
    pub fn wait(&mut self, millis: u64) -> io::Result<bool>
        ensures same_server { (self.new.server ≡ self.old.server) × (self.new.now ≡ self.old.now) }
        ensures same_clients { (self.new.callers ≡ self.old.callers) × (self.new.guests ≡ self.old.guests) }
    {
        match self.watch.wait(millis) {
            Ok(()) => Ok(!self.watch.tokens().is_empty()),
            Err(error) if error.kind() != ErrorKind::Interrupted => Err(error),
            Err(_) => Ok(true),
        }
    }

    /// Sets the time to the second `now` of a clock that never goes back. Sends a PING to clients that are silent, and
    /// disconnects those that have not registered or answered in time. Only a tick disconnects them. A guest never
    /// times out.
    ///
    /// # Errors
    /// `NoMemory` if memory cannot be allocated; never if nobody is connected.
    pub fn tick(&mut self, now: u64) -> Result<(), NoMemory>
        ensures memory { OnErr result (0 < vec_len self.old.callers) }
    {
        self.now = now;
        for caller in self.callers.iter_mut() {
            let is_registered = self.server.is_registered(caller.client);
            match caller.pulse.tick(is_registered, now) {
                Due::Nothing => {}
                Due::Ask => caller.tell(b"PING :irc.test")?,
                Due::Nameless => caller.dismiss(b"ERROR :not registered within 30 seconds")?,
                Due::Silent => caller.dismiss(b"ERROR :no answer within 4 minutes")?,
            }
        }
        Ok(())
    }

    /// Returns the port on which the server listens.
    ///
    /// # Errors
    /// Those of the system.
    pub fn port(&self) -> io::Result<u16> {
        port_of(&self.door)
    }

    /// Accepts the connections that wait. If the server is full, it sends an ERROR to the connection and closes it.
    /// Returns whether any connection came.
    ///
    /// # Errors
    /// `NoMemory` if memory cannot be allocated.
    pub fn let_in(&mut self, alloc: Global) -> Result<bool, NoMemory> {
        for count in 0..MAX_CLIENTS {
            let Some(peer) = self.next(alloc) else {
                return Ok(count > 0);
            };
            self.admit(alloc, peer)?;
        }
        Ok(true)
    }

    // The next connection that waits.
    fn next(&self, alloc: Global) -> Option<Peer> {
        let arrival = self.door.let_in(self.watch.registry(), TOKEN)?;
        Some(Peer::accepted(alloc, arrival.socket))
    }

    fn admit(&mut self, alloc: Global, peer: Peer) -> Result<(), NoMemory> {
        match self.server.connect(alloc) {
            Ok(client) => {
                self.callers
                    .push(Caller::new(alloc, client, peer, self.now))?;
                Ok(())
            }
            Err(Failure::Refused(_)) => turn_away(peer),
            Err(Failure::NoMemory) => Err(NoMemory),
        }
    }

    /// Returns the number of connections.
    pub fn count(&self) -> usize {
        self.callers.len()
    }

    /// Returns whether `peer` is the other side of one of the server's connections, and each side has read all that the
    /// other has sent or queued.
    pub fn is_even_with(&self, peer: &Peer) -> bool {
        self.callers
            .iter()
            .any(|caller| caller.peer.is_even_with(peer))
    }

    /// Reads what has arrived from each connection. Returns whether anything arrived.
    ///
    /// # Errors
    /// `NoMemory` if memory cannot be allocated; never if nobody is connected.
    pub fn read(&mut self) -> Result<bool, NoMemory>
        ensures memory { OnErr result (0 < vec_len self.old.callers) }
    {
        let mut came = false;
        for caller in self.callers.iter_mut() {
            if caller.peer.read()? {
                came = true;
            }
        }
        Ok(came)
    }

    /// Makes the server take each line that has arrived.
    ///
    /// # Errors
    /// `NoMemory` if memory cannot be allocated; never if nobody is connected.
    pub fn step(&mut self, alloc: Global) -> Result<(), NoMemory>
        ensures memory { OnErr result (0 < vec_len self.old.callers) }
    {
        for place in 0..self.callers.len() {
            self.hear(alloc, place)?;
        }
        Ok(())
    }

    // Makes the server take the lines of the connection at a place.
    fn hear(&mut self, alloc: Global, place: usize) -> Result<(), NoMemory> {
        let Some(caller) = self.callers.get_mut(place) else {
            return Ok(());
        };
        let client = caller.client;
        let lines = caller.take_lines(alloc)?;
        if lines.is_empty() {
            return Ok(());
        }
        caller.pulse.hear(self.now);
        self.say_all(alloc, client, lines.as_slice())?;
        // An empty line does nothing, and shows whether the client has quit.
        if !self.say(alloc, client, b"")? {
            self.end(place);
        }
        Ok(())
    }

    fn say_all(&mut self, alloc: Global, client: Client, lines: &[Text]) -> Result<(), NoMemory> {
        for line in lines {
            let _held = self.say(alloc, client, line.as_bytes())?;
        }
        Ok(())
    }

    // Marks the connection at a place to be closed.
    fn end(&mut self, place: usize) {
        if let Some(caller) = self.callers.get_mut(place) {
            caller.peer.connection.is_over = true;
        }
    }

    // Makes the server take a line of a client. Returns whether the server has the client.
    fn say(&mut self, alloc: Global, client: Client, line: &[u8]) -> Result<bool, NoMemory> {
        let sent = self.server.line(alloc, client, line);
        self.deliver(alloc, sent)
    }

    // Queues the lines of a call for their addressees. Returns whether the server has the client.
    fn deliver(
        &mut self,
        alloc: Global,
        sent: Result<Seq<SentLine>, IrcdError>,
    ) -> Result<bool, NoMemory> {
        let lines = match sent {
            Ok(lines) => lines,
            Err(Failure::Refused(ServerFault::Full | ServerFault::NoSuchClient)) => return Ok(
                false,
            ),
            Err(Failure::NoMemory) => return Err(NoMemory),
        };
        for sent in lines.as_slice() {
            self.tell(alloc, sent.to, sent.line.as_bytes())?;
        }
        Ok(true)
    }

    fn tell(&mut self, alloc: Global, client: Client, line: &[u8]) -> Result<(), NoMemory> {
        if let Some(caller) = self
            .callers
            .iter_mut()
            .find(|caller| caller.client == client)
        {
            return caller.tell(line);
        }
        match self.guests.iter_mut().find(|guest| guest.client == client) {
            Some(guest) => guest.tell(alloc, line),
            None => Ok(()),
        }
    }

    /// Writes to each connection what waits for it, as far as the system takes it. Drops the connections that are over
    /// and those whose client has quit. Returns whether anything moved.
    ///
    /// # Errors
    /// `NoMemory` if memory cannot be allocated; never if nobody is connected.
    pub fn send(&mut self, alloc: Global) -> Result<bool, NoMemory>
        ensures memory { OnErr result (0 < vec_len self.old.callers) }
    {
        if self.callers.is_empty() {
            return Ok(false);
        }
        let mut moved = false;
        for caller in self.callers.iter_mut() {
            if caller.peer.send() {
                moved = true;
            }
        }
        Ok(self.let_go(alloc)? || moved)
    }

    // Drops the connections that are over and those whose client has quit.
    fn let_go(&mut self, alloc: Global) -> Result<bool, NoMemory> {
        let mut went = false;
        for _ in 0..MAX_CLIENTS {
            let Some(place) = self
                .callers
                .iter()
                .position(|caller| caller.peer.connection.is_over)
            else {
                return Ok(went);
            };
            let caller = self.callers.remove(place);
            let sent = self.server.gone(alloc, caller.client);
            let _held = self.deliver(alloc, sent)?;
            went = true;
        }
        Ok(went)
    }

    /// Connects a guest in memory, which registers as `nick` and joins `channel`. Does nothing if the server is full.
    ///
    /// # Errors
    /// `NoMemory` if memory cannot be allocated.
    pub fn invite(&mut self, alloc: Global, nick: &Text, channel: &Text) -> Result<(), NoMemory> {
        let client = match self.server.connect(alloc) {
            Ok(client) => client,
            Err(Failure::Refused(_)) => return Ok(()),
            Err(Failure::NoMemory) => return Err(NoMemory),
        };
        let name = Text::from_slice(alloc, nick.as_bytes())?;
        self.guests.push(Guest::new(alloc, client, name))?;
        self.register(alloc, client, nick.as_bytes())?;
        let line = line_of(alloc, &[b"JOIN ", channel.as_bytes()])?;
        let _held = self.say(alloc, client, line.as_slice())?;
        Ok(())
    }

    fn register(&mut self, alloc: Global, client: Client, nick: &[u8]) -> Result<(), NoMemory> {
        let line = line_of(alloc, &[b"NICK ", nick])?;
        let _held = self.say(alloc, client, line.as_slice())?;
        let line = line_of(alloc, &[b"USER ", nick, b" 0 * :", nick])?;
        let _held = self.say(alloc, client, line.as_slice())?;
        Ok(())
    }

    /// Makes the guest that was invited as `nick` say `text` to `target`, a channel or a nick. Does nothing if there is
    /// no such guest.
    ///
    /// # Errors
    /// `NoMemory` if memory cannot be allocated; never if there is no such guest.
    pub fn speak(
        &mut self,
        alloc: Global,
        nick: &Text,
        target: &Text,
        text: &Text,
    ) -> Result<(), NoMemory>
        ensures memory { OnErr result (IsSome (position (is_named nick.now) self.old.guests.items)) }
    {
        let Some(client) = client_of(self.guests.as_slice(), nick.as_bytes()) else {
            return Ok(());
        };
        let words = [
            b"PRIVMSG ".as_slice(),
            target.as_bytes(),
            b" :",
            text.as_bytes(),
        ];
        let line = line_of(alloc, &words)?;
        let _held = self.say(alloc, client, line.as_slice())?;
        Ok(())
    }

    /// Returns the lines that the guest that was invited as `nick` has received since the last call, in order, or none
    /// if there is no such guest. Never allocates.
    pub fn take_heard(&mut self, alloc: Global, nick: &Text) -> Vec<Text> {
        let Some(place) = place_of(self.guests.as_slice(), nick.as_bytes()) else {
            return Vec::new(alloc);
        };
        match self.guests.get_mut(place) {
            Some(guest) => guest.take_lines(alloc),
            None => Vec::new(alloc),
        }
    }
}

// Sends an ERROR to a connection that finds the server full, as far as the system takes it at once.
fn turn_away(peer: Peer) -> Result<(), NoMemory> {
    let mut peer = peer;
    let _fits = peer.connection.tell(b"ERROR :full", b"\r\n")?;
    let _taken = peer.send();
    Ok(())
}

// Joins words into a line.
fn line_of(alloc: Global, words: &[&[u8]]) -> Result<Vec<u8>, NoMemory> {
    let mut line = Vec::new(alloc);
    for word in words {
        line.extend_from_slice(word)?;
    }
    Ok(line)
}
