// Which server is tried, and when.
ghost use Rattle.std.specs.Prelude.{◌<◌, ℕ};
ghost use Rattle.net.specs.Addresses.{IsOfTunnel};
ghost use Rattle.net.specs.Dials.{Dials};
ghost use Rattle.net.specs.Turns.{IsTriedSoon};

use crate::address::{DialFault, literal, of_round, with_route};
use crate::any_socket::{AnySocket, Way};
use crate::lookup::{Lookup, Step, own_addresses};
use crate::redial::Redial;
use crate::tcp::TcpSocket;
use crate::unix::UnixSocket;
use bytetext::Failure;
use mio::Registry;
use resolver::{Addresses, is_host_name};
use std::fs::File;
use std::io;
use std::io::ErrorKind;
use std::marker::Model;
use std::net::{Net, SocketAddr};
use std::random::RandomSource;
use std::rt::Files;

/// Which server of a list is tried next, or is connected, and when the next try is due. Contracts see it as a
/// `Rattle.net.specs.Dials.Dials`.
pub struct Dialling {
    servers: usize,
    place: usize,
    round: u64,
    is_good: bool,
    redial: Redial,
    // The lookup of the name of the server that is tried, while it goes on.
    lookup: Option<Lookup>,
}

// By hand, so that this is proved once, and not in each crate in which a dialling ends.
impl Drop for Dialling {
    fn drop(self) {
        let Dialling {
            servers: _,
            place: _,
            round: _,
            is_good: _,
            redial: _,
            lookup: _,
        } = self;
    }
}

impl Model for Dialling {
    ghost use Rattle.std.specs.Prelude.{◌<◌, ℕ};
    ghost use Rattle.net.specs.Dials.{Dials};

    ghost Value = { Dials };

    ghost view = { λ d. record {
      servers = d.servers;
      place = d.place;
      round = d.round;
      good = d.is_good;
      waits = d.redial;
    } };

    ghost invariant = { λ d. d.place < d.servers };
}

/// The tokens under which a watch names what a [`Dialling`] opens.
#[derive(Clone, Copy)]
pub struct DialTokens {
    /// That of the connection.
    pub connection: usize,
    /// That of the socket at which the answers of a name server arrive.
    pub lookup: usize,
}

/// A connection that was begun, and where it leads.
#[derive(Drop)]
pub struct Dialled {
    /// The connection, which may still fail.
    pub socket: AnySocket,
    /// The address to which it connects, or that it goes through a tunnel.
    pub way: Way,
}

impl Dialling {
    ghost use Rattle.std.specs.Prelude.{◌≡◌, ◌<◌, ◌≤◌, ◌+◌, ◌↔◌, IfErr, IfOk, IfSome, IsSome, IsTrue, true, false, length};
    ghost use Rattle.bytetext.specs.declared.moment.TheConstants.{MOMENTS_END};
    ghost use Rattle.net.specs.declared.redial.TheConstants.{FIRST_WAIT};
    ghost use Rattle.net.specs.Dials.{good, lost};
    ghost use Rattle.net.specs.Addresses.{GoesByTunnel, IsOfTunnel, LeadsTo};
    ghost use Rattle.streams.specs.Accounts.{nothing_yet};

    /// Creates a `Dialling` over a list of `servers` servers, the first of which is due at once. `number` is the bot's
    /// number, and `most` the longest wait in seconds.
    pub fn new(number: u16, most: u16, servers: usize) -> Dialling
        requires most { FIRST_WAIT ≤ most }
        requires some { 0 < servers }
        ensures { result ≡ record {
          servers = servers;
          place = 0;
          round = 0;
          good = false;
          waits = record { number = number; most = most; due = 0; wait = FIRST_WAIT };
        } }
    {
        Dialling {
            servers,
            place: 0,
            round: 0,
            is_good: false,
            redial: Redial::new(number, most),
            lookup: None,
        }
    }

    /// Returns whether a try is due at second `now`.
    pub fn is_due(&self, now: u64) -> bool
        ensures { IsTrue result ↔ (self.now.waits.due ≤ now) }
    {
        self.redial.is_due(now)
    }

    /// Returns the second at which the next try is due.
    pub fn due(&self) -> u64
        ensures { result ≡ self.now.waits.due }
    {
        self.redial.due()
    }

    /// Returns the place in the list, from 0, of the server that is tried next or is connected.
    pub fn place(&self) -> usize
        ensures value { result ≡ self.now.place }
        ensures within { result < self.now.servers }
    {
        self.place
    }

    /// Records that the connection was good: its owner has seen it hold, or its other end has shown who it is. After
    /// its loss the first wait is the shortest again.
    pub fn good(&mut self)
        ensures { self.new ≡ good self.old }
    {
        self.is_good = true;
    }

    /// Records that a try failed at second `now`, or that a connection was lost then. The next server of the list is
    /// due after the wait. A lookup ends.
    pub fn lost(&mut self, now: u64)
        requires { now < MOMENTS_END }
        ensures value { self.new ≡ lost self.old now }
        ensures later { now < self.new.waits.due }
        ensures soon { self.new.waits.due ≤ now + self.old.waits.most }
        ensures good { self.old.good ≡ true → self.new.waits.due ≤ now + FIRST_WAIT }
    {
        self.redial.lost(now, self.is_good);
        self.is_good = false;
        self.lookup = None;
        if self.place + 1 == self.servers {
            self.place = 0;
            self.round = self.round.saturating_add(1);
        } else {
            self.place += 1;
        }
    }

    /// Takes another list, of `servers` servers. The server that is connected, or is tried next, stands at `place` there.
    /// The wait stays. A lookup ends.
    pub fn relist(&mut self, servers: usize, place: usize)
        requires within { place < servers }
        ensures { self.new ≡ record self.old { servers = servers; place = place; round = 0 } }
    {
        self.servers = servers;
        self.place = place;
        self.round = 0;
        self.lookup = None;
    }

    /// Begins to connect to `host` and `port`, which are to be those of the server at [`Dialling::place`]. Returns at
    /// once, before the connection exists. `registry` watches what is opened under `tokens`.
    ///
    /// If `host` is a name, it is looked up in `/etc/hosts`, and then by the name servers that `/etc/resolv.conf` names.
    /// Returns `Ok(None)` until one of them has answered: call it again when a wait names the lookup's token, and at
    /// least once a second. `steady` is the second of a clock that never goes back. The connection then goes to the
    /// address of this round, among those to which the machine has a route.
    ///
    /// # Errors
    /// `Refused` with `Unreadable`, `Unknown`, `Unanswered` or `Unreached`, as [`DialFault`] describes them. The try has
    /// then failed: call [`Dialling::lost`] next. `NoMemory` if a file can't be read for want of memory; nothing has
    /// changed then. A host that is an address needs no memory, asks nobody and never waits.
    pub fn connect<R: AllocGlobal + Net + Files<File = File> + RandomSource>(
        &mut self,
        rt: &R,
        registry: &Registry,
        tokens: DialTokens,
        host: &[u8],
        port: u16,
        steady: u64,
    ) -> Result<Option<Dialled>, Failure<DialFault>>
        ensures unchanged { self.new ≡ self.old }
        ensures address { LeadsTo host.now port result }
        // Nothing was given or taken on a connection that begins.
        ensures fresh { IfOk result (λ found. IfSome found (λ dialled. dialled.socket.account.past ≡ nothing_yet)) }
    {
        let address = match literal(host, port) {
            Some(address) => address,
            None => {
                let step = Step {
                    host,
                    steady,
                    registry,
                    token: tokens.lookup,
                };
                match self.look_up(rt, step, port)? {
                    Some(address) => address,
                    None => return Ok(None),
                }
            }
        };
        match TcpSocket::connect(rt, registry, tokens.connection, address) {
            Ok(socket) => Ok(Some(Dialled {
                socket: AnySocket::of_tcp(socket),
                way: Way::Tcp(address),
            })),
            Err(_) => Err(Failure::Refused(DialFault::Unreached)),
        }
    }

    /// Connects to the tunnel that listens at `path`, which is to be that of the server at [`Dialling::place`]. Asks no
    /// name server, and connects at once. `registry` watches the connection under `token`.
    ///
    /// # Errors
    /// `NoTunnel` and `TunnelBusy`, as [`DialFault`] describes them. The try has then failed: call [`Dialling::lost`]
    /// next.
    pub fn connect_path<R: Net>(
        &self,
        rt: &R,
        registry: &Registry,
        token: usize,
        path: &str,
    ) -> Result<Dialled, DialFault>
        // It goes to the path, and never over TCP.
        ensures tunnel { IfOk result GoesByTunnel }
        ensures fresh { IfOk result (λ dialled. dialled.socket.account.past ≡ nothing_yet) }
        ensures fault { IfErr result IsOfTunnel }
    {
        match UnixSocket::connect_path(rt, registry, token, path) {
            Ok(socket) => Ok(Dialled {
                socket: AnySocket::of_unix(socket),
                way: Way::Tunnel,
            }),
            Err(error) => Err(tunnel_fault(&error)),
        }
    }

    // Begins or goes on with the lookup of a name. Returns the address of this round once its addresses are known.
    fn look_up<R: AllocGlobal + Net + Files<File = File> + RandomSource>(
        &mut self,
        rt: &R,
        step: Step<'_>,
        port: u16,
    ) -> Result<Option<SocketAddr>, Failure<DialFault>>
        ensures { self.new ≡ self.old }
    {
        let found = match &mut self.lookup {
            Some(lookup) => lookup.go_on(rt, step),
            None => return self.begin(rt, step, port),
        };
        match found {
            Ok(Some(addresses)) => {
                self.lookup = None;
                Ok(self.choice(rt, addresses, port))
            }
            Ok(None) => Ok(None),
            Err(fault) => {
                self.lookup = None;
                Err(Failure::Refused(fault))
            }
        }
    }

    // Looks a name up in this machine's own list, or begins to ask the name servers.
    fn begin<R: AllocGlobal + Net + Files<File = File> + RandomSource>(
        &mut self,
        rt: &R,
        step: Step<'_>,
        port: u16,
    ) -> Result<Option<SocketAddr>, Failure<DialFault>>
        ensures { self.new ≡ self.old }
    {
        if !is_host_name(step.host) {
            return Err(Failure::Refused(DialFault::Unreadable));
        }
        let own = own_addresses(rt, step.host)?;
        if own.as_slice().is_empty() {
            self.lookup = Some(Lookup::begin(rt, step)?);
            return Ok(None);
        }
        Ok(self.choice(rt, own, port))
    }

    // The address of this round among those of a name to which a route leads.
    fn choice<R: Net>(&self, rt: &R, found: Addresses, port: u16) -> Option<SocketAddr>
        ensures { 0 < length found → IsSome result }
    {
        let reached = with_route(rt, found);
        let address = of_round(reached.as_slice(), self.round)?;
        Some(SocketAddr::new(address, port))
    }
}

// Why the system does not connect to a tunnel.
fn tunnel_fault(error: &io::Error) -> DialFault
    ensures { IsOfTunnel result }
{
    match error.kind() {
        ErrorKind::NotFound | ErrorKind::ConnectionRefused => DialFault::NoTunnel,
        _ => DialFault::TunnelBusy,
    }
}

/// The law of turns: each server of the list is tried before one is tried again. The function does nothing; what it
/// ensures holds for any list.
pub fn law_of_turns()
    // From any try on, as many tries as there are servers reach each of them, whenever they are lost, good or not.
    ensures each { (dials : Dials) (place : ℕ) → dials.place < dials.servers → place < dials.servers
        → IsTriedSoon dials place }
{}
