// A lookup of a name, which never blocks.
ghost use Rattle.std.specs.Prelude.{◌≡◌, ◌≤◌, ◌+◌, ◌↔◌, IsTrue};
ghost use Rattle.resolver.specs.declared.addresses.TheConstants.{MAX_ADDRESSES};
ghost use Rattle.net.specs.Lookups.{most_tries};
ghost use Rattle.net.specs.declared.lookup.TheConstants.{WAIT};

use crate::address::{DialFault, of_round, unspecified};
use bytetext::NoMemory;
use mio::net::UdpSocket;
use mio::{Interest, Registry, Token};
use resolver::{
    Addresses, Family, MAX_FILE, MAX_REPLY, NameAnswer, Query, known_addresses, name_servers,
};
use std::fs::File;
use std::io::ErrorKind;
use std::net::{IpAddr, Ipv4Addr, Net, SocketAddr};
use std::random::RandomSource;
use std::rt::Files;
use std::{io, mem};
use streams::{Duplex, ReadError, read_up_to};

// The port of a name server (RFC 1035 section 4.2.1).
const PORT: u16 = 53;

// How many seconds pass at least before a question counts as unanswered.
const WAIT: u64 = 2;

// How often each server is asked.
const TRIES: u64 = 3;

// The most datagrams that one step reads.
const MOST_DATAGRAMS: usize = 64;

// What a step of a lookup is given: whose addresses are looked up, the second of a clock that never goes back, and who
// watches the socket under which token.
#[derive(Clone, Copy)]
pub(crate) struct Step<'a> {
    pub(crate) host: &'a [u8],
    pub(crate) steady: u64,
    pub(crate) registry: &'a Registry,
    pub(crate) token: usize,
}

// A question that was sent, and the socket at which its answer arrives, from the server alone that was asked.
struct Question {
    query: Query,
    socket: UdpSocket,
}

// By hand, so that this is proved once, and not wherever a lookup ends.
impl Drop for Question {
    fn drop(self) {
        let Question {
            query: _,
            socket: _,
        } = self;
    }
}

/// A lookup in progress. It asks for the addresses of IPv4, and then for those of IPv6. Each question goes to one name
/// server after the other, over UDP, until one answers.
pub(crate) struct Lookup {
    servers: Addresses,
    // The addresses of IPv4, once they are known.
    found: Addresses,
    family: Family,
    // Whose turn it is: how many questions went unanswered.
    turn: u64,
    // How many questions for this family were sent, and at which second the last one.
    tries: u64,
    sent: u64,
    // The last question, unless it could not be sent or its socket failed.
    question: Option<Question>,
}

// By hand, so that this is proved once, and not wherever a lookup ends.
impl Drop for Lookup {
    fn drop(self) {
        let Lookup {
            servers: _,
            found: _,
            family: _,
            turn: _,
            tries: _,
            sent: _,
            question: _,
        } = self;
    }
}

// Returns the addresses of `host` that this machine knows by itself.
pub(crate) fn own_addresses<R: AllocGlobal + Files<File = File>>(
    rt: &R,
    host: &[u8],
) -> Result<Addresses, NoMemory> {
    let text = text_of(rt, "/etc/hosts")?;
    Ok(known_addresses(text.as_slice(), host))
}

impl Lookup {
    ghost use Rattle.std.specs.Prelude.{◌≡◌};
    ghost use Rattle.net.specs.Lookups.{IsEnd, EndsWith};
    ghost use Rattle.net.specs.declared.address.DialFault.TheVariants.{Unknown, Unanswered};

    // Begins a lookup with its first question.
    pub(crate) fn begin<R: AllocGlobal + Net + Files<File = File> + RandomSource>(
        rt: &R,
        step: Step<'_>,
    ) -> Result<Lookup, NoMemory> {
        let text = text_of(rt, "/etc/resolv.conf")?;
        let mut lookup = Lookup {
            servers: name_servers(text.as_slice()),
            found: Addresses::none(),
            family: Family::V4,
            turn: 0,
            tries: 0,
            sent: 0,
            question: None,
        };
        lookup.ask(rt, step);
        Ok(lookup)
    }

    // Goes on: hears the answer, or asks the next server if none came in time. Returns the addresses, at least one, once
    // they are known.
    pub(crate) fn go_on<R: Net + RandomSource>(
        &mut self,
        rt: &R,
        step: Step<'_>,
    ) -> Result<Option<Addresses>, DialFault>
        ensures { IsEnd result }
    {
        match self.hear() {
            Some(answer) => self.take(rt, step, answer),
            None if self.is_waiting(step.steady) => Ok(None),
            None => self.ask_again(rt, step),
        }
    }

    // Returns whether the answer to the last question may still come.
    fn is_waiting(&self, steady: u64) -> bool {
        self.question.is_some() && is_in_time(self.sent, steady)
    }

    // Takes an answer, and asks for the other family or ends.
    fn take<R: Net + RandomSource>(
        &mut self,
        rt: &R,
        step: Step<'_>,
        answer: NameAnswer,
    ) -> Result<Option<Addresses>, DialFault>
        ensures { IsEnd result }
    {
        if let NameAnswer::Found(addresses) = answer {
            for address in addresses.as_slice() {
                self.found.put(*address);
            }
        }
        match self.family {
            Family::V4 => {
                self.family = Family::V6;
                self.tries = 0;
                self.ask(rt, step);
                Ok(None)
            }
            Family::V6 => self.end(DialFault::Unknown),
        }
    }

    // Asks the next server, unless each has been asked often enough. If the name has an address of IPv4 already, those of
    // IPv6 are asked for once.
    fn ask_again<R: Net + RandomSource>(
        &mut self,
        rt: &R,
        step: Step<'_>,
    ) -> Result<Option<Addresses>, DialFault>
        ensures { IsEnd result }
    {
        let servers = self.servers.as_slice().len();
        if self.tries >= most_tries(servers, self.found.as_slice().len()) {
            return self.end(DialFault::Unanswered);
        }
        self.turn = self.turn.saturating_add(1);
        self.ask(rt, step);
        Ok(None)
    }

    // Ends with what was found, or with `fault` if that is nothing.
    fn end(&mut self, fault: DialFault) -> Result<Option<Addresses>, DialFault>
        ensures { EndsWith fault result }
    {
        let found = mem::replace(&mut self.found, Addresses::none());
        if found.as_slice().is_empty() {
            return Err(fault);
        }
        Ok(Some(found))
    }

    // Sends a question to the server whose turn it is.
    fn ask<R: Net + RandomSource>(&mut self, rt: &R, step: Step<'_>) {
        self.question = send_question(rt, step, self.family, self.server());
        self.tries = self.tries.saturating_add(1);
        self.sent = step.steady;
    }

    // Returns the server whose turn it is.
    fn server(&self) -> IpAddr {
        let server = of_round(self.servers.as_slice(), self.turn);
        server.unwrap_or(IpAddr::V4(Ipv4Addr::LOCALHOST))
    }

    // Returns the answer to the last question, if it came. A question whose socket fails is dropped.
    fn hear(&mut self) -> Option<NameAnswer> {
        let Some(question) = &self.question else {
            return None;
        };
        match question.hear() {
            Ok(answer) => answer,
            Err(_) => {
                self.question = None;
                None
            }
        }
    }
}

// Returns whether the answer to a question that was sent at second `sent` may still come.
fn is_in_time(sent: u64, steady: u64) -> bool
    ensures { IsTrue result ↔ (steady ≤ sent + WAIT) }
{
    steady.saturating_sub(sent) <= WAIT
}

// Returns how many questions are sent at most to so many servers, when so many addresses are known: one if some are known.
fn most_tries(servers: usize, known: usize) -> u64
    requires { servers ≤ MAX_ADDRESSES }
    ensures { result ≡ most_tries servers known }
{
    if known == 0 {
        TRIES * servers as u64
    } else {
        1
    }
}

// Sends a question to `server`. Returns `None` if that fails.
fn send_question<R: Net + RandomSource>(
    rt: &R,
    step: Step<'_>,
    family: Family,
    server: IpAddr,
) -> Option<Question> {
    let mut id = [0; 2];
    rt.fill_bytes(&mut id).ok()?;
    let query = Query::new(u16::from_be_bytes(id), step.host, family)?;
    let socket = socket_to(rt, step, server).ok()?;
    socket.send(query.as_bytes()).ok()?;
    Some(Question { query, socket })
}

// Opens a socket for datagrams to and from `server` alone.
fn socket_to<R: Net>(rt: &R, step: Step<'_>, server: IpAddr) -> io::Result<UdpSocket> {
    let mut socket = UdpSocket::bind(rt, unspecified(server))?;
    socket.connect(SocketAddr::new(server, PORT))?;
    step.registry
        .register(&mut socket, Token(step.token), Interest::READABLE)?;
    Ok(socket)
}

impl Question {
    // Reads the datagrams that came, up to the answer.
    fn hear(&self) -> io::Result<Option<NameAnswer>> {
        let mut datagram = [0; MAX_REPLY];
        for _ in 0..MOST_DATAGRAMS {
            match self.socket.recv(&mut datagram) {
                Ok(count) => {
                    let answer = self.query.answer(&datagram[..count]);
                    if answer.is_some() {
                        return Ok(answer);
                    }
                }
                Err(error) => match error.kind() {
                    ErrorKind::Interrupted => {}
                    ErrorKind::WouldBlock => return Ok(None),
                    _ => return Err(error),
                },
            }
        }
        Ok(None)
    }
}

// Returns the text of a file, at most `MAX_FILE` bytes, and nothing if it can't be read.
fn text_of<R: AllocGlobal + Files<File = File>>(rt: &R, path: &str) -> Result<Vec<u8>, NoMemory> {
    match File::open(rt, path) {
        Ok(file) => {
            let mut stream = Duplex::new(file, Vec::new(rt.alloc()));
            match read_up_to(rt.alloc(), &mut stream, MAX_FILE) {
                Ok(text) => Ok(text),
                Err(ReadError::Fault) => Ok(Vec::new(rt.alloc())),
                Err(ReadError::NoMemory) => Err(NoMemory),
            }
        }
        Err(error) => match error.kind() {
            ErrorKind::OutOfMemory => Err(NoMemory),
            _ => Ok(Vec::new(rt.alloc())),
        },
    }
}
