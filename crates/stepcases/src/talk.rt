// A conversation with a server.
use crate::print::put_number;
use bytetext::{Failure, Seq};
use caselines::{CaseError, NOT_MADE, cut, number};
use miniircd::{Client, Ircd, IrcdError, SentLine};
use std::alloc::Global;

/// A server, and the clients that have connected to it.
#[derive(Drop)]
pub struct Talk {
    server: Ircd,
    // The client of number N is at index N.
    clients: Vec<Client>,
}

impl Talk {
    /// Begins with a new server. Does not allocate.
    pub fn new(alloc: Global) -> Talk {
        Talk {
            server: Ircd::new(alloc),
            clients: Vec::new(alloc),
        }
    }

    /// Plays the step `line`: appends to `out` the line and what comes of it.
    ///
    /// # Errors
    /// `Refused` if the line is no step of a conversation, and `NoMemory` if an allocation fails.
    pub fn play(&mut self, alloc: Global, line: &[u8], out: &mut Vec<u8>) -> Result<(), CaseError> {
        let (word, rest) = cut(line, b' ');
        match word {
            b"connect" if rest.is_empty() => self.connect(alloc, out),
            b"server" => self.begin(alloc, line, out),
            b"gone" => self.gone(alloc, line, rest, out),
            number => self.say(alloc, line, number, rest, out),
        }
    }

    fn begin(&mut self, alloc: Global, line: &[u8], out: &mut Vec<u8>) -> Result<(), CaseError> {
        self.server = Ircd::new(alloc);
        self.clients = Vec::new(alloc);
        tell(line, out)
    }

    fn connect(&mut self, alloc: Global, out: &mut Vec<u8>) -> Result<(), CaseError> {
        out.extend_from_slice(b"connect ")?;
        match self.server.connect(alloc) {
            Ok(client) => {
                self.tell_number(client, out)?;
                tell(b"", out)
            }
            Err(error) => tell_refusal(error, out),
        }
    }

    fn gone(
        &mut self,
        alloc: Global,
        line: &[u8],
        number: &[u8],
        out: &mut Vec<u8>,
    ) -> Result<(), CaseError> {
        let client = self.client_of(number)?;
        tell(line, out)?;
        let sent = self.server.gone(alloc, client);
        self.tell_sent(sent, out)
    }

    fn say(
        &mut self,
        alloc: Global,
        line: &[u8],
        number: &[u8],
        text: &[u8],
        out: &mut Vec<u8>,
    ) -> Result<(), CaseError> {
        let client = self.client_of(number)?;
        tell(line, out)?;
        let sent = self.server.line(alloc, client, text);
        self.tell_sent(sent, out)
    }

    // Returns the client of the number that `word` spells.
    fn client_of(&self, word: &[u8]) -> Result<Client, CaseError> {
        match self.clients.get(number::<usize>(word)?) {
            Some(client) => Ok(*client),
            None => Err(NOT_MADE),
        }
    }

    // Prints the number of `client`, which gets the next number if it has none.
    fn tell_number(&mut self, client: Client, out: &mut Vec<u8>) -> Result<(), CaseError> {
        let number = match self.clients.iter().position(|other| *other == client) {
            Some(number) => number,
            None => {
                self.clients.push(client)?;
                self.clients.len() - 1
            }
        };
        Ok(put_number(out, number as u64)?)
    }

    // Prints the lines that go out, each with the number of its client, or why there are none.
    fn tell_sent(
        &mut self,
        sent: Result<Seq<SentLine>, IrcdError>,
        out: &mut Vec<u8>,
    ) -> Result<(), CaseError> {
        let lines = match sent {
            Ok(lines) => lines,
            Err(error) => return tell_refusal(error, out),
        };
        for sent in lines.as_slice() {
            self.tell_number(sent.to, out)?;
            out.extend_from_slice(b"> ")?;
            tell(sent.line.as_bytes(), out)?;
        }
        Ok(())
    }
}

// Prints the code of a refusal.
fn tell_refusal(error: IrcdError, out: &mut Vec<u8>) -> Result<(), CaseError> {
    match error {
        IrcdError::Refused(fault) => tell(fault.code().as_bytes(), out),
        IrcdError::NoMemory => Err(Failure::NoMemory),
    }
}

// Prints `text`, which ends the line.
fn tell(text: &[u8], out: &mut Vec<u8>) -> Result<(), CaseError> {
    out.extend_from_slice(text)?;
    out.push(b'\n')?;
    Ok(())
}
