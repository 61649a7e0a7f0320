// The lines that one call sends.
ghost use Rattle.std.specs.Prelude.{◌≡◌, ◌&&◌, ◌∷◌, [], true, IfOk, OnOk};
ghost use Rattle.ircline.specs.Classes.{filled, octet};
ghost use Rattle.miniircd.specs.Mail.{sealed, posted, readers, serves, are_sound};

use crate::client::{Client, SentLine};
use crate::client_identity::ClientIdentity;
use bytetext::{NoMemory, Text};
use slab::Slab;
use std::alloc::Global;
use std::marker::Model;

// The most bytes of a line before CR and LF (RFC 2812 section 2.3).
const MAX_LINE: usize = 510;

/// The lines of one call. Whatever is put in, the lines that come out are sound: each goes to a client that is
/// connected and isn't about to leave, has 1 to 510 bytes, and no NUL, CR or LF.
pub struct Post<'a> {
    clients: &'a Slab<ClientIdentity>,
    leaver: Option<usize>,
    lines: Vec<SentLine>,
}

// By hand, so that this is proved once, and not in each function in which one ends.
impl<'a> Drop for Post<'a> {
    fn drop(self) {
        let Post {
            clients: _,
            leaver: _,
            lines: _,
        } = self;
    }
}

impl<'a> Model for Post<'a> {
    ghost use Rattle.std.specs.Prelude.{◌≡◌, true};
    ghost use Rattle.miniircd.specs.Mail.{Mail, are_sound};

    ghost Value = { Mail };

    ghost view = { λ p. record { clients = p.clients.now.slots; leaver = p.leaver; lines = p.lines.items } };

    ghost invariant = { λ p. are_sound p.clients.now.slots p.leaver p.lines.items ≡ true };
}

impl<'a> Post<'a> {
    /// Creates an empty list of lines for `clients`, of which `leaver` is about to leave.
    pub fn new(alloc: Global, clients: &'a Slab<ClientIdentity>, leaver: Option<usize>) -> Post<'a>
        ensures { result ≡ record { clients = clients.now.slots; leaver = leaver; lines = [] } }
    {
        Post {
            clients,
            leaver,
            lines: Vec::new(alloc),
        }
    }

    // Returns whether the client is connected and isn't about to leave.
    fn serves(&self, client: usize) -> bool
        ensures { result ≡ serves self.now.clients self.now.leaver client }
    {
        self.clients.contains(client) && self.leaver != Some(client)
    }

    // Returns whether `line` is not empty, and the client `to` gets lines.
    fn takes(&self, to: usize, line: &[u8]) -> bool
        ensures { result ≡ (filled line.now && serves self.now.clients self.now.leaver to) }
    {
        line.len() > 0 && self.serves(to)
    }

    /// Appends `text` as a line for the client `to`, if that client is connected and isn't about to leave.
    ///
    /// # Errors
    /// Returns `NoMemory` if an allocation fails.
    pub fn send(&mut self, alloc: Global, to: usize, text: &[u8]) -> Result<(), NoMemory>
        ensures told { OnOk result (self.new ≡ posted (record { to = to; text = text.now } ∷ []) self.old) }
        ensures readers { OnOk result (readers self.new ≡ readers self.old) }
    {
        let line = sealed(alloc, text)?;
        if self.takes(to, line.as_bytes()) {
            self.lines.push(SentLine {
                to: Client(to),
                line,
            })?;
        }
        Ok(())
    }

    /// Returns the lines, in order.
    pub fn into_lines(self) -> Vec<SentLine>
        ensures lines { result.items ≡ self.entry.lines }
        ensures sound { are_sound self.entry.clients self.entry.leaver result.items ≡ true }
    {
        let Post {
            clients: _,
            leaver: _,
            lines,
        } = self;
        lines
    }
}

// Returns the text as a line.
fn sealed(alloc: Global, text: &[u8]) -> Result<Text, NoMemory>
    ensures { IfOk result (λ line. line ≡ sealed text.now) }
{
    let mut bytes = Vec::from_slice(alloc, text)?;
    bytes.retain(|byte| is_octet(*byte));
    bytes.truncate(MAX_LINE);
    Ok(Text::new(bytes))
}

// Returns whether the byte may stand in a line.
fn is_octet(byte: u8) -> bool
    ensures { result ≡ octet byte }
{
    byte != 0 && !(byte == b'\r' || byte == b'\n')
}
