// A bot's connections to the others of its net.
ghost use Rattle.std.specs.Prelude.{◌≡◌, ◌≢◌, ◌<◌, IfOk, IfErr, OnOk, OnErr, is_some, option_map, slice_get};
ghost use Rattle.std.specs.List.{AllByRecursion};
ghost use Rattle.bytetext.specs.declared.moment.TheConstants.{MOMENTS_END};
ghost use Rattle.sharewire.specs.Frames.{CanBeWritten};
ghost use Rattle.peers.specs.Asking.{is_new_leaf, may_ask, may_ask_nameless};
ghost use Rattle.peers.specs.Doubts.{RenewsLeaf, TrustsThis, is_in_doubt};
ghost use Rattle.peers.specs.Drawn.{Draws, nonces_in};
ghost use Rattle.peers.specs.Entering.{lines_of};
ghost use Rattle.peers.specs.Hellos.{asked, noted, pumps_of};
ghost use Rattle.peers.specs.HandOver.{has_all, shown_at, shows_all};
ghost use Rattle.peers.specs.Linked.{Hears, MayConnect, Reaches};
ghost use Rattle.peers.specs.Moving.{is_to_move};
ghost use Rattle.peers.specs.Tells.{TakesPackets, TellsOne};
ghost use Rattle.peers.specs.declared.links.Links.TheVariants.{Alone};
ghost use Rattle.sharelink.specs.Shapes.{HasGoodRecords};

use crate::dice::Dice;
use crate::doubt::Doubt;
use crate::hub_connection::HubConnection;
use crate::hub_links::HubLinks;
use crate::seat::Seat;
use bytetext::NoMemory;
use handshake::{DrawnNumber, HandshakeLine, Own};
use net::{Log, Registry};
use settings::Settings;
use sharelink::{LinkNote, Outgoing};
use sharewire::Packet;
use std::alloc::Global;
use std::fs::File;
use std::net::Net;
use std::random::RandomSource;
use std::rt::Files;
use tunnels::Target;

/// The first token of a hub's connections. A leaf's connection and both doors have lower tokens.
pub const FIRST_TOKEN: usize = 16;

/// A bot's connections to the others of its net.
pub enum Links {
    /// The bot is alone.
    Alone,
    /// The hub's.
    Hub(HubLinks),
    /// A leaf's.
    Leaf(HubConnection),
}

// Written by hand, so that the drop is proved once, and not in each function that drops one.
impl Drop for Links {
    fn drop(self) {
        match self {
            Links::Alone => {}
            Links::Hub(_) => {}
            Links::Leaf(_) => {}
        }
    }
}

impl Links {
    /// Begins a turn at second `steady` of the monotonic clock, by which the time limit of a handshake is measured. Notes
    /// that the connections that `tokens`, those of a wait, name may have something to read.
    pub fn wake(&mut self, tokens: &[usize], steady: u64) {
        match self {
            Links::Alone => {}
            Links::Hub(hub) => hub.wake(tokens, steady),
            Links::Leaf(leaf) => leaf.wake(tokens, steady),
        }
    }

    /// At a hub, accepts the connections that wait. At a leaf, begins to connect to the hub of `settings` whose turn it
    /// is, if the connection is lost and an attempt is due at second `now`; while the hub's name is looked up, the
    /// attempt stays due. A leaf that is to move ([`Links::is_to_move`]) no longer connects. `dice` roll the nonces of
    /// this bot's handshakes, and `registry` watches the connections. Returns whether a connection to the hub began.
    ///
    /// # Errors
    /// `NoMemory` if an allocation fails: only at a hub, and at a leaf that looks its hub's name up.
    pub fn connect<R: AllocGlobal + Net + Files<File = File> + RandomSource>(
        &mut self,
        rt: &R,
        dice: &mut Dice,
        log: &mut Log,
        registry: &Registry,
        settings: &Settings,
        now: u64,
    ) -> Result<bool, NoMemory>
        requires moment { now < MOMENTS_END }
        ensures memory { IfErr result (λ _. MayConnect self.old settings.now.hubs now) }
        // Each handshake that begins says a nonce that the dice rolled for it.
        ensures nonces { Draws (nonces_in self.old) (nonces_in self.new) dice.old.rolled dice.new.rolled }
    {
        match self {
            Links::Alone => Ok(false),
            Links::Hub(hub) => {
                hub.let_in(rt, dice, log, registry, now)?;
                Ok(false)
            }
            Links::Leaf(leaf) => match settings.hubs.as_slice().get(leaf.place()) {
                Some(address) => {
                    let folder = settings.folder.as_bytes();
                    let target = Target { folder, address };
                    leaf.connect(rt, dice, log, registry, target, now)
                }
                None => Ok(false),
            },
        }
    }

    /// Reads from each connection at second `now`. Returns whether there may be more at once.
    ///
    /// # Errors
    /// `NoMemory` if an allocation fails: never for a bot that is alone, nor if nobody is connected.
    pub fn read<R: AllocGlobal>(
        &mut self,
        rt: &R,
        log: &mut Log,
        now: u64,
    ) -> Result<bool, NoMemory>
        ensures memory { IfErr result (λ _. Hears self.old) }
    {
        match self {
            Links::Alone => Ok(false),
            Links::Hub(hub) => hub.read(rt, log, now),
            Links::Leaf(leaf) => leaf.read(rt, log, now),
        }
    }

    /// Returns the packets of one turn.
    ///
    /// # Errors
    /// `NoMemory` if an allocation fails: never for a bot that is alone.
    pub fn take_packets(&mut self, alloc: Global) -> Result<Vec<Packet>, NoMemory>
        ensures good { IfOk result (λ packets. AllByRecursion HasGoodRecords packets.items) }
        ensures takes { IfOk result (λ packets. TakesPackets self.old packets.items self.new) }
        ensures memory { IfErr result (λ _. self.old ≢ Alone) }
    {
        match self {
            Links::Alone => Ok(Vec::new(alloc)),
            Links::Hub(hub) => hub.take_packets(alloc),
            Links::Leaf(leaf) => leaf.inbox.take(alloc),
        }
    }

    /// Whether a pump is due at second `now`: at a leaf if it is linked and is to say hello, and always at any other
    /// bot.
    pub fn is_pump_due(&self, now: u64) -> bool {
        match self {
            Links::Alone | Links::Hub(_) => true,
            Links::Leaf(leaf) => leaf.is_linked() && leaf.pumps.is_due(now),
        }
    }

    /// Whether this bot is a leaf.
    pub fn is_leaf(&self) -> bool {
        match self {
            Links::Alone | Links::Hub(_) => false,
            Links::Leaf(_) => true,
        }
    }

    // Queues the packet of `outgoing` for its recipient, as `Mail::tell` says.
    pub(crate) fn tell(
        &mut self,
        alloc: Global,
        outgoing: &Outgoing,
        now: u64,
    ) -> Result<(), NoMemory>
        requires good { HasGoodRecords outgoing.now.packet }
        ensures memory { OnErr result (Reaches outgoing.now.to self.old) }
        ensures frame { OnErr result (CanBeWritten outgoing.now.packet) }
        ensures told { OnOk result (TellsOne outgoing.now.to outgoing.now.packet self.old self.new) }
    {
        match self {
            Links::Alone => Ok(()),
            Links::Hub(hub) => hub.tell(alloc, outgoing.to, &outgoing.packet),
            Links::Leaf(leaf) => leaf.tell(alloc, &outgoing.packet, now),
        }
    }

    /// Notes that something was asked at this bot.
    pub fn ask(&mut self)
        ensures { pumps_of self.new ≡ option_map asked (pumps_of self.old) }
    {
        if let Links::Leaf(leaf) = self {
            leaf.pumps.ask();
        }
    }

    /// Passes the `note` of a step of the link to a leaf, which decides from it when to say hello. `more` says whether
    /// more changes wait than are out.
    pub fn note(&mut self, note: &LinkNote, more: bool)
        ensures { pumps_of self.new ≡ option_map (noted note.now more) (pumps_of self.old) }
    {
        if let Links::Leaf(leaf) = self {
            leaf.pumps.note(note, more);
        }
    }

    /// Seals what waits for each connection, and offers the connection its unsent bytes. Returns whether one took a byte.
    ///
    /// # Errors
    /// `NoMemory` if an allocation fails: never if nobody is connected. Nothing is lost; call it again.
    pub fn send(&mut self) -> Result<bool, NoMemory> {
        match self {
            Links::Alone => Ok(false),
            Links::Hub(hub) => hub.send(),
            Links::Leaf(leaf) => leaf.send(),
        }
    }

    /// Closes each connection that is over, at second `now`.
    pub fn let_go(&mut self, log: &mut Log, now: u64)
        requires moment { now < MOMENTS_END }
    {
        match self {
            Links::Alone => {}
            Links::Hub(hub) => hub.let_go(log, now),
            Links::Leaf(leaf) => leaf.let_go(log, now),
        }
    }

    /// Returns the number of the hub's net that a leaf has to save before it goes on, if there is one. Save it, and
    /// then call [`Links::keep`].
    pub fn to_keep(&self) -> Option<DrawnNumber> {
        match self {
            Links::Alone | Links::Hub(_) => None,
            Links::Leaf(leaf) => leaf.to_keep(),
        }
    }

    /// Notes that `net`, the number of the hub's net, is saved. The hub is linked at second `now`.
    pub fn keep(&mut self, log: &mut Log, net: DrawnNumber, now: u64) {
        match self {
            Links::Alone | Links::Hub(_) => {}
            Links::Leaf(leaf) => leaf.keep(log, net, now),
        }
    }

    /// Whether the connections need to know of the bot in this turn: a leaf that has shown its code is to be answered, a
    /// hub's greeting is to be answered, a beat is due, or one has to be compared. Call [`Links::tell_own`] then, after
    /// [`Links::connect`] and before [`Links::read`].
    pub fn wants_own(&self) -> bool {
        match self {
            Links::Alone => false,
            Links::Hub(hub) => hub.wants_own(),
            Links::Leaf(leaf) => leaf.wants_own(),
        }
    }

    /// Passes what the process knows of its own bot, for this turn: until the next [`Links::wake`].
    pub fn tell_own(&mut self, own: Own) {
        match self {
            Links::Alone => {}
            Links::Hub(hub) => hub.own = Some(own),
            Links::Leaf(leaf) => leaf.tell_own(own),
        }
    }

    /// At a hub, returns the lines for the file `leaves` that have to be on the disk before the leaves that they name are
    /// welcomed; empty if there are none. Append them, and then call [`Links::entered`] in the same turn.
    ///
    /// # Errors
    /// `NoMemory` if an allocation fails: never if there are none.
    pub fn to_enter(&self, alloc: Global) -> Result<Vec<u8>, NoMemory>
        ensures lines { IfOk result (λ lines. lines.items ≡ lines_of self.now) }
    {
        match self {
            Links::Alone | Links::Leaf(_) => Ok(Vec::new(alloc)),
            Links::Hub(hub) => hub.to_enter(alloc),
        }
    }

    /// Notes that the lines that [`Links::to_enter`] returned in this turn are on the disk, and welcomes the leaves that
    /// they name, at second `now`.
    ///
    /// # Errors
    /// `NoMemory` if an allocation fails: never if there were none.
    pub fn entered<R: AllocGlobal>(
        &mut self,
        rt: &R,
        log: &mut Log,
        now: u64,
    ) -> Result<(), NoMemory> {
        match self {
            Links::Alone | Links::Leaf(_) => Ok(()),
            Links::Hub(hub) => hub.entered(rt, log, now),
        }
    }

    /// At a leaf whose folder is new, returns the number of the last request of an earlier folder that the hub replied
    /// to: begin a new journal whose requests are numbered above it, before the number of the net is saved. The hub is
    /// linked once [`Links::tell_own`] has passed that number as the leaf's last.
    pub fn to_begin_after(&self) -> Option<u32> {
        match self {
            Links::Alone | Links::Hub(_) => None,
            Links::Leaf(leaf) => leaf.to_begin_after(),
        }
    }

    /// At a hub, whether it may be an older copy of itself: a leaf is ahead of it, or differs from it. Until
    /// [`Links::trust`] it takes no request, and the process is to refuse its own changes.
    pub fn doubt(&self) -> Option<Doubt>
        ensures { is_some result ≡ is_in_doubt self.now }
    {
        match self {
            Links::Alone | Links::Leaf(_) => None,
            Links::Hub(hub) => hub.doubt(),
        }
    }

    /// At a hub, returns the line for the file `doubt` if the hub may be an older copy of itself, and that is not kept yet:
    /// write it before anything else.
    pub fn doubt_to_keep(&self) -> Option<HandshakeLine> {
        match self {
            Links::Alone | Links::Leaf(_) => None,
            Links::Hub(hub) => hub.doubt_to_keep(),
        }
    }

    /// Notes that the line of [`Links::doubt_to_keep`] is on the disk.
    pub fn keep_doubt(&mut self) {
        match self {
            Links::Alone | Links::Leaf(_) => {}
            Links::Hub(hub) => hub.keep_doubt(),
        }
    }

    /// At a hub, decides that this copy counts: bars the folders of the leaves that were found ahead of it or different,
    /// and ends the doubt. Returns the lines for the file `leaves`: append them before anything else, and
    /// then remove the file `doubt`. Empty if there is no doubt.
    ///
    /// # Errors
    /// `NoMemory` if an allocation fails: never if there is no doubt. Nothing is done then.
    pub fn trust(&mut self, alloc: Global) -> Result<Vec<u8>, NoMemory>
        ensures trusts { IfOk result (λ lines. TrustsThis self.old lines.items self.new) }
        ensures unchanged { OnErr result (self.new ≡ self.old) }
    {
        match self {
            Links::Alone | Links::Leaf(_) => Ok(Vec::new(alloc)),
            Links::Hub(hub) => hub.trust(alloc),
        }
    }

    /// At a hub, frees the number `leaf`, so that the next folder that shows it takes it: disconnects the leaf at second
    /// `now`, and drops its packets. Returns the line for the file `leaves`: append it before anything else. Returns
    /// `None` if this bot has no such leaf.
    ///
    /// # Errors
    /// `NoMemory` if an allocation fails. Nothing is done then.
    pub fn renew(
        &mut self,
        alloc: Global,
        log: &mut Log,
        leaf: u16,
        now: u64,
    ) -> Result<Option<Vec<u8>>, NoMemory>
        ensures renews { IfOk result (λ line. RenewsLeaf leaf self.old (option_map (λ line. line.items) line) self.new) }
        ensures unchanged { OnErr result (self.new ≡ self.old) }
    {
        match self {
            Links::Alone | Links::Leaf(_) => Ok(None),
            Links::Hub(hub) => hub.renew(alloc, log, leaf, now),
        }
    }

    /// Whether this bot may ask for changes: not at a leaf that may only read, as its hub said last, nor at one that was
    /// never linked.
    pub fn may_ask(&self) -> bool
        ensures { result ≡ may_ask self.now }
    {
        match self {
            Links::Alone | Links::Hub(_) => true,
            Links::Leaf(leaf) => leaf.may_ask(),
        }
    }

    /// Whether this bot may ask for changes in nobody's name too: not at a leaf that asks for persons alone, as its hub said
    /// last, nor at one that may ask for no changes at all.
    pub fn may_ask_nameless(&self) -> bool
        ensures { result ≡ may_ask_nameless self.now }
    {
        match self {
            Links::Alone | Links::Hub(_) => true,
            Links::Leaf(leaf) => leaf.may_ask_nameless(),
        }
    }

    /// Whether this bot is a leaf that is to move: a hub has told it, by a code under the leaf's key, that the hub's net
    /// is the heir of the leaf's ([`HandshakeRefusal::Heir`](crate::HandshakeRefusal::Heir)). The process is to end the
    /// bot, and to begin it again as a new leaf. Once true, it stays so.
    pub fn is_to_move(&self) -> bool
        ensures { result ≡ is_to_move self.now }
    {
        match self {
            Links::Alone | Links::Hub(_) => false,
            Links::Leaf(leaf) => leaf.moves,
        }
    }

    /// At a hub, whether the leaf numbered `leaf` has shown that it holds all changes up to `version`, the hub's own: it
    /// is linked, said this version last, and no beat of it has still to be compared with the hub's records. A leaf that
    /// holds other records at the hub's version is disconnected when its beat is compared.
    pub fn has_all(&self, leaf: u16, version: u32) -> bool
        ensures { result ≡ has_all leaf version self.now }
    {
        match self {
            Links::Alone | Links::Leaf(_) => false,
            Links::Hub(hub) => is_shown_at(version, hub.seats.as_slice(), leaf),
        }
    }

    /// Whether this bot is a leaf that was never linked.
    pub fn is_new_leaf(&self) -> bool
        ensures { result ≡ is_new_leaf self.now }
    {
        match self {
            Links::Alone | Links::Hub(_) => false,
            Links::Leaf(leaf) => leaf.is_new(),
        }
    }
}

// Whether the leaf of this number has shown that it holds all changes up to `version`.
fn is_shown_at(version: u32, seats: &[Option<Seat>], leaf: u16) -> bool
    ensures { result ≡ shown_at version (slice_get seats.now leaf) }
{
    match seats.get(usize::from(leaf)) {
        Some(Some(seat)) => shows_all(version, seat),
        Some(None) | None => false,
    }
}

fn shows_all(version: u32, seat: &Seat) -> bool
    ensures { result ≡ shows_all version seat.now }
{
    seat.wire.gone().is_none() && seat.beat.is_none() && seat.version == version
}
