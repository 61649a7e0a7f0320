// A leaf's connection to its hub, one of several that it tries in turn.
ghost use Rattle.std.specs.Prelude.{◌≡◌, ◌<◌, ◌≤◌, ◌↔◌, ◌||◌, false, None, Some, IsTrue, IfErr, IfOk, IfSome, OnOk, OnErr};
ghost use Rattle.bytetext.specs.declared.moment.TheConstants.{MOMENTS_END};
ghost use Rattle.net.specs.declared.redial.TheConstants.{FIRST_WAIT};
ghost use Rattle.sharelink.specs.Shapes.{HasGoodRecords};
ghost use Rattle.sharewire.specs.Frames.{CanBeWritten};
ghost use Rattle.peers.specs.Asking.{is_new, may_leaf_ask, may_leaf_ask_nameless};
ghost use Rattle.peers.specs.Drawn.{Draws, nonces_at};
ghost use Rattle.peers.specs.Linked.{IsHeard, IsLinked, IsName, LooksUp};
ghost use Rattle.peers.specs.Moving.{TriesNext, is_told, longest_wait, next_hub};
ghost use Rattle.peers.specs.Tells.{TellsHub};

use crate::beat::Beat;
use crate::dice::Dice;
use crate::entry::Entry;
use crate::gone::Gone;
use crate::hub_link::HubLink;
use crate::hub_turn::HubTurn;
use crate::inbox::Inbox;
use crate::meeting::Meeting;
use crate::pumps::Pumps;
use crate::stations::LeafStation;
use crate::turn_time::TurnTime;
use bytetext::{Failure, NoMemory};
use handshake::{DrawnNumber, LeafRights, Own};
use net::{DialFault, DialTokens, Dialled, Log, Registry};
use sharewire::Packet;
use std::alloc::Global;
use std::fs::File;
use std::net::Net;
use std::random::RandomSource;
use std::rt::Files;
use tunnels::{Target, dial, tunnel_path};

/// The longest wait before an attempt to connect, in seconds, of a leaf that has one hub to try.
pub const LONGEST_WAIT: u16 = 30;

/// The longest wait before an attempt to connect, in seconds, of a leaf that has several hubs to try: each of two is
/// tried within 8 seconds.
pub const LONGEST_WAIT_IN_TURN: u16 = 4;

// The token under which the connection to the hub is watched.
const TOKEN: usize = 5;

// The token under which the lookup of the hub's name is watched.
const LOOKUP: usize = 7;

// A connection to the hub.
pub(crate) enum Hub {
    // Before the first record.
    Meets(Meeting),
    // Packets go both ways.
    Linked(HubLink),
}

// Written by hand, so that the drop is proved once, and not in each function that drops one.
impl Drop for Hub {
    fn drop(self) {
        match self {
            Hub::Meets(_) => {}
            Hub::Linked(_) => {}
        }
    }
}

impl Hub {
    // The link after the handshake, and what the leaf may do: see `Meeting::into_link`.
    fn into_link(self, alloc: Global, time: TurnTime) -> Option<(HubLink, LeafRights)> {
        match self {
            Hub::Meets(meeting) => meeting.into_link(alloc, time),
            Hub::Linked(_) => None,
        }
    }
}

/// A leaf's connection to its hub, if there is one, and what outlasts a connection.
pub struct HubConnection {
    alloc: Global,
    pub(crate) station: LeafStation,
    pub(crate) turn: HubTurn,
    pub(crate) hub: Option<Hub>,
    pub(crate) inbox: Inbox,
    /// When the leaf is to say hello.
    pub pumps: Pumps,
    // What the leaf may do, as its hub said last.
    pub(crate) may: LeafRights,
    // The second of this turn by the monotonic clock.
    pub(crate) steady: u64,
    // Whether a hub has told that its net is the heir of the leaf's.
    pub(crate) moves: bool,
}

// Written by hand, so that the drop is proved once, and not in each function that drops one.
impl Drop for HubConnection {
    fn drop(self) {
        let HubConnection {
            alloc: _,
            station: _,
            turn: _,
            hub: _,
            inbox: _,
            pumps: _,
            may: _,
            steady: _,
            moves: _,
        } = self;
    }
}

impl HubConnection {
    /// Creates the link of the leaf of `station`, which has this many `hubs` to try; 0 counts as 1. There is no
    /// connection yet, and an attempt to connect to the first of them is due at once.
    ///
    /// # Errors
    /// `NoMemory` if an allocation fails.
    pub fn new(alloc: Global, station: LeafStation, hubs: usize) -> Result<HubConnection, NoMemory>
        ensures first { IfOk result (λ leaf. leaf.turn.dialling.place ≡ 0) }
        ensures most { IfOk result (λ leaf. leaf.turn.dialling.waits.most ≡ longest_wait hubs) }
        ensures stays { IfOk result (λ leaf. leaf.moves ≡ false) }
    {
        Ok(HubConnection {
            alloc,
            station,
            turn: HubTurn::new(station.leaf, longest_wait(hubs), hubs),
            hub: None,
            inbox: Inbox::new(alloc, 1)?,
            pumps: Pumps::new(),
            may: LeafRights::Asks,
            steady: 0,
            moves: false,
        })
    }

    /// Begins a turn at second `steady` of the monotonic clock, by which the time limits are measured. Notes that the
    /// connection may have something to read if `tokens`, those of a wait, name it.
    pub fn wake(&mut self, tokens: &[usize], steady: u64)
        ensures steady { self.new.steady ≡ steady }
    {
        self.steady = steady;
        if tokens.contains(&TOKEN) {
            match &mut self.hub {
                Some(Hub::Meets(meeting)) => meeting.connection.wake(),
                Some(Hub::Linked(link)) => link.wire.connection.wake(),
                None => {}
            }
        }
    }

    /// Returns the place in the list of the hub that is tried next, or is connected.
    pub fn place(&self) -> usize
        ensures { result ≡ self.now.turn.dialling.place }
    {
        self.turn.dialling.place()
    }

    /// Begins to connect to the hub at `target`, which is to be the one at [`HubConnection::place`], if there is no
    /// connection, an attempt is due at second `now`, and the leaf is not to move. Returns whether a connection began.
    ///
    /// While the hub's name is looked up, no connection begins, and the attempt stays due: call this in each turn. `log`
    /// shows an attempt that begins or cannot begin; after the latter the next hub is due after a wait. `registry`
    /// watches the connection under the token 5 and the lookup under the token 7, which nothing else may use. `dice` roll
    /// the leaf's nonce for the connection.
    ///
    /// # Errors
    /// `NoMemory` if an allocation fails: never if there is a connection, if no attempt is due, or if the host is an
    /// address. The attempt stays due. A hub whose port has a plus is connected to through its tunnel alone
    /// ([`dial`](tunnels::dial)).
    pub fn connect<R: AllocGlobal + Net + Files<File = File> + RandomSource>(
        &mut self,
        rt: &R,
        dice: &mut Dice,
        log: &mut Log,
        registry: &Registry,
        target: Target<'_>,
        now: u64,
    ) -> Result<bool, NoMemory>
        requires moment { now < MOMENTS_END }
        ensures memory { IfErr result (λ _. LooksUp self.old (Some target.entry.address.now) now) }
        ensures stays { OnErr result (self.new.turn ≡ self.old.turn) }
        // An attempt that cannot begin leads to the next hub.
        ensures next { TriesNext self.old.turn.dialling self.new.turn.dialling }
        // The leaf says a nonce that the dice rolled for this connection.
        ensures nonces { Draws (nonces_at self.old.hub) (nonces_at self.new.hub) dice.old.rolled dice.new.rolled }
    {
        if self.hub.is_some() || self.moves || !self.turn.dialling.is_due(now) {
            return Ok(false);
        }
        self.dial(rt, dice, log, registry, target, now)
    }

    // Connects to the hub, which is due.
    fn dial<R: AllocGlobal + Net + Files<File = File> + RandomSource>(
        &mut self,
        rt: &R,
        dice: &mut Dice,
        log: &mut Log,
        registry: &Registry,
        target: Target<'_>,
        now: u64,
    ) -> Result<bool, NoMemory>
        requires moment { now < MOMENTS_END }
        ensures name { IfErr result (λ _. IsName target.entry.address.now.host) }
        ensures stays { OnErr result (self.new.turn ≡ self.old.turn) }
        ensures next { TriesNext self.old.turn.dialling self.new.turn.dialling }
        ensures nonces { Draws (nonces_at self.old.hub) (nonces_at self.new.hub) dice.old.rolled dice.new.rolled }
    {
        let time = TurnTime {
            now,
            steady: self.steady,
        };
        match dialled(&mut self.turn, rt, log, registry, target, time)? {
            Some(dialled) => Ok(self.begin(rt, dice, dialled, now)),
            None => Ok(false),
        }
    }

    // Begins a connection, unless the system gives no random bytes. Returns whether it began. Allocates nothing.
    fn begin<R: AllocGlobal + RandomSource>(
        &mut self,
        rt: &R,
        dice: &mut Dice,
        dialled: Dialled,
        now: u64,
    ) -> bool
        requires moment { now < MOMENTS_END }
        ensures next { TriesNext self.old.turn.dialling self.new.turn.dialling }
        ensures nonces { Draws (nonces_at self.old.hub) (nonces_at self.new.hub) dice.old.rolled dice.new.rolled }
    {
        let Ok(nonce) = dice.roll(rt) else {
            self.turn.lost(now);
            return false;
        };
        let side = self.station.side(nonce);
        self.hub = Some(Hub::Meets(Meeting::begin(rt.alloc(), dialled, side, self.steady)));
        true
    }

    /// Whether the process is to tell what it knows of its bot in this turn: the leaf is to answer the hub's greeting,
    /// has begun another journal, or a beat is due.
    pub fn wants_own(&self) -> bool {
        match &self.hub {
            Some(Hub::Meets(meeting)) => meeting.wants_own(),
            Some(Hub::Linked(link)) => link.wire.wants_beat(self.steady),
            None => false,
        }
    }

    /// The process tells what it knows of its bot.
    pub fn tell_own(&mut self, own: Own) {
        match &mut self.hub {
            Some(Hub::Meets(meeting)) => meeting.tell_own(&own),
            Some(Hub::Linked(link)) => link.say_if_due(Beat::of(&own), self.steady),
            None => {}
        }
    }

    /// Reads from the hub at second `now`. Returns whether there may be more at once.
    ///
    /// # Errors
    /// `NoMemory` if an allocation fails: never without a connection, nor once the hub has shown its code and the leaf has
    /// still to save something.
    pub fn read<R: AllocGlobal>(
        &mut self,
        rt: &R,
        log: &mut Log,
        now: u64,
    ) -> Result<bool, NoMemory>
        ensures memory { IfErr result (λ _. IsHeard self.old.hub) }
    {
        let steady = self.steady;
        match &mut self.hub {
            Some(Hub::Meets(meeting)) => {
                let came = meeting.meet(steady)?;
                self.link_if_ready(log, now);
                Ok(came)
            }
            Some(Hub::Linked(link)) => hear(rt.alloc(), link, &mut self.inbox, steady),
            None => Ok(false),
        }
    }

    /// Returns the number of the hub's net if the hub has just shown its code, and the leaf keeps no number yet. Save
    /// the number, and then call [`HubConnection::keep`].
    pub fn to_keep(&self) -> Option<DrawnNumber> {
        match self.station.net {
            Some(_) => None,
            None => self.found(),
        }
    }

    // The number of the hub's net, if the hub has just shown its code.
    fn found(&self) -> Option<DrawnNumber> {
        match &self.hub {
            Some(Hub::Meets(meeting)) => match meeting.joined {
                Some(joined) => Some(joined.answer.net),
                None => None,
            },
            Some(Hub::Linked(_)) | None => None,
        }
    }

    /// Notes that `net`, the number of the hub's net, is saved. The hub is linked at second `now`, unless the leaf has to
    /// begin another journal first.
    pub fn keep(&mut self, log: &mut Log, net: DrawnNumber, now: u64) {
        self.station.net = Some(net);
        self.link_if_ready(log, now);
    }

    /// Returns the number of the last request that the hub replied to, if the hub has just shown its code, and the leaf
    /// does not know that request.
    pub fn to_begin_after(&self) -> Option<u32> {
        match &self.hub {
            Some(Hub::Meets(meeting)) => meeting.to_begin_after(),
            Some(Hub::Linked(_)) | None => None,
        }
    }

    // Links the hub if it has shown its code, the leaf keeps the number of its net, and its journal is not to be begun
    // above another request.
    fn link_if_ready(&mut self, log: &mut Log, now: u64) {
        if self.station.net.is_none() || !is_over(&self.hub) {
            return;
        }
        if let Some(hub) = self.hub.take() {
            self.link(log, hub, now);
        }
    }

    // Links the hub, which has shown its code: the connection was a good one, and a hello is due.
    fn link(&mut self, log: &mut Log, hub: Hub, now: u64) {
        let time = TurnTime {
            now,
            steady: self.steady,
        };
        if let Some((link, may)) = hub.into_link(self.alloc, time) {
            log.note(now, &Entry::Linked(link.way));
            self.hub = Some(Hub::Linked(link));
            self.may = may;
            self.turn.good();
            self.pumps.go_on();
        }
    }

    /// Whether the leaf keeps no number of a net: it was never linked.
    pub fn is_new(&self) -> bool
        ensures { result ≡ is_new self.now }
    {
        self.station.net.is_none()
    }

    /// Whether the leaf may ask for changes: as its hub said last, and not if it is new. A new leaf's requests get no
    /// numbers before the hub has told it above which they begin. Otherwise the hub could take one for a request of an
    /// earlier folder, and answer it as it answered that one.
    pub fn may_ask(&self) -> bool
        ensures { result ≡ may_leaf_ask self.now }
    {
        match self.may {
            LeafRights::Asks | LeafRights::Persons => !self.is_new(),
            LeafRights::Reads => false,
        }
    }

    /// Whether the leaf may ask for changes in nobody's name too: as its hub said last, and not if it is new.
    pub fn may_ask_nameless(&self) -> bool
        ensures { result ≡ may_leaf_ask_nameless self.now }
    {
        match self.may {
            LeafRights::Asks => !self.is_new(),
            LeafRights::Reads | LeafRights::Persons => false,
        }
    }

    /// Whether the hub is linked.
    pub fn is_linked(&self) -> bool
        ensures { IsTrue result ↔ IsLinked self.now.hub }
    {
        match &self.hub {
            Some(Hub::Linked(_)) => true,
            Some(Hub::Meets(_)) | None => false,
        }
    }

    /// Returns the second at which the next attempt to connect is due.
    pub fn due(&self) -> u64
        ensures { result ≡ self.now.turn.dialling.waits.due }
    {
        self.turn.dialling.due()
    }

    /// Queues `packet` for the hub. If the hub is not linked, the packet is lost. A hello counts as said at second
    /// `now`.
    ///
    /// # Errors
    /// `NoMemory` if an allocation fails: never if the hub is not linked, nor if the packet has no frame.
    pub fn tell(&mut self, alloc: Global, packet: &Packet, now: u64) -> Result<(), NoMemory>
        requires good { HasGoodRecords packet.now }
        ensures memory { OnErr result (IsLinked self.old.hub) }
        ensures frame { OnErr result (CanBeWritten packet.now) }
        ensures told { OnOk result (TellsHub packet.now self.old.hub self.new.hub) }
    {
        if let Packet::Hello { version, .. } = packet {
            self.pumps.say(*version, now);
        }
        match &mut self.hub {
            Some(Hub::Linked(link)) => link.wire.tell(alloc, packet),
            Some(Hub::Meets(_)) | None => Ok(()),
        }
    }

    /// Seals what waits for the hub, and offers the connection its unsent bytes. Returns whether it took a byte.
    ///
    /// # Errors
    /// `NoMemory` if an allocation fails: never if the hub is not linked. Nothing is lost.
    pub fn send(&mut self) -> Result<bool, NoMemory> {
        match &mut self.hub {
            Some(Hub::Meets(meeting)) => Ok(meeting.connection.send()),
            Some(Hub::Linked(link)) => link.wire.send(&None, self.steady),
            None => Ok(false),
        }
    }

    /// Disconnects the hub at second `now`, if its connection is over or silent. Notes that the leaf is to move if the hub
    /// told so.
    pub fn let_go(&mut self, log: &mut Log, now: u64)
        requires moment { now < MOMENTS_END }
        ensures moves { self.new.moves ≡ (self.old.moves || is_told self.old.hub) }
        ensures next { TriesNext self.old.turn.dialling self.new.turn.dialling }
    {
        self.moves = self.moves || is_told(&self.hub);
        if let Some(Hub::Linked(link)) = &mut self.hub {
            link.wire.end_if_silent(self.steady);
        }
        if let Some(gone) = self.gone() {
            self.lose(log, gone, now);
        }
    }

    fn gone(&self) -> Option<Gone> {
        match &self.hub {
            Some(Hub::Meets(meeting)) => meeting.gone(),
            Some(Hub::Linked(link)) => link.wire.gone(),
            None => None,
        }
    }

    fn lose(&mut self, log: &mut Log, gone: Gone, now: u64)
        requires moment { now < MOMENTS_END }
        ensures moves { self.new.moves ≡ self.old.moves }
        ensures next { self.new.turn.dialling.place ≡ next_hub self.old.turn.dialling }
    {
        self.hub = None;
        self.inbox.forget(0);
        self.turn.lost(now);
        log.note(now, &Entry::HubGone(gone, self.due()));
    }
}

// The longest wait of a leaf that has this many hubs to try.
fn longest_wait(hubs: usize) -> u16
    ensures value { result ≡ longest_wait hubs }
    ensures enough { FIRST_WAIT ≤ result }
{
    if hubs > 1 {
        LONGEST_WAIT_IN_TURN
    } else {
        LONGEST_WAIT
    }
}

// Begins to connect to the hub at `target`, which is due. Returns the connection once the system makes one.
fn dialled<R: AllocGlobal + Net + Files<File = File> + RandomSource>(
    turn: &mut HubTurn,
    rt: &R,
    log: &mut Log,
    registry: &Registry,
    target: Target<'_>,
    time: TurnTime,
) -> Result<Option<Dialled>, NoMemory>
    requires moment { time.now < MOMENTS_END }
    ensures name { IfErr result (λ _. IsName target.entry.address.now.host) }
    ensures stays { OnErr result (turn.new ≡ turn.old) }
    ensures next { TriesNext turn.old.dialling turn.new.dialling }
    ensures found { IfOk result (λ found. IfSome found (λ _. turn.new ≡ turn.old)) }
{
    let host = target.address.host.as_bytes();
    let tokens = DialTokens {
        connection: TOKEN,
        lookup: LOOKUP,
    };
    match dial(
        &mut turn.dialling,
        rt,
        registry,
        tokens,
        target,
        time.steady,
    ) {
        Ok(Some(dialled)) => {
            log.note(time.now, &Entry::Dialled(host, dialled.way));
            Ok(Some(dialled))
        }
        Ok(None) => Ok(None),
        Err(Failure::Refused(fault)) => {
            turn.lost(time.now);
            note_not_dialled(log, target, fault, turn.dialling.due(), time.now);
            Ok(None)
        }
        Err(Failure::NoMemory) => Err(NoMemory),
    }
}

// Logs that no connection to the hub can begin: names its host, or the path of its tunnel.
fn note_not_dialled(log: &mut Log, target: Target<'_>, fault: DialFault, due: u64, now: u64) {
    let host = target.address.host.as_bytes();
    match tunnel_path(target.folder, target.address) {
        Some(path) if target.address.tls => {
            log.note(
                now,
                &Entry::NotDialled(path.as_str().as_bytes(), fault, due),
            );
        }
        Some(_) | None => log.note(now, &Entry::NotDialled(host, fault, due)),
    }
}

// Whether the hub that the leaf meets has told that it is the heir.
fn is_told(hub: &Option<Hub>) -> bool
    ensures { result ≡ is_told hub.now }
{
    match hub {
        Some(Hub::Meets(meeting)) => meeting.told,
        Some(Hub::Linked(_)) | None => false,
    }
}

// Whether the handshake is over: see `Meeting::is_over`.
fn is_over(hub: &Option<Hub>) -> bool {
    match hub {
        Some(Hub::Meets(meeting)) => meeting.is_over(),
        Some(Hub::Linked(_)) | None => false,
    }
}

// Reads from the hub, unless packets of it wait. Returns whether there may be more at once.
fn hear(
    alloc: Global,
    link: &mut HubLink,
    inbox: &mut Inbox,
    steady: u64,
) -> Result<bool, NoMemory> {
    if inbox.stream_count() == 0 || inbox.count(0) > 0 {
        link.wire.rest(steady);
        return Ok(false);
    }
    let packets = link.hear(alloc, steady)?;
    inbox.put(0, packets)?;
    Ok(link.is_busy())
}
