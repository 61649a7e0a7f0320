// A connection to the hub that has not been welcomed.
ghost use Rattle.std.specs.Prelude.{◌≡◌, ◌≤◌};
ghost use Rattle.peers.specs.declared.link_wire.TheConstants.{MAX_SEALED};
ghost use Rattle.peers.specs.Shown.{HasShown};

use crate::frame_reader::FrameReader;
use crate::gone::Gone;
use crate::guest_stage::{Asked, GuestStage};
use crate::home::{Home, home_of};
use crate::link_wire::{BOUNDS, LinkWire, WireKeys};
use crate::seat::Seat;
use crate::verdict::{Verdict, verdict_at};
use crate::welcome::Welcome;
use bytetext::NoMemory;
use handshake::{
    Book, HandshakeFault, HandshakeRefusal, HeldParts, HubHears, HubSide, Own, is_late,
};
use net::{AnyArrival, AnySocket, Connection, Way};
use std::alloc::Global;

// A connection that has not been welcomed.
pub(crate) struct Guest {
    pub(crate) connection: Connection<AnySocket>,
    pub(crate) side: HubSide,
    pub(crate) stage: GuestStage,
    // The second of the monotonic clock at which it arrived.
    pub(crate) began: u64,
    // Which of the hub's tokens names it.
    pub(crate) slot: usize,
    pub(crate) way: Way,
    pub(crate) home: Home,
    // How many guests are of its home, with itself.
    pub(crate) crowd: usize,
    // A guest that asks has shown its code on this connection.
    pub(crate) ghost shown: { ∥ HasShown side connection.heard.items stage ∥₁ },
    // There is room for all that will be sealed.
    pub(crate) ghost wide: { MAX_SEALED ≤ connection.bounds.unsent },
}

// Written by hand, so that the drop is proved once, and not in each function that drops one.
impl Drop for Guest {
    fn drop(self) {
        let Guest {
            connection: _,
            side: _,
            stage: _,
            began: _,
            slot: _,
            way: _,
            home: _,
            crowd: _,
        } = self;
    }
}

// The result of reading from a guest.
#[derive(Clone, Copy)]
pub(crate) enum Heeded {
    // The guest has to send more. Whether a byte arrived.
    Waits(bool),
    // The guest has shown its code.
    Asks,
    // The guest is to be disconnected.
    Goes(Gone),
}

impl Guest {
    ghost use Rattle.std.specs.Prelude.{◌≡◌, IfOk};
    ghost use Rattle.peers.specs.Joining.{IsInTime, IsOfBook, Takes, asked_of, verdict_of};
    ghost use Rattle.peers.specs.declared.verdict.Verdict.TheVariants.{Joins};
    ghost use Rattle.peers.specs.declared.guest_stage.GuestStage.TheVariants.{Meets};

    // Greets a connection that arrived at second `steady` of the monotonic clock, and has the token of `slot`.
    pub(crate) fn greet(
        alloc: Global,
        arrival: AnyArrival,
        side: HubSide,
        slot: usize,
        steady: u64,
    ) -> Result<Guest, NoMemory>
        ensures { IfOk result (λ guest. guest.side ≡ side) }
    {
        let AnyArrival { socket, way } = arrival;
        let mut connection = Connection::new(alloc, socket, BOUNDS);
        let _fits = connection.tell(side.greeting().as_bytes(), b"")?;
        Ok(Guest {
            connection,
            side,
            stage: GuestStage::Meets,
            began: steady,
            slot,
            way,
            home: home_of(&way),
            crowd: 0,
        })
    }

    // Reads from the guest when the monotonic clock shows second `steady`.
    pub(crate) fn heed(&mut self, steady: u64) -> Result<Heeded, NoMemory>
        ensures in_time { IfOk result (IsInTime self.old.began steady) }
        ensures side { self.new.side ≡ self.old.side }
        ensures home { self.new.home ≡ self.old.home }
        ensures crowd { self.new.crowd ≡ self.old.crowd }
    {
        match self.stage {
            GuestStage::Meets => self.meet(steady),
            GuestStage::Asks(_) | GuestStage::Enters(_) => Ok(self.wait(false, steady)),
        }
    }

    // Reads from a guest that has not shown a code.
    fn meet(&mut self, steady: u64) -> Result<Heeded, NoMemory>
        requires meets { self.old.stage ≡ Meets }
        ensures in_time { IfOk result (IsInTime self.old.began steady) }
        ensures side { self.new.side ≡ self.old.side }
        ensures home { self.new.home ≡ self.old.home }
        ensures crowd { self.new.crowd ≡ self.old.crowd }
    {
        let came = self.connection.read(1)?;
        match self.side.hear(self.connection.heard.as_slice()) {
            HubHears::More => Ok(self.wait(came, steady)),
            HubHears::Asks { used, ask } => {
                self.stage = GuestStage::Asks(Asked { used, ask });
                Ok(Heeded::Asks)
            }
            HubHears::Refused(fault) => Ok(Heeded::Goes(Gone::Handshake(fault))),
        }
    }

    // The guest has not sent a whole line yet, or waits to be welcomed.
    fn wait(&self, came: bool, steady: u64) -> Heeded
        ensures { IsInTime self.now.began steady result }
    {
        if self.connection.is_over {
            Heeded::Goes(self.left())
        } else if is_late(self.began, steady) {
            Heeded::Goes(Gone::Handshake(HandshakeFault::TooLate))
        } else {
            Heeded::Waits(came)
        }
    }

    // Why a connection that is over ended.
    fn left(&self) -> Gone {
        if self.connection.heard.is_empty() {
            Gone::Left
        } else {
            Gone::Ended
        }
    }

    // What a guest that has shown its code asks.
    pub(crate) fn asked(&self) -> Option<Asked>
        ensures { result ≡ asked_of self.now.stage }
    {
        match self.stage {
            GuestStage::Meets => None,
            GuestStage::Asks(asked) | GuestStage::Enters(asked) => Some(asked),
        }
    }

    // Whether the guest is being entered in the book as this leaf.
    pub(crate) fn is_entering(&self, leaf: u16) -> bool {
        match self.stage {
            GuestStage::Enters(asked) => asked.ask.words.leaf == leaf,
            GuestStage::Meets | GuestStage::Asks(_) => false,
        }
    }

    // Has a guest that has shown its code entered in the book.
    pub(crate) fn let_enter(&mut self) {
        if let GuestStage::Asks(asked) = self.stage {
            self.stage = GuestStage::Enters(asked);
        }
    }

    // What is to be done with the guest, by the hub's book and what is known of the hub.
    #[tactic(auto, using(crate::proofs::JoiningLemmas::joins_in_book))]
    pub(crate) fn verdict(&self, book: &Book, own: &Own) -> Verdict
        ensures verdict { result ≡ verdict_of self.now.side book.now own.now self.now.stage }
        // Only a guest whose folder is in the book joins.
        ensures in_book { result ≡ Joins → IsOfBook book.now self.now.stage }
    {
        let Some(asked) = self.asked() else {
            return Verdict::Waits;
        };
        let words = &asked.ask.words;
        let place = book.place(words.leaf, &words.made);
        match self
            .side
            .judge(&asked.ask, place, &own.progress_for(words.leaf))
        {
            Some(refusal) => Verdict::Refuses(refusal),
            None => verdict_at(place),
        }
    }

    // Tells a guest that has shown its code why it is refused, and offers the socket the line.
    pub(crate) fn refuse(&mut self, refusal: HandshakeRefusal) -> Result<(), NoMemory> {
        if let Some(asked) = self.asked() {
            let line = self.side.refuse(&asked.ask, refusal);
            let _fits = self.connection.tell(line.as_bytes(), b"")?;
            let _sent = self.connection.send();
        }
        Ok(())
    }

    // Queues the line that welcomes a guest which has shown its code, and makes its connection a seat. Returns `None` if
    // the guest has shown none.
    pub(crate) fn into_seat(
        self,
        alloc: Global,
        welcome: &Welcome,
    ) -> Result<Option<Seat>, NoMemory>
        // Only a leaf that has shown its code on this connection takes its seat.
        ensures takes { IfOk result (Takes self welcome.now) }
    {
        let Some(asked) = self.asked() else {
            return Ok(None);
        };
        let Guest {
            mut connection,
            side,
            stage: _,
            began: _,
            slot,
            way,
            home: _,
            crowd: _,
        } = self;
        let line = side.welcome(&asked.ask, &welcome.own, welcome.may);
        let _fits = connection.tell(line.as_bytes(), b"")?;
        connection.take_front(asked.used);
        let keys = WireKeys::of_hub(&side.keys(&asked.ask, &welcome.own, welcome.may));
        Ok(Some(Seat {
            wire: LinkWire::new(alloc, connection, &keys, welcome.steady),
            reader: FrameReader::new(alloc),
            leaf: asked.ask.words.leaf,
            made: asked.ask.words.made,
            may: welcome.may,
            layout: None,
            version: asked.ask.words.progress.version,
            held: HeldParts::nothing(),
            beat: None,
            slot,
            way,
            since: welcome.since,
        }))
    }
}
