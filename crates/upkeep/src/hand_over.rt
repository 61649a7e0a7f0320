// A hub that hands its net over to one of its leaves.
ghost use Rattle.std.specs.Prelude.{◌≡◌, ◌≤◌, ◌↔◌, nat_le, true, false, None, Some, IfOk, MatchResult};
ghost use Rattle.std.specs.List.{AllByRecursion};
ghost use Rattle.sharelink.specs.Shapes.{HasGoodRecords};
ghost use Rattle.peers.specs.Doubts.{is_in_doubt};
ghost use Rattle.peers.specs.HandOver.{has_all};
ghost use Rattle.peers.specs.LinkedLeaves.{is_linked_leaf};
ghost use Rattle.peers.specs.Picking.{is_request};
ghost use Rattle.peers.specs.Tells.{granted};
ghost use Rattle.upkeep.specs.HandOvers.{refusal_of, state_at};
ghost use Rattle.upkeep.specs.Stations.{is_hub};
ghost use Rattle.upkeep.specs.declared.hand_over.HandOverState.TheVariants.{HandedOver, TooLate};

use crate::ending::RunError;
use crate::keeping::{NO_HUB, is_hub, no_such_leaf};
use crate::uplink_deeds::die;
use administrators::{Admins, Asks, tell_unanswered};
use bytetext::{NoMemory, Text};
use net::Log;
use peers::Links;
use serverlink::{IrcConnection, put};
use settings::Settings;
use sharewire::Packet;
use std::alloc::Global;
use std::fmt;
use std::fmt::Display;

/// A hub waits at most this many seconds for the leaf that is to take its place: less than an admin waits for an answer.
pub const HAND_OVER_SECONDS: u64 = 50;

// The answer to an admin who hands a hub over that may be an older copy of itself.
const IN_DOUBT: &[u8] =
    b"refused in doubt: this hub may be an older copy, so give it its newest journal back, or say trust-this-copy first\n";

// What those are told whose changes a hub that was handed over has not accepted.
const GONE: &[u8] = b"refused: the hub was handed over, so ask again at the heir";

/// A hub that is being handed over: until a leaf has shown that it has all changes, the hub takes no other.
#[derive(Clone, Copy, Debug, PartialEq, Eq)]
pub struct HandOver {
    /// The number of the leaf that is to take the hub's place.
    pub leaf: u16,
    /// The number of the admin who asked, and gets the answer.
    pub asker: u64,
    /// The second at which the hub gives up, from 1970-01-01 UTC.
    pub until: u64,
}

/// How a hand-over stands.
#[derive(Clone, Copy, Debug, PartialEq, Eq)]
pub enum HandOverState {
    /// The leaf has still to show that it has all changes.
    Waits,
    /// The leaf has all changes that the hub has accepted.
    HandedOver,
    /// The time is up.
    TooLate,
}

/// Why a hub is not handed over.
#[derive(Clone, Copy, Debug, PartialEq, Eq)]
pub enum NoHandOver {
    /// This bot is no hub with leaves.
    NoHub,
    /// The net has no such leaf.
    NoLeaf,
    /// The hub may be an older copy of itself.
    InDoubt,
    /// The leaf is not linked.
    NotLinked,
}

impl HandOver {
    /// Begins to hand the hub over to `leaf`, from 1, as the admin numbered `asker` asks at second `now`.
    ///
    /// # Errors
    /// `NoHub`, `NoLeaf`, `InDoubt` and `NotLinked`, in this order.
    pub fn begin(
        links: &Links,
        settings: &Settings,
        leaf: u16,
        asker: u64,
        now: u64,
    ) -> Result<HandOver, NoHandOver>
        ensures hub { IfOk result (λ _. is_hub settings.now.station ≡ true) }
        ensures leaf { IfOk result (λ handing. (handing.leaf ≡ leaf) × (leaf ≤ settings.now.station.leaves)) }
        ensures sure { IfOk result (λ _. is_in_doubt links.now ≡ false) }
        ensures linked { IfOk result (λ _. is_linked_leaf leaf links.now ≡ true) }
        ensures refusal { MatchResult result
            (λ _. refusal_of (is_hub settings.now.station) (nat_le leaf settings.now.station.leaves) (is_in_doubt links.now) (is_linked_leaf leaf links.now) ≡ None)
            (λ why. refusal_of (is_hub settings.now.station) (nat_le leaf settings.now.station.leaves) (is_in_doubt links.now) (is_linked_leaf leaf links.now) ≡ Some why) }
    {
        if !is_hub(settings.station) {
            return Err(NoHandOver::NoHub);
        }
        if leaf > settings.station.leaves {
            return Err(NoHandOver::NoLeaf);
        }
        if links.doubt().is_some() {
            return Err(NoHandOver::InDoubt);
        }
        if !links.is_linked_leaf(leaf) {
            return Err(NoHandOver::NotLinked);
        }
        Ok(HandOver {
            leaf,
            asker,
            until: now.saturating_add(HAND_OVER_SECONDS),
        })
    }

    /// Returns how it stands at second `now`, at a hub that has accepted `version` changes.
    pub fn state(&self, links: &Links, version: u32, now: u64) -> HandOverState
        // The leaf has shown the hub's own version over its link: no accepted change is missing there.
        ensures handed { (result ≡ HandedOver) ↔ (has_all self.now.leaf version links.now ≡ true) }
        ensures late { result ≡ TooLate → self.now.until ≤ now }
        ensures state { result ≡ state_at (has_all self.now.leaf version links.now) self.now.until now }
    {
        if links.has_all(self.leaf, version) {
            HandOverState::HandedOver
        } else if now >= self.until {
            HandOverState::TooLate
        } else {
            HandOverState::Waits
        }
    }
}

/// Returns the packets that a turn takes of those that came. While the hub is being handed over, as `hands_over` says, it
/// takes no request: the leaves ask again.
pub fn taken_requests(packets: Vec<Packet>, hands_over: bool) -> Vec<Packet>
    requires good { AllByRecursion HasGoodRecords packets.items }
    ensures good { AllByRecursion HasGoodRecords result.items }
    ensures packets { result.items ≡ granted hands_over packets.items }
{
    let mut packets = packets;
    if hands_over {
        packets.retain(|packet| !is_request(packet));
    }
    packets
}

// Whether a packet asks for a change.
fn is_request(packet: &Packet) -> bool
    ensures { result ≡ is_request packet.now }
{
    match packet {
        Packet::Request { .. } => true,
        Packet::Hello { .. }
        | Packet::Change { .. }
        | Packet::Part { .. }
        | Packet::Accepted { .. }
        | Packet::Refused { .. }
        | Packet::BotText { .. } => false,
    }
}

/// Returns the answer to an admin whose hand-over to `leaf` is refused.
///
/// # Errors
/// `NoMemory` if an allocation fails.
pub fn no_hand_over_answer(
    alloc: Global,
    why: NoHandOver,
    leaf: u16,
    settings: &Settings,
) -> Result<Vec<u8>, NoMemory> {
    match why {
        NoHandOver::NoHub => Ok(Vec::from_slice(alloc, NO_HUB)?),
        NoHandOver::NoLeaf => no_such_leaf(alloc, settings.station.leaves),
        NoHandOver::InDoubt => Ok(Vec::from_slice(alloc, IN_DOUBT)?),
        NoHandOver::NotLinked => {
            let line = format!(in alloc;
                "refused leaf {leaf} is not linked: see what status says, or name another leaf\n"
            )?;
            Ok(line.into_bytes())
        }
    }
}

/// Returns the answer to the admin who asked for a hand-over, once `leaf` has all `version` changes.
///
/// # Errors
/// `NoMemory` if an allocation fails.
pub fn handed_over_answer(alloc: Global, leaf: u16, version: u32) -> Result<Vec<u8>, NoMemory> {
    let line = format!(in alloc;
        "leaf {leaf} has all {version} changes: run eggnet promote on its folder\n"
    )?;
    Ok(line.into_bytes())
}

/// Has the process of a hub end that was handed over: tells whoever waits for a change of this bot's procs that it was not
/// accepted, and does what [`die`] does.
///
/// # Errors
/// `NoMemory` if an allocation fails.
pub fn end_handed_over<R: AllocGlobal>(
    rt: &R,
    log: &mut Log,
    asks: &mut Asks,
    admins: &mut Admins,
    uplink: &mut IrcConnection,
    until: &mut Option<u64>,
    settings: &Settings,
    now: u64,
) -> Result<(), RunError> {
    tell_unanswered(rt.alloc(), asks, admins, uplink, GONE)?;
    let text = Text::from_slice(rt.alloc(), b"handed over")?;
    let _answer = die(rt, log, uplink, until, settings, &text, now)?;
    Ok(())
}

/// Returns the answer to the admin who asked for a hand-over that is given up.
///
/// # Errors
/// `NoMemory` if an allocation fails.
pub fn not_handed_over_answer(alloc: Global, entry: &HandOverEntry) -> Result<Vec<u8>, NoMemory> {
    let line = format!(in alloc; "refused {entry}\n")?;
    Ok(line.into_bytes())
}

/// What the log says of a hand-over.
#[derive(Clone, Copy, Debug, PartialEq, Eq)]
pub enum HandOverEntry {
    /// The hub is being handed over to this leaf.
    Begins(u16),
    /// This leaf has all changes, as many as this.
    Done(u16, u32),
    /// This leaf has not shown in time that it has all changes, as many as this.
    TooLate(u16, u32),
    /// An admin has asked for another hand-over, and not to this leaf.
    Replaced(u16),
}

impl Display for HandOverEntry {
    fn fmt<W: fmt::Write>(&self, f: &mut fmt::Formatter<W>) -> fmt::Result {
        match *self {
            HandOverEntry::Begins(leaf) => {
                put(f, "being handed over to leaf ", &leaf)?;
                f.write_str(": no change is taken")
            }
            HandOverEntry::Done(leaf, version) => {
                put(f, "handed over: leaf ", &leaf)?;
                put(f, " has all ", &version)?;
                f.write_str(" changes")
            }
            HandOverEntry::TooLate(leaf, version) => {
                put(f, "not handed over: leaf ", &leaf)?;
                put(f, " has not shown all ", &version)?;
                put(f, " changes within ", &HAND_OVER_SECONDS)?;
                f.write_str(
                    " seconds, so changes are taken again: see what its log says, and try again",
                )
            }
            HandOverEntry::Replaced(leaf) => {
                put(f, "not handed over to leaf ", &leaf)?;
                f.write_str(": another hand-over was asked for")
            }
        }
    }
}
