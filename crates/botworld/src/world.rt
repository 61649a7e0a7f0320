// The world.
ghost use Rattle.std.specs.Prelude.{◌≡◌, ◌+◌, ◌≤◌, ◌++◌, ◌↔◌, IsTrue, length, vec_len, vec_capacity};
ghost use Rattle.sharelink.specs.declared.TheConstants.{MAX_LEAVES};
ghost use Rattle.botworld.specs.Net.{is_packet, posted, report_of};
ghost use Rattle.botworld.specs.Network.{IsNumberedAt, AreNumbered};
ghost use Rattle.botworld.specs.declared.world.TheConstants.{MOST_SENT};
ghost use Rattle.botworld.specs.declared.outcome.Outcome.TheVariants.{Report as reported};

use crate::error::{RefusedWorld, WorldFault};
use crate::outcome::{Outcome, Transcript, WorldReport};
use crate::sent::Sent;
use crate::step::{Part, Step};
use botcore::{Bot, BotEvent, Report as BotReport};
use bytetext::{NoMemory, Seq, TryCopy};
use disks::Disk;
use procs::{Body, ProcStore, Promise, Run};
use sharelink::Outgoing;
use std::alloc::Global;
use std::marker::Model;
use userfile::Userfile;

/// The room that is reserved for the packets of a step: one to each of 1,000 leaves, and an answer.
const MOST_SENT: usize = 1001;

/// Bots over journals, the hub first; the procs that their binds call; and every packet ever sent.
pub struct World<P: Promise, D: Disk, B: Run = Body> {
    bots: Vec<Bot<D>>,
    packets: Vec<Sent>,
    store: ProcStore<P, B>,
}

// Written by hand, so that it is proved once and not in each crate that drops a world.
impl<P: Promise, D: Disk, B: Run> Drop for World<P, D, B> {
    fn drop(self) {
        let World {
            bots: _,
            packets: _,
            store: _,
        } = self;
    }
}

impl<P: Promise, D: Disk, B: Run> Model for World<P, D, B> {
    ghost use Rattle.botworld.specs.Net.{Net, AllGood};

    ghost Value = { Net };

    ghost view = { λ w. record { bots = w.bots.items; packets = w.packets.items; store = w.store } };

    // The records of each part that was ever sent are well-formed.
    ghost invariant = { λ w. AllGood w.packets.items };
}

impl<P: Promise, D: Disk, B: Run> World<P, D, B> {
    ghost use Rattle.std.specs.Prelude.{◌≡◌, ◌<◌, ◌≤◌, ◌⊎◌, ℕ, Some, nat_lt, true, length, take, IfOk, OnOk, OnErr};
    ghost use Rattle.std.specs.Prelude.{Ok, Err, IfErr, IfSome, IsOk, None, MatchResult, if◌then◌else◌};
    ghost use Rattle.std.specs.Option.{option_copied};
    ghost use Rattle.std.specs.Result.{result_err};
    ghost use Rattle.botworld.specs.declared.outcome.Outcome.TheVariants.{NoSuchBot};
    ghost use Rattle.botworld.specs.Net.{is_bot, packet_at, part_of, NetStep, TakesPartAt};
    ghost use Rattle.botworld.specs.Net.{shown_version, shown_records};
    ghost use Rattle.protocol.specs.History.{records_of};
    ghost use Rattle.protocol.specs.Rights.{EachIsAllowed, OnlyOwnersChangeRanks, NobodyClimbs, NobodyBecomesOwner};
    ghost use Rattle.botcore.specs.Steps.{IsGoodEvent};
    ghost use Rattle.botworld.specs.Network.{AllNew, AreNumbered, start, accepted_by, IsTruePacket, KeepsPromises, NeverBack};
    ghost use Rattle.botworld.specs.Standing.{Past, beginning, Stands, LeadsTo, SameRecords, SameAlways};
    ghost use Rattle.botworld.specs.Standing.{NeverBackAlways, AreAtVersion, AlwaysAtVersion, SameCalls, SameCallsIgnoringChannels};
    ghost use Rattle.botworld.specs.Calling.{IgnoresChannels};

    /// Creates a world of these `bots`, each as [`Bot::create`] left it, with the procs of `store`. Does not allocate.
    ///
    /// # Errors
    /// `BadWorld` (O1) if the bots aren't numbered 0 to N in order, one has a number of leaves other than N, or there
    /// is none. The error returns the bots, with their disks, and the store.
    pub fn new(
        alloc: Global,
        bots: Vec<Bot<D>>,
        store: ProcStore<P, B>,
    ) -> Result<World<P, D, B>, RefusedWorld<P, D, B>>
        requires as_made { AllNew bots.items }
        ensures made { IfOk result (λ w. w ≡ (start bots.items store).net) }
        ensures stands { IfOk result (λ w. Stands P.promised w (beginning (start bots.items store))) }
        ensures numbered { OnOk result (AreNumbered bots.items) }
        ensures bad_world { OnErr result (¬ AreNumbered bots.items) }
        ensures handed_back { IfErr result (λ refused. (refused.bots ≡ bots) × (refused.store ≡ store)) }
    {
        if !are_numbered(bots.as_slice()) {
            return Err(RefusedWorld {
                why: WorldFault::BadWorld,
                bots,
                store,
            });
        }
        Ok(World {
            bots,
            packets: Vec::new(alloc),
            store,
        })
    }

    /// Returns the version of `bot`, also while it is down; none if no bot has this number. Does not allocate.
    pub fn version(&self, bot: u16) -> Option<u32>
        ensures { result ≡ shown_version self.now bot }
    {
        let bot = self.bots.get(bot as usize)?;
        Some(bot.version())
    }

    /// Returns the userfile of `bot` at its version; none if no bot has this number. Does not allocate.
    pub fn userfile(&self, bot: u16) -> Option<&Userfile>
        ensures shown { option_copied result ≡ shown_records self.now bot }
        ensures at_version { (past : Past) → Stands P.promised self.now past → (v : ℕ)
            → shown_version self.now bot ≡ Some v → option_copied result ≡ Some (records_of (accepted_by past.now) v) }
    {
        self.shown(bot)
    }

    /// Returns the packet with this `number`, from 1 in the order of sending; none if there is none. Does not
    /// allocate.
    pub fn packet(&self, number: u64) -> Option<&Sent>
        ensures lent { option_copied result ≡ packet_at self.now.packets number }
        // A change is the accepted change of its number, a part is one of the records at its version, a request is
        // what its leaf asked under that number, and an answer is the hub's to that request.
        ensures true_packet { (past : Past) → Stands P.promised self.now past
            → IfSome (option_copied result) (λ sent. IsTruePacket past.now sent) }
    {
        self.lent(number)
    }

    /// Makes `steps` in order, and returns the outcome of each. If the allocation for the next step fails, that step
    /// is not made, the run is `cut` there, and the steps before it are kept. Room for all outcomes is reserved before
    /// the first step; a step in which no bot takes part allocates nothing more.
    pub fn run(&mut self, alloc: Global, steps: &[Step]) -> Transcript
        // The steps and outcomes are a run of the network, and continue any past that the world had.
        ensures leads { (past : Past) → Stands P.promised self.old past
            → LeadsTo P.promised past (take (length result.outcomes) steps.now) result.outcomes self.new }
        // The run is cut if and only if there are fewer outcomes than steps; there are never more.
        ensures whole { result.cut ≡ nat_lt (length result.outcomes) (length steps.now) }
        ensures at_most { length result.outcomes ≤ length steps.now }
        // The cut comes before the first step, or at a step in which a bot takes part.
        ensures cut_at { result.cut ≡ true
            → (length result.outcomes ≡ 0) ⊎ TakesPartAt self.new steps.now (length result.outcomes) }
        // Two bots with the same version, one before the run and the other after it, hold the same records.
        ensures same_records { (past : Past) → Stands P.promised self.old past → SameRecords self.old self.new }
        // So do two bots with the same version after the run.
        ensures same_now { (past : Past) → Stands P.promised self.old past → SameRecords self.new self.new }
        // So did any two, before the first step or after any two steps so far.
        ensures same_always { (past : Past) → Stands P.promised self.new past → SameAlways past }
        // The records of a bot are those of its version: the version says how many of the accepted changes, from the
        // first on, make them.
        ensures at_version { (past : Past) → Stands P.promised self.new past → AreAtVersion past self.new }
        // So they were before the first step and after each step so far.
        ensures always_at_version { (past : Past) → Stands P.promised self.new past → AlwaysAtVersion past }
        // No version goes back, even when a bot restarts.
        ensures never_back { (past : Past) → Stands P.promised self.old past → NeverBack self.old self.new }
        // No version went back between any two steps so far.
        ensures never_back_always { (past : Past) → Stands P.promised self.new past → NeverBackAlways past }
        // All promises of the links about what happened so far hold: a leaf's request is accepted at most once, with
        // the change that the leaf asked for, and is reported under its number and never as refused. Each change that
        // was ever sent is the accepted change of its number, and each part is one of the records at its version.
        ensures promises { (past : Past) → Stands P.promised self.new past → KeepsPromises past.now }
        // Each change that a person asked for was that person's right, by the records just before it. A change for which
        // somebody asked who was no owner just before it left the owners and masters as they were.
        ensures allowed { (past : Past) → Stands P.promised self.new past → EachIsAllowed (accepted_by past.now) }
        ensures ranks { (past : Past) → Stands P.promised self.new past → OnlyOwnersChangeRanks (accepted_by past.now) }
        // Nobody climbs: from any version to any later one the owners and masters are the same, with their hostmasks and
        // flags, if only persons asked whom no owner's hostmask matched at the first. Nor is one of them an owner then.
        ensures nobody_climbs { (past : Past) → Stands P.promised self.new past → NobodyClimbs (accepted_by past.now) }
        ensures nobody_becomes_owner { (past : Past) → Stands P.promised self.new past
            → NobodyBecomesOwner (accepted_by past.now) }
        // At any two steps so far, whether of lines, texts of other bots or readings of the clock, bots equal in
        // version, binds, `exclusive` and channels called the same procs in the same order for the same events.
        ensures same_calls { (past : Past) → Stands P.promised self.new past → SameCalls past.history }
        // If the promised codes ignore the channels, these need not be equal.
        ensures same_calls_ignoring_channels { IgnoresChannels P.promised → (past : Past) → Stands P.promised self.new past
            → SameCallsIgnoringChannels past.history }
    {
        self.run_all(alloc, steps)
    }

    // As `userfile`, for the net alone.
    fn shown(&self, bot: u16) -> Option<&Userfile>
        ensures { option_copied result ≡ shown_records self.now bot }
    {
        let bot = self.bots.get(bot as usize)?;
        Some(bot.userfile())
    }

    // As `packet`, for the net alone.
    fn lent(&self, number: u64) -> Option<&Sent>
        ensures { option_copied result ≡ packet_at self.now.packets number }
    {
        if number == 0 {
            return None;
        }
        self.packets.get((number - 1) as usize)
    }

    // As `run`: the steps and outcomes are a run of the network.
    fn run_all(&mut self, alloc: Global, steps: &[Step]) -> Transcript
        ensures leads { (past : Past) → Stands P.promised self.old past
            → LeadsTo P.promised past (take (length result.outcomes) steps.now) result.outcomes self.new }
        ensures whole { result.cut ≡ nat_lt (length result.outcomes) (length steps.now) }
        ensures at_most { length result.outcomes ≤ length steps.now }
        ensures cut_at { result.cut ≡ true
            → (length result.outcomes ≡ 0) ⊎ TakesPartAt self.new steps.now (length result.outcomes) }
    {
        let Ok(mut outcomes) = Vec::with_capacity(alloc, steps.len()) else {
            return Transcript {
                outcomes: Seq::empty(alloc),
                cut: true,
            };
        };
        for step in steps {
            match self.make(alloc, step) {
                Ok(outcome) => outcomes.push(outcome).unwrap(),
                Err(NoMemory) => {
                    return Transcript {
                        outcomes: Seq::new(outcomes),
                        cut: true,
                    };
                }
            }
        }
        Transcript {
            outcomes: Seq::new(outcomes),
            cut: false,
        }
    }

    // Makes a step, or nothing if its allocation fails. A step in which no bot takes part does not allocate.
    fn make(&mut self, alloc: Global, step: &Step) -> Result<Outcome, NoMemory>
        ensures { MatchResult result (λ o. NetStep P.promised self.old step.now o self.new)
            (λ _. IsOk (part_of self.old step.now) × (self.new ≡ self.old)) }
    {
        match self.missing(step) {
            Some(outcome) => Ok(outcome),
            None => self.take_part(alloc, step),
        }
    }

    // Returns the outcome of a step in which no bot takes part; none if one does.
    fn missing(&self, step: &Step) -> Option<Outcome>
        ensures { result ≡ result_err (part_of self.now step.now) }
    {
        match step {
            Step::At { bot, event } => {
                if self.has_bot(*bot) && is_packet(event) {
                    return Some(Outcome::NoSuchPacket);
                }
                self.missing_bot(*bot)
            }
            Step::Deliver { packet } => match self.lent(*packet) {
                Some(sent) => self.missing_bot(sent.to),
                None => Some(Outcome::NoSuchPacket),
            },
        }
    }

    // Returns the outcome of a step at a bot that does not exist.
    fn missing_bot(&self, bot: u16) -> Option<Outcome>
        ensures { result ≡ (if is_bot self.now bot then None else Some NoSuchBot) }
    {
        if self.has_bot(bot) {
            None
        } else {
            Some(Outcome::NoSuchBot)
        }
    }

    fn has_bot(&self, bot: u16) -> bool
        ensures { result ≡ is_bot self.now bot }
    {
        (bot as usize) < self.bots.len()
    }

    // Makes a bot's part in a step, or nothing if its allocation fails.
    fn take_part(&mut self, alloc: Global, step: &Step) -> Result<Outcome, NoMemory>
        requires { IsOk (part_of self.old step.now) }
        ensures { MatchResult result (λ o. NetStep P.promised self.old step.now o self.new)
            (λ _. self.new ≡ self.old) }
    {
        let Part { bot, event } = self.part(alloc, step)?;
        self.packets.reserve(MOST_SENT)?;
        let report = self.bots[bot as usize].step(alloc, &self.store, event);
        Ok(post(&mut self.packets, bot, report))
    }

    // Returns the bot that takes part in a step and its event; the records of a packet are well-formed.
    fn part(&self, alloc: Global, step: &Step) -> Result<Part, NoMemory>
        requires { IsOk (part_of self.now step.now) }
        ensures part { IfOk result (λ part. part_of self.now step.now ≡ Ok part) }
        ensures good { IfOk result (λ part. IsGoodEvent part.event) }
    {
        match step {
            Step::At { bot, event } => Ok(Part {
                bot: *bot,
                event: event.copy(alloc)?,
            }),
            Step::Deliver { packet } => {
                let sent = &self.packets[(*packet - 1) as usize];
                Ok(Part {
                    bot: sent.to,
                    event: BotEvent::Receive(sent.packet.copy(alloc)?),
                })
            }
        }
    }
}

// Whether the bots are a hub and its leaves, in order.
fn are_numbered<D: Disk>(bots: &[Bot<D>]) -> bool
    ensures { IsTrue result ↔ AreNumbered bots.now }
{
    for place in 0..bots.len() {
        if !is_numbered_at(bots.len(), place, &bots[place]) {
            return false;
        }
    }
    !bots.is_empty()
}

// Whether a bot has the number of its place, and as many leaves as there are bots after the hub.
fn is_numbered_at<D: Disk>(bots: usize, place: usize, bot: &Bot<D>) -> bool
    ensures { IsTrue result ↔ IsNumberedAt bots place bot.now }
{
    let config = bot.config();
    config.number as usize == place && config.leaves as usize + 1 == bots
}

fn is_packet(event: &BotEvent) -> bool
    ensures { result ≡ is_packet event.now }
{
    match event {
        BotEvent::Receive(_) => true,
        BotEvent::Connect
        | BotEvent::Line(_)
        | BotEvent::Ask(_)
        | BotEvent::Pump
        | BotEvent::Clock(_)
        | BotEvent::Bind(_)
        | BotEvent::Unbind(_)
        | BotEvent::Compact
        | BotEvent::Restart => false,
    }
}

// Adds the packets of a report to the network, in the reserved room, and returns the report as an outcome.
fn post(packets: &mut Vec<Sent>, bot: u16, report: BotReport) -> Outcome
    requires room { vec_len packets.old + MOST_SENT ≤ vec_capacity packets.old }
    requires few { length report.packets ≤ MAX_LEAVES + 1 }
    ensures told { result ≡ reported (report_of bot (length packets.old.items + 1) report) }
    ensures sent { packets.new.items ≡ packets.old.items ++ posted bot report.packets }
{
    let first = packets.len() as u64 + 1;
    let (end, logged) = (report.end, report.logged);
    let (note, calls, outgoing, lines, faults) = report.into_parts();
    let count = outgoing.len();
    send_all(packets, bot, outgoing.into_vec());
    Outcome::Report(WorldReport {
        bot,
        end,
        note,
        calls,
        first,
        count,
        lines,
        faults,
        logged,
    })
}

// Adds packets to the network, in the reserved room.
fn send_all(packets: &mut Vec<Sent>, bot: u16, outgoing: Vec<Outgoing>)
    requires { vec_len packets.old + length outgoing.items ≤ vec_capacity packets.old }
    ensures { packets.new.items ≡ packets.old.items ++ posted bot outgoing.items }
{
    for one in outgoing {
        packets.push(sent_by(bot, one)).unwrap();
    }
}

// Creates a packet with its sender.
fn sent_by(from: u16, outgoing: Outgoing) -> Sent
    ensures { result ≡ record { from = from; to = outgoing.to; packet = outgoing.packet } }
{
    let Outgoing { to, packet } = outgoing;
    Sent { from, to, packet }
}
