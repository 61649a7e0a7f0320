// How a bot is made, and opened from its disks.
ghost use Rattle.std.specs.Prelude.{◌≡◌, IfOk, IfErr};
ghost use Rattle.botcore.specs.Configs.{IsGood};
ghost use Rattle.botcore.specs.Making.{IsWhyNot};
ghost use Rattle.botcore.specs.Presence.{absent};
ghost use Rattle.botcore.specs.ServerLines.{silent};

use crate::bot::Bot;
use crate::config::Config;
use crate::fault::{BotError, of_journal};
use crate::presence::Presence;
use crate::server_lines::ServerLines;
use bottimers::{Clock, Timers};
use bytejournal::Disks;
use bytetext::{Failure, NoMemory};
use disks::Disk;
use procs::BindTable;
use sharelink::BotLink;
use std::alloc::Global;

/// The disks of a bot that was not made or opened, and why.
#[derive(Drop)]
pub struct UnopenedBot<D: Disk> {
    /// Why there is no bot.
    pub error: BotError,
    /// The disks, in the order in which they were given.
    pub disks: Disks<D>,
}

impl<D: Disk> Bot<D> {
    ghost use Rattle.std.specs.Prelude.{◌≡◌, IfOk};
    ghost use Rattle.disks.specs.State.{IsSettled};
    ghost use Rattle.botjournal.specs.Ledger.{AreStill};
    ghost use Rattle.sharelink.specs.BotOpening.{AreCurrent};
    ghost use Rattle.botcore.specs.Bots.{begun};
    ghost use Rattle.botcore.specs.Configs.{IsGood};
    ghost use Rattle.botcore.specs.Making.{Makes, MakesAfter, Finds, FindsAtEachMoment, StaysBots};
    ghost use Rattle.botcore.specs.Presence.{absent};
    ghost use Rattle.botcore.specs.ServerLines.{silent};

    /// Makes a bot with this `config` at version 0, without binds and on no channel, with a new journal on the disks
    /// `first` and `second`. What the disks held is lost.
    ///
    /// # Errors
    /// The error returns the disks. `BadConfig` (G1) if `config` breaks a rule, then `NoMemory`: in both cases nothing
    /// was written. `Journal` with J1 if a disk failed: the content of the disks is then unknown.
    pub fn create(
        alloc: Global,
        config: Config,
        first: D,
        second: D,
    ) -> Result<Bot<D>, UnopenedBot<D>>
        requires first_settled { IsSettled (D.state first) }
        requires second_settled { IsSettled (D.state second) }
        ensures made { Makes D.state config first second result }
    {
        Bot::create_after(alloc, config, first, second, 0)
    }

    /// Makes a bot as [`create`](Bot::create) does, but a leaf's first request has the number after `last`. So the hub
    /// does not take it for a repeated one of an earlier journal of that leaf. At the hub, `last` has no effect.
    ///
    /// # Errors
    /// Those of `create`.
    pub fn create_after(
        alloc: Global,
        config: Config,
        first: D,
        second: D,
        last: u32,
    ) -> Result<Bot<D>, UnopenedBot<D>>
        requires first_settled { IsSettled (D.state first) }
        requires second_settled { IsSettled (D.state second) }
        ensures made { MakesAfter D.state config first second last result }
    {
        let beginning = match ready(alloc, &config) {
            Ok(beginning) => beginning,
            Err(error) => {
                return Err(UnopenedBot {
                    error,
                    disks: Disks { first, second },
                });
            }
        };
        match BotLink::create_after(alloc, first, second, config.number, config.leaves, last) {
            Ok(link) => Ok(Bot::over(alloc, config, beginning, link)),
            Err(returned) => Err(UnopenedBot {
                error: of_journal(returned.error),
                disks: returned.disks,
            }),
        }
    }

    /// Opens the bot whose journal is on the disks `first` and `second`, with this `config`: at the journal's version,
    /// without binds and on no channel. If the journal has an older layout, the call first rewrites its state in the
    /// present layout, as a compaction does. Otherwise it writes nothing.
    ///
    /// # Errors
    /// The error returns the disks, which mean what they meant before, or the same in the present layout. `BadConfig`
    /// (G1) if `config` breaks a rule; then `NoMemory`; `Journal` with J1 if a read failed, and with J2 if the disks
    /// hold no journal, or another bot's. Then, only for an older layout, `Journal` with J4 if the journal has no next
    /// generation, `NoMemory`, or `Journal` with J1 if a disk failed during the rewrite.
    pub fn open(
        alloc: Global,
        config: Config,
        first: D,
        second: D,
    ) -> Result<Bot<D>, UnopenedBot<D>>
        requires first_settled { IsSettled (D.state first) }
        requires second_settled { IsSettled (D.state second) }
        ensures found { Finds D.state config first second result }
        // Disks of the present layout are unchanged.
        ensures still { AreCurrent D.state first second
            → IfOk result (λ bot. AreStill (D.state first) (D.state second) bot.link.device) }
        // At each moment of the call a crash leaves what the disks meant, or the same in the present layout.
        ensures any_moment { FindsAtEachMoment D.state config first second result }
        // If the disks hold a journal of this bot, what a crash leaves at each moment is a journal of this bot.
        ensures bots { StaysBots D.state config first second result }
    {
        let beginning = match ready(alloc, &config) {
            Ok(beginning) => beginning,
            Err(error) => {
                return Err(UnopenedBot {
                    error,
                    disks: Disks { first, second },
                });
            }
        };
        match BotLink::open(alloc, first, second, config.number, config.leaves) {
            Ok(link) => Ok(Bot::over(alloc, config, beginning, link)),
            Err(returned) => Err(UnopenedBot {
                error: of_journal(returned.error),
                disks: returned.disks,
            }),
        }
    }

    // Creates a bot as it begins over this end of the link. Does not allocate.
    #[tactic(auto, using(crate::proofs::GreetingLemmas::greeting_put))]
    fn over(alloc: Global, config: Config, beginning: Beginning, link: BotLink<D>) -> Bot<D>
        requires good { IsGood config }
        requires absent { beginning.channels ≡ absent config.nick }
        requires silent { beginning.queues ≡ silent config }
        ensures { result ≡ begun config link }
    {
        let binds = BindTable::new(alloc);
        Bot {
            config,
            link,
            binds,
            channels: beginning.channels,
            clock: Clock::new(),
            timers: Timers::new(alloc),
            queues: beginning.queues,
            welcomed: false,
        }
    }
}

// What a bot begins with besides its end of the link: all of it that must be allocated.
#[derive(Drop)]
struct Beginning {
    channels: Presence,
    queues: ServerLines,
}

// Returns what a bot with this configuration begins with, if the configuration is good.
fn ready(alloc: Global, config: &Config) -> Result<Beginning, BotError>
    ensures good { IfOk result (λ _. IsGood config.now) }
    ensures absent { IfOk result (λ beginning. beginning.channels ≡ absent config.now.nick) }
    ensures silent { IfOk result (λ beginning. beginning.queues ≡ silent config.now) }
    ensures why { IfErr result (λ why. IsWhyNot config.now why) }
{
    if let Some(fault) = config.refusal() {
        return Err(Failure::Refused(fault));
    }
    match begin(alloc, config) {
        Ok(beginning) => Ok(beginning),
        Err(NoMemory) => Err(Failure::NoMemory),
    }
}

// Returns what a bot with this configuration begins with.
fn begin(alloc: Global, config: &Config) -> Result<Beginning, NoMemory>
    ensures absent { IfOk result (λ beginning. beginning.channels ≡ absent config.now.nick) }
    ensures silent { IfOk result (λ beginning. beginning.queues ≡ silent config.now) }
{
    let channels = Presence::new(alloc, config.nick.as_bytes())?;
    let queues = ServerLines::new(alloc, config)?;
    Ok(Beginning { channels, queues })
}
