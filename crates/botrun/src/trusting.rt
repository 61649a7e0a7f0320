// The lines of a server that pass the sieve, and whom the bot never ignores.
ghost use Rattle.std.specs.Prelude.{◌≡◌, ◌<◌, IfOk};
ghost use Rattle.bytetext.specs.declared.moment.TheConstants.{MOMENTS_END};
ghost use Rattle.botcore.specs.Automatic.{is_own};
ghost use Rattle.upkeep.specs.Flooding.{begun_with, heard_lines};
ghost use Rattle.ircline.specs.Sources.{source_of};
ghost use Rattle.botrun.specs.Trusting.{handle_at, is_known_trusted, is_of_trust, nick_in, trusts};

use botcore::Bot;
use bytetext::NoMemory;
use disks::FileDisk;
use flagexpr::Flags;
use floods::Trusts;
use ircline::{Source, source};
use net::Log;
use procs::handle_by;
use rfccase::same_by;
use settings::Settings;
use std::alloc::Global;
use upkeep::FloodWatch;

// The lines that pass of these `bytes` of the bot's server, and after them one for each ignore that begins.
pub(crate) fn sift(
    alloc: Global,
    log: &mut Log,
    floods: &mut FloodWatch,
    bot: &Bot<FileDisk>,
    settings: &Settings,
    connected: bool,
    bytes: &[u8],
    now: u64,
) -> Result<Vec<u8>, NoMemory>
    requires moment { now < MOMENTS_END }
    ensures { IfOk result (λ lines. lines.items ≡
        heard_lines (trusts bot.now) now (begun_with settings.now.floods connected floods.old) bytes.now) }
{
    let trusting = TrustingBot { bot };
    floods.hear(
        alloc,
        log,
        settings.floods,
        connected,
        bytes,
        now,
        &trusting,
    )
}

// A bot that says whom it trusts.
#[derive(Clone, Copy)]
struct TrustingBot<'a> {
    bot: &'a Bot<FileDisk>,
}

// The bot itself, a master, an owner and an op everywhere are trusted.
impl Trusts for TrustingBot<'_> {
    ghost use Rattle.botrun.specs.Trusting.{trusts};

    ghost trusted = { λ trusting person. trusts trusting.bot.now person };

    fn is_trusted(&self, person: &[u8]) -> bool {
        is_own(self.bot, person) || is_known_trusted(self.bot, person)
    }
}

// Whether a person is the bot itself.
fn is_own(bot: &Bot<FileDisk>, person: &[u8]) -> bool
    ensures { result ≡ is_own (source_of person.now) bot.now.channels }
{
    match source(person) {
        Source::Person(found) => same_by(bot.casemapping(), found.nick, bot.own_nick()),
        Source::None | Source::Server(_) => false,
    }
}

// Whether the user as whom a bot knows a person is trusted.
fn is_known_trusted(bot: &Bot<FileDisk>, person: &[u8]) -> bool
    ensures { result ≡ is_known_trusted bot.now person.now }
{
    let handle = handle_at(bot, person);
    is_of_trust(bot.userfile().flags_of(handle, b"").global)
}

// The handle by which a bot knows a person.
fn handle_at<'a>(bot: &'a Bot<FileDisk>, person: &[u8]) -> &'a [u8]
    ensures { result.now ≡ handle_at bot.now person.now }
{
    let account = bot.account_of(nick_of(person));
    handle_by(bot.userfile(), bot.casemapping(), account, person)
}

// The nick of a person, or the empty text for anything else.
fn nick_of(person: &[u8]) -> &[u8]
    ensures { result.now ≡ nick_in (source_of person.now) }
{
    match source(person) {
        Source::Person(found) => found.nick,
        Source::None | Source::Server(_) => b"",
    }
}

// Whether a user with these flags is trusted.
fn is_of_trust(flags: Flags) -> bool
    ensures { result ≡ is_of_trust flags }
{
    flags.has(b'm') || flags.has(b'n') || flags.has(b'o')
}
