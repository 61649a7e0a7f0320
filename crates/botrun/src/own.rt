// What the bot's connections tell the other bots about it.
ghost use Rattle.std.specs.Prelude.{◌≡◌, IfOk};
ghost use Rattle.botrun.specs.Owns.{held_of, last_replies, lasts_of};

use botcore::Bot;
use bytetext::NoMemory;
use disks::FileDisk;
use handshake::{HeldParts, Own};
use peers::Links;
use recordsums::KeptSum;
use std::alloc::Global;

// If the connections have something to tell about the bot in this turn, lets them know what. A bot's version changes
// only in the steps after that.
pub(crate) fn tell_own(
    alloc: Global,
    bot: &Bot<FileDisk>,
    kept_sum: &mut KeptSum,
    links: &mut Links,
) -> Result<(), NoMemory> {
    if links.wants_own() {
        let own = own_of(alloc, bot, kept_sum)?;
        links.tell_own(own);
    }
    Ok(())
}

// What the bot is at now.
fn own_of(alloc: Global, bot: &Bot<FileDisk>, kept_sum: &mut KeptSum) -> Result<Own, NoMemory> {
    let version = bot.version();
    let sum = kept_sum.at(alloc, version, bot.userfile())?;
    let lasts = lasts_of(alloc, bot)?;
    Ok(Own {
        version,
        sum,
        lasts,
        held: held_of(bot),
    })
}

// At a hub, the number of the last request that it replied to, of each leaf at the place of its number; at a leaf, the
// number of its last request alone.
fn lasts_of(alloc: Global, bot: &Bot<FileDisk>) -> Result<Vec<u32>, NoMemory>
    ensures { IfOk result (λ lasts. lasts.items ≡ lasts_of bot.now) }
{
    if bot.config().number == 0 {
        last_replies(alloc, bot)
    } else {
        Ok(vec![in alloc; bot.last_request()]?)
    }
}

// No leaf has the number 0.
#[tactic(auto, using(crate::proofs::OwnLemmas::one_more_reply))]
fn last_replies(alloc: Global, bot: &Bot<FileDisk>) -> Result<Vec<u32>, NoMemory>
    ensures { IfOk result (λ lasts. lasts.items ≡ last_replies bot.now) }
{
    let mut lasts = vec![in alloc; 0]?;
    for leaf in 0..bot.config().leaves {
        lasts.push(bot.last_reply(leaf + 1))?;
    }
    Ok(lasts)
}

// The parts of a snapshot that the bot holds.
fn held_of(bot: &Bot<FileDisk>) -> HeldParts
    ensures { result ≡ held_of bot.now }
{
    match bot.held_parts() {
        Some(held) => {
            let bits = held.bits;
            HeldParts {
                version: held.version,
                bits,
            }
        }
        None => {
            let bits = [0; 11];
            HeldParts { version: 0, bits }
        }
    }
}
