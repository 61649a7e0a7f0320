// Those whose changes nobody will answer.
ghost use Rattle.std.specs.Prelude.{◌≡◌, [], OnOk};

use crate::admins::Admins;
use crate::asks::{Asks, Recipient};
use crate::noticing::put_notice;
use bytetext::NoMemory;
use serverlink::IrcConnection;
use std::alloc::Global;

/// Says `words`, a line without its end, to whoever waits for the answer to a change, and forgets them: an admin hears it
/// as the answer, and a person in a notice.
///
/// # Errors
/// `NoMemory` if an allocation fails.
#[tactic(auto, using(std::proofs::lemmas::List::nil_from_length))]
pub fn tell_unanswered(
    alloc: Global,
    asks: &mut Asks,
    admins: &mut Admins,
    uplink: &mut IrcConnection,
    words: &[u8],
) -> Result<(), NoMemory>
    ensures none { OnOk result (asks.new.askers.items ≡ []) }
    ensures server { uplink.new.session ≡ uplink.old.session }
{
    let mut answer = Vec::from_slice(alloc, words)?;
    answer.push(b'\n')?;
    for _ask in 0..asks.len() {
        match asks.settle() {
            Recipient::Nobody => {}
            Recipient::Admin(number) => admins.tell(number, answer.as_slice())?,
            Recipient::Person(nick) => put_notice(alloc, uplink, nick.as_bytes(), words)?,
        }
    }
    Ok(())
}
