// The records of a base, and the userfile that holds them.
ghost use Rattle.std.specs.Prelude.{◌≡◌, ◌≤◌, ◌<◌, ◌++◌, true, Err, IfOk, IfErr, IsTrue, OnOk, OnErr, length};
ghost use Rattle.std.specs.List.{AllByRecursion};
ghost use Rattle.bytetext.specs.declared.failure.Failure.TheVariants.{NoMemory as no_memory};
ghost use Rattle.usercodec.specs.Records.{IsGoodRecord};
ghost use Rattle.botjournal.specs.Bases.{AreListed};
ghost use Rattle.protocol.specs.Snapshots.{users_in, bans_in, user_items, ban_items, items_of};
ghost use Rattle.sharelink.specs.States.{Reads, sound_records};

use crate::fields::know_records;
use crate::state_fault::{StateError, StateFault};
use bytetext::{Failure, NoMemory, TryCopy};
use std::alloc::Global;
use usercodec::Record;
use userfile::{Ban, User, Userfile};

/// Returns the userfile of the records `items`, if one can hold them together. It moves them into the userfile.
///
/// # Errors
/// `NotAJournal` if no userfile holds all of them. `NoMemory`, but never if there are none.
pub fn userfile_of(alloc: Global, items: Vec<Record>) -> Result<Userfile, StateError>
    requires good { AllByRecursion IsGoodRecord items.items }
    ensures reads { Reads (sound_records items.items) result }
    ensures memory { result ≡ Err no_memory → 0 < length items.items }
{
    let (users, bans) = users_and_bans(alloc, items)?;
    match Userfile::from_records(alloc, users, bans) {
        Ok(userfile) => Ok(userfile),
        Err(Failure::Refused(_)) => Err(Failure::Refused(StateFault::NotAJournal)),
        Err(Failure::NoMemory) => Err(Failure::NoMemory),
    }
}

// Returns the users and the bans among the records, each in their order.
fn users_and_bans(alloc: Global, items: Vec<Record>) -> Result<(Vec<User>, Vec<Ban>), NoMemory>
    ensures users { IfOk result (λ parts. parts.0.items ≡ users_in items.items) }
    ensures bans { IfOk result (λ parts. parts.1.items ≡ bans_in items.items) }
    ensures memory { IfErr result (λ _. 0 < length items.items) }
{
    let mut users = Vec::new(alloc);
    let mut bans = Vec::new(alloc);
    for item in items {
        match item {
            Record::User(user) => users.push(user)?,
            Record::Ban(ban) => bans.push(ban)?,
        }
    }
    Ok((users, bans))
}

// Returns the userfile's records one by one, its users first. Each has a spelling.
pub(crate) fn items_of(alloc: Global, userfile: &Userfile) -> Result<Vec<Record>, NoMemory>
    ensures items { IfOk result (λ items. items.items ≡ items_of userfile.now) }
    ensures good { IfOk result (λ items. AreListed IsGoodRecord items.items) }
    ensures few { IfOk result (λ items. length items.items ≤ 700) }
    ensures memory { IfErr result (λ _. 0 < length (items_of userfile.now)) }
{
    let items = copies_in(alloc, userfile)?;
    userfile.are_sound();
    know_records(items.as_slice());
    Ok(items)
}

fn copies_in(alloc: Global, userfile: &Userfile) -> Result<Vec<Record>, NoMemory>
    ensures items { IfOk result (λ items. items.items ≡ items_of userfile.now) }
    ensures memory { IfErr result (λ _. 0 < length (items_of userfile.now)) }
{
    let mut items = Vec::new(alloc);
    put_users(alloc, &mut items, userfile)?;
    put_bans(alloc, &mut items, userfile)?;
    Ok(items)
}

fn put_users(alloc: Global, items: &mut Vec<Record>, userfile: &Userfile) -> Result<(), NoMemory>
    ensures added { OnOk result (items.new.items ≡ items.old.items ++ user_items userfile.now.users) }
    ensures memory { OnErr result (0 < length userfile.now.users) }
{
    for place in 0..userfile.user_count() {
        let Some(user) = userfile.user_at(place) else {
            return Ok(());
        };
        items.push(Record::User(user.copy(alloc)?))?;
    }
    Ok(())
}

fn put_bans(alloc: Global, items: &mut Vec<Record>, userfile: &Userfile) -> Result<(), NoMemory>
    ensures added { OnOk result (items.new.items ≡ items.old.items ++ ban_items userfile.now.bans) }
    ensures memory { OnErr result (0 < length userfile.now.bans) }
{
    for place in 0..userfile.ban_count() {
        let Some(ban) = userfile.ban_at(place) else {
            return Ok(());
        };
        items.push(Record::Ban(ban.copy(alloc)?))?;
    }
    Ok(())
}
