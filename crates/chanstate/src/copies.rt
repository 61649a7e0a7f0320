// Copies of the members on the seats of a channel.
ghost use Rattle.std.specs.Prelude.{◌≡◌, ◌++◌, ◌<◌, IfOk, IfErr, OnOk, OnErr, length, map, Some};
ghost use Rattle.std.specs.Option.{option_to_list};
ghost use Rattle.chanstate.specs.Seats.{seated, taken};

use crate::member::Member;
use bytetext::{NoMemory, TryCopy};
use std::alloc::Global;

// Copies the members who sit at `places`, in order.
pub(crate) fn copies_of(alloc: Global, places: &[Option<Member>]) -> Result<Vec<Member>, NoMemory>
    ensures copies { IfOk result (λ copies. copies.items ≡ seated places.now) }
    ensures memory { IfErr result (λ _. 0 < length (seated places.now)) }
{
    let mut copies = Vec::new(alloc);
    for place in places {
        push_copy(&mut copies, alloc, place)?;
    }
    Ok(copies)
}

// Appends a copy of the member at `place`, if it is not empty.
fn push_copy(
    copies: &mut Vec<Member>,
    alloc: Global,
    place: &Option<Member>,
) -> Result<(), NoMemory>
    ensures copy { OnOk result (copies.new.items ≡ copies.old.items ++ option_to_list place.now) }
    ensures memory { OnErr result (0 < length (option_to_list place.now)) }
{
    if let Some(member) = place {
        copies.push(member.copy(alloc)?)?;
    }
    Ok(())
}

// Gives each of `members` a seat of its own.
pub(crate) fn seats_of(alloc: Global, members: Vec<Member>) -> Result<Vec<Option<Member>>, NoMemory>
    ensures { IfOk result (λ places. places.items ≡ map (λ m. Some m) members.items) }
{
    let mut places = Vec::with_capacity(alloc, members.len())?;
    for member in members {
        places.push(Some(member))?;
    }
    Ok(places)
}
