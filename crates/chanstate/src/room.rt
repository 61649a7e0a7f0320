// Room for more seats, and the index of the members of a large channel.
ghost use Rattle.std.specs.Prelude.{true, ◌≡◌, ◌+◌, ◌≤◌, IfOk, OnOk, length};
ghost use Rattle.std.specs.Vec.{vec_len, vec_capacity};
ghost use Rattle.indexmap.specs.IndexMap.{spare, index_map_len};
ghost use Rattle.chanstate.specs.Seats.{AreIndexed, AreSeated, IsIndexedNext, seated, taken};

use crate::member::Member;
use crate::seats::{Index, Seats};
use bytetext::NoMemory;
use indexmap::IndexMap;
use rfccase::{Casemapping, fold_text_by};
use std::alloc::Global;

// A roster that has to grow past this number of seats is indexed. A growth may make room for as many seats again, so a
// roster without an index has at most twice as many seats, unless its casemapping was changed.
const FEW: usize = 32;

// Makes room for `more` members. If room is short, it first removes empty seats, and indexes a roster that grows past
// `FEW` seats. A growth makes room for at least as many again.
pub(crate) fn make_room(seats: &mut Seats, alloc: Global, more: usize) -> Result<(), NoMemory>
    requires { AreSeated seats.old }
    ensures indexed { AreSeated seats.new }
    ensures mapping { seats.new.mapping ≡ seats.old.mapping }
    ensures same { seated seats.new.places.items ≡ seated seats.old.places.items }
    ensures places { OnOk result (vec_len seats.new.places + more ≤ vec_capacity seats.new.places) }
    ensures entries { OnOk result (seats.new.indexed ≡ true → more ≤ spare seats.new.index) }
{
    if seats.places.capacity() - seats.places.len() < more {
        tidy(seats, alloc, more)?;
    }
    reserve_places(&mut seats.places, more)?;
    if seats.indexed {
        reserve_entries(&mut seats.index, more)?;
    }
    Ok(())
}

// Removes empty seats before a growth by `more`. If the roster is indexed, it does so only if more than half of the seats
// are empty, since the members are then indexed again. If it is not indexed, it always does so, and indexes the members
// if the seats still have to grow, past `FEW`.
fn tidy(seats: &mut Seats, alloc: Global, more: usize) -> Result<(), NoMemory>
    requires { AreSeated seats.old }
    ensures indexed { AreSeated seats.new }
    ensures mapping { seats.new.mapping ≡ seats.old.mapping }
    ensures same { seated seats.new.places.items ≡ seated seats.old.places.items }
{
    if seats.indexed {
        if seats.index.len() < seats.places.len() / 2 {
            index_anew(seats, alloc)?;
        }
        return Ok(());
    }
    keep_taken(&mut seats.places);
    let len = seats.places.len();
    if seats.places.capacity() - len < more && len.saturating_add(more) > FEW {
        index_anew(seats, alloc)?;
    }
    Ok(())
}

fn reserve_places(places: &mut Vec<Option<Member>>, more: usize) -> Result<(), NoMemory>
    ensures same { places.new.items ≡ places.old.items }
    ensures room { OnOk result (vec_len places.new + more ≤ vec_capacity places.new) }
{
    if places.capacity() - places.len() < more {
        places.reserve(more.max(places.len()))?;
    }
    Ok(())
}

fn reserve_entries(index: &mut Index, more: usize) -> Result<(), NoMemory>
    ensures same { index.new.entries ≡ index.old.entries }
    ensures room { OnOk result (more ≤ spare index.new) }
{
    if index.capacity() - index.len() < more {
        index.reserve(more.max(index.len()))?;
    }
    Ok(())
}

// Removes the empty seats, and indexes the members. A roster with no index gets none if two of its members have the same
// nick by its casemapping.
fn index_anew(seats: &mut Seats, alloc: Global) -> Result<(), NoMemory>
    requires { AreSeated seats.old }
    ensures indexed { AreSeated seats.new }
    ensures by_index { seats.old.indexed ≡ true → seats.new.indexed ≡ true }
    ensures mapping { seats.new.mapping ≡ seats.old.mapping }
    ensures same { seated seats.new.places.items ≡ seated seats.old.places.items }
{
    let index = index_taken(alloc, seats)?;
    keep_taken(&mut seats.places);
    if index.len() == seats.places.len() {
        seats.index = index;
        seats.indexed = true;
    }
    Ok(())
}

// Removes the empty seats.
fn keep_taken(places: &mut Vec<Option<Member>>)
    ensures taken { places.new.items ≡ taken places.old.items }
    ensures same { seated places.new.items ≡ seated places.old.items }
{
    places.retain(|place| place.is_some());
}

// Indexes the members by the seats that they have in a copy, if they are indexed.
pub(crate) fn index_of_copy(alloc: Global, seats: &Seats) -> Result<Index, NoMemory>
    requires { AreSeated seats.now }
    ensures { IfOk result (λ index. seats.now.indexed ≡ true
        → AreIndexed seats.now.mapping (taken seats.now.places.items) index.entries) }
{
    if seats.indexed {
        index_taken(alloc, seats)
    } else {
        Ok(IndexMap::new(alloc))
    }
}

// Indexes the members by the seats that they have once the empty ones are removed. If all their nicks differ, as those of
// an indexed roster do, the index has as many entries as there are members. It then finds each member.
fn index_taken(alloc: Global, seats: &Seats) -> Result<Index, NoMemory>
    requires { AreSeated seats.now }
    ensures indexed { IfOk result (λ index. index_map_len index ≡ length (taken seats.now.places.items)
        → AreIndexed seats.now.mapping (taken seats.now.places.items) index.entries) }
    ensures all { IfOk result (λ index. seats.now.indexed ≡ true → index_map_len index ≡ length (taken seats.now.places.items)) }
{
    let mut index = IndexMap::with_capacity(alloc, seats.index.len())?;
    for place in seats.places.as_slice() {
        index_next(&mut index, alloc, seats.mapping, place)?;
    }
    Ok(index)
}

// Adds the member at `place`, if any, to the index under the next number.
fn index_next(
    index: &mut Index,
    alloc: Global,
    mapping: Casemapping,
    place: &Option<Member>,
) -> Result<(), NoMemory>
    ensures { OnOk result (IsIndexedNext mapping place.now (index_map_len index.old) index.old.entries (index_map_len index.new) index.new.entries) }
{
    if let Some(member) = place {
        let key = fold_text_by(alloc, mapping, member.nick.as_bytes())?;
        let at = index.len();
        index.insert(key, at)?;
    }
    Ok(())
}
