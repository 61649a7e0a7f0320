// The members that a list of names shows.
ghost use Rattle.std.specs.Prelude.{true, ◌≡◌, ◌+◌, ◌<◌, ◌≤◌, ◌++◌, IfOk, OnOk, length};
ghost use Rattle.std.specs.Option.{option_to_list};
ghost use Rattle.std.specs.Vec.{vec_len, vec_capacity};
ghost use Rattle.std.specs.Map.{values_of};
ghost use Rattle.indexmap.specs.IndexMap.{spare};
ghost use Rattle.chanstate.specs.Items.{names_in};
ghost use Rattle.chanstate.specs.Seats.{AreSeated, AreUnder, IsUnder, seated};
ghost use Rattle.chanstate.specs.Members.{listed, listed_each};

use crate::member::Member;
use crate::member_edit::MemberEdit;
use crate::seats::{Seats, edit_at, place_of, seat_last};
use crate::support::Support;
use crate::words::named_member;
use bytetext::NoMemory;
use rfccase::{Casemapping, fold_text_by};
use std::alloc::Global;

// Returns the members that a list of names names, each with its key by `mapping`, in their order.
pub(crate) fn named_by(
    alloc: Global,
    mapping: Casemapping,
    support: &Support,
    names: &[u8],
) -> Result<Vec<(Vec<u8>, Member)>, NoMemory>
    ensures keyed { IfOk result (λ ones. AreUnder mapping ones.items) }
    ensures named { IfOk result (λ ones. values_of ones.items ≡ names_in support.now names.now) }
{
    let mut ones = Vec::new(alloc);
    for word in names.split(|byte| *byte == b' ') {
        push_some(
            &mut ones,
            alloc,
            mapping,
            named_member(alloc, support, word)?,
        )?;
    }
    Ok(ones)
}

// Appends one with its key, if there is one.
fn push_some(
    ones: &mut Vec<(Vec<u8>, Member)>,
    alloc: Global,
    mapping: Casemapping,
    one: Option<Member>,
) -> Result<(), NoMemory>
    requires { AreUnder mapping ones.old.items }
    ensures keyed { OnOk result (AreUnder mapping ones.new.items) }
    ensures pushed { OnOk result (values_of ones.new.items ≡ values_of ones.old.items ++ option_to_list one) }
{
    if let Some(member) = one {
        let key = fold_text_by(alloc, mapping, member.nick.as_bytes())?;
        ones.push((key, member))?;
    }
    Ok(())
}

// Takes in a listed member. There must be room for one more.
fn list(seats: &mut Seats, key: Vec<u8>, one: Member)
    requires indexed { AreSeated seats.old }
    requires key { IsUnder seats.old.mapping key one }
    requires place { vec_len seats.old.places < vec_capacity seats.old.places }
    requires entry { seats.old.indexed ≡ true → 0 < spare seats.old.index }
    ensures indexed { AreSeated seats.new }
    ensures by_index { seats.new.indexed ≡ seats.old.indexed }
    ensures mapping { seats.new.mapping ≡ seats.old.mapping }
    ensures listed { seated seats.new.places.items ≡ listed seats.old.mapping one (seated seats.old.places.items) }
    ensures len { vec_len seats.new.places ≤ vec_len seats.old.places + 1 }
    ensures capacity { vec_capacity seats.new.places ≡ vec_capacity seats.old.places }
    ensures entries { spare seats.old.index ≤ spare seats.new.index + 1 }
{
    match place_of(seats, one.nick.as_bytes()) {
        Some(at) => edit_at(seats, at, MemberEdit::Listed(one)),
        None => seat_last(seats, key, one),
    }
}

// Takes in several listed members, in their order. There must be room for each.
pub(crate) fn list_each(seats: &mut Seats, ones: Vec<(Vec<u8>, Member)>)
    requires indexed { AreSeated seats.old }
    requires keys { AreUnder seats.old.mapping ones.items }
    requires places { vec_len seats.old.places + length ones.items ≤ vec_capacity seats.old.places }
    requires entries { seats.old.indexed ≡ true → length ones.items ≤ spare seats.old.index }
    ensures indexed { AreSeated seats.new }
    ensures listed { seated seats.new.places.items ≡ listed_each seats.old.mapping (values_of ones.items) (seated seats.old.places.items) }
{
    for (key, one) in ones {
        list(seats, key, one);
    }
}
