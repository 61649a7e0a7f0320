// The seats of a channel, in the order in which people came to it. A member who leaves leaves an empty seat, so that no
// member after it has to move. Empty seats are removed when room is short.
//
// The members of a large channel are found by an index of their nicks. A channel of few members has no index, which would
// cost about 90 bytes a member: a walk over its seats finds them. `room` says when members are indexed.
ghost use Rattle.std.specs.Prelude.{true, false, ◌≡◌, ◌+◌, ◌<◌, ◌≤◌, ℕ, List, [], ◌∷◌, ◌++◌, None, Some, OnOk, OnErr, find, position};
ghost use Rattle.std.specs.Option.{option_copied};
ghost use Rattle.std.specs.Vec.{vec_len, vec_capacity};
ghost use Rattle.indexmap.specs.IndexMap.{spare};
ghost use Rattle.rfccase.specs.Casemapping.{folded_by, is_same_by};
ghost use Rattle.chanstate.specs.Seats.{AreIndexed, AreSeated, IsUnder, is_seat_of, place_under, seated};
ghost use Rattle.chanstate.specs.Members.{is_called, has_member, edited, renamed, with_nick};
ghost use Rattle.chanstate.specs.Firsts.{first_removed, first_changed};

use crate::member::Member;
use crate::member_edit::MemberEdit;
use crate::names::is_same;
use crate::room::make_room;
use bytetext::{NoMemory, Text};
use indexmap::IndexMap;
use rfccase::{Casemapping, ShortFold, fold_slice_by, fold_text_by};
use std::alloc::Global;
use std::mem;

/// The seats of members, by the lower case of their nicks.
pub type Index = IndexMap<Vec<u8>, usize>;

/// Seats, and the index that finds members if `indexed`.
#[derive(Debug, Drop)]
pub struct Seats {
    pub places: Vec<Option<Member>>,
    // Allocates nothing until the members are indexed.
    pub index: Index,
    // How nicks compare.
    pub mapping: Casemapping,
    // Whether nicks are found by the index. If not, they are found by a walk over the seats.
    pub indexed: bool,
}

// The longest nick that is looked up by its lower case. A line has at most 510 bytes, so a longer nick comes only from
// a caller that makes its own messages; it is found by a walk over the seats.
const LONGEST_KEY: usize = 512;

impl Seats {
    // Creates an empty list of seats, whose nicks compare by `mapping`, with no index. Allocates nothing.
    pub(crate) fn new(alloc: Global, mapping: Casemapping) -> Seats
        ensures indexed { AreSeated result }
        ensures mapping { result.mapping ≡ mapping }
        ensures none { seated result.places.items ≡ [] }
    {
        Seats {
            places: Vec::new(alloc),
            index: IndexMap::new(alloc),
            mapping,
            indexed: false,
        }
    }
}

// Returns whether two casemappings are one.
pub(crate) fn is_one(a: Casemapping, b: Casemapping) -> bool
    ensures { result ≡ true → a ≡ b }
{
    a == b
}

// Compares nicks by `mapping` from now on. If they were compared by another casemapping before, the index is no longer
// used: two members whom that one tells apart may be the same by this one. A `ChanState` never changes the casemapping
// of a roster that it holds.
pub(crate) fn compare_by(seats: &mut Seats, mapping: Casemapping)
    requires { AreSeated seats.old }
    ensures indexed { AreSeated seats.new }
    ensures mapping { seats.new.mapping ≡ mapping }
    ensures places { seats.new.places ≡ seats.old.places }
{
    if !is_one(seats.mapping, mapping) {
        seats.mapping = mapping;
        seats.indexed = false;
    }
}

// Returns the lower case of `nick`, in its own bytes. Allocates nothing.
fn lower_case(mapping: Casemapping, nick: Text) -> Vec<u8>
    ensures { result.items ≡ folded_by mapping nick }
{
    let mut lower = nick.into_vec();
    fold_slice_by(mapping, &mut lower);
    lower
}

// Returns whether someone called `nick` sits at `place`.
fn is_seat(mapping: Casemapping, nick: &[u8], place: &Option<Member>) -> bool
    ensures { result ≡ is_seat_of mapping nick.now place.now }
{
    match place {
        Some(member) => is_same(mapping, nick, member.nick.as_bytes()),
        None => false,
    }
}

// Returns the first seat of someone called `nick`.
fn walk_to(mapping: Casemapping, places: &[Option<Member>], nick: &[u8]) -> Option<usize>
    ensures { result ≡ position (is_seat_of mapping nick.now) places.now }
{
    places
        .iter()
        .position(|place| is_seat(mapping, nick, place))
}

// Returns the first member called `nick`, by a walk over the seats.
pub(crate) fn walk_for<'a>(
    mapping: Casemapping,
    places: &'a [Option<Member>],
    nick: &[u8],
) -> Option<&'a Member>
    ensures { option_copied result ≡ find (is_called mapping nick.now) (seated places.now) }
{
    match walk_to(mapping, places, nick) {
        Some(at) => places[at].as_ref(),
        None => None,
    }
}

// Returns the seat of the member called `nick`.
pub(crate) fn place_of(seats: &Seats, nick: &[u8]) -> Option<usize>
    requires { AreSeated seats.now }
    ensures { result ≡ position (is_seat_of seats.now.mapping nick.now) seats.now.places.items }
{
    if seats.indexed {
        place_in_index(seats, nick)
    } else {
        walk_to(seats.mapping, seats.places.as_slice(), nick)
    }
}

// Returns the seat of the member called `nick`, by the index.
fn place_in_index(seats: &Seats, nick: &[u8]) -> Option<usize>
    requires { AreIndexed seats.now.mapping seats.now.places.items seats.now.index.entries }
    ensures { result ≡ place_under (folded_by seats.now.mapping nick.now) seats.now.index.entries }
{
    match ShortFold::<LONGEST_KEY>::by(seats.mapping, nick) {
        Some(lower) => match seats.index.get(lower.as_bytes()) {
            Some(at) => Some(*at),
            None => None,
        },
        None => walk_to(seats.mapping, seats.places.as_slice(), nick),
    }
}

// Returns the member called `nick`.
pub(crate) fn member_of<'a>(seats: &'a Seats, nick: &[u8]) -> Option<&'a Member>
    requires { AreSeated seats.now }
    ensures { option_copied result ≡ find (is_called seats.now.mapping nick.now) (seated seats.now.places.items) }
{
    match place_of(seats, nick) {
        Some(at) => seats.places[at].as_ref(),
        None => None,
    }
}

// Changes what is known of the member on the seat `at`.
pub(crate) fn edit_at(seats: &mut Seats, at: usize, edit: MemberEdit)
    requires { at < vec_len seats.old.places }
    ensures mapping { seats.new.mapping ≡ seats.old.mapping }
    ensures index { seats.new.index ≡ seats.old.index }
    ensures by_index { seats.new.indexed ≡ seats.old.indexed }
    ensures indexed { AreSeated seats.old → AreSeated seats.new }
    ensures edited { (nick : List ℕ) → position (is_seat_of seats.old.mapping nick) seats.old.places.items ≡ Some at
        → seated seats.new.places.items ≡ first_changed (is_called seats.old.mapping nick) (edited edit) (seated seats.old.places.items) }
    ensures len { vec_len seats.new.places ≡ vec_len seats.old.places }
    ensures capacity { vec_capacity seats.new.places ≡ vec_capacity seats.old.places }
{
    if let Some(member) = &mut seats.places[at] {
        member.edit(edit);
    }
}

// Changes what is known of the member called `nick`.
pub(crate) fn edit_called(seats: &mut Seats, nick: &[u8], edit: MemberEdit)
    requires { AreSeated seats.old }
    ensures indexed { AreSeated seats.new }
    ensures edited { seated seats.new.places.items
        ≡ first_changed (is_called seats.old.mapping nick.now) (edited edit) (seated seats.old.places.items) }
{
    if let Some(at) = place_of(seats, nick) {
        edit_at(seats, at, edit);
    }
}

// Empties the seat of the member called `nick`.
pub(crate) fn vacate(seats: &mut Seats, nick: &[u8])
    requires { AreSeated seats.old }
    ensures indexed { AreSeated seats.new }
    ensures mapping { seats.new.mapping ≡ seats.old.mapping }
    ensures by_index { seats.new.indexed ≡ seats.old.indexed }
    ensures gone { seats.old.indexed ≡ true → place_under (folded_by seats.old.mapping nick.now) seats.new.index.entries ≡ None }
    ensures removed { seated seats.new.places.items ≡ first_removed (is_called seats.old.mapping nick.now) (seated seats.old.places.items) }
    ensures room { spare seats.old.index ≤ spare seats.new.index }
{
    let Some(at) = place_of(seats, nick) else {
        return;
    };
    let Some(member) = seats.places[at].take() else {
        return;
    };
    let Member { nick, .. } = member;
    let lower = lower_case(seats.mapping, nick);
    let _place = seats.index.swap_remove(lower.as_slice());
}

// Puts a member whose nick nobody has on a new last seat. There must be room for one more.
pub(crate) fn seat_last(seats: &mut Seats, key: Vec<u8>, one: Member)
    requires indexed { AreSeated seats.old }
    requires key { IsUnder seats.old.mapping key one }
    requires absent { position (is_seat_of seats.old.mapping one.nick) seats.old.places.items ≡ None }
    requires place { vec_len seats.old.places < vec_capacity seats.old.places }
    requires entry { seats.old.indexed ≡ true → 0 < spare seats.old.index }
    ensures indexed { AreSeated seats.new }
    ensures by_index { seats.new.indexed ≡ seats.old.indexed }
    ensures mapping { seats.new.mapping ≡ seats.old.mapping }
    ensures seated { seated seats.new.places.items ≡ seated seats.old.places.items ++ one ∷ [] }
    ensures len { vec_len seats.new.places ≡ vec_len seats.old.places + 1 }
    ensures capacity { vec_capacity seats.new.places ≡ vec_capacity seats.old.places }
    ensures entries { spare seats.old.index ≤ spare seats.new.index + 1 }
{
    let at = seats.places.len();
    seats.places.push_reserved(Some(one));
    if seats.indexed {
        seats.index.insert(key, at).unwrap();
    }
}

// Puts a member whose nick nobody has on a new last seat.
pub(crate) fn add(seats: &mut Seats, alloc: Global, one: Member) -> Result<(), NoMemory>
    requires indexed { AreSeated seats.old }
    requires absent { has_member seats.old.mapping one.nick (seated seats.old.places.items) ≡ false }
    ensures indexed { AreSeated seats.new }
    ensures ok { OnOk result (seated seats.new.places.items ≡ seated seats.old.places.items ++ one ∷ []) }
    ensures err { OnErr result (seated seats.new.places.items ≡ seated seats.old.places.items) }
{
    let key = fold_text_by(alloc, seats.mapping, one.nick.as_bytes())?;
    make_room(seats, alloc, 1)?;
    seat_last(seats, key, one);
    Ok(())
}

// Gives the member called `old`, if there is one, the nick `nick` on the same seat. Another member who had that nick is
// removed first. There must be room for one more.
pub(crate) fn rename_in(seats: &mut Seats, old: &[u8], key: Vec<u8>, nick: Text)
    requires indexed { AreSeated seats.old }
    requires key { key.items ≡ folded_by seats.old.mapping nick }
    requires entry { seats.old.indexed ≡ true → 0 < spare seats.old.index }
    ensures indexed { AreSeated seats.new }
    ensures renamed { seated seats.new.places.items ≡ renamed seats.old.mapping old.now nick (seated seats.old.places.items) }
{
    if place_of(seats, old).is_none() {
        return;
    }
    if is_same(seats.mapping, old, nick.as_bytes()) {
        respell(seats, old, key, nick);
        return;
    }
    vacate(seats, nick.as_bytes());
    respell(seats, old, key, nick);
}

// Gives the member called `old`, if there is one, the nick `nick` on the same seat. Nobody else may have it, and there
// must be room for one more.
fn respell(seats: &mut Seats, old: &[u8], key: Vec<u8>, nick: Text)
    requires indexed { AreSeated seats.old }
    requires key { key.items ≡ folded_by seats.old.mapping nick }
    requires entry { seats.old.indexed ≡ true → 0 < spare seats.old.index }
    requires apart { seats.old.indexed ≡ true → (i : ℕ) → place_under (folded_by seats.old.mapping nick) seats.old.index.entries ≡ Some i
        → is_same_by seats.old.mapping old.now nick ≡ true }
    ensures indexed { AreSeated seats.new }
    ensures renamed { seated seats.new.places.items ≡ first_changed (is_called seats.old.mapping old.now) (with_nick nick) (seated seats.old.places.items) }
{
    let Some(at) = place_of(seats, old) else {
        return;
    };
    let Some(mut member) = seats.places[at].take() else {
        return;
    };
    let lower = lower_case(seats.mapping, mem::replace(&mut member.nick, nick));
    let _place = seats.index.swap_remove(lower.as_slice());
    seats.places[at] = Some(member);
    if seats.indexed {
        seats.index.insert(key, at).unwrap();
    }
}
