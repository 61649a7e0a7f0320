// Changes the binds and the index of one kind together.
ghost use Rattle.std.specs.Prelude.{◌≡◌, ◌<◌, ◌≤◌, true, false, not, [], ◌∷◌, ◌++◌, count_by, position};
ghost use Rattle.std.specs.Prelude.{slice_index_or, find, OnOk, OnErr, IfOk};
ghost use Rattle.std.specs.Option.{option_map};
ghost use Rattle.std.specs.List.{remove, list_any};
ghost use Rattle.std.specs.Vec.{vec_len, vec_capacity};
ghost use Rattle.indexmap.specs.IndexSet.{spare};
ghost use Rattle.procs.specs.declared.bind.Bind.{Bind};
ghost use Rattle.procs.specs.Kinds.{is_kind, is_single};
ghost use Rattle.procs.specs.Index.{IsIndexOf, AreIndexed};
ghost use Rattle.procs.specs.Sound.{AreApart};
ghost use Rattle.procs.specs.Tables.{count_left, is_replaced, is_such, without_replaced, without_such};

use crate::bind_kind::BindKind;
use crate::held::Held;
use crate::index::KindIndex;
use crate::kinds::{KINDS, is_kind, is_single, place_of};
use bytetext::{NoMemory, TryCopy};
use rfccase::fold_text;
use std::alloc::Global;
use std::array;

// Returns the place of the bind of this kind, mask and proc.
pub(crate) fn place_of_such(
    held: &[Held],
    kind: BindKind,
    mask: &[u8],
    proc: &[u8],
) -> Option<usize>
    ensures { result ≡ position (is_such kind mask.now proc.now) held.now }
{
    held.iter().position(|one| one.is_such(kind, mask, proc))
}

// Returns the place of the bind that a bind of this kind and mask replaces.
fn place_of_replaced(held: &[Held], kind: BindKind, mask: &[u8]) -> Option<usize>
    ensures { result ≡ position (is_replaced kind mask.now) held.now }
{
    held.iter().position(|one| one.is_replaced(kind, mask))
}

// Counts the binds of this kind.
fn count_of_kind(held: &[Held], kind: BindKind) -> usize
    ensures { result ≡ count_by (λ b. is_kind kind b.kind) held.now }
{
    held.iter().filter(|one| is_kind(kind, one.kind())).count()
}

// Removes the bind at a place, and returns its number. Does not allocate.
pub(crate) fn take_out(
    held: &mut Vec<Held>,
    index: &mut KindIndex,
    kind: BindKind,
    at: usize,
) -> u32
    requires within { at < vec_len held.old }
    requires kind { (b : Bind) → is_kind kind (slice_index_or held.old.items at b).kind ≡ true }
    requires indexed { IsIndexOf kind held.old.items index.old }
    ensures indexed { IsIndexOf kind held.new.items index.new }
    ensures removed { held.new.items ≡ remove held.old.items at }
    ensures number { (b : Bind) → result ≡ (slice_index_or held.old.items at b).number }
    ensures len { vec_len held.new ≤ vec_len held.old }
    ensures capacity { vec_capacity held.new ≡ vec_capacity held.old }
    ensures entries { vec_len index.new.entries ≤ vec_len index.old.entries }
    ensures entry_room { vec_capacity index.new.entries ≡ vec_capacity index.old.entries }
    ensures word_room { spare index.old.words ≤ spare index.new.words }
{
    let place = count_of_kind(&held[..at], kind);
    index.remove(place);
    let one = held.remove(at);
    one.bind().number
}

// Removes the bind that a bind of this kind and mask replaces, if there is one. Does not allocate.
fn drop_replaced(held: &mut Vec<Held>, index: &mut KindIndex, kind: BindKind, mask: &[u8])
    requires apart { AreApart held.old.items }
    requires indexed { IsIndexOf kind held.old.items index.old }
    ensures indexed { IsIndexOf kind held.new.items index.new }
    ensures without { held.new.items ≡ without_replaced kind mask.now held.old.items }
    ensures len { vec_len held.new ≤ vec_len held.old }
    ensures capacity { vec_capacity held.new ≡ vec_capacity held.old }
    ensures entries { vec_len index.new.entries ≤ vec_len index.old.entries }
    ensures entry_room { vec_capacity index.new.entries ≡ vec_capacity index.old.entries }
    ensures word_room { spare index.old.words ≤ spare index.new.words }
{
    if let Some(at) = place_of_replaced(held, kind, mask) {
        let _number = take_out(held, index, kind, at);
    }
}

// Appends a bind with a mask, which replaces none.
fn add_mask(held: &mut Vec<Held>, index: &mut KindIndex, one: Held) -> Result<(), NoMemory>
    requires kind { is_single one.kind ≡ false }
    requires indexed { IsIndexOf one.kind held.old.items index.old }
    ensures indexed { IsIndexOf one.kind held.new.items index.new }
    ensures ok { OnOk result (held.new.items ≡ without_replaced one.kind one.mask held.old.items ++ one ∷ []) }
    ensures err { OnErr result (held.new.items ≡ held.old.items) }
{
    held.reserve(1)?;
    index.reserve()?;
    index.push(one.entry());
    held.push_reserved(one);
    Ok(())
}

// Appends a bind with a keyword, and removes the bind that it replaces.
fn add_word(
    held: &mut Vec<Held>,
    index: &mut KindIndex,
    alloc: Global,
    one: Held,
) -> Result<(), NoMemory>
    requires kind { is_single one.kind ≡ true }
    requires apart { AreApart held.old.items }
    requires indexed { IsIndexOf one.kind held.old.items index.old }
    ensures indexed { IsIndexOf one.kind held.new.items index.new }
    ensures ok { OnOk result (held.new.items ≡ without_replaced one.kind one.mask held.old.items ++ one ∷ []) }
    ensures err { OnErr result (held.new.items ≡ held.old.items) }
{
    let kind = one.kind();
    let mask = one.mask();
    let word = fold_text(alloc, mask)?;
    held.reserve(1)?;
    index.reserve()?;
    index.reserve_word()?;
    drop_replaced(held, index, kind, mask);
    index.push_word(word);
    index.push(one.entry());
    held.push_reserved(one);
    Ok(())
}

// Appends a bind, and removes the bind that it replaces.
pub(crate) fn put(
    held: &mut Vec<Held>,
    indexes: &mut [KindIndex; KINDS],
    alloc: Global,
    one: Held,
) -> Result<(), NoMemory>
    requires apart { AreApart held.old.items }
    requires indexed { AreIndexed held.old.items indexes.old }
    ensures indexed { AreIndexed held.new.items indexes.new }
    ensures ok { OnOk result (held.new.items ≡ without_replaced one.kind one.mask held.old.items ++ one ∷ []) }
    ensures err { OnErr result (held.new.items ≡ held.old.items) }
{
    let kind = one.kind();
    let index = &mut indexes[place_of(kind)];
    if is_single(kind) {
        add_word(held, index, alloc, one)
    } else {
        add_mask(held, index, one)
    }
}

// Removes the bind of this kind, mask and proc, and returns its number. Does not allocate.
pub(crate) fn take_such(
    held: &mut Vec<Held>,
    indexes: &mut [KindIndex; KINDS],
    kind: BindKind,
    mask: &[u8],
    proc: &[u8],
) -> Option<u32>
    requires apart { AreApart held.old.items }
    requires indexed { AreIndexed held.old.items indexes.old }
    ensures indexed { AreIndexed held.new.items indexes.new }
    ensures number { result ≡ option_map (λ b. b.number) (find (is_such kind mask.now proc.now) held.old.items) }
    ensures without { held.new.items ≡ without_such kind mask.now proc.now held.old.items }
{
    match place_of_such(held, kind, mask, proc) {
        Some(at) => {
            let index = &mut indexes[place_of(kind)];
            Some(take_out(held, index, kind, at))
        }
        None => None,
    }
}

// Whether a bind has this kind, mask and proc.
pub(crate) fn has_such(held: &[Held], kind: BindKind, mask: &[u8], proc: &[u8]) -> bool
    ensures { result ≡ list_any (is_such kind mask.now proc.now) held.now }
{
    held.iter().any(|one| one.is_such(kind, mask, proc))
}

// Counts the binds that a new bind of this kind and mask leaves.
pub(crate) fn count_left(held: &[Held], kind: BindKind, mask: &[u8]) -> usize
    ensures { result ≡ count_left kind mask.now held.now }
{
    held.iter()
        .filter(|one| !one.is_replaced(kind, mask))
        .count()
}

// Creates the indexes of an empty table.
pub(crate) fn no_indexes(alloc: Global) -> [KindIndex; KINDS]
    ensures { AreIndexed [] result }
{
    array::from_fn(|_| KindIndex::new(alloc))
}

// Copies each bind, in order, and builds the indexes of the copies.
pub(crate) fn copy_of(
    alloc: Global,
    held: &[Held],
) -> Result<(Vec<Held>, [KindIndex; KINDS]), NoMemory>
    requires { AreApart held.now }
    ensures { IfOk result (λ p. (p.0.items ≡ held.now) × AreIndexed held.now p.1) }
{
    let mut copies = Vec::with_capacity(alloc, held.len())?;
    let mut indexes = no_indexes(alloc);
    for one in held {
        put(&mut copies, &mut indexes, alloc, one.copy(alloc)?)?;
    }
    Ok((copies, indexes))
}
