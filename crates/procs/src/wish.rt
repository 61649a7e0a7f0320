// A requested bind, and how it is made.
ghost use Rattle.std.specs.Prelude.{◌≡◌, ℕ, ◌++◌, ◌∷◌, [], map, IfOk, OnOk, OnErr};
ghost use Rattle.procs.specs.Tables.{number_of, with_flags, with_number, without_replaced};
ghost use Rattle.procs.specs.Sound.{AreApart};
ghost use Rattle.procs.specs.Index.{AreIndexed};
ghost use Rattle.procs.specs.Wishes.{asked_of, IsWish, IsFound};

use crate::bind::Bind;
use crate::bind_kind::BindKind;
use crate::held::Held;
use crate::index::KindIndex;
use crate::keep::put;
use crate::kinds::KINDS;
use bytetext::{NoMemory, Text};
use flagexpr::FlagExpr;
use std::alloc::Global;

// A requested bind, with its flags parsed.
#[derive(Drop)]
pub(crate) struct Wish<'a> {
    pub(crate) kind: BindKind,
    pub(crate) flags: &'a [u8],
    pub(crate) mask: &'a [u8],
    pub(crate) proc: &'a [u8],
    pub(crate) expression: FlagExpr,
}

// Gives the bind at a place the requested flags, and returns its number.
pub(crate) fn renew(
    held: &mut Vec<Held>,
    alloc: Global,
    at: usize,
    wish: &Wish,
) -> Result<u32, NoMemory>
    requires wish { IsWish wish.now }
    requires apart { AreApart held.old.items }
    requires found { IsFound wish.now held.old.items at }
    ensures ok { OnOk result (held.new.items ≡ map (with_flags (asked_of wish.now)) held.old.items) }
    ensures err { OnErr result (held.new.items ≡ held.old.items) }
    ensures number { (last : ℕ) → IfOk result (λ number.
        number ≡ number_of (record { binds = held.old.items; last = last }) (asked_of wish.now)) }
{
    let text = Text::from_slice(alloc, wish.flags)?;
    let one = &mut held[at];
    one.set_flags(text, wish.expression);
    Ok(one.bind().number)
}

// Appends the requested bind under a number, and removes the bind that it replaces.
pub(crate) fn add(
    held: &mut Vec<Held>,
    indexes: &mut [KindIndex; KINDS],
    alloc: Global,
    wish: &Wish,
    number: u32,
) -> Result<(), NoMemory>
    requires wish { IsWish wish.now }
    requires apart { AreApart held.old.items }
    requires indexed { AreIndexed held.old.items indexes.old }
    ensures indexed { AreIndexed held.new.items indexes.new }
    ensures ok { OnOk result (held.new.items ≡ without_replaced wish.now.kind wish.now.mask.now held.old.items
        ++ with_number (asked_of wish.now) number ∷ []) }
    ensures err { OnErr result (held.new.items ≡ held.old.items) }
{
    let one = held_of(alloc, wish, number)?;
    put(held, indexes, alloc, one)
}

// Creates the requested bind under a number.
fn held_of(alloc: Global, wish: &Wish, number: u32) -> Result<Held, NoMemory>
    requires { IsWish wish.now }
    ensures { IfOk result (λ held. held ≡ with_number (asked_of wish.now) number) }
{
    let flags = Text::from_slice(alloc, wish.flags)?;
    let mask = Text::from_slice(alloc, wish.mask)?;
    let proc = Text::from_slice(alloc, wish.proc)?;
    let bind = Bind {
        number,
        kind: wish.kind,
        flags,
        mask,
        proc,
    };
    Held::new(alloc, bind, wish.expression)
}
