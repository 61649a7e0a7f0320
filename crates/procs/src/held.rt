// A bind in the table, with its flags and mask parsed, so that no event parses them again.
ghost use Rattle.std.specs.Prelude.{◌≡◌, ◌<◌, IfOk, IfErr, length};

use crate::bind::Bind;
use crate::bind_kind::BindKind;
use crate::event::BindEvent;
use crate::index::IndexEntry;
use crate::kinds::{has_flags, is_kind, is_single};
use crate::matcher::{Matcher, is_in};
use bytetext::{NoMemory, Text, TryCopy};
use flagexpr::FlagExpr;
use rfccase::same;
use std::alloc::Global;
use std::marker::Model;
use wildmask::WideSignature;

pub(crate) struct Held {
    bind: Bind,
    flags: FlagExpr,
    matcher: Matcher,
}

// Written by hand, so that it is proved once and not in each function that drops one.
impl Drop for Held {
    fn drop(self) {
        let Held {
            bind: _,
            flags: _,
            matcher: _,
        } = self;
    }
}

impl Model for Held {
    ghost use Rattle.std.specs.Prelude.{◌≡◌};
    ghost use Rattle.flagexpr.specs.Expression.{expression_of};
    ghost use Rattle.procs.specs.declared.bind.Bind.{Bind};
    ghost use Rattle.procs.specs.Masks.{Says};

    ghost Value = { Bind };

    ghost view = { λ h. h.bind };

    ghost invariant = { λ h. (h.flags ≡ expression_of h.bind.flags) × Says h.bind.kind h.bind.mask h.matcher };
}

impl Held {
    ghost use Rattle.std.specs.Prelude.{◌≡◌, None, false, IfOk};
    ghost use Rattle.flagexpr.specs.Expression.{expression_of};
    ghost use Rattle.wildmask.specs.Masks.{bind_fault};
    ghost use Rattle.procs.specs.Tables.{is_bad_cron, is_such, is_replaced};
    ghost use Rattle.procs.specs.Calls.{takes_event, takes_person, is_called, seen};
    ghost use Rattle.procs.specs.Masks.{entry_of, needs_of};

    // Creates a held bind with these parsed flags.
    pub(crate) fn new(alloc: Global, bind: Bind, flags: FlagExpr) -> Result<Held, NoMemory>
        requires flags { flags ≡ expression_of bind.flags }
        requires mask { bind_fault bind.mask ≡ None }
        requires cron { is_bad_cron bind.kind bind.mask ≡ false }
        ensures { IfOk result (λ held. held ≡ bind) }
    {
        let matcher = Matcher::new(alloc, bind.kind, bind.mask.as_bytes())?;
        Ok(Held {
            bind,
            flags,
            matcher,
        })
    }

    // Returns the bind.
    pub(crate) fn bind(&self) -> &Bind
        ensures { result.now ≡ self.now }
    {
        &self.bind
    }

    pub(crate) fn number(&self) -> u32
        ensures { result ≡ self.now.number }
    {
        self.bind.number
    }

    pub(crate) fn kind(&self) -> BindKind
        ensures { result ≡ self.now.kind }
    {
        self.bind.kind
    }

    pub(crate) fn mask(&self) -> &[u8]
        ensures { result.now ≡ self.now.mask }
    {
        self.bind.mask.as_bytes()
    }

    // Whether the bind has this kind, mask and proc.
    pub(crate) fn is_such(&self, kind: BindKind, mask: &[u8], proc: &[u8]) -> bool
        ensures { result ≡ is_such kind mask.now proc.now self.now }
    {
        is_kind(kind, self.bind.kind)
            && same(self.bind.mask.as_bytes(), mask)
            && self.bind.proc.as_bytes() == proc
    }

    // Whether a bind of this kind and mask replaces this one.
    pub(crate) fn is_replaced(&self, kind: BindKind, mask: &[u8]) -> bool
        ensures { result ≡ is_replaced kind mask.now self.now }
    {
        is_single(kind) && is_kind(kind, self.bind.kind) && same(self.bind.mask.as_bytes(), mask)
    }

    // Gives the bind other flags.
    pub(crate) fn set_flags(&mut self, text: Text, flags: FlagExpr)
        requires { flags ≡ expression_of text }
        ensures { self.new ≡ record self.old { flags = text } }
    {
        self.bind.flags = text;
        self.flags = flags;
    }

    // Returns what can be said of the bind without looking at it.
    pub(crate) fn entry(&self) -> IndexEntry
        ensures { result ≡ entry_of self.now }
    {
        IndexEntry {
            number: self.bind.number,
            needs: self.needs(),
        }
    }

    // Returns the pairs of bytes that a subject needs to match.
    fn needs(&self) -> WideSignature
        ensures { result ≡ needs_of self.now }
    {
        match &self.matcher {
            Matcher::Wildcards(mask) => mask.wide_signature(),
            Matcher::Keyword | Matcher::Minutes(_) => WideSignature::of(&[]),
        }
    }

    // Whether an event calls the bind.
    pub(crate) fn is_called(&self, event: &BindEvent) -> bool
        ensures { result ≡ is_called (seen event.now) self.now }
    {
        is_kind(event.kind, self.bind.kind) && self.takes_event(event) && self.takes_person(event)
    }

    fn takes_event(&self, event: &BindEvent) -> bool
        ensures { result ≡ takes_event self.now (seen event.now) }
    {
        match &self.matcher {
            Matcher::Keyword => same(self.bind.mask.as_bytes(), event.subject),
            Matcher::Minutes(cron) => is_in(cron, &event.minute),
            Matcher::Wildcards(mask) => mask.matches(event.subject),
        }
    }

    fn takes_person(&self, event: &BindEvent) -> bool
        ensures { result ≡ takes_person self.now (seen event.now) }
    {
        !has_flags(self.bind.kind) || self.flags.meets(event.global, event.channel, event.bot)
    }
}

impl TryCopy for Held {
    fn copy(&self, alloc: Global) -> Result<Held, NoMemory> {
        let bind = self.bind.copy(alloc)?;
        let matcher = self.matcher.copy(alloc)?;
        Ok(Held {
            bind,
            flags: self.flags,
            matcher,
        })
    }
}

// Returns a copy of each bind, in order.
pub(crate) fn binds_of(alloc: Global, held: &[Held]) -> Result<Vec<Bind>, NoMemory>
    ensures binds { IfOk result (λ binds. binds.items ≡ held.now) }
    ensures memory { IfErr result (λ _. 0 < length held.now) }
{
    let mut binds = Vec::with_capacity(alloc, held.len())?;
    for one in held {
        binds.push(one.bind().copy(alloc)?)?;
    }
    Ok(binds)
}
