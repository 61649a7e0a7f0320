// A bind's mask in parsed form, so that no event parses its text again.
ghost use Rattle.std.specs.Prelude.{◌≡◌, None, false, IfOk};
ghost use Rattle.wildmask.specs.Masks.{bind_fault};
ghost use Rattle.procs.specs.Calls.{is_minute_in};
ghost use Rattle.procs.specs.Masks.{Says};
ghost use Rattle.procs.specs.Tables.{is_bad_cron};

use crate::bind_kind::BindKind;
use crate::kinds::{is_cron, is_single};
use bottimers::{CivilMinute, Cron};
use bytetext::{NoMemory, TryCopy};
use std::alloc::Global;
use wildmask::Mask;

// A parsed mask. The text of a keyword is in its bind.
#[derive(Drop)]
pub(crate) enum Matcher {
    Keyword,
    Minutes(Cron),
    Wildcards(Mask),
}

impl Matcher {
    // Parses a mask of a kind.
    pub(crate) fn new(alloc: Global, kind: BindKind, text: &[u8]) -> Result<Matcher, NoMemory>
        requires mask { bind_fault text.now ≡ None }
        requires cron { is_bad_cron kind text.now ≡ false }
        ensures { IfOk result (λ matcher. Says kind text.now matcher) }
    {
        if is_single(kind) {
            return Ok(Matcher::Keyword);
        }
        if is_cron(kind) {
            return Ok(Matcher::Minutes(Cron::parse(text).unwrap()));
        }
        match Mask::bind(alloc, text) {
            Ok(mask) => Ok(Matcher::Wildcards(mask)),
            Err(_) => Err(NoMemory),
        }
    }

    // Returns a copy.
    pub(crate) fn copy(&self, alloc: Global) -> Result<Matcher, NoMemory>
        ensures { IfOk result (λ matcher. matcher ≡ self.now) }
    {
        match self {
            Matcher::Keyword => Ok(Matcher::Keyword),
            Matcher::Minutes(cron) => Ok(Matcher::Minutes(*cron)),
            Matcher::Wildcards(mask) => Ok(Matcher::Wildcards(mask.copy(alloc)?)),
        }
    }
}

// Whether there is a minute and the cron fields match it.
pub(crate) fn is_in(cron: &Cron, minute: &Option<CivilMinute>) -> bool
    ensures { result ≡ is_minute_in cron.now minute.now }
{
    match minute {
        Some(at) => cron.matches(at),
        None => false,
    }
}
