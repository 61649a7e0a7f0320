// The cases that steps play.
use crate::journal::JournalCase;
use crate::link_steps::play;
use crate::net::Net;
use crate::talk::Talk;
use caselines::{CaseError, StepMaker, cut};
use std::alloc::Global;

/// A case of each kind, as the steps so far left it.
#[derive(Drop)]
pub struct State {
    kind: Kind,
    journal: JournalCase,
    net: Net,
    talk: Talk,
}

// What the steps are of.
#[derive(Clone, Copy)]
enum Kind {
    Journal,
    Links,
    Talk,
}

impl State {
    /// Starts with two empty disks, a net without bots and a new server. Does not allocate.
    pub fn new(alloc: Global) -> State {
        State {
            kind: Kind::Journal,
            journal: JournalCase::new(alloc),
            net: Net::without_bots(alloc),
            talk: Talk::new(alloc),
        }
    }
}

impl StepMaker for State {
    fn step(&mut self, alloc: Global, line: &[u8], out: &mut Vec<u8>) -> Result<(), CaseError> {
        if let Some(kind) = begun_by(line) {
            self.kind = kind;
        }
        match self.kind {
            Kind::Journal => self.journal.play(alloc, line, out),
            Kind::Links => play(alloc, &mut self.net, line, out),
            Kind::Talk => self.talk.play(alloc, line, out),
        }
    }
}

// Returns the kind of the case that `line` begins, if it begins one.
fn begun_by(line: &[u8]) -> Option<Kind> {
    let (word, _) = cut(line, b' ');
    match word {
        b"disks" => Some(Kind::Journal),
        b"leaves" => Some(Kind::Links),
        b"server" => Some(Kind::Talk),
        _ => None,
    }
}
