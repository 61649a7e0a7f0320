// The lines that are printed, and the status that follows from them.
use crate::fault::DoctorFault;
use crate::rank::{Rank, status_of};
use crate::subject::Subject;
use crate::verdict::Verdict;
use bytetext::NoMemory;
use std::alloc::Global;
use std::marker::Model;

// The findings that were printed. Contracts see their ranks, in order, and whether each finding was printed. After a fault
// nothing more is printed, and `status` says why: so whoever looks at something looks at no single step.
pub(crate) struct Report {
    ranks: Vec<Rank>,
    fault: Option<DoctorFault>,
}

// By hand, so that this is proved once, and not in each function in which one ends.
impl Drop for Report {
    fn drop(self) {
        let Report { ranks: _, fault: _ } = self;
    }
}

impl Model for Report {
    ghost use Rattle.std.specs.Option.{is_none};
    ghost use Rattle.doctor.specs.Status.{Told};

    ghost Value = { Told };

    ghost view = { λ report. record { ranks = report.ranks.items; is_whole = is_none report.fault } };
}

impl Report {
    ghost use Rattle.std.specs.Prelude.{◌≡◌, IfOk, false, true};
    ghost use Rattle.doctor.specs.Status.{Tells, nothing, rank_of, status_of};

    // No finding yet. Allocates nothing.
    pub(crate) fn new(alloc: Global) -> Report
        ensures { result ≡ nothing }
    {
        Report {
            ranks: Vec::new(alloc),
            fault: None,
        }
    }

    // Prints the line of a finding, and counts it.
    pub(crate) fn tell<R: Print>(&mut self, rt: &R, subject: Subject<'_>, verdict: Verdict)
        ensures told { Tells self.old (rank_of verdict) self.new }
    {
        if self.fault.is_some() {
            return;
        }
        let rank = verdict.rank();
        if println!(rt; "{rank}: {subject} {verdict}").is_err() {
            self.fault = Some(DoctorFault::Write);
        } else if self.ranks.push(rank).is_err() {
            self.fault = Some(DoctorFault::NoMemory);
        }
    }

    // Prints the line of what was found, if memory sufficed to look.
    pub(crate) fn tell_found<R: Print>(
        &mut self,
        rt: &R,
        subject: Subject<'_>,
        found: Result<Verdict, NoMemory>,
    ) {
        match found {
            Ok(verdict) => self.tell(rt, subject, verdict),
            Err(NoMemory) => self.lack_memory(),
        }
    }

    // Prints the line of a finding, if there is one.
    pub(crate) fn tell_some<R: Print>(
        &mut self,
        rt: &R,
        subject: Subject<'_>,
        finding: Option<Verdict>,
    ) {
        if let Some(verdict) = finding {
            self.tell(rt, subject, verdict);
        }
    }

    // Notes that no memory is left to look at something.
    pub(crate) fn lack_memory(&mut self)
        ensures { self.new.is_whole ≡ false }
    {
        if self.fault.is_none() {
            self.fault = Some(DoctorFault::NoMemory);
        }
    }

    // Whether nothing more is printed.
    pub(crate) fn has_fault(&self) -> bool {
        self.fault.is_some()
    }

    // The status to end with, or why a finding was not printed.
    pub(crate) fn status(&self) -> Result<u8, DoctorFault>
        ensures whole { IfOk result (λ status. self.now.is_whole ≡ true) }
        ensures value { IfOk result (λ status. status ≡ status_of self.now.ranks) }
    {
        match self.fault {
            Some(fault) => Err(fault),
            None => Ok(status_of(self.ranks.as_slice())),
        }
    }
}
