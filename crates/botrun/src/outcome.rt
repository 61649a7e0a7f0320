// What the steps of a turn say about a change.
ghost use Rattle.std.specs.Prelude.{◌≡◌};
ghost use Rattle.botrun.specs.Outcomes.{of_end, of_refusal, outcome_of, told_by};

use administrators::ChangeOutcome;
use botcore::{End, Note, Refusal, Report};

// The outcome of a change from the reports of a turn: the first of them that says anything.
pub(crate) fn outcome_of(reports: &[Report]) -> ChangeOutcome
    ensures { result ≡ outcome_of reports.now }
{
    for report in reports {
        let outcome = told_by(report);
        if outcome.is_told() {
            return outcome;
        }
    }
    ChangeOutcome::Nothing
}

// What a step says about a change.
pub(crate) fn told_by(report: &Report) -> ChangeOutcome
    ensures { result ≡ told_by report.now }
{
    match report.end {
        End::Done => of_end(&report.note),
        End::Refused(refusal) => of_refusal(refusal),
        End::NoMemory => ChangeOutcome::Nothing,
    }
}

// What a refused step says about a change.
fn of_refusal(refusal: Refusal) -> ChangeOutcome
    ensures { result ≡ of_refusal refusal }
{
    match refusal {
        Refusal::Link(fault) => ChangeOutcome::of_fault(fault),
        Refusal::Bind(_) | Refusal::Clock(_) => ChangeOutcome::Nothing,
    }
}

// What a step that was done says about a change.
fn of_end(note: &Option<Note>) -> ChangeOutcome
    ensures { result ≡ of_end note.now }
{
    match note {
        Some(Note::Link(note)) => ChangeOutcome::of_note(note),
        Some(Note::Bound(_) | Note::Unbound(_) | Note::Bad(_)) | None => ChangeOutcome::Nothing,
    }
}
