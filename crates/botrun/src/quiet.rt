// Turns whose steps say nothing.
ghost use Rattle.std.specs.Prelude.{◌≡◌, [], true};
ghost use Rattle.turns.specs.Queues.{packets_in};
ghost use Rattle.botrun.specs.Taking.{TellsNothing};

use botcore::{End, Report};
use ircline::Line;
use turns::{HeardLine, Told, TurnEnd};

// Whether all steps of a turn are made, none of them says anything, and its lines are what people say.
pub(crate) fn tells_nothing(told: &Told) -> bool
    ensures { result ≡ true → TellsNothing told.now }
{
    let is_done = match told.end {
        TurnEnd::Done => true,
        TurnEnd::NoMemory => false,
    };
    is_done && are_said(told.lines.as_slice()) && are_quiet(told.reports.as_slice())
}

// Whether these lines are what people say.
fn are_said(lines: &[HeardLine]) -> bool {
    for heard in lines {
        if !is_said(&heard.line) {
            return false;
        }
    }
    true
}

fn is_said(line: &Line) -> bool {
    match line {
        Line::Message(message) => message.is_said(),
        Line::Bad(_) => false,
    }
}

// Whether these reports say nothing.
fn are_quiet(reports: &[Report]) -> bool
    ensures { result ≡ true → packets_in reports.now ≡ [] }
{
    for report in reports {
        if !is_quiet(report) {
            return false;
        }
    }
    true
}

fn is_quiet(report: &Report) -> bool
    ensures { result ≡ true → report.now.packets ≡ [] }
{
    let is_done = match report.end {
        End::Done => report.note.is_none(),
        End::Refused(_) | End::NoMemory => false,
    };
    is_done
        && report.calls.is_empty()
        && report.packets.is_empty()
        && report.lines.is_empty()
        && report.faults.is_empty()
}
