// The lines of a step: its calls, the packets and the lines that it sent, its faults, and how it ended.
ghost use Rattle.std.specs.Prelude.{◌≡◌, ◌≢◌, ◌++◌, OnOk};
ghost use Rattle.std.specs.List.{flat_map};
ghost use Rattle.std.specs.Option.{option_copied};
ghost use Rattle.botcore.specs.declared.report.End.TheVariants.{NoMemory as ended_no_memory};
ghost use Rattle.botworld.specs.Network.{IsMade};
ghost use Rattle.replay.specs.Text.{call_line, code_text, fault_line, fault_text, found_line, out_line, sent_lines};
ghost use Rattle.replay.specs.Text.{outcome_text, report_text};

use crate::ends::put_end;
use crate::packets::put_sent;
use botcore::StepFault;
use botworld::{Outcome, Sent, World, WorldReport};
use bytetext::{NoMemory, Text};
use disks::Disk;
use procs::{Code, MadeCall, Promise, Run};
use recordtext::{put, put_number};

/// Appends to `out` the lines of the step with this `outcome`, whose packets `world` holds.
///
/// # Errors
/// `NoMemory` if memory cannot be allocated, and if the step itself ended with `NoMemory`.
pub fn put_outcome<P: Promise, D: Disk, B: Run>(
    out: &mut Vec<u8>,
    world: &World<P, D, B>,
    outcome: &Outcome,
) -> Result<(), NoMemory>
    ensures made { OnOk result (IsMade outcome.now) }
    ensures added { OnOk result (out.new.items ≡ out.old.items ++ outcome_text world.now.packets outcome.now) }
{
    match outcome {
        Outcome::Report(report) => put_report(out, world, report),
        Outcome::NoSuchBot => put(out, b"world O2\n"),
        Outcome::NoSuchPacket => put(out, b"world O3\n"),
    }
}

// The lines of a bot's part in a step.
#[tactic(auto, using(std::proofs::Common::append_assoc))]
fn put_report<P: Promise, D: Disk, B: Run>(
    out: &mut Vec<u8>,
    world: &World<P, D, B>,
    report: &WorldReport,
) -> Result<(), NoMemory>
    ensures made { OnOk result (report.now.end ≢ ended_no_memory) }
    ensures added { OnOk result (out.new.items ≡ out.old.items ++ report_text world.now.packets report.now) }
{
    put_calls(out, report.bot, report.calls.as_slice())?;
    put_packets(out, world, report.first, report.count)?;
    put_lines(out, report.bot, report.lines.as_slice())?;
    put_faults(out, report.bot, report.faults.as_slice())?;
    put_end(out, report.bot, report.end, &report.note)
}

// The line of each call, in order.
fn put_calls(out: &mut Vec<u8>, bot: u16, calls: &[MadeCall]) -> Result<(), NoMemory>
    ensures { OnOk result (out.new.items ≡ out.old.items ++ flat_map (call_line bot) calls.now) }
{
    for call in calls {
        put_call(out, bot, call)?;
    }
    Ok(())
}

// call B PROC CODE
#[tactic(auto, using(std::proofs::Common::append_assoc))]
fn put_call(out: &mut Vec<u8>, bot: u16, call: &MadeCall) -> Result<(), NoMemory>
    ensures { OnOk result (out.new.items ≡ out.old.items ++ call_line bot call.now) }
{
    put(out, b"call ")?;
    put_number(out, u64::from(bot))?;
    put(out, b" ")?;
    put(out, call.proc.as_bytes())?;
    put(out, code_text(call.reply.code))
}

// The code, and the end of the line.
fn code_text(code: Code) -> &'static [u8]
    ensures { result.now ≡ code_text code }
{
    match code {
        Code::Zero => b" 0\n",
        Code::One => b" 1\n",
    }
}

// The `count` packets from the number `first` on. Numbers are below 2^64, so the last one fits if these packets exist.
fn put_packets<P: Promise, D: Disk, B: Run>(
    out: &mut Vec<u8>,
    world: &World<P, D, B>,
    first: u64,
    count: usize,
) -> Result<(), NoMemory>
    ensures { OnOk result (out.new.items ≡ out.old.items ++ sent_lines world.now.packets first count) }
{
    let Some(after) = first.checked_add(count as u64) else {
        return Err(NoMemory);
    };
    for number in first..after {
        put_found(out, number, world.packet(number))?;
    }
    Ok(())
}

// The line of a packet; nothing for `None`.
fn put_found(out: &mut Vec<u8>, number: u64, sent: Option<&Sent>) -> Result<(), NoMemory>
    ensures { OnOk result (out.new.items ≡ out.old.items ++ found_line number (option_copied sent.entry)) }
{
    match sent {
        Some(sent) => put_sent(out, number, sent),
        None => Ok(()),
    }
}

// The line of each line for the server, in order.
fn put_lines(out: &mut Vec<u8>, bot: u16, lines: &[Text]) -> Result<(), NoMemory>
    ensures { OnOk result (out.new.items ≡ out.old.items ++ flat_map (out_line bot) lines.now) }
{
    for line in lines {
        put_line(out, bot, line)?;
    }
    Ok(())
}

// out B LINE
#[tactic(auto, using(std::proofs::Common::append_assoc))]
fn put_line(out: &mut Vec<u8>, bot: u16, line: &Text) -> Result<(), NoMemory>
    ensures { OnOk result (out.new.items ≡ out.old.items ++ out_line bot line.now) }
{
    put(out, b"out ")?;
    put_number(out, u64::from(bot))?;
    put(out, b" ")?;
    put(out, line.as_bytes())?;
    put(out, b"\n")
}

// The line of each fault, in order.
fn put_faults(out: &mut Vec<u8>, bot: u16, faults: &[StepFault]) -> Result<(), NoMemory>
    ensures { OnOk result (out.new.items ≡ out.old.items ++ flat_map (fault_line bot) faults.now) }
{
    for fault in faults {
        put_fault(out, bot, fault)?;
    }
    Ok(())
}

// fault B NAME
#[tactic(auto, using(std::proofs::Common::append_assoc))]
fn put_fault(out: &mut Vec<u8>, bot: u16, fault: &StepFault) -> Result<(), NoMemory>
    ensures { OnOk result (out.new.items ≡ out.old.items ++ fault_line bot fault.now) }
{
    put(out, b"fault ")?;
    put_number(out, u64::from(bot))?;
    put(out, b" ")?;
    put_name(out, fault)?;
    put(out, b"\n")
}

// Unbound PROC, or the code of a refused action or of a line that wasn't queued.
#[tactic(auto, using(std::proofs::Common::append_assoc))]
fn put_name(out: &mut Vec<u8>, fault: &StepFault) -> Result<(), NoMemory>
    ensures { OnOk result (out.new.items ≡ out.old.items ++ fault_text fault.now) }
{
    match fault {
        StepFault::Unbound(unbound) => {
            put(out, b"Unbound ")?;
            put(out, unbound.proc.as_bytes())
        }
        StepFault::Action(fault) => put(out, fault.code().as_bytes()),
        StepFault::Line(fault) => put(out, fault.code().as_bytes()),
    }
}
