// What a turn reports.
use botcore::{End, Note, Report};
use caselines::{CaseError, Sink};
use sharelink::Outgoing;
use sharewire::Packet;
use std::alloc::Global;
use turns::{Told, TurnEnd};

/// Writes the reports of the turn `told`, with ` ; ` between. Returns `NoMemory` if the turn ran out of memory.
pub fn put_reports(alloc: Global, told: &Told, out: &mut Sink) -> Result<(), CaseError> {
    if told.end == TurnEnd::NoMemory {
        return Err(CaseError::NoMemory);
    }
    for (place, report) in told.reports.as_slice().iter().enumerate() {
        out.between(b" ; ", place);
        put_report(alloc, report, out)?;
    }
    Ok(())
}

fn put_report(alloc: Global, report: &Report, out: &mut Sink) -> Result<(), CaseError> {
    match report.end {
        End::Done => put_note(alloc, &report.note, out)?,
        End::Refused(refusal) => out.put(refusal.code().as_bytes()),
        End::NoMemory => return Err(CaseError::NoMemory),
    }
    for line in report.lines.as_slice() {
        out.quoted(line.as_bytes());
    }
    for packet in report.packets.as_slice() {
        put_packet(packet, out);
    }
    Ok(())
}

fn put_note(alloc: Global, note: &Option<Note>, out: &mut Sink) -> Result<(), CaseError> {
    match note {
        Some(note) => out.put(format!(in alloc; "{note:?}")?.as_bytes()),
        None => out.put(b"done"),
    }
    Ok(())
}

// Writes a packet's addressee, its kind, and its numbers.
fn put_packet(outgoing: &Outgoing, out: &mut Sink) {
    out.put(b" ");
    out.number(u64::from(outgoing.to));
    match &outgoing.packet {
        Packet::Hello { version, .. } => counted(b":Hello", *version, out),
        Packet::Change { number, .. } => counted(b":Change", *number, out),
        Packet::Part { version, .. } => counted(b":Part", *version, out),
        Packet::Request { request, .. } => counted(b":Request", *request, out),
        Packet::Accepted { request, .. } => counted(b":Accepted", *request, out),
        Packet::Refused { request, .. } => counted(b":Refused", *request, out),
        Packet::BotText { from, .. } => counted(b":BotText", u32::from(*from), out),
    }
}

fn counted(word: &[u8], number: u32, out: &mut Sink) {
    out.put(word);
    out.put(b" ");
    out.number(u64::from(number));
}
