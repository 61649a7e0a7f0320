// What came of a step, as short texts beside its bot.
use crate::canvas::{Anchor, Canvas, Point};
use crate::places::{LINE, NOTE, place_of};
use botcore::{End, Note, StepFault};
use botworld::WorldReport;
use bytetext::Text;
use procs::{Code, MadeCall};
use replay::put_note;
use sharelink::LinkNote;
use std::alloc::Global;

// The maximum number of texts of one kind that are shown.
const MOST: usize = 6;

const STYLE: &[u8] = b"class=\"note\"";

/// The look of a refusal.
pub const REFUSAL_STYLE: &[u8] = b"class=\"note refusal\"";

// The notes of a step, one below the other.
#[derive(Drop)]
struct Notes<'a> {
    out: &'a mut Canvas,
    bot: u16,
    // The place and the look of the next note.
    y: u32,
    style: &'static [u8],
}

impl Notes<'_> {
    // Draws a text: on the left of the hub's line, or on the right of a leaf's.
    fn add(&mut self, note: &Canvas) {
        let x = place_of(self.bot);
        let (x, anchor) = if self.bot == 0 {
            (x.saturating_sub(15), Anchor::End)
        } else {
            (x.saturating_add(15), Anchor::Start)
        };
        self.out
            .begin_text(Point { x, y: self.y }, anchor, self.style);
        self.out.put_front(note, NOTE);
        self.out.end_text();
        self.y = self.y.saturating_add(LINE);
        self.style = STYLE;
    }
}

/// Draws on `out` what came of the step of `report`, from the height `y` down: how it ended, the calls of procs, the
/// packets and lines that it sent, and its faults. Returns the height of the next notes.
pub fn put_notes(alloc: Global, out: &mut Canvas, report: &WorldReport, y: u32) -> u32 {
    let mut notes = Notes {
        out,
        bot: report.bot,
        y,
        style: if is_refusal(report) {
            REFUSAL_STYLE
        } else {
            STYLE
        },
    };
    put_end(alloc, &mut notes, report.end, &report.note);
    put_calls(alloc, &mut notes, report.calls.as_slice());
    put_packets(alloc, &mut notes, report.first, report.count);
    put_lines(alloc, &mut notes, report.lines.as_slice());
    put_faults(alloc, &mut notes, report.faults.as_slice());
    notes.y
}

/// Returns whether the step of `report` was refused, or whether a change was.
pub fn is_refusal(report: &WorldReport) -> bool {
    match (report.end, &report.note) {
        (End::Refused(_), _) | (End::Done, Some(Note::Link(LinkNote::Refused(_)))) => true,
        (End::Done, Some(_) | None) | (End::NoMemory, _) => false,
    }
}

// How the step ended; nothing if it is done and has no note.
fn put_end(alloc: Global, notes: &mut Notes<'_>, end: End, note: &Option<Note>) {
    match (end, note) {
        (End::Done, None) => {}
        (End::Done, Some(_)) => {
            let mut text = Vec::new(alloc);
            let refused = put_note(&mut text, note).is_err();
            notes.add(&Canvas::made(text, refused));
        }
        (End::Refused(refusal), _) => {
            let mut text = Canvas::of(alloc, b"refused ");
            text.put(refusal.code().as_bytes());
            notes.add(&text);
        }
        (End::NoMemory, _) => notes.out.lack(),
    }
}

fn put_calls(alloc: Global, notes: &mut Notes<'_>, calls: &[MadeCall]) {
    for call in calls.iter().take(MOST) {
        let mut text = Canvas::of(alloc, b"calls ");
        text.put(call.proc.as_bytes());
        text.put(match call.reply.code {
            Code::Zero => b": 0",
            Code::One => b": 1",
        });
        notes.add(&text);
    }
    put_more(alloc, notes, calls.len(), b" calls more");
}

// How many are not shown.
fn put_more(alloc: Global, notes: &mut Notes<'_>, count: usize, of: &[u8]) {
    if count > MOST {
        let mut text = Canvas::of(alloc, b"and ");
        text.put_number((count - MOST) as u64);
        text.put(of);
        notes.add(&text);
    }
}

fn put_packets(alloc: Global, notes: &mut Notes<'_>, first: u64, count: usize) {
    if count > 0 {
        let mut text = Canvas::of(alloc, b"sends ");
        text.put_number(first);
        if count > 1 {
            text.put(b" to ");
            text.put_number(first.saturating_add(count as u64 - 1));
        }
        notes.add(&text);
    }
}

fn put_lines(alloc: Global, notes: &mut Notes<'_>, lines: &[Text]) {
    for line in lines.iter().take(MOST) {
        let mut text = Canvas::of(alloc, b"says ");
        text.put(line.as_bytes());
        notes.add(&text);
    }
    put_more(alloc, notes, lines.len(), b" lines more");
}

fn put_faults(alloc: Global, notes: &mut Notes<'_>, faults: &[StepFault]) {
    for fault in faults.iter().take(MOST) {
        let mut text = Canvas::of(alloc, b"fault ");
        text.put(fault.word().as_bytes());
        if let Some(proc) = fault.proc() {
            text.put(b" ");
            text.put(proc);
        }
        notes.add(&text);
    }
    put_more(alloc, notes, faults.len(), b" faults more");
}
