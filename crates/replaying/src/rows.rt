// One row of a picture: a command of the script, and what came of its steps.
use crate::canvas::{Anchor, Canvas, Point};
use crate::flights::{Flight, put_arrow};
use crate::notes::{REFUSAL_STYLE, is_refusal, put_notes};
use crate::places::{GAP, LABEL, LINE, place_of};
use botcore::Note;
use botworld::{Outcome, Step, World, WorldReport};
use disks::Disk;
use procs::{Promise, Run};
use replay::put_packet;
use sharelink::LinkNote;
use std::alloc::Global;
use std::slice;

// The looks of the number in a mark, and of the label of a row and its number.
const VERSION_STYLE: &[u8] = b"class=\"version\"";

const LABEL_STYLE: &[u8] = b"class=\"label\"";

const COUNT_STYLE: &[u8] = b"class=\"count\"";

/// What is drawn so far, except for the bots' own lines.
pub struct Sheet {
    /// The arrows, which lie below the rest.
    pub arrows: Canvas,
    /// Marks and texts.
    pub marks: Canvas,
    /// The packets, by number from 1.
    pub flights: Vec<Flight>,
    /// The height of the next row.
    pub y: u32,
    /// The number of rows so far.
    pub rows: u32,
}

// By hand, so that this is proved once, and not in each function in which one ends.
impl Drop for Sheet {
    fn drop(self) {
        let Sheet {
            arrows: _,
            marks: _,
            flights: _,
            y: _,
            rows: _,
        } = self;
    }
}

impl Sheet {
    /// Creates a sheet with nothing drawn, whose first row is at the height `y`. Never allocates.
    pub fn new(alloc: Global, y: u32) -> Sheet {
        Sheet {
            arrows: Canvas::new(alloc),
            marks: Canvas::new(alloc),
            flights: Vec::new(alloc),
            y,
            rows: 0,
        }
    }
}

/// Makes the `steps` of a command in `world`, and draws its row on `sheet`, with its `line` of the script.
pub fn put_row<P: Promise, D: Disk, B: Run>(
    alloc: Global,
    sheet: &mut Sheet,
    world: &mut World<P, D, B>,
    line: &[u8],
    steps: &[Step],
) {
    sheet.rows = sheet.rows.saturating_add(1);
    put_label(alloc, sheet, world, line, steps);
    let mut y = sheet.y;
    for step in steps {
        y = put_step(alloc, sheet, world, step, y);
    }
    sheet.y = y.max(sheet.y.saturating_add(LINE)).saturating_add(GAP);
}

// The number of a row and its line of the script, and what the packet of a delivery is.
fn put_label<P: Promise, D: Disk, B: Run>(
    alloc: Global,
    sheet: &mut Sheet,
    world: &World<P, D, B>,
    line: &[u8],
    steps: &[Step],
) {
    let (y, row) = (sheet.y, sheet.rows);
    let out = &mut sheet.marks;
    out.begin_text(Point { x: 36, y }, Anchor::End, COUNT_STYLE);
    out.put_number(u64::from(row));
    out.end_text();
    out.begin_text(Point { x: 46, y }, Anchor::Start, LABEL_STYLE);
    out.put_text(line, LABEL);
    if let [Step::Deliver { packet }] = steps {
        put_kind(alloc, out, world, *packet);
    }
    out.end_text();
}

// What a packet is; nothing if no packet has this number.
fn put_kind<P: Promise, D: Disk, B: Run>(
    alloc: Global,
    out: &mut Canvas,
    world: &World<P, D, B>,
    packet: u64,
) {
    let Some(sent) = world.packet(packet) else {
        return;
    };
    let mut kind = Vec::new(alloc);
    let refused = put_packet(&mut kind, &sent.packet).is_err();
    out.put(b" (");
    out.put_front(&Canvas::made(kind, refused), 16);
    out.put(b")");
}

// Makes a step and draws what came of it at this height. Returns the height of the next step of the row.
fn put_step<P: Promise, D: Disk, B: Run>(
    alloc: Global,
    sheet: &mut Sheet,
    world: &mut World<P, D, B>,
    step: &Step,
    y: u32,
) -> u32 {
    let before = version_of(world, step);
    let transcript = world.run(alloc, slice::from_ref(step));
    let [outcome] = transcript.outcomes.as_slice() else {
        sheet.marks.lack();
        return y;
    };
    match outcome {
        Outcome::Report(report) => {
            land(sheet, step, y);
            send(sheet, world, report, y);
            let is_changed = world.version(report.bot) != before;
            put_report(alloc, sheet, world, report, is_changed, y)
        }
        Outcome::NoSuchBot => put_none(sheet, b"there is no such bot", y),
        Outcome::NoSuchPacket => put_none(sheet, b"there is no such packet", y),
    }
}

// The version of the bot that takes part in a step.
fn version_of<P: Promise, D: Disk, B: Run>(world: &World<P, D, B>, step: &Step) -> Option<u32> {
    match step {
        Step::At { bot, .. } => world.version(*bot),
        Step::Deliver { packet } => world.version(world.packet(*packet)?.to),
    }
}

// What a row shows for a step in which no bot takes part.
fn put_none(sheet: &mut Sheet, text: &[u8], y: u32) -> u32 {
    let at = Point {
        x: place_of(0).saturating_sub(15),
        y,
    };
    sheet.marks.begin_text(at, Anchor::End, REFUSAL_STYLE);
    sheet.marks.put(text);
    sheet.marks.end_text();
    y.saturating_add(LINE)
}

// Draws the arrow of a packet that is delivered.
fn land(sheet: &mut Sheet, step: &Step, y: u32) {
    let Step::Deliver { packet } = step else {
        return;
    };
    let place = packet.saturating_sub(1) as usize;
    if let Some(flight) = sheet.flights.get_mut(place) {
        put_arrow(&mut sheet.arrows, flight, y);
        flight.has_come = true;
    }
}

// Keeps the packets that a step has sent.
fn send<P: Promise, D: Disk, B: Run>(
    sheet: &mut Sheet,
    world: &World<P, D, B>,
    report: &WorldReport,
    y: u32,
) {
    let after = report.first.saturating_add(report.count as u64);
    let mut place: u32 = 0;
    for number in report.first..after {
        if let Some(sent) = world.packet(number) {
            let flight = Flight {
                from: sent.from,
                to: sent.to,
                y,
                place,
                has_come: false,
            };
            if sheet.flights.push(flight).is_err() {
                sheet.marks.lack();
            }
        }
        place = place.saturating_add(1);
    }
}

// Draws a bot's mark and its notes. Returns the height of the next.
fn put_report<P: Promise, D: Disk, B: Run>(
    alloc: Global,
    sheet: &mut Sheet,
    world: &World<P, D, B>,
    report: &WorldReport,
    is_changed: bool,
    y: u32,
) -> u32 {
    let version = world.version(report.bot).unwrap_or(0);
    put_mark(&mut sheet.marks, report, is_changed, version, y);
    put_notes(alloc, &mut sheet.marks, report, y)
}

// A step's mark, with the version in it if the version has changed or was found by a restart.
fn put_mark(out: &mut Canvas, report: &WorldReport, is_changed: bool, version: u32, y: u32) {
    let at = Point {
        x: place_of(report.bot),
        y,
    };
    if is_restart(&report.note) {
        out.put_box(at, Point { x: 19, y: 19 }, b"rx=\"2\" fill=\"#c46a14\"");
        put_version(out, at, version);
    } else if is_changed {
        let fill: &[u8] = if report.bot == 0 {
            b"fill=\"#2b7d3b\""
        } else {
            b"fill=\"#2c5d9b\""
        };
        out.put_circle(at, 10, fill);
        put_version(out, at, version);
    } else if is_refusal(report) {
        out.put_circle(at, 6, b"fill=\"#c0392b\"");
    } else {
        out.put_circle(at, 4, b"fill=\"#555555\"");
    }
}

fn put_version(out: &mut Canvas, at: Point, version: u32) {
    out.begin_text(at, Anchor::Middle, VERSION_STYLE);
    out.put_number(u64::from(version));
    out.end_text();
}

fn is_restart(note: &Option<Note>) -> bool {
    match note {
        Some(Note::Link(LinkNote::Restarted(_))) => true,
        Some(_) | None => false,
    }
}
