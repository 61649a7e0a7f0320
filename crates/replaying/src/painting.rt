// From a script to its picture.
ghost use Rattle.std.specs.Prelude.{◌≤◌};
ghost use Rattle.sharelink.specs.declared.TheConstants.{MAX_LEAVES as most_leaves};

use crate::canvas::{Anchor, Canvas, Point};
use crate::faults::{PictureError, PictureFault};
use crate::flights::{put_cross, put_lost};
use crate::places::{FIRST_ROW, LINE, place_of, width_of};
use crate::rows::{Sheet, put_row};
use botworld::World;
use bytetext::{Failure, NoMemory};
use disks::Disk;
use procs::{ProcStore, Promise, Run};
use replay::{new_world, zone_or_utc};
use script::{Command, Commands, Saying, Script, pieces_of, saying_of};
use std::alloc::Global;

/// The maximum number of leaves of a script whose run is drawn.
pub const MAX_LEAVES: u16 = 8;

/// The maximum number of steps of a script whose run is drawn.
pub const MAX_STEPS: usize = 200;

/// Draws the run of the script that the bytes `script` spell. The script's binds call the procs of `store`.
///
/// # Errors
/// - `Refused` with `Script` and the first line that breaks a rule, else with `TooLarge` above 9 bots or 200 steps.
/// - `NoMemory` if memory cannot be allocated.
pub fn picture<P: Promise, B: Run>(
    alloc: Global,
    store: ProcStore<P, B>,
    script: &[u8],
) -> Result<Vec<u8>, PictureError> {
    match Script::read(alloc, script) {
        Ok(read) => {
            if read.leaves > MAX_LEAVES || steps_of(&read.commands) > MAX_STEPS {
                return Err(Failure::Refused(PictureFault::TooLarge));
            }
            Ok(drawn(alloc, store, script, read)?)
        }
        Err(Failure::Refused(fault)) => Err(Failure::Refused(PictureFault::Script(fault))),
        Err(Failure::NoMemory) => Err(Failure::NoMemory),
    }
}

// The total number of steps of these commands.
fn steps_of(commands: &Commands) -> usize {
    let mut count: usize = 0;
    for command in commands.as_slice() {
        count = match command {
            Command::Steps(steps) => count.saturating_add(steps.as_slice().len()),
            Command::Show(_) => count,
        };
    }
    count
}

// The picture of a script that is small enough.
fn drawn<P: Promise, B: Run>(
    alloc: Global,
    store: ProcStore<P, B>,
    bytes: &[u8],
    script: Script,
) -> Result<Vec<u8>, NoMemory>
    requires { script.leaves ≤ most_leaves }
{
    let Script {
        leaves,
        zone,
        commands: _,
    } = script;
    let mut world = new_world(alloc, store, leaves, &zone_or_utc(zone))?;
    let mut sheet = Sheet::new(alloc, FIRST_ROW);
    put_rows(alloc, &mut sheet, &mut world, bytes)?;
    let mut out = Canvas::new(alloc);
    put_page(&mut out, &mut sheet, &world, leaves);
    out.into_bytes()
}

// A row for each command except `show`, with its line of the script.
fn put_rows<P: Promise, D: Disk, B: Run>(
    alloc: Global,
    sheet: &mut Sheet,
    world: &mut World<P, D, B>,
    bytes: &[u8],
) -> Result<(), NoMemory> {
    let lines = pieces_of(alloc, bytes, b'\n')?;
    for line in lines.as_slice() {
        if let Saying::Told(Command::Steps(steps)) = saying_of(alloc, line)? {
            put_row(alloc, sheet, world, line, steps.as_slice());
        }
    }
    Ok(())
}

// The whole page.
fn put_page<P: Promise, D: Disk, B: Run>(
    out: &mut Canvas,
    sheet: &mut Sheet,
    world: &World<P, D, B>,
    leaves: u16,
) {
    let bottom = sheet.y;
    put_head(out, width_of(leaves), bottom.saturating_add(86));
    for bot in 0..leaves.saturating_add(1) {
        put_bot(out, world, bot, bottom);
    }
    for flight in sheet.flights.as_slice() {
        put_lost(&mut sheet.arrows, flight);
    }
    out.put_canvas(&sheet.arrows);
    out.put_canvas(&sheet.marks);
    put_legend(out, bottom.saturating_add(62));
    out.put(b"</svg>\n");
}

// The beginning of a picture of this size: its background, fonts and arrowheads.
fn put_head(out: &mut Canvas, width: u32, height: u32) {
    out.put(b"<svg xmlns=\"http://www.w3.org/2000/svg\"");
    out.put_attribute(b"width", width);
    out.put_attribute(b"height", height);
    out.put(b" font-family=\"sans-serif\" font-size=\"12\">\n");
    out.put(STYLE);
    out.put(b"<rect width=\"100%\" height=\"100%\" fill=\"#ffffff\"/>\n");
}

// The look of texts and arrowheads. A text has a white rim, so that it can be read over an arrow.
const STYLE: &[u8] = b"<style>\n\
.label{font-family:monospace;fill:#222}\n\
.count{fill:#888}\n\
.note{font-family:monospace;font-size:11px;fill:#222;stroke:#fff;stroke-width:4;paint-order:stroke;stroke-linejoin:round}\n\
.refusal{fill:#c0392b}\n\
.version{fill:#fff;font-weight:bold;font-size:11px}\n\
.name{fill:#222;font-weight:bold;font-size:13px}\n\
.end{fill:#555}\n\
</style>\n\
<defs>\n\
<marker id=\"head\" viewBox=\"0 0 8 8\" refX=\"7\" refY=\"4\" markerWidth=\"8\" markerHeight=\"8\" orient=\"auto\">\
<path d=\"M0 0L8 4L0 8z\" fill=\"#2c5d9b\"/></marker>\n\
<marker id=\"again\" viewBox=\"0 0 8 8\" refX=\"7\" refY=\"4\" markerWidth=\"8\" markerHeight=\"8\" orient=\"auto\">\
<path d=\"M0 0L8 4L0 8z\" fill=\"#7a7a7a\"/></marker>\n\
</defs>\n";

// A bot's name, its line, and its version at the end.
fn put_bot<P: Promise, D: Disk, B: Run>(
    out: &mut Canvas,
    world: &World<P, D, B>,
    bot: u16,
    bottom: u32,
) {
    let x = place_of(bot);
    let (top, end) = (Point { x, y: 46 }, Point { x, y: bottom });
    out.put_line(top, end, b"stroke=\"#999999\"");
    let name = Point { x, y: 34 };
    out.put_box(
        name,
        Point { x: 76, y: 26 },
        b"rx=\"5\" fill=\"#eef2f7\" stroke=\"#8a9bb0\"",
    );
    out.begin_text(name, Anchor::Middle, b"class=\"name\"");
    put_name(out, bot);
    out.end_text();
    let below = Point {
        x,
        y: bottom.saturating_add(LINE),
    };
    out.begin_text(below, Anchor::Middle, b"class=\"end\"");
    out.put(b"version ");
    out.put_number(u64::from(world.version(bot).unwrap_or(0)));
    out.end_text();
}

fn put_name(out: &mut Canvas, bot: u16) {
    if bot == 0 {
        out.put(b"hub");
    } else {
        out.put(b"leaf ");
        out.put_number(u64::from(bot));
    }
}

// What the marks mean.
fn put_legend(out: &mut Canvas, y: u32) {
    out.put_circle(Point { x: 56, y }, 7, b"fill=\"#2b7d3b\"");
    put_meaning(out, 68, y, b"accepted");
    out.put_circle(Point { x: 142, y }, 7, b"fill=\"#2c5d9b\"");
    put_meaning(out, 154, y, b"taken");
    out.put_circle(Point { x: 210, y }, 6, b"fill=\"#c0392b\"");
    put_meaning(out, 221, y, b"refused");
    out.put_box(
        Point { x: 288, y },
        Point { x: 14, y: 14 },
        b"rx=\"2\" fill=\"#c46a14\"",
    );
    put_meaning(out, 300, y, b"restarted");
    put_legend_arrows(out, y);
}

fn put_legend_arrows(out: &mut Canvas, y: u32) {
    let (from, to) = (Point { x: 372, y }, Point { x: 400, y });
    out.put_line(from, to, b"stroke=\"#2c5d9b\" marker-end=\"url(#head)\"");
    put_meaning(out, 407, y, b"came");
    let (from, to) = (Point { x: 450, y }, Point { x: 478, y });
    out.put_line(
        from,
        to,
        b"stroke=\"#7a7a7a\" stroke-dasharray=\"6 4\" marker-end=\"url(#again)\"",
    );
    put_meaning(out, 485, y, b"again");
    let (from, to) = (Point { x: 530, y }, Point { x: 552, y });
    out.put_line(from, to, b"stroke=\"#b04a3a\" stroke-dasharray=\"3 3\"");
    put_cross(out, to);
    put_meaning(out, 561, y, b"lost");
}

fn put_meaning(out: &mut Canvas, x: u32, y: u32, text: &[u8]) {
    out.begin_text(Point { x, y }, Anchor::Start, b"class=\"end\"");
    out.put(text);
    out.end_text();
}
