// The page of the log.
ghost use Rattle.std.specs.Prelude.{◌≤◌, length};

use crate::forms::Value;
use crate::layout::{put_end, put_top};
use crate::request::PagePath;
use crate::sheet::Sheet;
use crate::view::PageView;

// The most lines that the page shows.
const LINES: usize = 500;

// The most bytes of them.
const BYTES: usize = 65_536;

// Appends the page of the log: its last lines, the last one first.
pub(crate) fn put_log_page(sheet: &mut Sheet, view: &PageView<'_>) {
    put_top(sheet, view.own, view.links.place, PagePath::Log);
    sheet.put(
        b"<p>The last lines come first. Reload the page for newer ones.</p>\n<ol class=\"log\">\n",
    );
    let room = Room {
        lines: LINES,
        bytes: BYTES,
    };
    let room = put_lines(sheet, view.log.latest, room);
    let _left = put_lines(sheet, view.log.earlier, room);
    sheet.put(b"</ol>\n");
    put_end(sheet, view.now);
}

// How much of the log may still be shown.
#[derive(Clone, Copy)]
struct Room {
    lines: usize,
    bytes: usize,
}

// Appends the last of these lines for which there is room, the last one first. Returns what room is left: none if a line
// did not fit.
fn put_lines(sheet: &mut Sheet, lines: &[u8], room: Room) -> Room {
    let mut rest = lines;
    let mut left = room;
    for _line in 0..LINES {
        if rest.is_empty() {
            return left;
        }
        let (before, line) = last_line(rest);
        if left.lines == 0 || line.len() > left.bytes {
            break;
        }
        sheet.put_form(b"<li>$</li>\n", &[Value::Text(without_end(line))]);
        left = Room {
            lines: left.lines - 1,
            bytes: left.bytes - line.len(),
        };
        rest = before;
    }
    Room { lines: 0, bytes: 0 }
}

// Cuts lines before the last one.
fn last_line(lines: &[u8]) -> (&[u8], &[u8]) {
    let text = without_end(lines);
    match memchr::memrchr(b'\n', text) {
        Some(place) => lines.split_at(place + 1),
        None => (b"", lines),
    }
}

// A line without the LF at its end.
fn without_end(line: &[u8]) -> &[u8]
    ensures within { length result.now ≤ length line.now }
{
    match line.split_last() {
        Some((b'\n', front)) => front,
        _ => line,
    }
}
