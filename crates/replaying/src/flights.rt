// The packets, from where they are sent to where they are delivered.
use crate::canvas::{Canvas, Point};
use crate::places::place_of;

// The distance between the head of an arrow and the line of its addressee.
const HEAD: u32 = 11;

// The length of the line of a packet that is never delivered, and the extra length for each packet that its step sent
// before it.
const STUB: u32 = 34;

const HUB_STUB: u32 = 10;

const LEAF_STUB: u32 = 5;

/// A packet that was sent.
#[derive(Drop)]
pub struct Flight {
    /// The sender's number.
    pub from: u16,
    /// The addressee's number.
    pub to: u16,
    /// Where it was sent.
    pub y: u32,
    /// How many packets its step sent before this one.
    pub place: u32,
    /// Whether it has been delivered.
    pub has_come: bool,
}

/// Draws on `out` the arrow of the packet `flight`, which is delivered at the height `y`.
pub fn put_arrow(out: &mut Canvas, flight: &Flight, y: u32) {
    let from = Point {
        x: place_of(flight.from),
        y: flight.y,
    };
    let x = place_of(flight.to);
    let head = if flight.from < flight.to {
        x.saturating_sub(HEAD)
    } else {
        x.saturating_add(HEAD)
    };
    let to = Point { x: head, y };
    if flight.has_come {
        out.put_line(
            from,
            to,
            b"stroke=\"#7a7a7a\" stroke-dasharray=\"6 4\" marker-end=\"url(#again)\"",
        );
    } else {
        out.put_line(from, to, b"stroke=\"#2c5d9b\" marker-end=\"url(#head)\"");
    }
}

/// Draws the packet `flight` on `out` if it was never delivered: a short line and a cross.
pub fn put_lost(out: &mut Canvas, flight: &Flight) {
    if flight.has_come {
        return;
    }
    let x = place_of(flight.from);
    let end = if flight.from < flight.to {
        x.saturating_add(STUB + flight.place.min(16) * HUB_STUB)
    } else {
        x.saturating_sub(STUB + flight.place.min(2) * LEAF_STUB)
    };
    let from = Point { x, y: flight.y };
    let to = Point {
        x: end,
        y: flight.y.saturating_add(9),
    };
    out.put_line(from, to, b"stroke=\"#b04a3a\" stroke-dasharray=\"3 3\"");
    put_cross(out, to);
}

/// Draws a cross on `out` at the point `at`.
pub fn put_cross(out: &mut Canvas, at: Point) {
    let (left, right) = (at.x.saturating_sub(4), at.x.saturating_add(4));
    let (top, bottom) = (at.y.saturating_sub(4), at.y.saturating_add(4));
    let stroke = b"stroke=\"#b04a3a\" stroke-width=\"1.6\"";
    out.put_line(
        Point { x: left, y: top },
        Point {
            x: right,
            y: bottom,
        },
        stroke,
    );
    out.put_line(
        Point { x: left, y: bottom },
        Point { x: right, y: top },
        stroke,
    );
}
