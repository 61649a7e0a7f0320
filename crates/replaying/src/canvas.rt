// An SVG text that grows: shapes and texts are appended.
use bytetext::NoMemory;
use itoa::Buffer;
use std::alloc::Global;

/// How a text is aligned to its point.
#[derive(Clone, Copy)]
pub enum Anchor {
    /// The text begins there.
    Start,
    /// The middle of the text is there.
    Middle,
    /// The text ends there.
    End,
}

/// A point, measured from the left and from the top.
#[derive(Clone, Copy)]
pub struct Point {
    pub x: u32,
    pub y: u32,
}

/// What is drawn so far. If memory runs out, the canvas leaves out what it can't draw, and reports the failure at the
/// end.
#[derive(Drop)]
pub struct Canvas {
    bytes: Vec<u8>,
    refused: bool,
}

impl Canvas {
    /// Creates an empty canvas. Never allocates.
    pub fn new(alloc: Global) -> Canvas {
        Canvas {
            bytes: Vec::new(alloc),
            refused: false,
        }
    }

    /// Creates a canvas that has the bytes `text`.
    pub fn of(alloc: Global, text: &[u8]) -> Canvas {
        let mut canvas = Canvas::new(alloc);
        canvas.put(text);
        canvas
    }

    /// Creates a canvas of `bytes` that were written elsewhere; `refused` says whether memory ran out then. Never
    /// allocates.
    pub fn made(bytes: Vec<u8>, refused: bool) -> Canvas {
        Canvas { bytes, refused }
    }

    /// Returns all that is drawn.
    ///
    /// # Errors
    /// `NoMemory` if memory ran out for something that was to be drawn.
    pub fn into_bytes(self) -> Result<Vec<u8>, NoMemory> {
        if self.refused {
            Err(NoMemory)
        } else {
            Ok(self.bytes)
        }
    }

    /// Notes that memory ran out for something that was to be drawn.
    pub fn lack(&mut self) {
        self.refused = true;
    }

    /// Appends the bytes `text`.
    pub fn put(&mut self, text: &[u8]) {
        if self.bytes.extend_from_slice(text).is_err() {
            self.refused = true;
        }
    }

    /// Appends all that `other` has.
    pub fn put_canvas(&mut self, other: &Canvas) {
        self.put(other.bytes.as_slice());
        self.refused = self.refused || other.refused;
    }

    /// Appends `number` in base ten.
    pub fn put_number(&mut self, number: u64) {
        let mut buffer = Buffer::new();
        self.put(buffer.format(number).as_bytes());
    }

    /// Appends at most `most` bytes of `text` as XML text. A byte that is not printable ASCII becomes a question mark,
    /// and two full stops replace what is cut off.
    pub fn put_text(&mut self, text: &[u8], most: usize) {
        for byte in text.iter().take(most) {
            match spelling_of(*byte) {
                Some(spelling) => self.put(spelling),
                None => self.put(&[*byte]),
            }
        }
        if text.len() > most {
            self.put(b"..");
        }
    }

    /// Appends at most `most` bytes of what `other` has, as XML text.
    pub fn put_front(&mut self, other: &Canvas, most: usize) {
        self.put_text(other.bytes.as_slice(), most);
        self.refused = self.refused || other.refused;
    }

    /// Appends the attribute ` NAME="NUMBER"`, with this `name` and this `value`.
    pub fn put_attribute(&mut self, name: &[u8], value: u32) {
        self.put(b" ");
        self.put(name);
        self.put(b"=\"");
        self.put_number(u64::from(value));
        self.put(b"\"");
    }

    /// Appends a line from the point `from` to the point `to`, with the attributes `more`.
    pub fn put_line(&mut self, from: Point, to: Point, more: &[u8]) {
        self.put(b"<line");
        self.put_attribute(b"x1", from.x);
        self.put_attribute(b"y1", from.y);
        self.put_attribute(b"x2", to.x);
        self.put_attribute(b"y2", to.y);
        self.end_shape(more);
    }

    /// Appends a circle around `middle` with this `radius`, and with the attributes `more`.
    pub fn put_circle(&mut self, middle: Point, radius: u32, more: &[u8]) {
        self.put(b"<circle");
        self.put_attribute(b"cx", middle.x);
        self.put_attribute(b"cy", middle.y);
        self.put_attribute(b"r", radius);
        self.end_shape(more);
    }

    /// Appends a square or a box around `middle` of this `size`, with the attributes `more`.
    pub fn put_box(&mut self, middle: Point, size: Point, more: &[u8]) {
        self.put(b"<rect");
        self.put_attribute(b"x", middle.x.saturating_sub(size.x / 2));
        self.put_attribute(b"y", middle.y.saturating_sub(size.y / 2));
        self.put_attribute(b"width", size.x);
        self.put_attribute(b"height", size.y);
        self.end_shape(more);
    }

    fn end_shape(&mut self, more: &[u8]) {
        self.put(b" ");
        self.put(more);
        self.put(b"/>\n");
    }

    /// Begins a text at the point `at`, aligned by `anchor`, with the attributes `more`. [`end_text`](Canvas::end_text)
    /// ends it.
    pub fn begin_text(&mut self, at: Point, anchor: Anchor, more: &[u8]) {
        self.put(b"<text");
        self.put_attribute(b"x", at.x);
        self.put_attribute(b"y", at.y.saturating_add(4));
        self.put(match anchor {
            Anchor::Start => b"",
            Anchor::Middle => b" text-anchor=\"middle\"",
            Anchor::End => b" text-anchor=\"end\"",
        });
        self.put(b" ");
        self.put(more);
        self.put(b">");
    }

    /// Ends a text.
    pub fn end_text(&mut self) {
        self.put(b"</text>\n");
    }
}

// What replaces a byte in XML text, or `None` if the byte stays as it is.
fn spelling_of(byte: u8) -> Option<&'static [u8]> {
    match byte {
        b'<' => Some(b"&lt;"),
        b'>' => Some(b"&gt;"),
        b'&' => Some(b"&amp;"),
        32..=126 => None,
        _ => Some(b"?"),
    }
}
