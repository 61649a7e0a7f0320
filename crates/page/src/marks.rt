// How a page shows a text from outside.
ghost use Rattle.std.specs.Prelude.{◌≡◌, ◌<◌, IfOk, List, ℕ};
ghost use Rattle.std.specs.List.{list_all};
ghost use Rattle.page.specs.Marks.{AreInert, ArePrinted, digit, hidden, is_bare, is_markup, reference, shown_text};

/// The law of shown texts: whatever a text from outside holds, it can't command a terminal or add markup to a page. The
/// function does nothing; what it ensures holds for any text.
pub fn law_of_page_texts()
    // Each byte is a space to `~`, and none is `<`, `>`, `"` or `'`.
    ensures inert { (text : List ℕ) → AreInert (shown_text text) }
{}

// Whether each of the bytes stands for itself.
pub(crate) fn are_bare(text: &[u8]) -> bool
    ensures { result ≡ list_all is_bare text.now }
{
    for byte in text {
        if !is_bare(u32::from(*byte)) {
            return false;
        }
    }
    true
}

// Whether a character is a space to `~` that stands for itself.
pub(crate) fn is_bare(c: u32) -> bool
    ensures { result ≡ is_bare c }
{
    c >= 32 && c <= 126 && !is_markup(c)
}

// Whether HTML reads a character as markup, or as the end of an attribute.
pub(crate) fn is_markup(c: u32) -> bool
    ensures { result ≡ is_markup c }
{
    c == 60 || c == 62 || c == 38 || c == 34 || c == 39
}

// The reference to a character of markup.
pub(crate) fn reference(c: u32) -> &'static [u8]
    ensures value { result.now ≡ reference c }
    ensures printed { ArePrinted result.now }
{
    match c {
        60 => b"&lt;",
        62 => b"&gt;",
        38 => b"&amp;",
        34 => b"&quot;",
        _ => b"&#39;",
    }
}

// A backslash, x and two digits, for a character below 256.
pub(crate) fn hidden(c: u32) -> [u8; 4]
    requires { c < 256 }
    ensures value { result ≡ hidden c }
    ensures printed { ArePrinted result }
{
    [b'\\', b'x', digit(c / 16), digit(c % 16)]
}

// The hexadecimal digit of a number below 16.
fn digit(number: u32) -> u8
    requires { number < 16 }
    ensures { result ≡ digit number }
{
    if number < 10 {
        b'0' + number as u8
    } else {
        b'a' - 10 + number as u8
    }
}
