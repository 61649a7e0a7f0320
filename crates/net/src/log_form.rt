// How a log shows what happened.
ghost use Rattle.std.specs.Prelude.{◌≡◌, ◌++◌, false, IfOk, List, OnOk, ℕ};
ghost use Rattle.net.specs.LogForms.{begins_high, digit, end_of, front_of, has_control, is_hidden, is_high, json_byte, line_in, quoted, shown, shown_byte, text_byte};

use bytetext::NoMemory;
use std::alloc::Global;

/// The form of a log's lines. In either form, each byte below 32, 127, and the control characters U+0080 to U+009F are
/// escaped, so that a line of a log can't command a terminal.
#[derive(Clone, Copy, Debug, PartialEq, Eq)]
pub enum LogForm {
    /// The second, a space, and what happened, such as `1700000000 up at version 7`. Each byte of a control character is
    /// `\x` and two hexadecimal digits.
    Text,
    /// A JSON object (RFC 8259), such as `{"time":1700000000,"entry":"up at version 7"}`. A control character is `\u` and
    /// four hexadecimal digits.
    Json,
}

/// The law of shown lines: what a log shows of any text commands no terminal. The function does nothing; what it ensures
/// holds for any text.
pub fn law_of_shown_lines()
    // It has no byte below 32, no 127, and none of the control characters U+0080 to U+009F.
    ensures harmless { (form : LogForm) (happened : List ℕ) → has_control (shown form happened) ≡ false }
{}

// Returns the line of what happened at second `now`, with its LF.
pub(crate) fn line_in(
    alloc: Global,
    form: LogForm,
    now: u64,
    happened: &[u8],
) -> Result<Vec<u8>, NoMemory>
    ensures { IfOk result (λ line. line.items ≡ line_in form now happened.now) }
{
    let mut line = front_of(alloc, form, now)?;
    put_shown(&mut line, form, happened)?;
    line.extend_from_slice(end_of(form))?;
    Ok(line)
}

// Returns what stands in a line before what happened.
fn front_of(alloc: Global, form: LogForm, now: u64) -> Result<Vec<u8>, NoMemory>
    ensures { IfOk result (λ front. front.items ≡ front_of form now) }
{
    let front = match form {
        LogForm::Text => format!(in alloc; "{now} ")?,
        LogForm::Json => format!(in alloc; "{{\"time\":{now},\"entry\":\"")?,
    };
    Ok(front.into_bytes())
}

// Returns what stands after it, to the LF.
fn end_of(form: LogForm) -> &'static [u8]
    ensures { result.now ≡ end_of form }
{
    match form {
        LogForm::Text => b"\n",
        LogForm::Json => b"\"}\n",
    }
}

// Appends what happened as it is shown.
fn put_shown(line: &mut Vec<u8>, form: LogForm, happened: &[u8]) -> Result<(), NoMemory>
    ensures { OnOk result (line.new.items ≡ line.old.items ++ shown form happened.now) }
{
    let mut before = 0;
    let mut rest = happened;
    while let Some((byte, behind)) = rest.split_first() {
        put_byte(line, form, is_hidden(before, *byte, behind), *byte)?;
        before = *byte;
        rest = behind;
    }
    Ok(())
}

// Whether a byte of UTF-8 belongs to a control character, after the byte `before` it, and before those `behind` it.
fn is_hidden(before: u8, byte: u8, behind: &[u8]) -> bool
    ensures { result ≡ is_hidden before byte behind.now }
{
    byte < 32
        || byte == 127
        || (byte == 194 && begins_high(behind))
        || (before == 194 && is_high(byte))
}

// Whether the first of the bytes ends one of the control characters U+0080 to U+009F, if it follows 194.
fn begins_high(bytes: &[u8]) -> bool
    ensures { result ≡ begins_high bytes.now }
{
    match bytes.first() {
        Some(byte) => is_high(*byte),
        None => false,
    }
}

fn is_high(byte: u8) -> bool
    ensures { result ≡ is_high byte }
{
    byte >= 128 && byte <= 159
}

// Appends a byte as it is shown.
fn put_byte(line: &mut Vec<u8>, form: LogForm, hidden: bool, byte: u8) -> Result<(), NoMemory>
    ensures { OnOk result (line.new.items ≡ line.old.items ++ shown_byte form hidden byte) }
{
    match form {
        LogForm::Text => put_text_byte(line, hidden, byte),
        LogForm::Json => put_json_byte(line, hidden, byte),
    }
}

fn put_text_byte(line: &mut Vec<u8>, hidden: bool, byte: u8) -> Result<(), NoMemory>
    ensures { OnOk result (line.new.items ≡ line.old.items ++ text_byte hidden byte) }
{
    if hidden {
        line.extend_from_slice(&[b'\\', b'x', digit(byte / 16), digit(byte % 16)])?;
    } else {
        line.push(byte)?;
    }
    Ok(())
}

fn put_json_byte(line: &mut Vec<u8>, hidden: bool, byte: u8) -> Result<(), NoMemory>
    ensures { OnOk result (line.new.items ≡ line.old.items ++ json_byte hidden byte) }
{
    if !hidden {
        return put_quoted(line, byte);
    }
    // The second byte of a control character above 127 is its number.
    if byte != 194 {
        line.extend_from_slice(&[b'\\', b'u', b'0', b'0', digit(byte / 16), digit(byte % 16)])?;
    }
    Ok(())
}

fn put_quoted(line: &mut Vec<u8>, byte: u8) -> Result<(), NoMemory>
    ensures { OnOk result (line.new.items ≡ line.old.items ++ quoted byte) }
{
    if byte == b'"' || byte == b'\\' {
        line.extend_from_slice(&[b'\\', byte])?;
    } else {
        line.push(byte)?;
    }
    Ok(())
}

// The hexadecimal digit of a number below 16.
fn digit(number: u8) -> u8
    ensures { result ≡ digit number }
{
    if number < 10 {
        b'0' + number
    } else if number < 16 {
        b'a' - 10 + number
    } else {
        b'?'
    }
}
