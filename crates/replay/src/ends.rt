// The line that says how a step ended.
ghost use Rattle.std.specs.Prelude.{◌≡◌, ◌≢◌, ◌++◌, OnOk};
ghost use Rattle.replay.specs.Text.{link_note_text, note_text, end_line};

use botcore::{End, Note};
use bytetext::NoMemory;
use recordtext::{put, put_counted, put_number};
use sharelink::LinkNote;

/// Appends to `out` how a step of `bot` ended, by its `end` and its `note`: as `B NOTE`, `B Done` or `B refused CODE`.
///
/// # Errors
/// `NoMemory` if memory cannot be allocated, and if the step itself ended with `NoMemory`.
#[tactic(auto, using(std::proofs::Common::append_assoc))]
pub fn put_end(out: &mut Vec<u8>, bot: u16, end: End, note: &Option<Note>) -> Result<(), NoMemory>
    ensures made { OnOk result (end ≢ End.NoMemory) }
    ensures added { OnOk result (out.new.items ≡ out.old.items ++ end_line bot end note.now) }
{
    match end {
        End::Done => {
            put_number(out, u64::from(bot))?;
            put(out, b" ")?;
            put_note(out, note)?;
            put(out, b"\n")
        }
        End::Refused(refusal) => {
            put_number(out, u64::from(bot))?;
            put(out, b" refused ")?;
            put(out, refusal.code().as_bytes())?;
            put(out, b"\n")
        }
        End::NoMemory => Err(NoMemory),
    }
}

/// Appends `note` to `out`, with its number, letters or text if it has any, or `Done` if there is no note.
///
/// # Errors
/// `NoMemory` if memory cannot be allocated.
#[tactic(auto, using(std::proofs::Common::append_assoc))]
pub fn put_note(out: &mut Vec<u8>, note: &Option<Note>) -> Result<(), NoMemory>
    ensures { OnOk result (out.new.items ≡ out.old.items ++ note_text note.now) }
{
    match note {
        None => put(out, b"Done"),
        Some(Note::Link(note)) => put_link_note(out, note),
        Some(Note::Bound(number)) => put_counted(out, b"Bound ", u64::from(*number)),
        Some(Note::Unbound(number)) => put_counted(out, b"Unbound ", u64::from(*number)),
        Some(Note::Bad(fault)) => {
            put(out, b"Bad ")?;
            put(out, fault.code().as_bytes())
        }
    }
}

// The note of a call of the link.
#[tactic(auto, using(std::proofs::Common::append_assoc))]
fn put_link_note(out: &mut Vec<u8>, note: &LinkNote) -> Result<(), NoMemory>
    ensures { OnOk result (out.new.items ≡ out.old.items ++ link_note_text note.now) }
{
    match note {
        LinkNote::Queued => put(out, b"Queued"),
        LinkNote::Idle => put(out, b"Idle"),
        LinkNote::Sent(request) => put_counted(out, b"Sent ", u64::from(*request)),
        LinkNote::Accepted(number) => put_counted(out, b"Accepted ", u64::from(*number)),
        LinkNote::Refused(fault) => {
            put(out, b"Refused ")?;
            put(out, fault.code().as_bytes())
        }
        LinkNote::Served(count) => put_counted(out, b"Served ", *count as u64),
        LinkNote::Old => put(out, b"Old"),
        LinkNote::Repeat => put(out, b"Repeat"),
        LinkNote::Gap => put(out, b"Gap"),
        LinkNote::Early => put(out, b"Early"),
        LinkNote::Applied(number) => put_counted(out, b"Applied ", u64::from(*number)),
        LinkNote::Kept(part) => put_counted(out, b"Kept ", u64::from(*part)),
        LinkNote::Installed(version) => put_counted(out, b"Installed ", u64::from(*version)),
        LinkNote::Compacted => put(out, b"Compacted"),
        LinkNote::Relayed => put(out, b"Relayed"),
        LinkNote::Text { from, text } => {
            put_counted(out, b"Text ", u64::from(*from))?;
            put(out, b" ")?;
            put(out, text.as_bytes())
        }
        LinkNote::Stray => put(out, b"Stray"),
        LinkNote::Restarted(version) => put_counted(out, b"Restarted ", u64::from(*version)),
    }
}
