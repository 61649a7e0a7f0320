// Reads the change at the front of some bytes. It reads all fields before the first copy, so it allocates only if the
// bytes are a change.
ghost use Rattle.std.specs.Prelude.{◌≡◌};
ghost use Rattle.usercodec.specs.Answers.{Gives, Makes};
ghost use Rattle.usercodec.specs.Changes.{casemapping_at, asked_edit_at, named_at, change_at};
ghost use Rattle.usercodec.specs.Old.{nameless_change_at};

use crate::casemapping_byte::casemapping_of_byte;
use crate::edit_fields::edit_fields;
use crate::fault::{CodecError, CodecFault};
use crate::reader::{Reader, keep_if};
use bytetext::{Failure, Text};
use rfccase::Casemapping;
use std::alloc::Global;
use userfile::{Asker, Change, Edit};

#[tactic(auto, unfolding(crate::specs::Changes::change_at, crate::specs::Changes::fields_at))]
pub(crate) fn change(alloc: Global, reader: &mut Reader<'_>) -> Result<Change, CodecError>
    ensures { Makes (λ change. (change, reader.new)) result (change_at reader.old) }
{
    let tag = reader.byte()?;
    if tag == 12 {
        return named_change(alloc, reader);
    }
    let edit = edit_fields(alloc, tag, reader)?;
    Ok(Change::by_nobody(edit))
}

// Reads a change that was spelled before changes had names.
#[tactic(auto, unfolding(crate::specs::Old::nameless_change_at, crate::specs::Changes::edit_at))]
pub(crate) fn nameless_change(alloc: Global, reader: &mut Reader<'_>) -> Result<Change, CodecError>
    ensures { Makes (λ change. (change, reader.new)) result (nameless_change_at reader.old) }
{
    let tag = reader.byte()?;
    let edit = edit_fields(alloc, tag, reader)?;
    Ok(Change::by_nobody(edit))
}

// Reads who asks, and the edit.
#[tactic(auto, unfolding(crate::specs::Changes::named_at, crate::specs::Changes::asker_at))]
fn named_change(alloc: Global, reader: &mut Reader<'_>) -> Result<Change, CodecError>
    ensures { Makes (λ change. (change, reader.new)) result (named_at reader.old) }
{
    let person = reader.person()?;
    let casemapping = casemapping(reader)?;
    let edit = asked_edit(alloc, reader)?;
    let person = Text::from_slice(alloc, person)?;
    Ok(Change::by_person(
        Asker {
            person,
            casemapping,
        },
        edit,
    ))
}

#[tactic(auto, unfolding(crate::specs::Changes::casemapping_at))]
fn casemapping(reader: &mut Reader<'_>) -> Result<Casemapping, CodecError>
    ensures { Gives (λ mapping. (mapping, reader.new)) result (casemapping_at reader.old) }
{
    let byte = reader.byte()?;
    match casemapping_of_byte(byte) {
        Some(mapping) => Ok(mapping),
        None => Err(Failure::Refused(CodecFault::NotCanonical)),
    }
}

// Reads the edit after who asks: its tag is a field that has a rule.
#[tactic(auto, unfolding(crate::specs::Changes::asked_edit_at))]
fn asked_edit(alloc: Global, reader: &mut Reader<'_>) -> Result<Edit, CodecError>
    ensures { Makes (λ edit. (edit, reader.new)) result (asked_edit_at reader.old) }
{
    let tag = reader.byte()?;
    let tag = keep_if(1 <= tag && tag <= 11, tag)?;
    edit_fields(alloc, tag, reader)
}
