// How changes and records are spelled, by the layout.
ghost use Rattle.std.specs.Prelude.{◌≡◌, ◌<◌, length};
ghost use Rattle.usercodec.specs.Answers.{Makes};
ghost use Rattle.botjournal.specs.Empty.{FindsSome};
ghost use Rattle.botjournal.specs.Passing.{PassesSome};
ghost use Rattle.botjournal.specs.Layouts.{layout_of, change_by, so_many_records_by};

use crate::LAYOUT;
use std::alloc::Global;
use usercodec::{CodecError, Reader, Record};
use userfile::Change;

/// A layout that is read.
#[derive(Clone, Copy)]
pub(crate) enum Layout {
    /// The layout 1, which had no info texts and no sticky bans. It is no longer written.
    First,
    /// The layout 2, which had one outstanding request and one reply to a leaf. It is no longer written.
    Second,
    /// The layout 3, whose changes named nobody and whose texts carried no sums. It is no longer written.
    Third,
    /// The layout that is written.
    Fourth,
}

/// Returns the layout of this `number`, if it is one that is read.
pub(crate) fn layout_of(number: u8) -> Option<Layout>
    ensures { result ≡ layout_of number }
{
    match number {
        1 => Some(Layout::First),
        2 => Some(Layout::Second),
        3 => Some(Layout::Third),
        LAYOUT => Some(Layout::Fourth),
        _ => None,
    }
}

pub(crate) fn change(
    alloc: Global,
    layout: Layout,
    reader: &mut Reader<'_>,
) -> Result<Change, CodecError>
    ensures { Makes (λ change. (change, reader.new)) result (change_by layout reader.old) }
{
    match layout {
        Layout::First => reader.change_old(alloc),
        Layout::Second => reader.nameless_change(alloc),
        Layout::Third => reader.nameless_change(alloc),
        Layout::Fourth => reader.change(alloc),
    }
}

pub(crate) fn so_many_records(
    alloc: Global,
    layout: Layout,
    reader: &mut Reader<'_>,
    count: usize,
) -> Result<Vec<Record>, CodecError>
    ensures { FindsSome (λ records. (records.items, reader.new)) (λ x. 0 < length x.0) result (so_many_records_by layout count reader.old) }
{
    match layout {
        Layout::First => reader.records_old(alloc, count),
        Layout::Second => reader.records(alloc, count),
        Layout::Third => reader.records(alloc, count),
        Layout::Fourth => reader.records(alloc, count),
    }
}

// Passes over `count` records. Only those of layout 1 are built on the way.
pub(crate) fn pass_so_many_records(
    alloc: Global,
    layout: Layout,
    reader: &mut Reader<'_>,
    count: usize,
) -> Result<(), CodecError>
    ensures { PassesSome result (so_many_records_by layout count reader.old) reader.new }
{
    match layout {
        Layout::First => match reader.records_old(alloc, count) {
            Ok(_) => Ok(()),
            Err(error) => Err(error),
        },
        Layout::Second => reader.pass_records(count),
        Layout::Third => reader.pass_records(count),
        Layout::Fourth => reader.pass_records(count),
    }
}
