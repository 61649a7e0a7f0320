// A walk over the records of a whole set of parts, which allocates nothing.
ghost use Rattle.std.specs.Prelude.{◌≡◌, ◌≤◌, ◌&&◌, [], true, nat_le, length, IfOk};
ghost use Rattle.std.specs.List.{AllByRecursion, list_any};
ghost use Rattle.userfile.specs.Together.{repeats};
ghost use Rattle.userfile.specs.declared.limits.TheConstants.{MAX_USERS, MAX_BANS};
ghost use Rattle.usercodec.specs.Records.{IsGoodRecord};
ghost use Rattle.protocol.specs.Snapshots.{users_in, bans_in, records_from};
ghost use Rattle.protocol.specs.Journals.{stand_together};
ghost use Rattle.sharelink.specs.Parts.{left, Steps, clash};

use crate::records::userfile_of;
use bytetext::{NoMemory, Seq, TryCopy};
use rfccase::same;
use std::alloc::Global;
use usercodec::Record;
use userfile::{MAX_BANS, MAX_USERS, Userfile};

// The records not reached yet: those here, those of the parts in front, those of the part at hand, and those of the
// parts after it. A part that is missing has none.
#[derive(Clone, Copy)]
pub(crate) struct Walk<'a> {
    pub(crate) here: &'a [Record],
    pub(crate) front: &'a [Option<Seq<Record>>],
    pub(crate) part: &'a [Record],
    pub(crate) back: &'a [Option<Seq<Record>>],
}

impl<'a> Walk<'a> {
    // Whether the records are those of one userfile. The time grows with the square of their number, which is limited
    // first.
    pub(crate) fn stand_together(self) -> bool
        requires good { AllByRecursion IsGoodRecord (left self) }
        ensures { result ≡ stand_together (records_from (left self.entry)) }
    {
        self.are_few() && !self.repeats()
    }

    // Returns the userfile of the records.
    pub(crate) fn userfile(self, alloc: Global) -> Result<Userfile, NoMemory>
        requires good { AllByRecursion IsGoodRecord (left self) }
        requires together { stand_together (records_from (left self)) ≡ true }
        ensures { IfOk result (λ userfile. userfile ≡ records_from (left self.entry)) }
    {
        let items = self.copies(alloc)?;
        match userfile_of(alloc, items) {
            Ok(userfile) => Ok(userfile),
            Err(_) => Err(NoMemory),
        }
    }

    // Returns a copy of each record, in order.
    fn copies(self, alloc: Global) -> Result<Vec<Record>, NoMemory>
        ensures { IfOk result (λ items. items.items ≡ left self.entry) }
    {
        let mut items = Vec::new(alloc);
        let mut rest = self;
        while let Some((record, after)) = rest.next() {
            items.push(record.copy(alloc)?)?;
            rest = after;
        }
        Ok(items)
    }

    // Whether there are no more users and bans than a userfile can hold.
    fn are_few(self) -> bool
        ensures { result ≡ (nat_le (length (users_in (left self.entry))) MAX_USERS && nat_le (length (bans_in (left self.entry))) MAX_BANS) }
    {
        let mut users = 0;
        let mut bans = 0;
        let mut rest = self;
        while let Some((record, after)) = rest.next() {
            match record {
                Record::User(_) => {
                    if users == MAX_USERS {
                        return false;
                    }
                    users += 1;
                }
                Record::Ban(_) => {
                    if bans == MAX_BANS {
                        return false;
                    }
                    bans += 1;
                }
            }
            rest = after;
        }
        true
    }

    // Whether two records clash.
    fn repeats(self) -> bool
        ensures { result ≡ repeats clash (left self.entry) }
    {
        let mut rest = self;
        while let Some((record, after)) = rest.next() {
            if after.has_clash(record) {
                return true;
            }
            rest = after;
        }
        false
    }

    // Whether one of them clashes with this record.
    fn has_clash(self, one: &Record) -> bool
        ensures { result ≡ list_any (clash one.now) (left self.entry) }
    {
        let mut rest = self;
        while let Some((other, after)) = rest.next() {
            if clash(one, other) {
                return true;
            }
            rest = after;
        }
        false
    }

    // Returns the next record, and the walk on from it.
    fn next(self) -> Option<(&'a Record, Walk<'a>)>
        ensures { Steps (left self.entry) result }
    {
        let open = self.opened();
        match open.here {
            [] => None,
            [record, here @ ..] => Some((record, Walk { here, ..open })),
        }
    }

    // Returns the same walk, with a record here if one is left.
    fn opened(self) -> Walk<'a>
        ensures same { left result ≡ left self.entry }
        ensures open { result.here.now ≡ [] → left result ≡ [] }
    {
        let mut open = self;
        while open.here.is_empty() {
            match open.front {
                [] => {
                    if open.part.is_empty() && open.back.is_empty() {
                        return open;
                    }
                    open = Walk {
                        here: open.part,
                        front: open.back,
                        part: &[],
                        back: &[],
                    };
                }
                [None, front @ ..] => open = Walk { front, ..open },
                [Some(part), front @ ..] => {
                    open = Walk {
                        here: part.as_slice(),
                        front,
                        ..open
                    };
                }
            }
        }
        open
    }
}

// Whether a userfile can't hold both records.
fn clash(one: &Record, other: &Record) -> bool
    ensures { result ≡ clash one.now other.now }
{
    match (one, other) {
        (Record::User(user), Record::User(other)) => {
            same(user.handle.as_bytes(), other.handle.as_bytes())
        }
        (Record::Ban(ban), Record::Ban(other)) => {
            same(ban.channel.as_bytes(), other.channel.as_bytes())
                && same(ban.mask.as_bytes(), other.mask.as_bytes())
        }
        (Record::User(_), Record::Ban(_)) | (Record::Ban(_), Record::User(_)) => false,
    }
}
