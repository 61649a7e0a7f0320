// Numbers of records and of nets.
ghost use Rattle.std.specs.Prelude.{◌≡◌, ◌≢◌, ◌++◌, IfErr, IfOk, length};
ghost use Rattle.protocol.specs.Snapshots.{users_in};
ghost use Rattle.bytetext.specs.declared.failure.Failure.TheVariants.{Refused};
ghost use Rattle.promotion.specs.declared.fault.PromotionFault.TheVariants.{System};
ghost use Rattle.handshake.specs.Parents.{parent_line};

use crate::fault::{PromotionError, PromotionFault};
use bytetext::{Failure, NoMemory};
use handshake::DrawnNumber;
use recordtext::{put, put_number};
use std::alloc::Global;
use std::random::RandomSource;
use usercodec::Record;

// Returns how many of the records are users.
pub(crate) fn user_count(records: &[Record]) -> usize
    ensures { result ≡ length (users_in records.now) }
{
    let mut count = 0;
    for record in records {
        match record {
            Record::User(_) => count += 1,
            Record::Ban(_) => {}
        }
    }
    count
}

// Draws the number of a new net, which is not that of the net before.
pub(crate) fn draw_other<R: RandomSource>(
    rt: &R,
    before: &DrawnNumber,
) -> Result<DrawnNumber, PromotionError>
    ensures other { IfOk result (λ net. net ≢ before.now) }
    ensures fault { IfErr result (λ e. e ≡ Refused System) }
{
    match DrawnNumber::draw(rt) {
        Ok(net) if !net.is_same(before) => Ok(net),
        Ok(_) | Err(_) => Err(Failure::Refused(PromotionFault::System)),
    }
}

// Returns the line of the file `parent`: the number of a net, and a version.
pub(crate) fn parent_line(
    alloc: Global,
    net: &DrawnNumber,
    version: u32,
) -> Result<Vec<u8>, NoMemory>
    ensures line { IfOk result (λ line. line.items ≡ parent_line net.now version) }
{
    let mut line = Vec::new(alloc);
    put(&mut line, net.as_bytes())?;
    put(&mut line, b" ")?;
    put_number(&mut line, u64::from(version))?;
    put(&mut line, b"\n")?;
    Ok(line)
}
