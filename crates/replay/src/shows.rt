// The lines of a show.
ghost use Rattle.std.specs.Prelude.{◌≡◌, ◌++◌, OnOk};
ghost use Rattle.replay.specs.Deeds.{net_text};

use botworld::World;
use bytetext::NoMemory;
use disks::Disk;
use procs::{Promise, Run};
use recordtext::put_records;
use std::alloc::Global;

/// Appends to `out` the version, the users and the bans that `bot` has in `world`, or that no such bot exists.
pub fn put_shown<P: Promise, D: Disk, B: Run>(
    alloc: Global,
    out: &mut Vec<u8>,
    world: &World<P, D, B>,
    bot: u16,
) -> Result<(), NoMemory>
    ensures { OnOk result (out.new.items ≡ out.old.items ++ net_text world.now bot) }
{
    put_records(alloc, out, bot, world.version(bot), world.userfile(bot))
}
