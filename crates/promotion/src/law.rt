// The law of a promotion.
ghost use Rattle.std.specs.Prelude.{◌≡◌, ◌+◌, ℕ, suc, List, length, slice_get, Some};
ghost use Rattle.disks.specs.State.{State, may_leave};
ghost use Rattle.botcore.specs.declared.config.Config.{Config};
ghost use Rattle.processes.specs.Deeds.{Process, Ended, Net, IsNew};
ghost use Rattle.heirs.specs.Heirs.{net_over};
ghost use Rattle.promotion.specs.Leaves.{LeafFound};
ghost use Rattle.promotion.specs.Promotions.{Promotes, IsPromotion};

use heirs::laws_of_heirs;
use procs::Promise;

/// States what a promotion is in the words of [`heirs`]: a bot of the old net has stopped, and the process of the heir's
/// hub has not begun. So the laws of heirs hold of the two nets. The call does nothing.
pub fn law_of_promotion<P: Promise>()
    // The old net's process has left the bytes of the leaf that was promoted. A crash has left these bytes of the disks
    // that were written for the heir's hub. The leaves of the new net are new.
    ensures promotion { (old : Net) (leaf : LeafFound) (first second : State) (x y : List ℕ) (config : Config) (leaves : List Process)
        → Promotes leaf first second → may_leave first x → may_leave second y
        → slice_get old.processes leaf.base.bot ≡ Some (Ended leaf.first leaf.second)
        → config.number ≡ leaf.base.bot → config.leaves + 1 ≡ length old.processes
        → ((place : ℕ) (process : Process) → slice_get leaves place ≡ Some process → IsNew (length leaves) (suc place) process)
        → IsPromotion P.promised old leaf.base.bot (length leaves) (net_over x y leaves) }
{
    laws_of_heirs::<P>();
}
