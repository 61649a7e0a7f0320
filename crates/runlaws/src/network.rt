// What carries the premise about the network.
ghost use Rattle.std.specs.Prelude.{◌≡◌, ◌++◌, ℕ, List};
ghost use Rattle.std.specs.List.{flat_map, AllByRecursion};
ghost use Rattle.sealing.specs.declared.kind.Kind.TheVariants.{Frames};
ghost use Rattle.sealing.specs.Records.{carried};
ghost use Rattle.sealing.specs.Streams.{Opening, Opens};
ghost use Rattle.sealing.specs.Unforged.{IsUnforged};
ghost use Rattle.sharewire.specs.declared.packet.Packet.{Packet};
ghost use Rattle.sharewire.specs.Frames.{frame, IsGoodPacket};
ghost use Rattle.sharewire.specs.Streams.{Ending, Tells};

use sealing::only_what_was_sealed_opens;
use sharewire::frames_are_apart;

/// Whatever an attacker does to the bytes of a connection, the packets that one end reads are the first of those that the
/// other end queued, in order and with none left out, if nobody forged a record. The other end has sealed records whose
/// frames, with those that wait, are the frames of the packets that it queued.
pub fn only_what_was_queued_is_read()
    ensures { (key given waiting : List ℕ) (made bodies : List (List ℕ)) (opening : Opening)
        (queued packets : List Packet) (ending : Ending) → IsUnforged key made given → Opens key given bodies opening
        → AllByRecursion IsGoodPacket queued → carried Frames made ++ waiting ≡ flat_map frame queued
        → Tells (carried Frames bodies) packets ending → (rest : List Packet) × (queued ≡ packets ++ rest) }
{
    only_what_was_sealed_opens();
    frames_are_apart();
}
