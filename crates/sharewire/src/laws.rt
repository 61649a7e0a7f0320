// What the definitions mean.
ghost use Rattle.std.specs.Prelude.{◌≡◌, ◌<◌, ℕ, List, [], ◌++◌, Ok};
ghost use Rattle.std.specs.List.{flat_map, AllByRecursion};
ghost use Rattle.sharewire.specs.declared.packet.Packet.{Packet};
ghost use Rattle.sharewire.specs.Frames.{frame, IsGoodPacket};
ghost use Rattle.sharewire.specs.Streams.{Ending, Tells, AreBytes};

/// No frame is the beginning of another: bytes that begin with a packet's frame determine that packet and the bytes
/// after it.
pub fn frames_are_apart()
    ensures { (a b : Packet) (x y : List ℕ) → IsGoodPacket a → IsGoodPacket b → frame a ++ x ≡ frame b ++ y
        → (a ≡ b) × (x ≡ y) }
{}

/// A stream of written frames holds just their packets, and nothing is left over.
pub fn written_is_told()
    ensures { (packets : List Packet) → AllByRecursion IsGoodPacket packets
        → Tells (flat_map frame packets) packets (Ok []) }
{}

/// Each stream holds one sequence of packets and one ending. So it does not matter who reads it, or how it is cut.
pub fn a_stream_tells_one_thing()
    ensures some { (stream : List ℕ) → AreBytes stream
        → (packets : List Packet) × ((ending : Ending) × Tells stream packets ending) }
    ensures only { (stream : List ℕ) (a b : List Packet) (x y : Ending) → Tells stream a x → Tells stream b y
        → (a ≡ b) × (x ≡ y) }
{}
