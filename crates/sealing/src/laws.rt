// What the definitions mean.
ghost use Rattle.std.specs.Prelude.{◌≡◌, ◌<◌, ◌≤◌, ◌+◌, ◌++◌, ◌∷◌, [], ℕ, List, length, slice_get, Some, Ok};
ghost use Rattle.std.specs.List.{AllByRecursion};
ghost use Rattle.sealing.specs.declared.kind.Kind.{Kind};
ghost use Rattle.sealing.specs.declared.limits.TheConstants.{MAX_BODY, TAG};
ghost use Rattle.sealing.specs.Records.{IsBody, carried, tagged, sealed, all_sealed};
ghost use Rattle.sealing.specs.Streams.{Opening, Opens, max_records};
ghost use Rattle.sealing.specs.Unforged.{IsUnforged};

/// No count is used twice under a key: a sealer counts from 0, so the tags of two records are never computed over the
/// same text, whatever their bodies are.
pub fn each_count_is_used_once()
    // The record at each place of a stream has its own count.
    ensures counted { (key : List ℕ) (first : ℕ) (bodies more : List (List ℕ)) (body : List ℕ)
        → all_sealed key first (bodies ++ body ∷ more) ≡ all_sealed key first bodies
        ++ (sealed key (first + length bodies) body ++ all_sealed key (first + length bodies + 1) more) }
    ensures apart { (one other : ℕ) (a b : List ℕ) → one ≤ max_records → other ≤ max_records
        → tagged one a ≡ tagged other b → (one ≡ other) × (a ≡ b) }
{}

/// Each stream opens with one list of bodies and one ending. So it does not matter how it is cut.
pub fn a_stream_opens_one_way()
    ensures { (key stream : List ℕ) (a b : List (List ℕ)) (x y : Opening) → Opens key stream a x → Opens key stream b y
        → (a ≡ b) × (x.ending ≡ y.ending) }
{}

/// A stream of sealed records opens with their bodies, and nothing is left over.
pub fn what_is_sealed_opens()
    ensures { (key : List ℕ) (bodies : List (List ℕ)) → AllByRecursion IsBody bodies → length bodies < max_records
        → Opens key (all_sealed key 0 bodies) bodies (record { key = key; count = length bodies; ending = Ok [] }) }
{}

/// Whatever an attacker does to a stream, the bodies that it opens with are the first of those that the key's holder
/// sealed, in order and with none left out, if nobody forged a record. So are the bytes that they carry of each kind.
pub fn only_what_was_sealed_opens()
    ensures bodies { (key given : List ℕ) (made bodies : List (List ℕ)) (opening : Opening)
        → IsUnforged key made given → Opens key given bodies opening
        → (rest : List (List ℕ)) × (made ≡ bodies ++ rest) }
    ensures carried { (key given : List ℕ) (made bodies : List (List ℕ)) (opening : Opening) (kind : Kind)
        → IsUnforged key made given → Opens key given bodies opening
        → (rest : List ℕ) × (carried kind made ≡ carried kind bodies ++ rest) }
{}
