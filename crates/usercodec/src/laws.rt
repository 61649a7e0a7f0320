// What code that frames or stores spellings can rely on, proved of the definitions.
ghost use Rattle.std.specs.Prelude.{◌≡◌, ◌↔◌, ℕ, List, ◌∷◌, ◌++◌, Err};
ghost use Rattle.userfile.specs.declared.change.Change.{Change};
ghost use Rattle.usercodec.specs.declared.records.Record.{Record};
ghost use Rattle.usercodec.specs.declared.fault.CodecFault.TheVariants.{Short, BadTag};
ghost use Rattle.usercodec.specs.Changes.{change_bytes, IsGoodChange, is_edit_tag, is_change_tag, change_at};
ghost use Rattle.usercodec.specs.Laws.{Stays, BeginsUnknown};
ghost use Rattle.usercodec.specs.Records.{record_bytes, IsGoodRecord, is_record_tag, record_at};
ghost use Rattle.usercodec.specs.Old.{IsGoodNamelessChange, nameless_change_at};
ghost use Rattle.usercodec.specs.Old.{change_bytes_old, IsGoodChangeOld, is_change_tag_old, change_at_old};
ghost use Rattle.usercodec.specs.Old.{record_bytes_old, IsGoodRecordOld, is_record_tag_old, record_at_old};

/// States the laws of the spellings of changes, which hold for any changes and bytes. Does nothing at run time.
pub fn laws_of_changes()
    // No spelling begins another, so each change has one, whatever follows it.
    ensures apart { (a b : Change) (x y : List ℕ) → IsGoodChange a → IsGoodChange b
        → change_bytes a ++ x ≡ change_bytes b ++ y → (a ≡ b) × (x ≡ y) }
    // A spelling that is cut reads as `Short`.
    ensures cut { (change : Change) (front : List ℕ) (next : ℕ) (rest : List ℕ) → IsGoodChange change
        → change_bytes change ≡ front ++ next ∷ rest → change_at front ≡ Err Short }
    // More bytes change nothing, unless bytes were missing.
    ensures stays { (bytes more : List ℕ) → Stays (change_at bytes) (change_at (bytes ++ more)) more }
    // `BadTag` comes exactly if the first byte is not one of the tags.
    ensures tag { (bytes : List ℕ) → (change_at bytes ≡ Err BadTag) ↔ BeginsUnknown is_change_tag bytes }
{}

/// States the laws of the spellings of records, which hold for any records and bytes. Does nothing at run time.
pub fn laws_of_records()
    // No spelling begins another, so each record has one, whatever follows it.
    ensures apart { (a b : Record) (x y : List ℕ) → IsGoodRecord a → IsGoodRecord b
        → record_bytes a ++ x ≡ record_bytes b ++ y → (a ≡ b) × (x ≡ y) }
    // A spelling that is cut reads as `Short`.
    ensures cut { (value : Record) (front : List ℕ) (next : ℕ) (rest : List ℕ) → IsGoodRecord value
        → record_bytes value ≡ front ++ next ∷ rest → record_at front ≡ Err Short }
    // More bytes change nothing, unless bytes were missing.
    ensures stays { (bytes more : List ℕ) → Stays (record_at bytes) (record_at (bytes ++ more)) more }
    // `BadTag` comes exactly if the first byte is not one of the tags.
    ensures tag { (bytes : List ℕ) → (record_at bytes ≡ Err BadTag) ↔ BeginsUnknown is_record_tag bytes }
{}

/// States the same laws for changes as the layouts 2 and 3 spelled them.
pub fn laws_of_nameless_changes()
    ensures apart { (a b : Change) (x y : List ℕ) → IsGoodNamelessChange a → IsGoodNamelessChange b
        → change_bytes a ++ x ≡ change_bytes b ++ y → (a ≡ b) × (x ≡ y) }
    ensures cut { (change : Change) (front : List ℕ) (next : ℕ) (rest : List ℕ) → IsGoodNamelessChange change
        → change_bytes change ≡ front ++ next ∷ rest → nameless_change_at front ≡ Err Short }
    ensures stays { (bytes more : List ℕ) → Stays (nameless_change_at bytes) (nameless_change_at (bytes ++ more)) more }
    // The tag 12 is one of the unknown ones.
    ensures tag { (bytes : List ℕ) → (nameless_change_at bytes ≡ Err BadTag) ↔ BeginsUnknown is_edit_tag bytes }
{}

/// States the same laws for changes as layout 1 spelled them.
pub fn laws_of_changes_old()
    ensures apart { (a b : Change) (x y : List ℕ) → IsGoodChangeOld a → IsGoodChangeOld b
        → change_bytes_old a ++ x ≡ change_bytes_old b ++ y → (a ≡ b) × (x ≡ y) }
    ensures cut { (change : Change) (front : List ℕ) (next : ℕ) (rest : List ℕ) → IsGoodChangeOld change
        → change_bytes_old change ≡ front ++ next ∷ rest → change_at_old front ≡ Err Short }
    ensures stays { (bytes more : List ℕ) → Stays (change_at_old bytes) (change_at_old (bytes ++ more)) more }
    ensures tag { (bytes : List ℕ) → (change_at_old bytes ≡ Err BadTag) ↔ BeginsUnknown is_change_tag_old bytes }
{}

/// States the same laws for records as layout 1 spelled them.
pub fn laws_of_records_old()
    ensures apart { (a b : Record) (x y : List ℕ) → IsGoodRecordOld a → IsGoodRecordOld b
        → record_bytes_old a ++ x ≡ record_bytes_old b ++ y → (a ≡ b) × (x ≡ y) }
    ensures cut { (value : Record) (front : List ℕ) (next : ℕ) (rest : List ℕ) → IsGoodRecordOld value
        → record_bytes_old value ≡ front ++ next ∷ rest → record_at_old front ≡ Err Short }
    ensures stays { (bytes more : List ℕ) → Stays (record_at_old bytes) (record_at_old (bytes ++ more)) more }
    ensures tag { (bytes : List ℕ) → (record_at_old bytes ≡ Err BadTag) ↔ BeginsUnknown is_record_tag_old bytes }
{}
