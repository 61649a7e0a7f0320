// How a line of records is read.
ghost use Rattle.std.specs.Prelude.{◌≡◌, ◌<◌, ◌^◌, ◌++◌, ◌∷◌, [], ℕ, true, Some};
ghost use Rattle.std.specs.List.{list_all};
ghost use Rattle.json.specs.Json.{document};
ghost use Rattle.userfile.specs.Records.{Records};
ghost use Rattle.recordjson.specs.Records.{records_text};
ghost use Rattle.jsonlaws.specs.Values.{fits_ban, fits_user, records_value};

/// A line of `recordjson` is one document of JSON (RFC 8259), and its value is the object of the records: each user and
/// each ban with all fields, in order. Does nothing at run time.
pub fn laws_of_records()
    ensures document { (bot version : ℕ) (records : Records) → bot < 2 ^ 64 → version < 2 ^ 64
        → list_all fits_user records.users ≡ true → list_all fits_ban records.bans ≡ true
        → document (records_text bot version records ++ 10 ∷ []) ≡ Some (records_value bot version records) }
{}
