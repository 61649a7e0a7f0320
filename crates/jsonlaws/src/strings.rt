// How strings are read.
ghost use Rattle.std.specs.Prelude.{◌≡◌, ◌++◌, ◌∷◌, ℕ, true, List, Some, codes, option_map};
ghost use Rattle.std.specs.List.{list_all};
ghost use Rattle.std.specs.Str.{chars};
ghost use Rattle.json.specs.Lex.{between, lex, string_token, token};
ghost use Rattle.json.specs.Text.{content, plain};
ghost use Rattle.recordjson.specs.Words.{quoted, spelled};
ghost use Rattle.jsonlaws.specs.Strings.{is_byte};

/// A text of bytes is written as a string whose characters have the bytes' numbers, in order, whatever follows the
/// string. A reader finds the string's end where it was written, and goes on with what follows. Does nothing at run time.
pub fn laws_of_strings()
    ensures characters { (text rest : List ℕ) → list_all is_byte text ≡ true
        → option_map chars (content plain (spelled text ++ 34 ∷ rest)) ≡ Some text }
    ensures ends { (text rest : List ℕ) → list_all is_byte text ≡ true
        → lex between (quoted text ++ rest) ≡ token (string_token (content plain (spelled text ++ 34 ∷ rest))) ∷ lex between rest }
{}
