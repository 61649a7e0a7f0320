// What the definitions of a book mean.
ghost use Rattle.std.specs.Prelude.{◌≡◌, ◌++◌, ◌∷◌, [], ℕ, true, false, List};
ghost use Rattle.std.specs.List.{list_any};
ghost use Rattle.handshake.specs.declared.book.Place.TheVariants.{Barred};
ghost use Rattle.handshake.specs.declared.book_line.BookLine.{BookLine};
ghost use Rattle.handshake.specs.Books.{folder_in, is_barred_in, names, place_in};

/// Of the lines about a leaf the last one counts, and a folder that one line bars is barred for ever, whatever lines
/// come after it.
pub fn laws_of_the_book()
    ensures last { (leaf : ℕ) (before after : List BookLine) (line : BookLine) → names leaf line ≡ true
        → list_any (names leaf) after ≡ false → folder_in leaf (before ++ line ∷ after) ≡ folder_in leaf (line ∷ []) }
    ensures barred { (lines more : List BookLine) (leaf : ℕ) (made : List ℕ) → is_barred_in made lines ≡ true
        → place_in (lines ++ more) leaf made ≡ Barred }
{}
