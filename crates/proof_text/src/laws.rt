// What readers of a proof may rely on.

ghost use Rattle.std.specs.Prelude.{◌≡◌, ◌++◌, ◌∷◌, [], List, ℕ, Some, true};
ghost use Rattle.proof_text.specs.declared.line.Line.{Line};
ghost use Rattle.proof_text.specs.Lines.{joined, words_of, line_text, IsLine};
ghost use Rattle.proof_text.specs.Held.{without_feed};
ghost use Rattle.proof_text.specs.Reading.{fields, line_of};

/// What is printed is read as the same line, and what is read is printed so.
pub fn lines_are_read_exactly()
    ensures printed { (l : Line) → IsLine l → line_of (fields 32 (joined (words_of l))) ≡ Some l }
    ensures read { (text : List ℕ) (l : Line) → line_of (fields 32 text) ≡ Some l → IsLine l
        × (text ≡ joined (words_of l)) }
{}

/// A printed line has one line feed, which ends it, and no two lines are printed alike.
pub fn lines_are_told_apart()
    ensures one_feed { (l : Line) → IsLine l → (without_feed (joined (words_of l)) ≡ true)
        × (line_text l ≡ joined (words_of l) ++ 10 ∷ []) }
    ensures once { (k l : Line) → IsLine k → IsLine l → line_text k ≡ line_text l → k ≡ l }
{}
