ghost use Rattle.std.specs.Prelude.{◌≡◌, List, ℕ};
ghost use Rattle.flight_text.specs.declared.mark.Mark.{Mark};
ghost use Rattle.flight_text.specs.Mark.{IsSpelling, IsSpellable, spelling_of};

/// No string spells two marks.
pub fn one_mark()
    ensures { (text : List ℕ) (m n : Mark) → IsSpelling text m → IsSpelling text n → m ≡ n }
{}

/// What is written is read as the mark that it was written for.
pub fn read_again()
    ensures { (m : Mark) → IsSpellable m → IsSpelling (spelling_of m) m }
{}
