// Laws of names, and of the lines of a text.
ghost use Rattle.std.specs.Prelude.{◌≡◌, ◌↔◌, ◌+◌, ◌++◌, [], ◌∷◌, List, ℕ, Some, slice_get, true, codes};
ghost use Rattle.vt_facts.specs.Names.{is_name, is_distinct};
ghost use Rattle.vt_facts.specs.Lines.{IsLine, lines_of};

/// Two names are one where their bytes are.
pub fn names_are_their_bytes()
    ensures { (a b : List ℕ) → (is_name a b ≡ true) ↔ (a ≡ b) }
{}

/// Where no name stands twice, each stands at one place.
pub fn distinct_names_have_one_place()
    ensures { (names : List (List ℕ)) (name : List ℕ) (i j : ℕ) → is_distinct names ≡ true →
        slice_get names i ≡ Some name → slice_get names j ≡ Some name → i ≡ j }
{}

/// The lines of a text that begins with a line and a line feed are that line, and then those of the
/// rest. A carriage return before the line feed changes nothing, and the last line may lack its line
/// feed.
pub fn a_line_ends_with_a_line_feed()
    ensures nothing { lines_of [] ≡ [] }
    ensures fed { (line rest : List ℕ) → IsLine line →
        lines_of (line ++ codes "\n" ++ rest) ≡ line ∷ lines_of rest }
    ensures returned { (line rest : List ℕ) → IsLine line →
        lines_of (line ++ codes "\r\n" ++ rest) ≡ line ∷ lines_of rest }
    ensures last { (b : ℕ) (line : List ℕ) → IsLine (b ∷ line) → lines_of (b ∷ line) ≡ (b ∷ line) ∷ [] }
{}
