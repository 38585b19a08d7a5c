// What holds of every text.
ghost use Rattle.std.specs.Prelude.{◌≡◌, ◌⊎◌, ◌↔◌, ℕ, List, Some, true, is_some};
ghost use Rattle.vt_tokens.specs.Lexicon.{IsMark};
ghost use Rattle.vt_tokens.specs.Spelling.{Spells, IsBadAt, AreAmong};
ghost use Rattle.vt_tokens.specs.Spans.{AreSlices};
ghost use Rattle.vt_tokens.specs.Lexemes.{marks, named_in};
ghost use Rattle.vt_tokens.specs.Quoting.{quoted, IsStringOf};
ghost use Rattle.vt_tokens.specs.declared.token.Token.{Token};

/// A text spells at most one list of tokens.
pub fn one_list()
    ensures { (text : List ℕ) (tokens others : List Token) → Spells text tokens → Spells text others → tokens ≡ others }
{}

/// A text is bad on at most one line.
pub fn one_bad_line()
    ensures { (text : List ℕ) (line other : ℕ) → IsBadAt text line → IsBadAt text other → line ≡ other }
{}

/// A text that is bad spells no tokens.
pub fn bad_spells_nothing()
    ensures { (text : List ℕ) (tokens : List Token) (line : ℕ) → Spells text tokens → IsBadAt text line → ⊥ }
{}

/// Each text spells tokens or is bad.
pub fn spells_or_is_bad()
    ensures { (text : List ℕ) → ((tokens : List Token) × Spells text tokens) ⊎ ((line : ℕ) × IsBadAt text line) }
{}

/// The tokens that a text spells are slices of it, one after the other.
pub fn tokens_are_slices()
    ensures { (text : List ℕ) (tokens : List Token) → Spells text tokens → AreSlices text 0 tokens }
{}

/// Each mark is in the list of the marks with their symbols.
#[tactic(auto, using(crate::proofs::LexemeLemmas::each_mark_is_listed))]
pub fn each_mark_has_a_symbol()
    ensures { (bytes : List ℕ) → IsMark bytes → is_some (named_in marks bytes) ≡ true }
{}

/// What has a text is a string in double quotes that stands for it, and each such string has it.
pub fn strings_are_quoted()
    ensures { (bytes text : List ℕ) → (quoted bytes ≡ Some text) ↔ IsStringOf bytes text }
{}

/// All the tokens that a text spells are neighbours among them.
pub fn all_are_among()
    ensures { (text : List ℕ) (tokens : List Token) → Spells text tokens → AreAmong text tokens }
{}
