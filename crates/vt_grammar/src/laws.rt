// What holds of every grammar where the next lexeme decides.
ghost use Rattle.std.specs.Prelude.{◌≡◌, ◌↔◌, ◌⊎◌, [], Ok, List, ℕ};
ghost use Rattle.vt_grammar.specs.Grammar.{Spells};
ghost use Rattle.vt_grammar.specs.Fault.{IsFault};
ghost use Rattle.vt_grammar.specs.Reading.{read};
ghost use Rattle.vt_grammar.specs.declared.lexeme.Lexeme.{Lexeme};

use crate::Spelled;

/// Lexemes spell at most one value.
pub fn one_tree<T: Spelled>()
    ensures { (ls : List Lexeme) (x y : T) → Spells T.grammar ls x → Spells T.grammar ls y → x ≡ y }
{}

/// What is read to the end is what the lexemes spell.
pub fn reading_is_spelling<T: Spelled>()
    ensures { (ls : List Lexeme) (x : T) → (read T.factored ls ≡ Ok (x, [])) ↔ Spells T.grammar ls x }
{}

/// Lexemes spell a value, or have a fault.
pub fn spells_or_fault<T: Spelled>()
    ensures { (ls : List Lexeme) → ((x : T) × Spells T.grammar ls x) ⊎ ((n : ℕ) × IsFault T.grammar ls n) }
{}

/// Lexemes have at most one fault.
pub fn one_fault<T: Spelled>()
    ensures { (ls : List Lexeme) (n other : ℕ) → IsFault T.grammar ls n → IsFault T.grammar ls other → n ≡ other }
{}

/// Lexemes with a fault spell nothing.
pub fn fault_spells_nothing<T: Spelled>()
    ensures { (ls : List Lexeme) (x : T) (n : ℕ) → IsFault T.grammar ls n → Spells T.grammar ls x → ⊥ }
{}
