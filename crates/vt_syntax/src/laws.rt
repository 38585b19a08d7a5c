// What holds of every list of lexemes.
ghost use Rattle.std.specs.Prelude.{◌≡◌, ◌↔◌, Ok, List, Some, false};
ghost use Rattle.vt_grammar.specs.Grammar.{balanced, IsPart, Spells};
ghost use Rattle.vt_text.specs.ExpressionRules.{expression};
ghost use Rattle.vt_text.specs.declared.tree.ExprTree.{ExprTree};
ghost use Rattle.vt_grammar.specs.Reading.{read};
ghost use Rattle.vt_grammar.specs.declared.lexeme.Lexeme.{Lexeme};
ghost use Rattle.vt_syntax.specs.Expressions.{expression_of};
ghost use Rattle.vt_syntax.specs.Rules.{file};
ghost use Rattle.vt_syntax.specs.Parts.{CanGoOn, IsLongestBalanced};

/// A part of a file is what can be gone on with to a file.
pub fn part_goes_on()
    ensures { (ls : List Lexeme) → IsPart file ls ↔ CanGoOn file ls }
{}

/// Reading a balanced list takes the longest balanced front.
pub fn balanced_is_longest()
    ensures { (ls front back : List Lexeme) → read balanced ls ≡ Ok (front, back) → IsLongestBalanced ls front back }
{}

/// What is read as an expression is what the grammar has.
pub fn expression_is_spelled()
    ensures { (ls : List Lexeme) (e : ExprTree) → (expression_of ls ≡ Some e) ↔ Spells (expression false) ls e }
{}
