// Lexemes as a query file.
ghost use Rattle.std.specs.Prelude.{◌≡◌, ◌≢◌, ℕ, IfOk, Ok, Err};
ghost use Rattle.vt_grammar.specs.Grammar.{star, Spells};
ghost use Rattle.vt_grammar.specs.Fault.{IsFault};
ghost use Rattle.vt_grammar.specs.Reading.{read as reading};
ghost use Rattle.vt_grammar.specs.Gives.{Gives};
ghost use Rattle.vt_grammar.specs.declared.stop.Stop.TheVariants.{Fault, NoMemory};
ghost use Rattle.vt_syntax.specs.Rules.{semicolon, package_line, import_line};
ghost use Rattle.vt_syntax.specs.Rules.{file as grammar};
ghost use Rattle.vt_syntax.specs.Inside.Factored.{pattern, file};
ghost use Rattle.vt_syntax.specs.declared.tree.FileTree.{FileTree};

use crate::patterns::pattern;
use crate::terms::qualified_name;
use crate::{FileTree, PatternTree};
use std::alloc::Global;
use vt_base::{List, Text};
use vt_grammar::{Lexeme, Member, Spelled, Stop, Symbol, is_next, more, one, whole};
use vt_tokens::string;

impl Spelled for FileTree {
    ghost use Rattle.std.specs.Prelude.{refl};
    ghost use Rattle.vt_syntax.specs.Rules as rule;
    ghost use Rattle.vt_syntax.specs.Inside.Factored as one;
    ghost use Rattle.vt_syntax.specs.Inside.SameFile.{same_file};

    ghost grammar = { rule.file };

    ghost factored = { one.file };

    ghost decided = { refl };

    ghost same = { same_file };
}

// Steps over a semicolon, where one is next.
#[tactic(auto, unfolding(vt_grammar::specs::Reading::read))]
fn semicolon(lexemes: &[Lexeme]) -> Result<&[Lexeme], Stop>
    ensures { Gives (λ x. (tt, x.now)) result (reading semicolon lexemes.now) }
{
    if is_next(lexemes, Symbol::Semicolon) {
        let (_, rest) = one(lexemes, Symbol::Semicolon)?;
        Ok(rest)
    } else {
        Ok(lexemes)
    }
}

// Steps over the package, where there is one.
#[tactic(auto, unfolding(vt_grammar::specs::Reading::read))]
fn package_line(alloc: Global, lexemes: &[Lexeme]) -> Result<&[Lexeme], Stop>
    ensures { Gives (λ x. (tt, x.now)) result (reading package_line lexemes.now) }
{
    if is_next(lexemes, Symbol::Package) {
        let (_, rest) = one(lexemes, Symbol::Package)?;
        let (_, rest) = qualified_name(alloc, rest)?;
        semicolon(rest)
    } else {
        Ok(lexemes)
    }
}

// An import.
struct Import;

impl Member for Import {
    ghost use Rattle.std.specs.Prelude.{refl};
    ghost use Rattle.vt_syntax.specs.Rules.{import_line};

    type Value = Text;

    ghost grammar = { import_line };

    ghost decided = { refl };

    fn is_next(lexemes: &[Lexeme]) -> bool {
        is_next(lexemes, Symbol::Import)
    }

    #[tactic(auto, unfolding(vt_grammar::specs::Reading::read))]
    fn read(_alloc: Global, lexemes: &[Lexeme]) -> Result<(Text, &[Lexeme]), Stop> {
        let (_, rest) = one(lexemes, Symbol::Import)?;
        let (text, rest) = string(rest)?;
        let rest = semicolon(rest)?;
        Ok((text, rest))
    }
}

#[tactic(auto, using(crate::proofs::ReaderLemmas::imports_read))]
fn imports(alloc: Global, lexemes: &[Lexeme]) -> Result<(List<Text>, &[Lexeme]), Stop>
    ensures { Gives (λ x. (x.0, x.1.now)) result (reading (star import_line) lexemes.now) }
{
    more::<Import>(alloc, List::new(alloc), lexemes)
}

struct EachPattern;

impl Member for EachPattern {
    ghost use Rattle.std.specs.Prelude.{refl};
    ghost use Rattle.vt_syntax.specs.Inside.Factored.{pattern};

    type Value = PatternTree;

    ghost grammar = { pattern };

    ghost decided = { refl };

    fn is_next(lexemes: &[Lexeme]) -> bool {
        is_next(lexemes, Symbol::At)
            || is_next(lexemes, Symbol::Private)
            || is_next(lexemes, Symbol::Pattern)
    }

    fn read(alloc: Global, lexemes: &[Lexeme]) -> Result<(PatternTree, &[Lexeme]), Stop> {
        pattern(alloc, lexemes)
    }
}

#[tactic(auto, using(crate::proofs::ReaderLemmas::patterns_read))]
fn patterns(alloc: Global, lexemes: &[Lexeme]) -> Result<(List<PatternTree>, &[Lexeme]), Stop>
    ensures { Gives (λ x. (x.0, x.1.now)) result (reading (star pattern) lexemes.now) }
{
    more::<EachPattern>(alloc, List::new(alloc), lexemes)
}

// What the lexemes begin with, as a file.
#[tactic(auto, unfolding(vt_grammar::specs::Reading::read))]
fn front(alloc: Global, lexemes: &[Lexeme]) -> Result<(FileTree, &[Lexeme]), Stop>
    ensures { Gives (λ x. (x.0, x.1.now)) result (reading file lexemes.now) }
{
    let rest = package_line(alloc, lexemes)?;
    let (imports, rest) = imports(alloc, rest)?;
    let (patterns, rest) = patterns(alloc, rest)?;
    Ok((FileTree { imports, patterns }, rest))
}

/// The query file that lexemes spell, or where they go wrong: so many of them are left there.
pub fn read_file(alloc: Global, lexemes: &[Lexeme]) -> Result<FileTree, Stop>
    // What is accepted is what all of the lexemes spell.
    ensures accepted { IfOk result (λ tree. Spells grammar lexemes.now tree) }

    // What they spell is answered, unless memory runs out.
    ensures only { (tree : FileTree) → Spells grammar lexemes.now tree → result ≢ Err NoMemory → result ≡ Ok tree }

    // What is refused is their fault. Want of memory may stand for any answer.
    ensures refused { (n : ℕ) → result ≡ Err (Fault n) → IsFault grammar lexemes.now n }
{
    whole(lexemes, front(alloc, lexemes))
}
