//! Declarations as `pattern Name(a, b);`, read by a grammar, and what their faults are. In a table each
//! line is a case: words with blanks between them, which are lexemes, and what they give.
ghost use Rattle.vt_grammar.specs.Inside.Heading.{name, names};
ghost use Rattle.vt_grammar.specs.Reading.{read as reading};
ghost use Rattle.vt_grammar.specs.Gives.{Gives};

use std::alloc::Global;
use std::test::Fail;
use vt_base::{List, Text};
use vt_grammar::{
    Lexeme, Member, Spelled, Stop, Symbol, balanced, fault_spells_nothing, is_next, more, one,
    one_fault, one_tree, reading_is_spelling, spells_or_fault, whole,
};

#[derive(Debug, Drop)]
struct Declaration {
    name: Text,
    parameters: List<Text>,
}

impl Spelled for Declaration {
    ghost use Rattle.std.specs.Prelude.{refl};
    ghost use Rattle.vt_grammar.specs.Grammar.{made};
    ghost use Rattle.vt_grammar.specs.Inside.Heading.{heading};
    ghost use Rattle.vt_grammar.specs.Inside.SameLaws.{same_itself};

    ghost grammar = { made (λ x. record { name = x.0; parameters = x.1 }) heading };

    ghost factored = { made (λ x. record { name = x.0; parameters = x.1 }) heading };

    ghost decided = { refl };

    ghost same = { same_itself (made (λ x. record { name = x.0; parameters = x.1 }) heading) };
}

// A name that stands behind a comma.
struct Further;

impl Member for Further {
    ghost use Rattle.std.specs.Prelude.{refl};
    ghost use Rattle.vt_grammar.specs.Inside.Heading.{further};

    type Value = Text;

    ghost grammar = { further };

    ghost decided = { refl };

    fn is_next(lexemes: &[Lexeme]) -> bool {
        is_next(lexemes, Symbol::Comma)
    }

    #[tactic(auto, unfolding(vt_grammar::specs::Reading::read))]
    fn read(_alloc: Global, lexemes: &[Lexeme]) -> Result<(Text, &[Lexeme]), Stop> {
        let (_, rest) = one(lexemes, Symbol::Comma)?;
        read_name(rest)
    }
}

#[tactic(auto, unfolding(vt_grammar::specs::Reading::read))]
fn read_name(lexemes: &[Lexeme]) -> Result<(Text, &[Lexeme]), Stop>
    ensures { Gives (λ x. (x.0, x.1.now)) result (reading name lexemes.now) }
{
    let (lexeme, rest) = one(lexemes, Symbol::Identifier)?;
    Ok((lexeme.text.share(), rest))
}

#[tactic(auto, unfolding(vt_grammar::specs::Reading::read))]
fn read_names(alloc: Global, lexemes: &[Lexeme]) -> Result<(List<Text>, &[Lexeme]), Stop>
    ensures { Gives (λ x. (x.0, x.1.now)) result (reading names lexemes.now) }
{
    let mut names = List::new(alloc);
    let (first, rest) = read_name(lexemes)?;
    names.add(first)?;
    more::<Further>(alloc, names, rest)
}

#[tactic(auto, unfolding(vt_grammar::specs::Reading::read))]
fn read_declaration(alloc: Global, lexemes: &[Lexeme]) -> Result<(Declaration, &[Lexeme]), Stop>
    ensures { Gives (λ x. (x.0, x.1.now)) result (reading ⟦<Declaration as Spelled>⟧.factored lexemes.now) }
{
    let (_, rest) = one(lexemes, Symbol::Pattern)?;
    let (name, rest) = read_name(rest)?;
    let (_, rest) = one(rest, Symbol::LeftParen)?;
    let (parameters, rest) = read_names(alloc, rest)?;
    let (_, rest) = one(rest, Symbol::RightParen)?;
    let (_, rest) = one(rest, Symbol::Semicolon)?;
    Ok((Declaration { name, parameters }, rest))
}

// The symbol of a word between blanks.
fn symbol_of(word: &str) -> Symbol {
    match word {
        "pattern" => Symbol::Pattern,
        "(" => Symbol::LeftParen,
        ")" => Symbol::RightParen,
        "{" => Symbol::LeftBrace,
        "}" => Symbol::RightBrace,
        "[" => Symbol::LeftBracket,
        "]" => Symbol::RightBracket,
        "," => Symbol::Comma,
        ";" => Symbol::Semicolon,
        _ => Symbol::Identifier,
    }
}

// The lexemes of words, all on line 1.
fn lexemes(alloc: Global, words: &str) -> Result<Vec<Lexeme>, Fail> {
    let mut all = Vec::new(alloc);
    for word in words.split_whitespace() {
        all.push(Lexeme {
            symbol: symbol_of(word),
            text: Text::new(alloc, word)?,
            line: 1,
        })?;
    }
    Ok(all)
}

// A declaration as it is written, or how many lexemes are left at its fault.
fn outcome(alloc: Global, words: &str) -> Result<String, Fail> {
    let lexemes = lexemes(alloc, words)?;
    let lexemes = lexemes.as_slice();
    let declaration = match whole(lexemes, read_declaration(alloc, lexemes)) {
        Ok(declaration) => declaration,
        Err(Stop::Fault(left)) => return Ok(format!(in alloc; "{left} left")?),
        Err(Stop::NoMemory) => return Ok(String::from_str(alloc, "no memory")?),
    };
    let mut all = String::from_str(alloc, declaration.name.as_str())?;
    for parameter in declaration.parameters.as_slice() {
        all.push_str(" ")?;
        all.push_str(parameter.as_str())?;
    }
    Ok(all)
}

// Declarations; then those whose first wrong lexeme can't stand, whose end comes too early, and one
// with more behind it.
const DECLARATIONS: &str = "pattern p ( a ) ; → p a
pattern p ( a , b , c ) ; → p a b c
p ( a ) ; → 5 left
pattern p ( ) ; → 2 left
pattern p ( a b ) ; → 3 left
pattern p ( a , ) ; → 2 left
 → 0 left
pattern p ( a , b → 0 left
pattern p ( a ) ; ; → 1 left";

// How many lexemes a balanced list has, and how many stand after it.
fn lengths(alloc: Global, words: &str) -> Result<String, Fail> {
    let lexemes = lexemes(alloc, words)?;
    match balanced(alloc, lexemes.as_slice()) {
        Ok((inner, rest)) => {
            let (inner, rest) = (inner.len(), rest.len());
            Ok(format!(in alloc; "{inner} and {rest}")?)
        }
        Err(Stop::Fault(left)) => Ok(format!(in alloc; "{left} left")?),
        Err(Stop::NoMemory) => Ok(String::from_str(alloc, "no memory")?),
    }
}

// Lists that end before a bracket that closes none of their own; then those with a bracket that is
// still open.
const BALANCED: &str = " → 0 and 0
) ; → 0 and 2
a , b ) ; → 3 and 2
( a [ b ] { } ) c ) ; → 9 and 2
a ] → 1 and 1
( a → 0 left
( a ] → 1 left
( [ a ) ] → 2 left";

#[test]
fn lexemes_are_read_or_their_fault_is_found(rt: HostRuntime) -> Result<(), Fail> {
    let alloc = rt.alloc();
    for line in DECLARATIONS.lines() {
        let (words, answer) = line.split_once(" → ").ok_or("no answer")?;
        assert_eq!(rt; outcome(alloc, words)?.as_str(), answer, "{line}");
    }
    for line in BALANCED.lines() {
        let (words, answer) = line.split_once(" → ").ok_or("no answer")?;
        assert_eq!(rt; lengths(alloc, words)?.as_str(), answer, "{line}");
    }
    Ok(())
}

#[test]
fn a_symbol_is_next_where_its_lexeme_is(rt: HostRuntime) -> Result<(), Fail> {
    let lexemes = lexemes(rt.alloc(), "a , b")?;
    let lexemes = lexemes.as_slice();
    assert_eq!(rt; is_next(lexemes, Symbol::Identifier), true);
    assert_eq!(rt; is_next(lexemes, Symbol::Comma), false);
    assert_eq!(rt; is_next(&lexemes[..0], Symbol::Identifier), false);
    assert_eq!(rt;
        one(lexemes, Symbol::Comma).map(|x| x.1.len()),
        Err(Stop::Fault(3))
    );
    if let Ok((lexeme, rest)) = one(lexemes, Symbol::Identifier) {
        assert_eq!(rt; (lexeme.text.as_str(), rest.len()), ("a", 2));
    } else {
        return Err(Fail::new("no name is next"));
    }
    Ok(())
}

#[test]
fn a_declaration_has_the_laws(rt: HostRuntime) -> Result<(), Fail> {
    one_tree::<Declaration>();
    reading_is_spelling::<Declaration>();
    spells_or_fault::<Declaration>();
    one_fault::<Declaration>();
    fault_spells_nothing::<Declaration>();
    Ok(())
}
