// Tokens as lexemes.
ghost use Rattle.std.specs.Prelude.{◌≡◌, IfOk, [], slice_range, unwrap_or};
ghost use Rattle.std.specs.List.{AllByRecursion};
ghost use Rattle.vt_grammar.specs.declared.symbol.Symbol.TheVariants as symbol;
ghost use Rattle.vt_tokens.specs.Spelling.{Spells, AreAmong};
ghost use Rattle.vt_tokens.specs.Spans.{IsSlice};
ghost use Rattle.vt_tokens.specs.Lexemes.{keywords, marks, named_in, symbol_of, text_of, lexeme_of, lexemes_of};

use crate::quoting::quoted;
use crate::{Token, TokenKind};
use std::alloc::Global;
use vt_base::{List, NoMemory, Text};
use vt_grammar::{Lexeme, Symbol};

// The keyword that a word is.
#[tactic(auto, unfolding(crate::specs::Lexemes::keywords))]
fn keyword(word: &str) -> Option<Symbol>
    ensures { result ≡ named_in keywords word.now }
{
    match word {
        "package" => Some(Symbol::Package),
        "import" => Some(Symbol::Import),
        "pattern" => Some(Symbol::Pattern),
        "private" => Some(Symbol::Private),
        "or" => Some(Symbol::Or),
        "find" => Some(Symbol::Find),
        "neg" => Some(Symbol::Neg),
        "check" => Some(Symbol::Check),
        "eval" => Some(Symbol::Eval),
        "sum" => Some(Symbol::Sum),
        "min" => Some(Symbol::Min),
        "max" => Some(Symbol::Max),
        "avg" => Some(Symbol::Avg),
        "count" => Some(Symbol::Count),
        "java" => Some(Symbol::Java),
        "true" => Some(Symbol::True),
        "false" => Some(Symbol::False),
        _ => None,
    }
}

// The symbol of a mark.
#[tactic(auto, unfolding(crate::specs::Lexemes::marks))]
fn mark(bytes: &str) -> Symbol
    ensures { result ≡ unwrap_or (named_in marks bytes.now) symbol.Question }
{
    match bytes {
        "(" => Symbol::LeftParen,
        ")" => Symbol::RightParen,
        "{" => Symbol::LeftBrace,
        "}" => Symbol::RightBrace,
        "[" => Symbol::LeftBracket,
        "]" => Symbol::RightBracket,
        "," => Symbol::Comma,
        ";" => Symbol::Semicolon,
        ":" => Symbol::Colon,
        "::" => Symbol::DoubleColon,
        "." => Symbol::Dot,
        "#" => Symbol::Hash,
        "@" => Symbol::At,
        "=" => Symbol::Assign,
        "==" => Symbol::Equal,
        "!=" => Symbol::Differ,
        "<" => Symbol::Less,
        "<=" => Symbol::AtMost,
        ">" => Symbol::Greater,
        ">=" => Symbol::AtLeast,
        "+" => Symbol::Plus,
        "-" => Symbol::Minus,
        "*" => Symbol::Times,
        "/" => Symbol::Divided,
        "%" => Symbol::Remainder,
        "!" => Symbol::Not,
        "&" => Symbol::Ampersand,
        "&&" => Symbol::And,
        "|" => Symbol::Bar,
        "||" => Symbol::OrElse,
        _ => Symbol::Question,
    }
}

// The symbol of a token.
fn symbol(kind: TokenKind, bytes: &str) -> Symbol
    ensures { result ≡ symbol_of kind bytes.now }
{
    match kind {
        TokenKind::Word => keyword(bytes).unwrap_or(Symbol::Identifier),
        TokenKind::Blank => Symbol::Blank,
        TokenKind::Number => Symbol::Number,
        TokenKind::Quoted => Symbol::Quoted,
        TokenKind::Mark => mark(bytes),
    }
}

// The text that a token keeps.
fn kept(alloc: Global, kind: TokenKind, bytes: &str, nothing: &Text) -> Result<Text, NoMemory>
    requires { nothing.now ≡ [] }
    ensures { IfOk result (λ text. text ≡ text_of kind bytes.now) }
{
    match kind {
        TokenKind::Word | TokenKind::Number => Text::new(alloc, bytes),
        TokenKind::Quoted => match quoted(alloc, bytes)? {
            Some(text) => Ok(text),
            None => Ok(nothing.share()),
        },
        TokenKind::Blank | TokenKind::Mark => Ok(nothing.share()),
    }
}

// The bytes of a token, which begin and end with a byte of ASCII.
#[tactic(auto, using(crate::proofs::LexemeLemmas::token_begins, crate::proofs::LexemeLemmas::token_ends))]
fn bytes_of(text: &str, token: Token) -> &str
    requires { IsSlice text.now 0 token }
    ensures { result.now ≡ slice_range text.now token.start token.end }
{
    &text[token.start as usize..token.end as usize]
}

// The lexeme of a token.
fn lexeme(alloc: Global, text: &str, token: Token, nothing: &Text) -> Result<Lexeme, NoMemory>
    requires slice { IsSlice text.now 0 token }
    requires nothing { nothing.now ≡ [] }
    ensures { IfOk result (λ lexeme. lexeme ≡ lexeme_of text.now token) }
{
    let bytes = bytes_of(text, token);
    Ok(Lexeme {
        symbol: symbol(token.kind, bytes),
        text: kept(alloc, token.kind, bytes, nothing)?,
        line: token.line,
    })
}

// The lexemes of tokens, each of which is a slice of the text.
fn each(alloc: Global, text: &str, tokens: &[Token]) -> Result<List<Lexeme>, NoMemory>
    requires { AllByRecursion (IsSlice text.now 0) tokens.now }
    ensures { IfOk result (λ lexemes. lexemes ≡ lexemes_of text.now tokens.now) }
{
    let nothing = Text::new(alloc, "")?;
    let mut lexemes = List::new(alloc);
    for token in tokens {
        lexemes.add(lexeme(alloc, text, *token, &nothing)?)?;
    }
    Ok(lexemes)
}

/// The lexemes of the tokens of a text.
#[tactic(auto, using(crate::proofs::LexemeLemmas::each_is_slice))]
pub fn lexemes(alloc: Global, text: &str, tokens: &[Token]) -> Result<List<Lexeme>, NoMemory>
    requires { Spells text.now tokens.now }
    ensures { IfOk result (λ lexemes. lexemes ≡ lexemes_of text.now tokens.now) }
{
    each(alloc, text, tokens)
}

/// The lexemes of neighbours among the tokens of a text.
#[tactic(auto, using(crate::proofs::LexemeLemmas::each_among))]
pub fn lexemes_among(alloc: Global, text: &str, tokens: &[Token]) -> Result<List<Lexeme>, NoMemory>
    requires { AreAmong text.now tokens.now }
    ensures { IfOk result (λ lexemes. lexemes ≡ lexemes_of text.now tokens.now) }
{
    each(alloc, text, tokens)
}
