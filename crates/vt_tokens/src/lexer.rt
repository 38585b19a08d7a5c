// The tokens of a text.
ghost use Rattle.std.specs.Prelude.{◌≡◌, ◌+◌, ◌≤◌, ◌<◌, ◌^◌, ◌==◌, ℕ, Err, length, count_by, ◌++◌, IfOk, OnOk, MatchOption};
ghost use Rattle.vt_tokens.specs.Spelling.{Spells, IsBadAt};
ghost use Rattle.vt_tokens.specs.Inside.Scanned.{StandsFirst, NothingFirst, token_placed};

use crate::piece::{Cut, piece};
use crate::{Token, TokenFault};
use std::alloc::Global;
use vt_base::{List, NoMemory};

// The piece at the front of a text.
#[tactic(auto, using(crate::proofs::SpellingLemmas::stands_first, crate::proofs::SpellingLemmas::nothing_first))]
fn first_piece(text: &[u8]) -> Option<Cut>
    requires { length text.now < 2 ^ 32 }
    ensures { MatchOption result (NothingFirst text.now) (λ c. StandsFirst text.now c) }
{
    piece(text)
}

// How many line ends there are.
fn line_ends(bytes: &[u8]) -> usize
    ensures value { result ≡ count_by (λ b. b == 10) bytes.now }
    ensures bounded { result ≤ length bytes.now }
{
    bytes.iter().filter(|b| **b == b'\n').count()
}

// Adds a piece that begins at a place of a line, where it is a token.
fn add_if_token(tokens: &mut List<Token>, cut: Cut, at: usize, line: usize) -> Result<(), NoMemory>
    requires at { at + cut.len < 2 ^ 32 }
    requires line { line < 2 ^ 32 }
    ensures { OnOk result (tokens.new ≡ tokens.old ++ token_placed cut.kind at (at + cut.len) line) }
{
    if let Some(kind) = cut.kind {
        tokens.add(Token {
            kind,
            start: at as u32,
            end: (at + cut.len) as u32,
            line: line as u32,
        })?;
    }
    Ok(())
}

/// The tokens of a text, or the line of the first text that is neither a token nor between tokens.
pub fn tokens(alloc: Global, text: &str) -> Result<List<Token>, TokenFault>
    requires { length text.now < 2 ^ 32 }
    // What is accepted are the tokens that the text spells.
    ensures accepted { IfOk result (λ tokens. Spells text.now tokens) }

    // What is refused is bad on that line. Want of memory may stand for any answer.
    ensures refused { (line : ℕ) → result ≡ Err (TokenFault.Bad line) → IsBadAt text.now line }
{
    let mut tokens = List::new(alloc);
    let mut rest = text.as_bytes();
    let mut at = 0usize;
    let mut line = 1usize;
    'each: while !rest.is_empty() {
        let Some(cut) = first_piece(rest) else {
            return Err(TokenFault::Bad { line: line as u32 });
        };
        let (bytes, after) = rest.split_at(cut.len);
        add_if_token(&mut tokens, cut, at, line)?;
        line += line_ends(bytes);
        at += cut.len;
        rest = after;
    }
    Ok(tokens)
}
