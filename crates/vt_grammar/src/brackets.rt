// The reader of a balanced list.
ghost use Rattle.std.specs.Prelude.{◌≡◌, ◌≤◌, ℕ, length, take, drop, reverse, Ok, Err, Some, None, true, false};
ghost use Rattle.vt_grammar.specs.Symbols.{closes, closer};
ghost use Rattle.vt_grammar.specs.Grammar.{balanced, step};
ghost use Rattle.vt_grammar.specs.Reading.{read, scan_end};
ghost use Rattle.vt_grammar.specs.Gives.{Gives, ahead};
ghost use Rattle.vt_grammar.specs.declared.stop.Stop.TheVariants.{Fault};

use crate::{Lexeme, Stop, Symbol};
use std::alloc::Global;

// The closing bracket of an opening one.
fn closer_of(symbol: Symbol) -> Option<Symbol>
    ensures { result ≡ closer symbol }
{
    match symbol {
        Symbol::LeftParen => Some(Symbol::RightParen),
        Symbol::LeftBrace => Some(Symbol::RightBrace),
        Symbol::LeftBracket => Some(Symbol::RightBracket),
        _ => None,
    }
}

// Whether it is a closing bracket.
fn is_closing(symbol: Symbol) -> bool
    ensures { result ≡ closes symbol }
{
    match symbol {
        Symbol::RightParen | Symbol::RightBrace | Symbol::RightBracket => true,
        _ => false,
    }
}

// Steps over one more symbol, or says that it can't stand. The bracket to be closed next is last.
#[tactic(auto, using(crate::proofs::RollLemmas::reverse_push))]
fn step_over(due: &mut Vec<Symbol>, symbol: Symbol) -> Result<bool, Stop>
    ensures stands { result ≡ Ok true → step (reverse due.old.items) symbol ≡ Some (reverse due.new.items) }
    ensures stands_not { result ≡ Ok false → step (reverse due.old.items) symbol ≡ None }
    ensures unchanged { result ≡ Ok false → due.new.items ≡ due.old.items }
    ensures no_fault { (n : ℕ) → result ≡ Err (Fault n) → ⊥ }
{
    if is_closing(symbol) {
        match due.pop() {
            Some(last) if last == symbol => Ok(true),
            Some(last) => {
                due.push(last)?;
                Ok(false)
            }
            None => Ok(false),
        }
    } else {
        match closer_of(symbol) {
            Some(close) => {
                due.push(close)?;
                Ok(true)
            }
            None => Ok(true),
        }
    }
}

// The list ends behind so many lexemes, where each bracket is closed.
fn ended<'a>(
    lexemes: &'a [Lexeme],
    taken: usize,
    due: &Vec<Symbol>,
) -> Result<(&'a [Lexeme], &'a [Lexeme]), Stop>
    requires { taken ≤ length lexemes.now }
    ensures { Gives (λ x. (x.0.now, x.1.now)) result
        (ahead (take taken lexemes.now) (scan_end (reverse due.now.items) (drop taken lexemes.now))) }
{
    let (inner, rest) = lexemes.split_at(taken);
    if due.is_empty() {
        Ok((inner, rest))
    } else {
        Err(Stop::Fault(rest.len()))
    }
}

/// The longest balanced list at the front, as a slice of what was given, and the lexemes after it.
#[tactic(auto, unfolding(crate::specs::Reading::read), using(crate::proofs::RollLemmas::scan_past, crate::proofs::RollLemmas::scan_stops, crate::proofs::RollLemmas::scan_goes))]
pub fn balanced(alloc: Global, lexemes: &[Lexeme]) -> Result<(&[Lexeme], &[Lexeme]), Stop>
    ensures { Gives (λ x. (x.0.now, x.1.now)) result (read balanced lexemes.now) }
{
    let mut due = Vec::new(alloc);
    let mut taken = 0usize;
    'each: while let Some(lexeme) = lexemes.get(taken) {
        if !step_over(&mut due, lexeme.symbol)? {
            return ended(lexemes, taken, &due);
        }
        taken += 1;
    }
    ended(lexemes, taken, &due)
}
