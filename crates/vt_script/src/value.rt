// The values that changes give to attributes.
ghost use Rattle.std.specs.Prelude.{◌≡◌};
ghost use Rattle.vt_tokens.specs.Quoting.{quoted};
ghost use Rattle.vt_script.specs.Words.{truth, integer, value};
ghost use Rattle.vt_script.specs.Inside.Gives.{Gives};

use crate::fault::Stuck;
use crate::words::{behind, number};
use std::alloc::Global;
use vt_base::Text;
use vt_model::Given;
use vt_tokens::quoted;

/// The greatest number that a line can write.
const MOST: u64 = 9_223_372_036_854_775_807;

fn truth(word: &str) -> Option<bool>
    ensures { result ≡ truth word.now }
{
    match word {
        "true" => Some(true),
        "false" => Some(false),
        _ => None,
    }
}

#[tactic(auto, using(crate::proofs::WordLemmas::negative, crate::proofs::WordLemmas::unsigned))]
fn integer(word: &str) -> Option<i64>
    ensures { result ≡ integer word.now }
{
    match behind(word, '-') {
        Some(digits) => Some(-(number(digits, MOST)? as i64)),
        None => Some(number(word, MOST)? as i64),
    }
}

fn text(alloc: Global, word: &str) -> Result<Text, Stuck>
    ensures { Gives result (quoted word.now) }
{
    match quoted(alloc, word)? {
        Some(text) => Ok(text),
        None => Err(Stuck::NoCommand),
    }
}

/// A value: `true`, `false`, a number, or a string that ends the line.
pub(crate) fn value(alloc: Global, rest: &str) -> Result<Given, Stuck>
    ensures { Gives result (value rest.now) }
{
    if let Some(b) = truth(rest) {
        return Ok(Given::Bool(b));
    }
    if let Some(n) = integer(rest) {
        return Ok(Given::Int(n));
    }
    Ok(Given::Text(text(alloc, rest)?))
}
