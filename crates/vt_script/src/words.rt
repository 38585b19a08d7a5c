// The words of a line: names, numbers, policies.
ghost use Rattle.std.specs.Prelude.{◌≡◌, ◌≢◌, ◌<◌, ◌≤◌, ◌∷◌, List, ℕ, option_map, IfSome, MatchOption};
ghost use Rattle.std.specs.List.{list_all};
ghost use Rattle.vt_json.specs.Names.{is_name, continues_object_name};
ghost use Rattle.vt_tokens.specs.Lexicon.{begins_word, goes_on};
ghost use Rattle.vt_script.specs.Words.{cut, is_identifier, identifier, object_name, number, policy, something};
ghost use Rattle.vt_script.specs.Inside.Gives.{Gives};

use crate::fault::Stuck;
use std::alloc::Global;
use vt_base::{Policy, Text};

const MOST_BYTES: usize = 64;

/// What stands before the first space, and what stands after it.
pub(crate) fn split(line: &str) -> Option<(&str, &str)>
    ensures { option_map (λ parts. (parts.0.now, parts.1.now)) result ≡ cut line.now }
{
    line.split_once(' ')
}

/// What stands behind a character of ASCII, where the line begins with it.
pub(crate) fn behind(line: &str, first: char) -> Option<&str>
    requires { first < 128 }
    ensures { MatchOption result ((rest : List ℕ) → line.now ≢ first ∷ rest)
        (λ rest. line.now ≡ first ∷ rest.now) }
{
    line.strip_prefix(first)
}

fn begins(byte: u8) -> bool
    ensures { result ≡ begins_word byte }
{
    byte.is_ascii_alphabetic() || byte == b'_'
}

fn continues(byte: u8) -> bool
    ensures { result ≡ goes_on byte }
{
    begins(byte) || byte.is_ascii_digit()
}

fn continues_name(byte: u8) -> bool
    ensures { result ≡ continues_object_name byte }
{
    byte.is_ascii_alphanumeric() || byte == b'_' || byte == b'-' || byte == b'.'
}

fn all_continue(bytes: &[u8]) -> bool
    ensures { result ≡ list_all goes_on bytes.now }
{
    bytes.iter().all(|byte| continues(*byte))
}

fn all_continue_name(bytes: &[u8]) -> bool
    ensures { result ≡ list_all continues_object_name bytes.now }
{
    bytes.iter().all(|byte| continues_name(*byte))
}

fn is_identifier(word: &str) -> bool
    ensures { result ≡ is_identifier word.now }
{
    match word.as_bytes() {
        [first, rest @ ..] => begins(*first) && all_continue(rest),
        [] => false,
    }
}

fn is_object_name(word: &str) -> bool
    ensures { result ≡ is_name continues_object_name word.now }
{
    match word.as_bytes() {
        [first, rest @ ..] => begins(*first) && all_continue_name(rest) && rest.len() < MOST_BYTES,
        [] => false,
    }
}

/// The name of a class, a feature, a pattern or an agenda.
pub(crate) fn identifier(alloc: Global, word: &str) -> Result<Text, Stuck>
    ensures { Gives result (identifier word.now) }
{
    if !is_identifier(word) {
        return Err(Stuck::NoCommand);
    }
    Ok(Text::new(alloc, word)?)
}

/// The name of an object or of a client.
pub(crate) fn object_name(alloc: Global, word: &str) -> Result<Text, Stuck>
    ensures { Gives result (object_name word.now) }
{
    if !is_object_name(word) {
        return Err(Stuck::NoCommand);
    }
    Ok(Text::new(alloc, word)?)
}

/// What is left of a line, where it is something.
pub(crate) fn something(alloc: Global, rest: &str) -> Result<Text, Stuck>
    ensures { Gives result (something rest.now) }
{
    if rest.is_empty() {
        return Err(Stuck::NoCommand);
    }
    Ok(Text::new(alloc, rest)?)
}

/// The number that digits write, where it is at most this.
pub(crate) fn number(word: &str, most: u64) -> Option<u64>
    ensures value { result ≡ number most word.now }
    ensures bounded { IfSome result (λ n. n ≤ most) }
{
    if word.starts_with('+') {
        return None;
    }
    let Ok(n) = word.parse::<u64>() else {
        return None;
    };
    if n <= most { Some(n) } else { None }
}

/// How an agenda picks.
pub(crate) fn policy(word: &str) -> Option<Policy>
    ensures { result ≡ policy word.now }
{
    match word {
        "fixed" => Some(Policy::Fixed),
        "inverted" => Some(Policy::Inverted),
        "oldest" => Some(Policy::Oldest),
        "turns" => Some(Policy::Turns),
        _ => None,
    }
}
