// Strings in double quotes, as the texts that they stand for.
ghost use Rattle.std.specs.Prelude.{◌≡◌, ◌≢◌, ◌∷◌, List, ℕ, Some, None, IfOk, MatchOption, string_bytes};
ghost use Rattle.vt_tokens.specs.Lexicon.{is_plain, escaped};
ghost use Rattle.vt_tokens.specs.Quoting.{unquoted, quoted};

use std::alloc::Global;
use vt_base::{NoMemory, Text};

// Whether a character stands for itself between quotes.
fn is_plain(c: char) -> bool
    ensures { result ≡ is_plain c }
{
    c != '"' && c != '\\' && c != '\n'
}

// The character that `\` and this one stand for.
fn unescaped(c: char) -> Option<char>
    ensures { result ≡ escaped c }
{
    match c {
        '"' => Some('"'),
        '\\' => Some('\\'),
        'n' => Some('\n'),
        't' => Some('\t'),
        _ => None,
    }
}

// What is written behind a quote, up to the quote that ends the bytes.
#[tactic(auto, using(crate::proofs::UnquotedLemmas::goes_on, crate::proofs::UnquotedLemmas::never_closed, crate::proofs::UnquotedLemmas::closed, crate::proofs::UnquotedLemmas::quote_within, crate::proofs::UnquotedLemmas::no_plain, crate::proofs::UnquotedLemmas::escapes, crate::proofs::UnquotedLemmas::bad_escape, crate::proofs::UnquotedLemmas::escape_cut))]
fn unquoted(alloc: Global, bytes: &str) -> Result<Option<String>, NoMemory>
    ensures { IfOk result (λ text. MatchOption text (unquoted bytes.now ≡ None)
        (λ s. unquoted bytes.now ≡ Some (string_bytes s))) }
{
    let mut text = String::new(alloc);
    let mut rest = bytes.chars();
    'each: while let Some(c) = rest.next() {
        if c == '"' {
            if rest.as_str().is_empty() {
                return Ok(Some(text));
            }
            return Ok(None);
        }
        if c == '\\' {
            let Some(escape) = rest.next() else {
                return Ok(None);
            };
            let Some(meant) = unescaped(escape) else {
                return Ok(None);
            };
            text.push(meant)?;
        } else if is_plain(c) {
            text.push(c)?;
        } else {
            return Ok(None);
        }
    }
    Ok(None)
}

// What stands behind a quote, where the bytes begin with one.
fn behind_quote(bytes: &str) -> Option<&str>
    ensures { MatchOption result ((rest : List ℕ) → bytes.now ≢ 34 ∷ rest)
        (λ rest. bytes.now ≡ 34 ∷ rest.now) }
{
    bytes.strip_prefix('"')
}

/// The text that a string in double quotes stands for, where the bytes are one.
#[tactic(auto, using(crate::proofs::QuotedLemmas::behind, crate::proofs::QuotedLemmas::not_quoted))]
pub fn quoted(alloc: Global, bytes: &str) -> Result<Option<Text>, NoMemory>
    ensures { IfOk result (λ text. text ≡ quoted bytes.now) }
{
    let Some(rest) = behind_quote(bytes) else {
        return Ok(None);
    };
    match unquoted(alloc, rest)? {
        Some(text) => Ok(Some(Text::new(alloc, text.as_str())?)),
        None => Ok(None),
    }
}
