// The piece at the front of a text: a token, or what stands between tokens.
ghost use Rattle.std.specs.Prelude.{◌≡◌, ◌^◌, true, Some, None, ◌+◌, ◌≤◌, ◌<◌, ◌==◌, ◌&&◌, ◌∷◌, [], length, Option, IfSome, is_some};
ghost use Rattle.std.specs.List.{prefix_len};
ghost use Rattle.std.specs.Char.{is_ascii_digit};
ghost use Rattle.vt_tokens.specs.Lexicon.{begins_word, goes_on, is_in_line, escaped, is_single_mark, is_double_mark};
ghost use Rattle.vt_tokens.specs.Inside.Scan.{opening, is_numeral, string_end, comment_end, begins_with, cut_word, cut_number, cut_mark, piece_up_to, cut};

use crate::TokenKind;

/// The greatest number that a text can write.
const MOST: u128 = 9_223_372_036_854_775_807;

// What can begin with a byte.
#[derive(Clone, Copy)]
enum Opening {
    Letter,
    Digit,
    Quote,
    Return,
    Space,
    Other,
}

/// How long the piece at the front of a text is, and of which kind, where it is a token.
#[derive(Clone, Copy)]
pub(crate) struct Cut {
    pub kind: Option<TokenKind>,
    pub len: usize,
}

fn is_first_of_word(b: u8) -> bool
    ensures { result ≡ begins_word b }
{
    b.is_ascii_alphabetic() || b == b'_'
}

fn is_within_word(b: u8) -> bool
    ensures { result ≡ goes_on b }
{
    is_first_of_word(b) || b.is_ascii_digit()
}

fn is_escape(b: u8) -> bool
    ensures { result ≡ is_some (escaped b) }
{
    b == b'"' || b == b'\\' || b == b'n' || b == b't'
}

#[tactic(auto, unfolding(crate::specs::Lexicon::is_single_mark))]
fn is_mark(b: u8) -> bool
    ensures { result ≡ is_single_mark b }
{
    b"(){}[],;:.#@=<>+-*/%!&|?".contains(&b)
}

#[tactic(auto, unfolding(crate::specs::Lexicon::is_double_mark))]
fn is_mark_of_two(a: u8, b: u8) -> bool
    ensures { result ≡ is_double_mark (a ∷ b ∷ []) }
{
    match a {
        b':' | b'=' | b'&' | b'|' => b == a,
        b'!' | b'<' | b'>' => b == b'=',
        _ => false,
    }
}

#[tactic(auto, unfolding(crate::specs::Inside::Scan::opening))]
fn sort_of(b: u8) -> Opening
    ensures value { result ≡ opening b }
    ensures digit { result ≡ Opening.Digit → is_ascii_digit b ≡ true }
{
    if is_first_of_word(b) {
        Opening::Letter
    } else if b.is_ascii_digit() {
        Opening::Digit
    } else if b == b'"' {
        Opening::Quote
    } else if b == b'\r' {
        Opening::Return
    } else if b == b' ' || b == b'\t' || b == b'\n' {
        Opening::Space
    } else {
        Opening::Other
    }
}

// How many letters, digits and `_` stand at the front.
fn run_len(bytes: &[u8]) -> usize
    ensures value { result ≡ prefix_len goes_on bytes.now }
    ensures in_range { result ≤ length bytes.now }
{
    for (i, b) in bytes.iter().enumerate() {
        if !is_within_word(*b) {
            return i;
        }
    }
    bytes.len()
}

// How many bytes stand before the line's end.
fn line_len(bytes: &[u8]) -> usize
    ensures value { result ≡ prefix_len is_in_line bytes.now }
    ensures in_range { result ≤ length bytes.now }
{
    for (i, b) in bytes.iter().enumerate() {
        if *b == b'\n' {
            return i;
        }
    }
    bytes.len()
}

// Whether a byte and those after it are digits that write a number which isn't too great.
fn starts_number(first: u8, bytes: &[u8]) -> bool
    requires { is_ascii_digit first ≡ true }
    ensures { result ≡ is_numeral 0 (first ∷ bytes.now) }
{
    let mut number = (first - b'0') as u128;
    for b in bytes {
        if !b.is_ascii_digit() {
            return false;
        }
        number = number * 10 + (*b - b'0') as u128;
        if number > MOST {
            return false;
        }
    }
    true
}

fn is_first(bytes: &[u8], c: u8) -> bool
    ensures { result ≡ begins_with c bytes.now }
{
    match bytes {
        [b, ..] => *b == c,
        [] => false,
    }
}

// How many bytes end a string, behind its first quote.
#[tactic(auto, using(crate::proofs::ScanSteps::plus_zero, crate::proofs::ScanSteps::string_plain, crate::proofs::ScanSteps::string_escape))]
fn string_len(bytes: &[u8]) -> Option<usize>
    ensures value { result ≡ string_end bytes.now }
    ensures in_range { IfSome result (λ n. n ≤ length bytes.now) }
{
    let mut rest = bytes;
    let mut n = 0usize;
    'each: while let Some((b, after)) = rest.split_first() {
        if *b == b'"' {
            return Some(n + 1);
        }
        if *b == b'\n' {
            return None;
        }
        if *b == b'\\' {
            let (escape, after) = after.split_first()?;
            if !is_escape(*escape) {
                return None;
            }
            rest = after;
            n += 2;
        } else {
            rest = after;
            n += 1;
        }
    }
    None
}

fn is_comment_end(b: u8, after: &[u8]) -> bool
    ensures { result ≡ (b == 42 && begins_with 47 after.now) }
{
    b == b'*' && is_first(after, b'/')
}

// How many bytes end a comment, behind its `/*`.
#[tactic(auto, using(crate::proofs::ScanSteps::comment_goes_on))]
fn comment_len(bytes: &[u8]) -> Option<usize>
    ensures value { result ≡ comment_end bytes.now }
    ensures in_range { IfSome result (λ n. n ≤ length bytes.now) }
{
    let mut rest = bytes;
    let mut n = 0usize;
    'each: while let Some((b, after)) = rest.split_first() {
        if is_comment_end(*b, after) {
            return Some(n + 2);
        }
        rest = after;
        n += 1;
    }
    None
}

fn word(b: u8, rest: &[u8]) -> Option<Cut>
    requires { length rest.now < 2 ^ 32 }
    ensures { result ≡ cut_word b rest.now }
{
    let more = run_len(rest);
    let kind = if b == b'_' && more == 0 {
        TokenKind::Blank
    } else {
        TokenKind::Word
    };
    Some(Cut {
        kind: Some(kind),
        len: 1 + more,
    })
}

fn number(b: u8, rest: &[u8]) -> Option<Cut>
    requires digit { is_ascii_digit b ≡ true }
    requires bounded { length rest.now < 2 ^ 32 }
    ensures { result ≡ cut_number b rest.now }
{
    let more = run_len(rest);
    if starts_number(b, &rest[..more]) {
        Some(Cut {
            kind: Some(TokenKind::Number),
            len: 1 + more,
        })
    } else {
        None
    }
}

fn string(rest: &[u8]) -> Option<Cut>
    requires { length rest.now < 2 ^ 32 }
    ensures { result ≡ piece_up_to (Some TokenKind.Quoted) 1 (string_end rest.now) }
{
    let more = string_len(rest)?;
    Some(Cut {
        kind: Some(TokenKind::Quoted),
        len: 1 + more,
    })
}

fn block_comment(rest: &[u8]) -> Option<Cut>
    requires { length rest.now < 2 ^ 32 }
    ensures { result ≡ piece_up_to None 2 (comment_end rest.now) }
{
    let more = comment_len(rest)?;
    Some(Cut {
        kind: None,
        len: 2 + more,
    })
}

// A mark, or a comment.
fn mark(a: u8, rest: &[u8]) -> Option<Cut>
    requires { length rest.now < 2 ^ 32 }
    ensures { result ≡ cut_mark a rest.now }
{
    if let Some((b, after)) = rest.split_first() {
        if a == b'/' && *b == b'/' {
            return Some(Cut {
                kind: None,
                len: 2 + line_len(after),
            });
        }
        if a == b'/' && *b == b'*' {
            return block_comment(after);
        }
        if is_mark_of_two(a, *b) {
            return Some(Cut {
                kind: Some(TokenKind::Mark),
                len: 2,
            });
        }
    }
    if is_mark(a) {
        Some(Cut {
            kind: Some(TokenKind::Mark),
            len: 1,
        })
    } else {
        None
    }
}

/// The piece at the front of a text. `None` where none stands there.
#[tactic(auto, unfolding(crate::specs::Inside::Scan::cut))]
pub(crate) fn piece(text: &[u8]) -> Option<Cut>
    requires { length text.now < 2 ^ 32 }
    ensures { result ≡ cut text.now }
{
    let (b, rest) = text.split_first()?;
    match sort_of(*b) {
        Opening::Letter => word(*b, rest),
        Opening::Digit => number(*b, rest),
        Opening::Quote => string(rest),
        Opening::Return if is_first(rest, b'\n') => Some(Cut { kind: None, len: 2 }),
        Opening::Return => None,
        Opening::Space => Some(Cut { kind: None, len: 1 }),
        Opening::Other => mark(*b, rest),
    }
}
