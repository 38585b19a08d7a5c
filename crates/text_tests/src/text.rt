//! Texts and expressions with what each must give. In a table each line is a case.
mod expressions;
mod lexemes;
mod parsing;
mod texts;

use std::alloc::Global;
use std::test::Fail;

// A line of a table, in which a picture of a control character stands for that character, and `␢`
// for the mark of byte order.
fn unpictured(alloc: Global, line: &str) -> Result<String, Fail> {
    let mut text = String::new(alloc);
    for c in line.chars() {
        text.push(match c {
            '␀' => '\0',
            '␉' => '\t',
            '␊' => '\n',
            '␋' => '\u{b}',
            '␌' => '\u{c}',
            '␍' => '\r',
            '␢' => '\u{feff}',
            c => c,
        })?;
    }
    Ok(text)
}

// So many times the same text, one after the other.
fn repeated(alloc: Global, piece: &str, times: u32) -> Result<String, Fail> {
    let mut text = String::new(alloc);
    for _ in 0..times {
        text.push_str(piece)?;
    }
    Ok(text)
}
