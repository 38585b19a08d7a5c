// From bytes to commands, or the first fault.
ghost use Rattle.std.specs.Prelude.{◌≡◌, ◌<◌, ◌^◌, ◌∷◌, ◌||◌, ◌==◌, length, slice_get, option_map, IfOk, IfErr, Ok};
ghost use Rattle.vt_facts.specs.Lines.{lines_of};
ghost use Rattle.vt_script.specs.Commands.{command_of};
ghost use Rattle.vt_script.specs.Script.{is_blank, is_remark, written, commands_of, script_of, IsFaultOf};
ghost use Rattle.vt_script.specs.Inside.Gives.{IsAt, returned};

use crate::Line;
use crate::commands::command;
use crate::fault::{ScriptFault, Stuck};
use std::alloc::Global;
use vt_base::List;

const MOST_COMMANDS: usize = 100_000;

fn is_space(byte: u8) -> bool
    ensures { result ≡ (byte == 32 || byte == 9) }
{
    byte == b' ' || byte == b'\t'
}

fn is_blank(line: &[u8]) -> bool
    ensures { result ≡ is_blank line.now }
{
    line.iter().all(|byte| is_space(*byte))
}

fn is_remark(line: &[u8]) -> bool
    ensures { result ≡ is_remark line.now }
{
    match line {
        [a, b, ..] => *a == b'/' && *b == b'/',
        _ => false,
    }
}

fn is_skipped(line: &str) -> bool
    ensures { result ≡ (is_blank line.now || is_remark line.now) }
{
    is_blank(line.as_bytes()) || is_remark(line.as_bytes())
}

// The first line of a text, and what comes after its line feed.
fn first_line(text: &str) -> (&str, &str)
    requires { 0 < length text.now }
    ensures lines { lines_of text.now ≡ result.0.now ∷ lines_of result.1.now }
    ensures shorter { length result.1.now < length text.now }
{
    match text.split_once('\n') {
        Some((line, rest)) => (without_return(line), rest),
        None => (text, ""),
    }
}

// A line without the carriage return at its end.
fn without_return(line: &str) -> &str
    ensures { result.now ≡ returned line.now }
{
    match line.strip_suffix('\r') {
        Some(front) => front,
        None => line,
    }
}

// The line of the first command that is one too many.
fn extra_line(text: &str) -> Option<u32>
    requires { length text.now < 2 ^ 32 }
    ensures { result ≡ option_map (λ w. w.number) (slice_get (written 1 (lines_of text.now)) 100000) }
{
    let mut rest = text;
    let mut number = 1usize;
    let mut left = MOST_COMMANDS;
    'each: while !rest.is_empty() {
        let (line, after) = first_line(rest);
        if !is_skipped(line) {
            if left == 0 {
                return Some(number as u32);
            }
            left -= 1;
        }
        number += 1;
        rest = after;
    }
    None
}

// The command of the line with this number.
fn command_at(alloc: Global, line: &str, number: u32) -> Result<Line, ScriptFault>
    ensures { IsAt number result (command_of line.now) }
{
    match command(alloc, line) {
        Ok(command) => Ok(command),
        Err(Stuck::NoCommand) => Err(ScriptFault::Syntax { line: number }),
        Err(Stuck::NoMemory) => Err(ScriptFault::NoMemory),
    }
}

// The commands of all lines, or the first line that is none.
fn commands(alloc: Global, text: &str) -> Result<List<Line>, ScriptFault>
    requires { length text.now < 2 ^ 32 }
    ensures accepted { IfOk result (λ lines. commands_of (written 1 (lines_of text.now)) ≡ Ok lines) }
    ensures refused { IfErr result (λ fault. IsFaultOf fault (commands_of (written 1 (lines_of text.now)))) }
{
    let mut lines = List::new(alloc);
    let mut rest = text;
    let mut at = 1usize;
    'each: while !rest.is_empty() {
        let (line, after) = first_line(rest);
        if !is_skipped(line) {
            lines.add(command_at(alloc, line, at as u32)?)?;
        }
        at += 1;
        rest = after;
    }
    Ok(lines)
}

/// The commands that bytes spell, or the script's first fault.
#[tactic(auto, unfolding(crate::specs::Script::script_of))]
pub fn read_script(alloc: Global, bytes: &[u8]) -> Result<List<Line>, ScriptFault>
    requires { length bytes.now < 2 ^ 32 }
    // What is accepted is what the bytes spell.
    ensures accepted { IfOk result (λ lines. script_of bytes.now ≡ Ok lines) }

    // The fault is the script's first. Want of memory may stand for any answer.
    ensures refused { IfErr result (λ fault. IsFaultOf fault (script_of bytes.now)) }
{
    let Ok(text) = str::from_utf8(bytes) else {
        return Err(ScriptFault::NotText { line: 1 });
    };
    let lines = commands(alloc, text)?;
    match extra_line(text) {
        Some(line) => Err(ScriptFault::TooMany { line }),
        None => Ok(lines),
    }
}
