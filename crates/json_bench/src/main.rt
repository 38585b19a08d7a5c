//! Reads a file of JSON and writes it compactly, by `serde_json` and nothing else. The argument is
//! the file's path.
#![tactic(auto)]

use serde_json::Value;
use std::io::Write;
use std::process::ExitCode;
use std::rt::{Env, Files};
use std::{env, fs, io};

// The first argument.
fn path<R: Env + AllocGlobal>(rt: &R) -> Option<String> {
    env::args(rt).ok()?.nth(1)
}

// The file's value, written compactly.
fn compact<R: Files + AllocGlobal>(rt: &R, path: &str) -> Option<Vec<u8>> {
    let bytes = fs::read(rt, path).ok()?;
    let value = Value::from_slice(rt.alloc(), &bytes).ok()?;
    value.to_vec(rt.alloc()).ok()
}

fn main(rt: HostRuntime) -> ExitCode {
    let Some(path) = path(&rt) else {
        return ExitCode::from(2);
    };
    let Some(text) = compact(&rt, path.as_str()) else {
        return ExitCode::from(3);
    };
    match io::writer(&rt).write_all(&text) {
        Ok(()) => ExitCode::from(0),
        Err(_) => ExitCode::from(4),
    }
}
