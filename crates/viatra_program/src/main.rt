//! The program: its arguments, the files of the system and its output, and one call.
#![tactic(auto)]

ghost use Rattle.std.specs.Prelude.{◌≡◌};

use std::env;
use std::io::ErrorKind;
use std::marker::Brand;
use std::process::ExitCode;
use std::rt::{Env, Files};
use std::sync::ledger::{Blank, Ledger};
use vt_base::{List, NoMemory, Steps, Text};
use vt_cli::{Ending, viatra};
use vt_outside::{FileShelf, StdSink};

// The arguments without the program's name; none where one of them is no text.
fn words_of<R: Env + AllocGlobal>(rt: &R) -> Result<List<Text>, NoMemory> {
    let alloc = rt.alloc();
    let mut words = List::new(alloc);
    match env::args(rt) {
        Ok(args) => {
            for arg in args.skip(1) {
                words.add(Text::new(alloc, arg.as_str())?)?;
            }
        }
        Err(e) => {
            if e.kind() == ErrorKind::OutOfMemory {
                return Err(NoMemory);
            }
        }
    }
    Ok(words)
}

fn run<L: Ledger, R: Files + Print + AllocGlobal>(
    rt: &R,
    words: &List<Text>,
    blank: Blank,
) -> Ending
    requires name { blank.name ≡ L.name }
    requires parts { blank.parts ≡ L.parts }
    requires some { blank.parts ≡ 1 }
{
    let mut steps = Steps::<L>::new(blank);
    let mut shelf = FileShelf::new(rt);
    let mut out = StdSink::new(rt);
    viatra(
        rt.alloc(),
        words.as_slice(),
        &mut shelf,
        &mut out,
        &mut steps,
    )
}

fn main(rt: HostRuntime) -> ExitCode {
    let ending = match words_of(&rt) {
        Ok(words) => run::<Brand, HostRuntime>(&rt, &words, Blank::new(1)),
        Err(NoMemory) => Ending::NoMemory,
    };
    ExitCode::from(ending.status())
}
