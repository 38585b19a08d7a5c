// The texts of replies, but for those of a step.
ghost use Rattle.std.specs.Prelude.{◌≡◌, ◌++◌, IfOk, codes, decimal, flat_map, length};
ghost use Rattle.vt_cli.specs.Lists.{match_line};
ghost use Rattle.vt_session.specs.Buffers.{refused};
ghost use Rattle.vt_cli.specs.Replies.{told, denial_text};
ghost use Rattle.vt_cli.specs.Inside.Begun.{Denies, Tells};
ghost use Rattle.vt_cli.specs.Inside.Printable.{AllNamed};

use crate::matches::write_rows;
use crate::refusals;
use std::alloc::Global;
use vt_base::{List, Names, NoMemory, Rows, Text};
use vt_model::Refusal;
use vt_session::SessionFault;

/// A command's word, the client or the pattern that it names, and what is told.
pub(crate) fn told(alloc: Global, word: &str, name: &Text, what: &str) -> Result<List<u8>, NoMemory>
    ensures { IfOk result (λ text. text ≡ told word.now name.now what.now) }
{
    let name = name.as_str();
    let line = format!(in alloc; "{word} {name}: {what}\n")?;
    Ok(List::from_vec(line.into_bytes()))
}

// A refused transaction, with the place of the change that is refused.
fn stopped(alloc: Global, at: u32, why: Refusal) -> Result<String, NoMemory>
    ensures { IfOk result (λ what. what.bytes.items ≡ denial_text (refused (record { at = at; why = why }))) }
{
    let name = refusals::name(why);
    Ok(format!(in alloc; "refused at {at} {name}")?)
}

/// Why a command is refused. Want of memory has no reply.
pub(crate) fn refused(
    alloc: Global,
    word: &str,
    name: &Text,
    fault: SessionFault,
) -> Result<List<u8>, NoMemory>
    ensures { IfOk result (λ text. Denies fault word.now name.now text) }
{
    match fault {
        SessionFault::AlreadyOpen => told(alloc, word, name, "refused AlreadyOpen"),
        SessionFault::TooManyOpen => told(alloc, word, name, "refused TooManyOpen"),
        SessionFault::NotOpen => told(alloc, word, name, "refused NotOpen"),
        SessionFault::TooManyChanges => told(alloc, word, name, "refused TooManyChanges"),
        SessionFault::Refused { at, why } => {
            let what = stopped(alloc, at, why)?;
            told(alloc, word, name, what.as_str())
        }
        SessionFault::NoMemory => Err(NoMemory),
    }
}

/// That a command was done, or why it is refused.
pub(crate) fn answered(
    alloc: Global,
    word: &str,
    name: &Text,
    answer: Result<(), SessionFault>,
) -> Result<List<u8>, NoMemory>
    ensures { IfOk result (λ text. Tells answer word.now name.now text) }
{
    match answer {
        Ok(()) => told(alloc, word, name, "ok"),
        Err(fault) => refused(alloc, word, name, fault),
    }
}

/// How many matches a pattern has, then each on a line.
pub(crate) fn matches<N: Names>(
    alloc: Global,
    pattern: &Text,
    rows: &Rows,
    names: &N,
) -> Result<List<u8>, NoMemory>
    requires { AllNamed (N.enums names.now) (N.objects names.now) rows.now.items }
    ensures { IfOk result (λ text. text ≡ told (codes "matches") pattern.now (decimal (length rows.now.items))
        ++ flat_map (match_line (N.enums names.now) (N.objects names.now)) rows.now.items) }
{
    let count = rows.len();
    let what = format!(in alloc; "{count}")?;
    let mut text = told(alloc, "matches", pattern, what.as_str())?;
    write_rows(alloc, rows, names, &mut text)?;
    Ok(text)
}
