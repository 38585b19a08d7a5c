// Fetching the files of a command. All are fetched before any is judged.
ghost use Rattle.std.specs.Prelude.{◌≡◌, ◌⊎◌, ◌≤◌, IfOk, IfErr, length, zip, [], ◌∷◌};
ghost use Rattle.vt_cli.specs.Texts.{file_limit, is_same, text_of};
ghost use Rattle.vt_cli.specs.Inside.Prepared.{AreFetched, AreStopped, AreUnread, AreSmall, FailsFile};

use crate::ending::{Ending, Outcome, Role};
use crate::lines;
use std::alloc::Global;
use vt_base::{List, NoMemory, Text};
use vt_outside::{FetchFail, Fetched, Shelf};

/// The most bytes of a file.
const FILE_LIMIT: u64 = 16_777_216;

// Fetches a file. Where it isn't answered with bytes, the outcome ends the command.
fn fetch_file<S: Shelf>(
    alloc: Global,
    shelf: &mut S,
    role: Role,
    name: &Text,
) -> Result<Result<List<u8>, Outcome>, NoMemory>
    ensures files { S.files shelf.new ≡ S.files shelf.old }
    ensures fetched { IfOk result (λ got. IfOk got (λ bytes.
        AreFetched ((role, name.now) ∷ []) (S.files shelf.old)
        (S.faults shelf.old) (S.faults shelf.new) ((role, bytes) ∷ []))) }
    ensures ended { IfOk result (λ got. IfErr got (λ outcome.
        AreStopped ((role, name.now) ∷ []) (S.files shelf.old)
        (S.faults shelf.old) (S.faults shelf.new) outcome
        ⊎ FailsFile role name.now (S.faults shelf.old) (S.faults shelf.new) (S.failed shelf.new) outcome)) }
{
    match shelf.fetch(alloc, name, FILE_LIMIT) {
        Ok(Fetched::Bytes(bytes)) => Ok(Ok(bytes)),
        Ok(Fetched::Absent) => Ok(Err(Outcome {
            ending: Ending::Missing { file: role },
            text: lines::missing_line(alloc, role)?,
        })),
        Ok(Fetched::Long(length)) => Ok(Err(Outcome {
            ending: Ending::TooLarge { file: role, length },
            text: lines::too_large_line(alloc, role, length)?,
        })),
        Err(FetchFail::Failed) => Ok(Err(Outcome {
            ending: Ending::ReadFault { file: role },
            text: lines::unreadable_line(alloc, role)?,
        })),
        Err(FetchFail::NoMemory) => Err(NoMemory),
    }
}

/// Fetches files in their order, each under what it is to the command. The first that isn't answered
/// with bytes ends the command.
pub(crate) fn fetch_files<S: Shelf>(
    alloc: Global,
    shelf: &mut S,
    roles: &[Role],
    names: &[Text],
) -> Result<Result<List<(Role, List<u8>)>, Outcome>, NoMemory>
    ensures fetched { IfOk result (λ got. IfOk got (λ texts.
        AreFetched (zip roles.now names.now) (S.files shelf.old)
        (S.faults shelf.old) (S.faults shelf.new) texts)) }
    ensures ended { IfOk result (λ got. IfErr got (λ outcome.
        AreStopped (zip roles.now names.now) (S.files shelf.old)
        (S.faults shelf.old) (S.faults shelf.new) outcome
        ⊎ AreUnread (zip roles.now names.now) (S.files shelf.old)
        (S.faults shelf.old) (S.faults shelf.new) (S.failed shelf.new) outcome)) }
{
    let mut texts = List::new(alloc);
    let mut roles = roles;
    let mut names = names;
    'each: while let Some((role, other_roles)) = roles.split_first() {
        let Some((name, other_names)) = names.split_first() else {
            return Ok(Ok(texts));
        };
        match fetch_file(alloc, shelf, *role, name)? {
            Ok(bytes) => texts.add((*role, bytes))?,
            Err(outcome) => return Ok(Err(outcome)),
        }
        roles = other_roles;
        names = other_names;
    }
    Ok(Ok(texts))
}

fn is_same(role: Role, other: Role) -> bool
    ensures { result ≡ is_same role other }
{
    match (role, other) {
        (Role::Metamodel, Role::Metamodel) => true,
        (Role::Model, Role::Model) => true,
        (Role::Queries, Role::Queries) => true,
        (Role::Rules, Role::Rules) => true,
        (Role::Script, Role::Script) => true,
        _ => false,
    }
}

/// The bytes of the file that is this to the command.
pub(crate) fn text_of(texts: &[(Role, List<u8>)], role: Role) -> &[u8]
    requires { AreSmall texts.now }
    ensures text { result.now ≡ text_of role texts.now }
    ensures small { length result.now ≤ file_limit }
{
    for text in texts {
        if is_same(role, text.0) {
            return text.1.as_slice();
        }
    }
    &[]
}
