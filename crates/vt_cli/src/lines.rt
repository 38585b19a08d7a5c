// The lines that tell a fault.
ghost use Rattle.std.specs.Prelude.{◌≡◌, IfOk};
ghost use Rattle.vt_cli.specs.Lines.{role_text, usage_line, missing_line, unreadable_line, too_large_line, input_line};

use crate::ending::Role;
use std::alloc::Global;
use vt_base::{List, NoMemory};

fn role_name(role: Role) -> &'static str
    ensures { result.now ≡ role_text role }
{
    match role {
        Role::Metamodel => "metamodel",
        Role::Model => "model",
        Role::Queries => "queries",
        Role::Rules => "rules",
        Role::Script => "script",
    }
}

pub(crate) fn usage_line(alloc: Global) -> Result<List<u8>, NoMemory>
    ensures { IfOk result (λ text. text ≡ usage_line) }
{
    let line = format!(in alloc; "fault: usage\n")?;
    Ok(List::from_vec(line.into_bytes()))
}

pub(crate) fn missing_line(alloc: Global, role: Role) -> Result<List<u8>, NoMemory>
    ensures { IfOk result (λ text. text ≡ missing_line role) }
{
    let name = role_name(role);
    let line = format!(in alloc; "fault: {name} missing\n")?;
    Ok(List::from_vec(line.into_bytes()))
}

pub(crate) fn unreadable_line(alloc: Global, role: Role) -> Result<List<u8>, NoMemory>
    ensures { IfOk result (λ text. text ≡ unreadable_line role) }
{
    let name = role_name(role);
    let line = format!(in alloc; "fault: {name} unreadable\n")?;
    Ok(List::from_vec(line.into_bytes()))
}

pub(crate) fn too_large_line(alloc: Global, role: Role, length: u64) -> Result<List<u8>, NoMemory>
    ensures { IfOk result (λ text. text ≡ too_large_line role length) }
{
    let name = role_name(role);
    let line = format!(in alloc; "fault: {name} too large {length}\n")?;
    Ok(List::from_vec(line.into_bytes()))
}

pub(crate) fn input_line(
    alloc: Global,
    role: Role,
    fault: &str,
    place: u64,
) -> Result<List<u8>, NoMemory>
    ensures { IfOk result (λ text. text ≡ input_line role fault.now place) }
{
    let name = role_name(role);
    let line = format!(in alloc; "fault: {name} {fault} {place}\n")?;
    Ok(List::from_vec(line.into_bytes()))
}
