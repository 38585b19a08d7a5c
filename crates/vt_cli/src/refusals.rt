// The outcomes of files that are refused.
ghost use Rattle.std.specs.Prelude.{◌≡◌, IfOk, IfErr, Ok, Err, Result, Some, List};
ghost use Rattle.vt_model.specs.Metamodel.{Metamodel};
ghost use Rattle.vt_model.specs.Model.{Model};
ghost use Rattle.vt_meta.specs.Reading.{IsFaultOf as IsMetaFaultOf};
ghost use Rattle.vt_meta.specs.Faults.{Fault as MetaFaultDue};
ghost use Rattle.vt_model_json.specs.Loading.{Fault as ModelFaultDue, IsFaultOf as IsModelFaultOf};
ghost use Rattle.vt_script.specs.Script.{Fault as ScriptFaultDue, IsFaultOf as IsScriptFaultOf};
ghost use Rattle.vt_script.specs.declared.line.Line.{Line};
ghost use Rattle.vt_cli.specs.Refusals.{refused, refused_meta, refused_model, refused_queries, refused_rules, refused_script, unbuilt_command, refusal_number, refusal_name};
ghost use Rattle.vt_cli.specs.Inside.Prepared.{IsOfFiles};

use crate::ending::{Ending, Outcome, Role};
use crate::lines;
use std::alloc::Global;
use vt_base::NoMemory;
use vt_meta::{MetaFault, Refusal};
use vt_model_json::ModelFault;
use vt_script::ScriptFault;
use vt_vql::QueryFault;

fn refuse(alloc: Global, file: Role, code: u16, name: &str, place: u64) -> Result<Outcome, NoMemory>
    ensures { IfOk result (λ outcome. outcome ≡ refused file code name.now place) }
{
    Ok(Outcome {
        ending: Ending::BadInput { file, code, place },
        text: lines::input_line(alloc, file, name, place)?,
    })
}

/// What a metamodel's fault comes to.
pub(crate) fn metamodel(alloc: Global, fault: MetaFault) -> Result<Outcome, NoMemory>
    ensures due { IfOk result (λ outcome. (due : Result Metamodel MetaFaultDue)
        → IsMetaFaultOf fault due → refused_meta due ≡ Err outcome) }
    ensures suits { IfOk result (λ outcome. IsOfFiles outcome.ending) }
{
    let (code, name, place) = match fault {
        MetaFault::NotJson { place } => (1, "NotJson", place),
        MetaFault::BadShape { place } => (2, "BadShape", place),
        MetaFault::DuplicateName { place } => (3, "DuplicateName", place),
        MetaFault::UnknownType { place } => (4, "UnknownType", place),
        MetaFault::SuperCycle { place } => (5, "SuperCycle", place),
        MetaFault::BadOpposite { place } => (6, "BadOpposite", place),
        MetaFault::BadContainment { place } => (7, "BadContainment", place),
        MetaFault::FeatureClash { place } => (8, "FeatureClash", place),
        MetaFault::TooMany { place } => (9, "TooMany", place),
        MetaFault::NoMemory => return Err(NoMemory),
    };
    refuse(alloc, Role::Metamodel, code, name, place)
}

fn number(why: Refusal) -> u16
    ensures { result ≡ refusal_number why }
{
    match why {
        Refusal::UnknownObject => 1,
        Refusal::Gone => 2,
        Refusal::UnknownClass => 3,
        Refusal::AbstractClass => 4,
        Refusal::NameTaken => 5,
        Refusal::ReservedName => 6,
        Refusal::UnknownFeature => 7,
        Refusal::WrongKind => 8,
        Refusal::WrongValue => 9,
        Refusal::WrongTarget => 10,
        Refusal::ContainmentCycle => 11,
        Refusal::TooManyObjects => 12,
    }
}

/// The name of a refusal.
pub(crate) fn name(why: Refusal) -> &'static str
    ensures { result.now ≡ refusal_name why }
{
    match why {
        Refusal::UnknownObject => "UnknownObject",
        Refusal::Gone => "Gone",
        Refusal::UnknownClass => "UnknownClass",
        Refusal::AbstractClass => "AbstractClass",
        Refusal::NameTaken => "NameTaken",
        Refusal::ReservedName => "ReservedName",
        Refusal::UnknownFeature => "UnknownFeature",
        Refusal::WrongKind => "WrongKind",
        Refusal::WrongValue => "WrongValue",
        Refusal::WrongTarget => "WrongTarget",
        Refusal::ContainmentCycle => "ContainmentCycle",
        Refusal::TooManyObjects => "TooManyObjects",
    }
}

/// What a model's fault comes to.
pub(crate) fn model(alloc: Global, fault: ModelFault) -> Result<Outcome, NoMemory>
    ensures due { IfOk result (λ outcome. (due : Result Model ModelFaultDue)
        → IsModelFaultOf fault due → refused_model due ≡ Err outcome) }
    ensures suits { IfOk result (λ outcome. IsOfFiles outcome.ending) }
{
    match fault {
        ModelFault::NotJson => refuse(alloc, Role::Model, 1, "NotJson", 0),
        ModelFault::BadShape => refuse(alloc, Role::Model, 2, "BadShape", 0),
        ModelFault::Item { index, why } => {
            refuse(alloc, Role::Model, 100 + number(why), name(why), index)
        }
        ModelFault::NoMemory => Err(NoMemory),
    }
}

/// What a query file's fault comes to.
pub(crate) fn queries(alloc: Global, fault: QueryFault) -> Result<Outcome, NoMemory>
    ensures due { IfOk result (λ outcome. refused_queries fault ≡ Some outcome) }
    ensures suits { IfOk result (λ outcome. IsOfFiles outcome.ending) }
{
    match fault {
        QueryFault::NotText { place } => refuse(alloc, Role::Queries, 1, "NotText", place),
        QueryFault::BadToken { line } => {
            refuse(alloc, Role::Queries, 2, "BadToken", u64::from(line))
        }
        QueryFault::NotBuilt { place } => refuse(alloc, Role::Queries, 90, "NotBuilt", place),
        QueryFault::NoMemory => Err(NoMemory),
    }
}

/// No rule is read yet: what a rules file comes to that isn't empty.
pub(crate) fn rules(alloc: Global, bytes: &[u8]) -> Result<Result<(), Outcome>, NoMemory>
    ensures due { IfOk result (λ judged. judged ≡ refused_rules bytes.now) }
    ensures suits { IfOk result (λ judged. IfErr judged (λ outcome. IsOfFiles outcome.ending)) }
{
    if bytes.is_empty() {
        return Ok(Ok(()));
    }
    Ok(Err(refuse(alloc, Role::Rules, 90, "NotBuilt", 0)?))
}

/// What a script's fault comes to.
pub(crate) fn script(alloc: Global, fault: ScriptFault) -> Result<Outcome, NoMemory>
    ensures due { IfOk result (λ outcome. (due : Result (List Line) ScriptFaultDue)
        → IsScriptFaultOf fault due → refused_script due ≡ Err outcome) }
    ensures suits { IfOk result (λ outcome. IsOfFiles outcome.ending) }
{
    match fault {
        ScriptFault::NotText { line } => {
            refuse(alloc, Role::Script, 1, "NotText", u64::from(line))
        }
        ScriptFault::Syntax { line } => refuse(alloc, Role::Script, 2, "Syntax", u64::from(line)),
        ScriptFault::TooMany { line } => {
            refuse(alloc, Role::Script, 3, "TooMany", u64::from(line))
        }
        ScriptFault::NoMemory => Err(NoMemory),
    }
}

/// What a command comes to that isn't built yet, by its number.
pub(crate) fn unbuilt(alloc: Global, number: u64) -> Result<Outcome, NoMemory>
    ensures due { IfOk result (λ outcome. outcome ≡ unbuilt_command number) }
    ensures suits { IfOk result (λ outcome. IsOfFiles outcome.ending) }
{
    refuse(alloc, Role::Script, 90, "NotBuilt", number)
}
