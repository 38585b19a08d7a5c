// Changes at random: what can be seen of each answer, that the model holds together, and the way back.
ghost use Rattle.std.specs.Prelude.{IfOk, OnOk, OnErr};
ghost use Rattle.vt_store.specs.Undoing.{Fits};
ghost use Rattle.vt_store.specs.Inside.Tested.{Stays, LeadsBack, IsStep, IsTakenBack};

use super::dice::Dice;
use super::scene::{empty_library, picture};
use std::alloc::Global;
use std::test::Fail;
use vt_base::{NoMemory, ObjId, RefId, Text};
use vt_model::Feature;
use vt_store::{Change, Edit, Refusal, Seen, Store, StoreFault};

const ANSWERS: [&str; 19] = [
    "create: made",
    "delete: made",
    "set: made",
    "unset: made",
    "link: made",
    "unlink: made",
    "move: made",
    "UnknownObject",
    "Gone",
    "UnknownClass",
    "AbstractClass",
    "NameTaken",
    "ReservedName",
    "UnknownFeature",
    "WrongKind",
    "WrongValue",
    "WrongTarget",
    "ContainmentCycle",
    "TooManyObjects",
];

// ---- what can be seen

fn kind_of(change: &Change) -> &'static str {
    match change {
        Change::Create { .. } => "create",
        Change::Delete { .. } => "delete",
        Change::Set { .. } => "set",
        Change::Unset { .. } => "unset",
        Change::Link { .. } => "link",
        Change::Unlink { .. } => "unlink",
        Change::Move { .. } => "move",
    }
}

fn is_linked(store: &Store, name: &Text, reference: &Text, target: &Text) -> bool {
    let (Seen::Live(o), Seen::Live(t)) = (
        store.find_name(name.as_str()),
        store.find_name(target.as_str()),
    ) else {
        return false;
    };
    let Some(class) = store.class_of(o) else {
        return false;
    };
    match store.meta().feature(class, reference.as_str()) {
        Some(Feature::Ref(r)) => store.targets(o, r).contains(&t),
        _ => false,
    }
}

// Whether what a change that was made is for can be seen.
fn is_seen(store: &Store, change: &Change) -> bool {
    match change {
        Change::Create { name, .. } | Change::Set { name, .. } | Change::Unset { name, .. } => {
            matches!(store.find_name(name.as_str()), Seen::Live(_))
        }
        Change::Delete { name } => matches!(store.find_name(name.as_str()), Seen::Gone(_)),
        Change::Link {
            name,
            reference,
            target,
        } => is_linked(store, name, reference, target),
        Change::Unlink {
            name,
            reference,
            target,
        } => !is_linked(store, name, reference, target),
        Change::Move {
            child,
            parent,
            reference,
        } => is_linked(store, parent, reference, child),
    }
}

// Whether each link of a reference stands at its other end, with its opposite.
fn are_paired(store: &Store, o: ObjId, r: RefId, opposite: Option<RefId>) -> bool {
    for target in store.targets(o, r) {
        let back = opposite.is_none_or(|back| store.targets(*target, back).contains(&o));
        if !back || !store.sources(*target, r).contains(&o) {
            return false;
        }
    }
    true
}

// Whether the links of an object are paired, and no more than its references allow.
fn is_well_linked(store: &Store, o: ObjId) -> bool {
    let mut containers = 0usize;
    for r in 0..store.meta().ref_count() {
        let Some(info) = store.meta().reference(RefId(r)) else {
            return false;
        };
        let few = info.many || store.targets(o, RefId(r)).len() <= 1;
        if !few || !are_paired(store, o, RefId(r), info.opposite) {
            return false;
        }
        if info.containment {
            containers = containers.saturating_add(store.sources(o, RefId(r)).len());
        }
    }
    containers <= 1
}

fn is_whole(store: &Store) -> bool {
    (0..store.next_number()).all(|number| is_well_linked(store, ObjId(number)))
}

// Notes the answer to a change, and what isn't as it should be then.
fn note(
    alloc: Global,
    store: &Store,
    change: &Change,
    refused: Option<Refusal>,
    before: &str,
    notes: &mut String,
) -> Result<(), Fail> {
    let kind = kind_of(change);
    let (line, good) = match refused {
        None => (format!(in alloc; "{kind}: made\n")?, is_seen(store, change)),
        Some(why) => (
            format!(in alloc; "{kind}: {why:?}\n")?,
            picture(alloc, store)?.as_str() == before,
        ),
    };
    notes.push_str(line.as_str())?;
    if !good || !is_whole(store) {
        notes.push_str("and that is wrong\n")?;
    }
    Ok(())
}

// ---- one change

// The change on the store.
#[tactic(auto, using(vt_store::proofs::BackLemmas::leads_back, vt_store::proofs::BackLemmas::stays_back))]
fn made(alloc: Global, store: &mut Store, change: &Change) -> Result<Edit, StoreFault>
    ensures back { IfOk result (λ e. LeadsBack e store.old store.new) }
    ensures stays { OnErr result (Stays store.old store.new) }
{
    // They tell that the model is valid, and that what is given can be held.
    store.meta();
    change.gives_storable();
    store.apply(alloc, change)
}

// A refusal is an answer; want of memory is none.
fn attempt(
    alloc: Global,
    store: &mut Store,
    change: &Change,
) -> Result<Result<Edit, Refusal>, NoMemory>
    ensures { IfOk result (λ step. IsStep step store.old store.new) }
{
    match made(alloc, store, change) {
        Ok(edit) => Ok(Ok(edit)),
        Err(StoreFault::Refused(why)) => Ok(Err(why)),
        Err(StoreFault::NoMemory) => Err(NoMemory),
    }
}

fn take_back(store: &mut Store, step: Result<Edit, Refusal>)
    requires fits { IfOk step (λ e. Fits e store.old) }
    ensures { IsTakenBack step store.old store.new }
{
    if let Ok(edit) = step {
        store.revert(edit);
    }
}

// ---- all changes

fn refusal_of<T>(step: &Result<T, Refusal>) -> Option<Refusal> {
    match step {
        Ok(_) => None,
        Err(why) => Some(*why),
    }
}

// Makes the changes one after the other, and takes them back, the last first.
#[cycle(run)]
#[tactic(auto, using(vt_store::proofs::BackLemmas::fits_step, vt_store::proofs::BackLemmas::stays_step, vt_store::proofs::BackLemmas::stays_still))]
fn run(alloc: Global, store: &mut Store, changes: &[Change], notes: &mut String) -> Result<(), Fail>
    ensures { OnOk result (Stays store.old store.new) }
{
    let Some((change, rest)) = changes.split_first() else {
        return Ok(());
    };
    let before = picture(alloc, store)?;
    let step = attempt(alloc, store, change)?;
    let refused = refusal_of(&step);
    note(alloc, store, change, refused, before.as_str(), notes)?;
    run(alloc, store, rest, notes)?;
    take_back(store, step);
    if picture(alloc, store)?.as_str() != before.as_str() {
        notes.push_str("and that isn't taken back\n")?;
    }
    Ok(())
}

#[test]
fn changes_at_random_hold_together_and_go_back(rt: HostRuntime) -> Result<(), Fail> {
    let alloc = rt.alloc();
    let mut store = empty_library(alloc)?;
    let mut notes = String::new(alloc);
    let changes = Dice::new().changes(alloc)?;
    run(alloc, &mut store, changes.as_slice(), &mut notes)?;
    assert_eq!(rt; store.next_number(), 0);
    assert!(rt; !notes.as_str().contains("and that"));
    for answer in ANSWERS {
        assert!(rt; notes.as_str().contains(answer), "{answer}");
    }
    Ok(())
}
