// An empty library with its session, and the changes that lines ask for.
ghost use Rattle.std.specs.Prelude.{◌≡◌, ◌≤◌, IfOk, length};
ghost use Rattle.vt_delta.specs.Deltas.{IsNet};
ghost use Rattle.vt_model.specs.Base.{base_of, counts_of};
ghost use Rattle.vt_model.specs.Metamodel.{Metamodel};
ghost use Rattle.vt_model.specs.Model.{empty_model};
ghost use Rattle.vt_query.specs.Narrow.{IsNarrow};

use std::alloc::Global;
use std::sync::ledger::Ledger;
use std::test::Fail;
use vt_base::{Steps, Text};
use vt_delta::BaseDelta;
use vt_meta::read_meta;
use vt_model::{Change, Given, Metamodel};
use vt_query::Program;
use vt_session::Session;
use vt_store::Store;
use vt_vql::read_queries;

const LIBRARY: &str = r#"{"format":1,"enums":[],"classes":[
{"name":"Shelf"},{"name":"Book","attributes":[{"name":"pages","kind":"int"}]}]}"#;

const QUERIES: &str = "pattern book(b) { Book(b); } private pattern shelf(s) { Shelf(s); }";

// The change that words ask for: `create x Book`, `set x pages 3` or `delete x`.
pub(super) fn change(alloc: Global, line: &str) -> Result<Change, Fail> {
    let mut words = line.split(' ');
    let verb = words.next().unwrap_or("");
    let name = Text::new(alloc, words.next().unwrap_or(""))?;
    let second = Text::new(alloc, words.next().unwrap_or(""))?;
    Ok(match verb {
        "create" => Change::Create {
            name,
            class: second,
            number: None,
        },
        "set" => Change::Set {
            name,
            attr: second,
            value: Given::Int(words.next().unwrap_or("").parse::<i64>()?),
        },
        _ => Change::Delete { name },
    })
}

fn program(alloc: Global, meta: &Metamodel, bytes: &[u8]) -> Result<Program, Fail>
    ensures narrow { IfOk result (λ p. IsNarrow (counts_of meta.now) p) }
    ensures numbered { IfOk result (λ p. length p.patterns ≤ 65536) }
{
    if bytes.len() >= 1_000_000 {
        return Err(Fail::new("too long"));
    }
    let program = read_queries(alloc, meta, bytes)?;
    if program.patterns.len() > 65536 {
        return Err(Fail::new("too many patterns"));
    }
    Ok(program)
}

// What came in with nothing.
fn nothing(alloc: Global, meta: &Metamodel) -> BaseDelta
    ensures { IsNet (base_of meta.now empty_model) (base_of meta.now empty_model) result }
{
    let classes = usize::from(meta.class_count());
    let attributes = usize::from(meta.attr_count());
    let references = usize::from(meta.ref_count());
    BaseDelta::none(alloc, classes, attributes, references)
}

fn session<L: Ledger>(
    alloc: Global,
    meta: &Metamodel,
    steps: &mut Steps<L>,
) -> Result<Session, Fail> {
    let program = program(alloc, meta, QUERIES.as_bytes())?;
    let store = Store::new(alloc, meta)?;
    Ok(Session::start(alloc, store, nothing(alloc, meta), program, steps)?)
}

pub(super) fn empty_library<L: Ledger>(
    alloc: Global,
    steps: &mut Steps<L>,
) -> Result<Session, Fail> {
    let meta = read_meta(alloc, LIBRARY.as_bytes())?;
    session(alloc, &meta, steps)
}
