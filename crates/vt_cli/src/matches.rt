// The command `matches`: the match lists of a query file.
ghost use Rattle.std.specs.Prelude.{◌≡◌, ◌++◌, ◌≤◌, IfOk, OnOk, codes, decimal, flat_map, map, length, List};
ghost use Rattle.vt_base.specs.Names.{AreNamed};
ghost use Rattle.vt_cli.specs.Lists.{match_line, shown_list, match_lists};
ghost use Rattle.vt_model.specs.Base.{counts_of};
ghost use Rattle.vt_model.specs.Sound.{IsSound};
ghost use Rattle.vt_model.specs.Valid.{IsValid};
ghost use Rattle.vt_query.specs.Narrow.{IsNarrow};
ghost use Rattle.vt_cli.specs.Texts.{file_limit};
ghost use Rattle.vt_cli.specs.Result.{IsListed, IsDueToQueries};
ghost use Rattle.vt_cli.specs.Inside.Prepared.{IsOfFiles};
ghost use Rattle.vt_cli.specs.Inside.Printable.{AllNamed, AllTablesNamed};
ghost use Rattle.vt_cli.specs.Inside.Seen.{loaded_of};

use crate::ending::{Ending, Outcome};
use crate::refusals;
use std::alloc::Global;
use std::sync::ledger::Ledger;
use vt_base::{List, Names, NoMemory, Rows, Steps, Tuple, write_tuple};
use vt_direct::evaluate_directly;
use vt_query::{Pattern, Program, narrow_rows_are_named};
use vt_store::Store;
use vt_vql::read_queries;

fn write_match<N: Names>(
    alloc: Global,
    row: &Tuple,
    names: &N,
    out: &mut List<u8>,
) -> Result<(), NoMemory>
    requires { AreNamed (N.enums names.now) (N.objects names.now) row.now }
    ensures { OnOk result (out.new ≡ out.old ++ match_line (N.enums names.now) (N.objects names.now) row.now) }
{
    out.extend(b"  ")?;
    write_tuple(alloc, row, names, out)?;
    out.add(b'\n')
}

/// The lines of matches.
pub(crate) fn write_rows<N: Names>(
    alloc: Global,
    rows: &Rows,
    names: &N,
    out: &mut List<u8>,
) -> Result<(), NoMemory>
    requires { AllNamed (N.enums names.now) (N.objects names.now) rows.now.items }
    ensures { OnOk result (out.new ≡ out.old
        ++ flat_map (match_line (N.enums names.now) (N.objects names.now)) rows.now.items) }
{
    let mut walk = rows.walk();
    while let Some(row) = walk.next() {
        write_match(alloc, row, names, out)?;
    }
    Ok(())
}

// A pattern's name and how many matches it has.
fn write_head(
    alloc: Global,
    pattern: &Pattern,
    count: usize,
    out: &mut List<u8>,
) -> Result<(), NoMemory>
    ensures { OnOk result (out.new ≡ out.old
        ++ (codes "pattern " ++ pattern.now.name ++ codes " " ++ decimal count ++ codes "\n")) }
{
    let name = pattern.name.as_str();
    let line = format!(in alloc; "pattern {name} {count}\n")?;
    out.extend(line.as_bytes())
}

fn write_list<N: Names>(
    alloc: Global,
    pattern: &Pattern,
    rows: &Rows,
    names: &N,
    out: &mut List<u8>,
) -> Result<(), NoMemory>
    requires { AllNamed (N.enums names.now) (N.objects names.now) rows.now.items }
    ensures { OnOk result (out.new ≡ out.old
        ++ shown_list (N.enums names.now) (N.objects names.now) pattern.now rows.now.items) }
{
    if pattern.shown {
        write_head(alloc, pattern, rows.len(), out)?;
        write_rows(alloc, rows, names, out)?;
    }
    Ok(())
}

// The lists of patterns, each with its table.
fn write_lists<N: Names>(
    alloc: Global,
    patterns: &[Pattern],
    tables: &[Rows],
    names: &N,
    out: &mut List<u8>,
) -> Result<(), NoMemory>
    requires { AllTablesNamed (N.enums names.now) (N.objects names.now) (map (λ rows. rows.items) tables.now) }
    ensures { OnOk result (out.new ≡ out.old
        ++ match_lists (N.enums names.now) (N.objects names.now) patterns.now (map (λ rows. rows.items) tables.now)) }
{
    let mut rest = tables;
    for pattern in patterns {
        let Some((rows, others)) = rest.split_first() else {
            return Ok(());
        };
        write_list(alloc, pattern, rows, names, out)?;
        rest = others;
    }
    Ok(())
}

// The text of the lists of patterns, each with its table.
fn text_of<N: Names>(
    alloc: Global,
    patterns: &[Pattern],
    tables: &[Rows],
    names: &N,
) -> Result<List<u8>, NoMemory>
    requires { AllTablesNamed (N.enums names.now) (N.objects names.now) (map (λ rows. rows.items) tables.now) }
    ensures { IfOk result (λ text. text
        ≡ match_lists (N.enums names.now) (N.objects names.now) patterns.now (map (λ rows. rows.items) tables.now)) }
{
    let mut text = List::new(alloc);
    write_lists(alloc, patterns, tables, names, &mut text)?;
    Ok(text)
}

// The match lists of a program over a model.
fn lists<L: Ledger>(
    alloc: Global,
    store: &Store,
    program: &Program,
    steps: &mut Steps<L>,
) -> Result<Outcome, NoMemory>
    requires sound { IsSound store.now.meta }
    requires valid { IsValid store.now.meta store.now.model }
    requires narrow { IsNarrow (counts_of store.now.meta) program.now }
    ensures due { IfOk result (λ outcome. IsListed (loaded_of store.now) program.now outcome) }
    ensures suits { IfOk result (λ outcome. IsOfFiles outcome.ending) }
{
    narrow_rows_are_named();
    let tables = evaluate_directly(alloc, program, store, steps)?;
    let text = text_of(alloc, program.patterns.as_slice(), tables.as_slice(), store)?;
    Ok(Outcome {
        ending: Ending::Done,
        text,
    })
}

/// What is due to the bytes of a query file over a model.
pub(crate) fn matches<L: Ledger>(
    alloc: Global,
    store: &Store,
    bytes: &[u8],
    steps: &mut Steps<L>,
) -> Result<Outcome, NoMemory>
    requires { length bytes.now ≤ file_limit }
    ensures due { IfOk result (λ outcome.
        IsDueToQueries (loaded_of store.now) bytes.now (IsListed (loaded_of store.now)) outcome) }
    ensures suits { IfOk result (λ outcome. IsOfFiles outcome.ending) }
{
    match read_queries(alloc, store.meta(), bytes) {
        Ok(program) => lists(alloc, store, &program, steps),
        Err(fault) => refusals::queries(alloc, fault),
    }
}
