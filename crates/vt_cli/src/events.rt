// The reply to a step: its number, and what happened to the matches of each pattern.
ghost use Rattle.std.specs.Prelude.{◌≡◌, ◌++◌, IfOk, OnOk, codes, decimal, flat_map};
ghost use Rattle.vt_cli.specs.Replies.{told};
ghost use Rattle.vt_cli.specs.Inside.Marks.{happened, event_rows, mark, marked_line, marked_lines, all_marked};
ghost use Rattle.vt_cli.specs.Inside.Printable.{AllNamed, AllEventsNamed};
ghost use Rattle.vt_base.specs.Names.{AreNamed};

use crate::replies::told;
use std::alloc::Global;
use vt_base::{List, Names, NoMemory, Plain, Rows, Text, Tuple, write_tuple};
use vt_history::{PatternEvents, StepReport};
use vt_query::Pattern;

fn add_rows(alloc: Global, rows: &Rows, out: &mut List<Tuple>) -> Result<(), NoMemory>
    ensures { OnOk result (out.new ≡ out.old ++ rows.now.items) }
{
    let mut walk = rows.walk();
    while let Some(row) = walk.next() {
        out.add(row.copy(alloc)?)?;
    }
    Ok(())
}

// The tuples that something happened to, in one order.
fn event_rows(alloc: Global, events: &PatternEvents) -> Result<Rows, NoMemory>
    ensures { IfOk result (λ rows. rows.items ≡ event_rows events.now) }
{
    let mut all = List::new(alloc);
    add_rows(alloc, &events.added, &mut all)?;
    add_rows(alloc, &events.removed, &mut all)?;
    add_rows(alloc, &events.updated, &mut all)?;
    Rows::from_vec(alloc, all.into_vec())
}

fn mark(events: &PatternEvents, row: &Tuple) -> &'static str
    ensures { result.now ≡ mark events.now row.now }
{
    if events.added.contains(row) {
        "+ "
    } else if events.removed.contains(row) {
        "- "
    } else {
        "~ "
    }
}

fn write_event<N: Names>(
    alloc: Global,
    pattern: &Pattern,
    events: &PatternEvents,
    row: &Tuple,
    names: &N,
    out: &mut List<u8>,
) -> Result<(), NoMemory>
    requires { AreNamed (N.enums names.now) (N.objects names.now) row.now }
    ensures { OnOk result (out.new ≡ out.old
        ++ marked_line (record { enums = N.enums names.now; objects = N.objects names.now }) pattern.now events.now row.now) }
{
    out.extend(b"  ")?;
    out.extend(mark(events, row).as_bytes())?;
    out.extend(pattern.name.as_str().as_bytes())?;
    write_tuple(alloc, row, names, out)?;
    out.add(b'\n')
}

fn write_rows<N: Names>(
    alloc: Global,
    pattern: &Pattern,
    events: &PatternEvents,
    rows: &Rows,
    names: &N,
    out: &mut List<u8>,
) -> Result<(), NoMemory>
    requires { AllNamed (N.enums names.now) (N.objects names.now) rows.now.items }
    ensures { OnOk result (out.new ≡ out.old
        ++ flat_map (marked_line (record { enums = N.enums names.now; objects = N.objects names.now }) pattern.now events.now) rows.now.items) }
{
    let mut walk = rows.walk();
    while let Some(row) = walk.next() {
        write_event(alloc, pattern, events, row, names, out)?;
    }
    Ok(())
}

// Nothing is told of a private pattern.
fn write_pattern<N: Names>(
    alloc: Global,
    pattern: &Pattern,
    events: &PatternEvents,
    names: &N,
    out: &mut List<u8>,
) -> Result<(), NoMemory>
    requires { AllNamed (N.enums names.now) (N.objects names.now) (happened events.now) }
    ensures { OnOk result (out.new ≡ out.old
        ++ marked_lines (record { enums = N.enums names.now; objects = N.objects names.now }) pattern.now events.now) }
{
    if pattern.shown {
        let rows = event_rows(alloc, events)?;
        write_rows(alloc, pattern, events, &rows, names, out)?;
    }
    Ok(())
}

// The events of patterns, each with what happened to its matches.
fn write_patterns<N: Names>(
    alloc: Global,
    patterns: &[Pattern],
    events: &[PatternEvents],
    names: &N,
    out: &mut List<u8>,
) -> Result<(), NoMemory>
    requires { AllEventsNamed (N.enums names.now) (N.objects names.now) events.now }
    ensures { OnOk result (out.new ≡ out.old
        ++ all_marked (record { enums = N.enums names.now; objects = N.objects names.now }) patterns.now events.now) }
{
    let mut rest = events;
    for pattern in patterns {
        let Some((first, others)) = rest.split_first() else {
            return Ok(());
        };
        write_pattern(alloc, pattern, first, names, out)?;
        rest = others;
    }
    Ok(())
}

/// The reply to a client's step.
pub(crate) fn step<N: Names>(
    alloc: Global,
    client: &Text,
    patterns: &[Pattern],
    report: &StepReport,
    names: &N,
) -> Result<List<u8>, NoMemory>
    requires { AllEventsNamed (N.enums names.now) (N.objects names.now) report.now.events }
    ensures { IfOk result (λ text. text ≡ told (codes "commit") client.now (codes "step " ++ decimal report.now.step)
        ++ all_marked (record { enums = N.enums names.now; objects = N.objects names.now }) patterns.now report.now.events) }
{
    let number = report.step;
    let what = format!(in alloc; "step {number}")?;
    let mut text = told(alloc, "commit", client, what.as_str())?;
    write_patterns(alloc, patterns, report.events.as_slice(), names, &mut text)?;
    Ok(text)
}
