// Classes above classes, by their places in a list.
ghost use Rattle.std.specs.Prelude.{◌≡◌, ◌<◌, IfOk, OnOk, All, map, length, nat_eq};
ghost use Rattle.std.specs.List.{list_any, range_with_len};
ghost use Rattle.indexmap.specs.IndexSet.{insert_all};
ghost use Rattle.vt_base.specs.declared.numbers.ClassId.{ClassId};
ghost use Rattle.vt_model.specs.Above.{class_places, places, supers_at, AreThere, IsAbove};
ghost use Rattle.vt_model.specs.Inside.Tables.{above_row, above_table, is_marked, MarksAbove};

use indexmap::IndexSet;
use std::alloc::Global;
use vt_base::{ClassId, List, NoMemory};

// Adds the places that aren't there yet.
fn add_all(above: &mut IndexSet<usize>, places: &[usize]) -> Result<(), NoMemory>
    ensures { OnOk result (above.new.keys ≡ insert_all nat_eq above.old.keys places.now) }
{
    for place in places {
        above.insert(*place)?;
    }
    Ok(())
}

// Adds the supertypes of the class at a place.
fn add_supers(
    above: &mut IndexSet<usize>,
    supers: &[List<usize>],
    place: usize,
) -> Result<(), NoMemory>
    ensures { OnOk result (above.new.keys ≡ insert_all nat_eq above.old.keys (supers_at supers.now place)) }
{
    match supers.get(place) {
        Some(direct) => add_all(above, direct.as_slice()),
        None => Ok(()),
    }
}

/// Some classes and those above them, each once.
pub fn classes_above(
    alloc: Global,
    supers: &[List<usize>],
    starts: &[usize],
) -> Result<IndexSet<usize>, NoMemory>
    requires supers { AreThere supers.now }
    requires starts { All (λ s. s < length supers.now) starts.now }
    ensures { IfOk result (λ above. IsAbove supers.now starts.now above.keys) }
{
    let mut above = IndexSet::new(alloc);
    add_all(&mut above, starts)?;
    for next in 0..supers.len() {
        let Some(place) = above.get_index(next) else {
            return Ok(above);
        };
        let place = *place;
        add_supers(&mut above, supers, place)?;
    }
    Ok(above)
}

// Which of so many classes are among some.
fn marks(alloc: Global, above: &IndexSet<usize>, count: usize) -> Result<List<bool>, NoMemory>
    ensures { IfOk result (λ row. row ≡ map (λ d. list_any (nat_eq d) above.now.keys) (range_with_len 0 count)) }
{
    let mut row = List::new(alloc);
    for d in 0..count {
        row.add(above.contains(&d))?;
    }
    Ok(row)
}

// Which classes are a class or above it.
#[tactic(auto, using(crate::proofs::TableLemmas::row_is))]
fn above_row(alloc: Global, supers: &[List<usize>], class: usize) -> Result<List<bool>, NoMemory>
    requires supers { AreThere supers.now }
    requires class { class < length supers.now }
    ensures { IfOk result (λ row. row ≡ above_row supers.now class) }
{
    let above = classes_above(alloc, supers, &[class])?;
    marks(alloc, &above, supers.len())
}

// Which classes are above which, by the places of their supertypes.
fn above_table(alloc: Global, supers: &[List<usize>]) -> Result<List<List<bool>>, NoMemory>
    requires { AreThere supers.now }
    ensures { IfOk result (λ rows. rows ≡ above_table supers.now) }
{
    let mut rows = List::new(alloc);
    for class in 0..supers.len() {
        rows.add(above_row(alloc, supers, class)?)?;
    }
    Ok(rows)
}

fn class_places(alloc: Global, classes: &[ClassId]) -> Result<List<usize>, NoMemory>
    ensures { IfOk result (λ places. places ≡ class_places classes.now) }
{
    let mut places = List::new(alloc);
    for class in classes {
        places.add(class.0 as usize)?;
    }
    Ok(places)
}

fn all_places(alloc: Global, supers: &[List<ClassId>]) -> Result<List<List<usize>>, NoMemory>
    ensures { IfOk result (λ made. made ≡ places supers.now) }
{
    let mut made = List::new(alloc);
    for classes in supers {
        made.add(class_places(alloc, classes.as_slice())?)?;
    }
    Ok(made)
}

/// Which classes are above which, by the supertypes of each class.
#[tactic(auto, using(crate::proofs::TableLemmas::there_places, crate::proofs::TableLemmas::table_of_classes))]
pub(crate) fn marks_above(
    alloc: Global,
    supers: &[List<ClassId>],
) -> Result<List<List<bool>>, NoMemory>
    requires { All (All (λ (e : ClassId). e.0 < length supers.now)) supers.now }
    ensures { IfOk result (MarksAbove supers.now (length supers.now)) }
{
    let places = all_places(alloc, supers)?;
    above_table(alloc, places.as_slice())
}

/// Whether a class is another one or below it, by the table.
pub(crate) fn is_marked(rows: &[List<bool>], c: usize, d: usize) -> bool
    ensures { result ≡ is_marked rows.now c d }
{
    match rows.get(c) {
        Some(row) => row.get(d).copied().unwrap_or(false),
        None => c == d,
    }
}
