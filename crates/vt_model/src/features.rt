// The features of each class by their names.
ghost use Rattle.std.specs.Prelude.{◌≡◌, ◌++◌, ◌==◌, ◌≤◌, ℕ, IfOk, OnOk, map, length, nat_eq};
ghost use Rattle.std.specs.Option.{option_or};
ghost use Rattle.indexmap.specs.IndexMap.{get};
ghost use Rattle.vt_model.specs.Inside.Tables.{is_marked};
ghost use Rattle.vt_model.specs.Places.{FindsIn};
ghost use Rattle.vt_model.specs.Inside.FeatureTable.{all_names, name_number, attribute_entries, reference_entries, all_entries, is_entry_of, first_entry, feature_if, kept_at, KeepsFirst, feature_in, AreFeatures};

use crate::above::is_marked;
use crate::metamodel::{AttrInfo, Feature, RefInfo};
use crate::places::{Places, places_of};
use indexmap::IndexMap;
use std::alloc::Global;
use vt_base::{AttrId, ClassId, List, NoMemory, RefId, Text};

// A feature, with the class that declares it and the number of its name.
#[derive(Drop)]
struct Entry {
    number: usize,
    class: ClassId,
    feature: Feature,
}

/// The features of each class, its own and of the classes above it, by the numbers of their names.
#[derive(Drop)]
pub(crate) struct Features {
    names: Places,
    rows: List<IndexMap<usize, Feature>>,
}

impl Features {
    /// The features of each of so many classes, by the table of which are above which.
    pub(crate) fn of(
        alloc: Global,
        attributes: &[AttrInfo],
        references: &[RefInfo],
        above: &[List<bool>],
        count: usize,
    ) -> Result<Features, NoMemory>
        requires attributes { length attributes.now ≤ 4096 }
        requires references { length references.now ≤ 4096 }
        ensures { IfOk result (AreFeatures attributes.now references.now above.now count) }
    {
        let names = all_names(alloc, attributes, references)?;
        let entries = all_entries(alloc, &names, attributes, references)?;
        let rows = all_features(alloc, entries.as_slice(), above, count)?;
        Ok(Features { names, rows })
    }

    /// The feature of a name that a class has.
    pub(crate) fn feature(&self, class: ClassId, name: &str) -> Option<Feature>
        ensures { result ≡ feature_in self.now class.0 name.now }
    {
        let number = self.names.place_of(name)?;
        kept_at(self.rows.as_slice(), class.0 as usize, number)
    }
}

fn kept_at(rows: &[IndexMap<usize, Feature>], class: usize, number: usize) -> Option<Feature>
    ensures { result ≡ kept_at rows.now class number }
{
    rows.get(class)?.get(&number).copied()
}

fn add_attribute_names(names: &mut List<Text>, attributes: &[AttrInfo]) -> Result<(), NoMemory>
    ensures { OnOk result (names.new ≡ names.old ++ map (λ a. a.name) attributes.now) }
{
    for attribute in attributes {
        names.add(attribute.name.share())?;
    }
    Ok(())
}

fn add_reference_names(names: &mut List<Text>, references: &[RefInfo]) -> Result<(), NoMemory>
    ensures { OnOk result (names.new ≡ names.old ++ map (λ r. r.name) references.now) }
{
    for reference in references {
        names.add(reference.name.share())?;
    }
    Ok(())
}

fn all_names(
    alloc: Global,
    attributes: &[AttrInfo],
    references: &[RefInfo],
) -> Result<Places, NoMemory>
    ensures { IfOk result (FindsIn (all_names attributes.now references.now)) }
{
    let mut names = List::new(alloc);
    add_attribute_names(&mut names, attributes)?;
    add_reference_names(&mut names, references)?;
    places_of(alloc, names.as_slice())
}

fn name_number(names: &Places, name: &Text) -> usize
    ensures { result ≡ name_number names.now name.now }
{
    names.place_of(name.as_str()).unwrap_or(0)
}

fn add_attributes(
    entries: &mut List<Entry>,
    names: &Places,
    attributes: &[AttrInfo],
) -> Result<(), NoMemory>
    requires { length attributes.now ≤ 4096 }
    ensures { OnOk result (entries.new ≡ entries.old ++ attribute_entries names.now 0 attributes.now) }
{
    for (i, attribute) in attributes.iter().enumerate() {
        entries.add(Entry {
            number: name_number(names, &attribute.name),
            class: attribute.class,
            feature: Feature::Attr(AttrId(i as u16)),
        })?;
    }
    Ok(())
}

fn add_references(
    entries: &mut List<Entry>,
    names: &Places,
    references: &[RefInfo],
) -> Result<(), NoMemory>
    requires { length references.now ≤ 4096 }
    ensures { OnOk result (entries.new ≡ entries.old ++ reference_entries names.now 0 references.now) }
{
    for (i, reference) in references.iter().enumerate() {
        entries.add(Entry {
            number: name_number(names, &reference.name),
            class: reference.class,
            feature: Feature::Ref(RefId(i as u16)),
        })?;
    }
    Ok(())
}

fn all_entries(
    alloc: Global,
    names: &Places,
    attributes: &[AttrInfo],
    references: &[RefInfo],
) -> Result<List<Entry>, NoMemory>
    requires attributes { length attributes.now ≤ 4096 }
    requires references { length references.now ≤ 4096 }
    ensures { IfOk result (λ entries. entries ≡ all_entries names.now attributes.now references.now) }
{
    let mut entries = List::new(alloc);
    add_attributes(&mut entries, names, attributes)?;
    add_references(&mut entries, names, references)?;
    Ok(entries)
}

// Keeps a feature, unless one of its name is kept.
fn keep_first(row: &mut IndexMap<usize, Feature>, entry: &Entry) -> Result<(), NoMemory>
    ensures { OnOk result ((number : ℕ) → get nat_eq row.new number
        ≡ option_or (get nat_eq row.old number) (feature_if (entry.now.number == number) entry.now.feature)) }
{
    if row.contains_key(&entry.number) {
        return Ok(());
    }
    row.insert(entry.number, entry.feature)?;
    Ok(())
}

// Keeps a feature where the class has it, unless one of its name is kept.
fn keep_of_class(
    row: &mut IndexMap<usize, Feature>,
    above: &[List<bool>],
    class: usize,
    entry: &Entry,
) -> Result<(), NoMemory>
    ensures { OnOk result ((number : ℕ) → get nat_eq row.new number
        ≡ option_or (get nat_eq row.old number) (feature_if (is_entry_of above.now class number entry.now) entry.now.feature)) }
{
    if !is_marked(above, class, entry.class.0 as usize) {
        return Ok(());
    }
    keep_first(row, entry)
}

// The features that a class has.
fn features_of(
    alloc: Global,
    entries: &[Entry],
    above: &[List<bool>],
    class: usize,
) -> Result<IndexMap<usize, Feature>, NoMemory>
    ensures { IfOk result (λ row. (number : ℕ) → get nat_eq row number ≡ first_entry above.now class number entries.now) }
{
    let mut row = IndexMap::new(alloc);
    for entry in entries {
        keep_of_class(&mut row, above, class, entry)?;
    }
    Ok(row)
}

// The features that each of so many classes has.
fn all_features(
    alloc: Global,
    entries: &[Entry],
    above: &[List<bool>],
    count: usize,
) -> Result<List<IndexMap<usize, Feature>>, NoMemory>
    ensures { IfOk result (KeepsFirst entries.now above.now count) }
{
    let mut rows = List::new(alloc);
    for class in 0..count {
        rows.add(features_of(alloc, entries, above, class)?)?;
    }
    Ok(rows)
}
