// Names by the places where they first stand in a list.
ghost use Rattle.std.specs.Prelude.{◌≡◌, [], IfOk, OnOk, is_none};
ghost use Rattle.vt_model.specs.Places.{place_in, FindsIn, AddsPlace};

use indexmap::IndexMap;
use std::alloc::Global;
use vt_base::{NoMemory, Text};

/// Names by their places. A name that stands twice has its first place.
#[derive(Drop)]
pub struct Places {
    pub table: IndexMap<String, usize>,
}

impl Places {
    pub fn new(alloc: Global) -> Places
        ensures { FindsIn [] result }
    {
        Places {
            table: IndexMap::new(alloc),
        }
    }

    /// The first place of a name.
    pub fn place_of(&self, name: &str) -> Option<usize>
        ensures { result ≡ place_in self.now name.now }
    {
        self.table.get(name).copied()
    }

    /// Adds a name at its place, unless it has one. The answer is whether it had none.
    pub fn add(&mut self, alloc: Global, name: &Text, place: usize) -> Result<bool, NoMemory>
        ensures fresh { IfOk result (λ fresh. fresh ≡ is_none (place_in self.old name.now)) }
        ensures added { OnOk result (AddsPlace self.old self.new name.now place) }
    {
        if self.table.contains_key(name.as_str()) {
            return Ok(false);
        }
        let key = String::from_str(alloc, name.as_str())?;
        self.table.insert(key, place)?;
        Ok(true)
    }
}

/// The places of names.
pub fn places_of(alloc: Global, names: &[Text]) -> Result<Places, NoMemory>
    ensures { IfOk result (FindsIn names.now) }
{
    let mut places = Places::new(alloc);
    for (place, name) in names.iter().enumerate() {
        places.add(alloc, name, place)?;
    }
    Ok(places)
}
