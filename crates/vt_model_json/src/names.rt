// Names that come again and again, each of which is kept as one text.
ghost use Rattle.std.specs.Prelude.{◌≡◌, IfOk};

use std::alloc::Global;
use vt_base::{NoMemory, Text};

/// How many names are kept.
const PLACES: usize = 64;

/// Names that came lately, each at a place of its own. One that comes again is shared, and takes
/// no memory.
#[derive(Debug, Drop)]
pub(crate) struct Names {
    recent: Vec<Option<Text>>,
}

// The place for a name. Names may have one place, and the last of them is kept there.
fn place_of(name: &str) -> usize {
    let mut sum: usize = 0;
    for byte in name.as_bytes() {
        sum = sum.wrapping_mul(31).wrapping_add(usize::from(*byte));
    }
    sum % PLACES
}

impl Names {
    /// No names yet.
    pub(crate) fn new(alloc: Global) -> Result<Names, NoMemory> {
        let mut recent = Vec::new(alloc);
        for _ in 0..PLACES {
            recent.push(None)?;
        }
        Ok(Names { recent })
    }

    /// A text with these bytes: the one that is kept, or a new one, which is kept.
    pub(crate) fn text(&mut self, alloc: Global, name: &str) -> Result<Text, NoMemory>
        ensures { IfOk result (λ text. text ≡ name.now) }
    {
        let place = place_of(name);
        if let Some(Some(known)) = self.recent.get(place)
            && known.is(name)
        {
            return Ok(known.share());
        }
        let text = Text::new(alloc, name)?;
        if let Some(kept) = self.recent.get_mut(place) {
            *kept = Some(text.share());
        }
        Ok(text)
    }
}
