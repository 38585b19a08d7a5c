// Entries by their names, which rise.
ghost use Rattle.std.specs.Prelude.{◌≡◌, OnOk};
ghost use Rattle.serde_json.specs.Data.{Data, put};
ghost use Rattle.vt_model_json.specs.Inside.Entries.{entry_members};

use std::collections::BTreeMap;
use vt_base::NoMemory;

/// Puts an item in under a key, in place of what stood there.
pub(crate) fn add_entry<'a, T: Drop>(
    entries: &mut BTreeMap<&'a str, T>,
    key: &'a str,
    item: T,
) -> Result<(), NoMemory>
    ensures { OnOk result ((means : T → Data) → entry_members (λ k. k.now) means entries.new.entries
        ≡ put key.now (means item) (entry_members (λ k. k.now) means entries.old.entries)) }
{
    drop(entries.insert(key, item)?);
    Ok(())
}
