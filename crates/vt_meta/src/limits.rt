// More classes, enums, literals or features than there may be.
ghost use Rattle.std.specs.Prelude.{◌≡◌, IfOk, length, sum_by, nat_lt, find, option_map};
ghost use Rattle.vt_meta.specs.Faults.{above, feature_count, too_great};

use crate::document::{ClassDocument, EnumDocument, MetamodelDocument};
use vt_base::NoMemory;

const MOST_CLASSES: usize = 1_024;

const MOST_ENUMS: usize = 1_024;

const MOST_LITERALS: usize = 1_024;

const MOST_FEATURES: usize = 4_096;

fn above(limit: usize, count: usize) -> Option<usize>
    ensures { result ≡ above limit count }
{
    if limit < count { Some(count) } else { None }
}

// How many literals the first enum has that has too many.
fn long_enum(enums: &[EnumDocument]) -> Option<usize>
    ensures { result ≡ option_map (λ e. length e.literals) (find (λ e. nat_lt 1024 (length e.literals)) enums.now) }
{
    for info in enums {
        if info.literals.len() > MOST_LITERALS {
            return Some(info.literals.len());
        }
    }
    None
}

// How many attributes and references there are. There is no memory for more than a `usize` counts.
fn feature_count(classes: &[ClassDocument]) -> Result<usize, NoMemory>
    ensures { IfOk result (λ count. count ≡ sum_by feature_count classes.now) }
{
    let mut count: usize = 0;
    for class in classes {
        let attributes = class.attributes.len();
        let references = class.references.len();
        count = count.checked_add(attributes).ok_or(NoMemory)?;
        count = count.checked_add(references).ok_or(NoMemory)?;
    }
    Ok(count)
}

/// The first count that is too great.
pub(crate) fn too_great(document: &MetamodelDocument) -> Result<Option<usize>, NoMemory>
    ensures { IfOk result (λ count. count ≡ too_great document.now) }
{
    if let Some(count) = above(MOST_CLASSES, document.classes.len()) {
        return Ok(Some(count));
    }
    if let Some(count) = above(MOST_ENUMS, document.enums.len()) {
        return Ok(Some(count));
    }
    if let Some(count) = long_enum(document.enums.as_slice()) {
        return Ok(Some(count));
    }
    Ok(above(MOST_FEATURES, feature_count(document.classes.as_slice())?))
}
