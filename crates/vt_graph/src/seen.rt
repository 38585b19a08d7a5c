// What becomes of a name.

use vt_base::ObjId;

/// What became of a name.
#[derive(Clone, Copy, Debug, PartialEq, Eq)]
pub enum Seen {
    /// An object of this name is live.
    Live(ObjId),
    /// An object of this name was deleted.
    Gone(ObjId),
    /// No object ever had the name.
    Never,
}
