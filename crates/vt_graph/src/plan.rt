// What is worked out once of each class.

use vt_base::{AttrId, ClassId, Kind, List};

/// An attribute that a class has.
#[derive(Clone, Copy, Debug)]
pub(crate) struct AttributePlan {
    pub(crate) attribute: AttrId,
    pub(crate) kind: Kind,
}

/// The class and the classes above it, and the attributes that it has, each in rising number.
#[derive(Debug, Drop)]
pub(crate) struct ClassPlan {
    pub(crate) above: List<ClassId>,
    pub(crate) attributes: List<AttributePlan>,
}
