// What a model holds.

use vt_base::{AttrId, ClassId, ObjId, RefId, Text, Value};

/// A live object.
#[derive(Debug, Drop)]
pub struct Object {
    pub number: ObjId,
    pub name: Text,
    pub class: ClassId,
}

/// An object that was deleted. Its number and its name stay taken.
#[derive(Debug, Drop)]
pub struct GoneObject {
    pub number: ObjId,
    pub name: Text,
}

/// The value that an object has for an attribute.
#[derive(Debug, Drop)]
pub struct AttributeValue {
    pub object: ObjId,
    pub attribute: AttrId,
    pub value: Value,
}

/// A link from an object to an object. Links are ordered by source, reference and target.
#[derive(Clone, Copy, Debug, PartialEq, Eq, PartialOrd, Ord)]
pub struct Link {
    pub source: ObjId,
    pub reference: RefId,
    pub target: ObjId,
}
