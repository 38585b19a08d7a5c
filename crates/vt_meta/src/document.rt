// The parts of a metamodel document, and how each is read.
ghost use Rattle.std.specs.Prelude.{◌≡◌, ◌+◌, ◌<◌, [], codes, length};
ghost use Rattle.serde_json.specs.Find.{as_str};
ghost use Rattle.serde_json.specs.View.{view};
ghost use Rattle.vt_json.specs.Shape.{Reads, defaulted};
ghost use Rattle.vt_meta.specs.Document.{enum_shape, attribute_shape, reference_shape, class_shape, document_shape, has_format_one};

use serde_json::Value;
use std::alloc::Global;
use vt_base::{List, Text};
use vt_json::{
    Identifier, Shape, ShapeFault, has_only, read_defaulted, read_optional, read_required,
};

/// An enum of a document.
#[derive(Debug, Drop)]
pub struct EnumDocument {
    pub name: Identifier,
    pub literals: List<Identifier>,
}

/// An attribute of a class of a document.
#[derive(Debug, Drop)]
pub struct AttributeDocument {
    pub name: Identifier,
    pub kind: Text,
}

/// A reference of a class of a document.
#[derive(Debug, Drop)]
pub struct ReferenceDocument {
    pub name: Identifier,
    pub target: Text,
    pub many: bool,
    pub containment: bool,
    pub opposite: Option<Identifier>,
}

/// A class of a document.
#[derive(Debug, Drop)]
pub struct ClassDocument {
    pub name: Identifier,
    pub is_abstract: bool,
    pub supers: List<Identifier>,
    pub attributes: List<AttributeDocument>,
    pub references: List<ReferenceDocument>,
}

/// A metamodel document.
#[derive(Debug, Drop)]
pub struct MetamodelDocument {
    pub uri: Text,
    pub enums: List<EnumDocument>,
    pub classes: List<ClassDocument>,
}

impl MetamodelDocument {
    /// The place of a class among the document's items, which are its enums and then its classes.
    pub(crate) fn place_of_class(&self, class: usize) -> usize
        requires { class < length self.now.classes }
        ensures { result ≡ length self.now.enums + class }
    {
        let enums = self.enums.as_slice();
        let _classes = self.classes.as_slice();
        enums.len() + class
    }
}

impl Shape for EnumDocument {
    ghost shape = { enum_shape };

    fn read(alloc: Global, value: &Value) -> Result<EnumDocument, ShapeFault> {
        if !has_only(value, &["name", "literals"]) {
            return Err(ShapeFault::BadShape);
        }
        let name = read_required(alloc, value, "name")?;
        let literals: List<Identifier> = read_required(alloc, value, "literals")?;
        if literals.is_empty() {
            return Err(ShapeFault::BadShape);
        }
        Ok(EnumDocument { name, literals })
    }
}

impl Shape for AttributeDocument {
    ghost shape = { attribute_shape };

    fn read(alloc: Global, value: &Value) -> Result<AttributeDocument, ShapeFault> {
        if !has_only(value, &["name", "kind"]) {
            return Err(ShapeFault::BadShape);
        }
        let name = read_required(alloc, value, "name")?;
        let kind = read_required(alloc, value, "kind")?;
        Ok(AttributeDocument { name, kind })
    }
}

impl Shape for ReferenceDocument {
    ghost shape = { reference_shape };

    fn read(alloc: Global, value: &Value) -> Result<ReferenceDocument, ShapeFault> {
        if !has_only(
            value,
            &["name", "target", "many", "containment", "opposite"],
        ) {
            return Err(ShapeFault::BadShape);
        }
        let name = read_required(alloc, value, "name")?;
        let target = read_required(alloc, value, "target")?;
        let many = read_defaulted(alloc, value, "many", false)?;
        let containment = read_defaulted(alloc, value, "containment", false)?;
        let opposite = read_optional(alloc, value, "opposite")?;
        Ok(ReferenceDocument {
            name,
            target,
            many,
            containment,
            opposite,
        })
    }
}

impl Shape for ClassDocument {
    ghost shape = { class_shape };

    fn read(alloc: Global, value: &Value) -> Result<ClassDocument, ShapeFault> {
        if !has_only(
            value,
            &["name", "abstract", "supers", "attributes", "references"],
        ) {
            return Err(ShapeFault::BadShape);
        }
        let name = read_required(alloc, value, "name")?;
        let is_abstract = read_defaulted(alloc, value, "abstract", false)?;
        let supers = read_defaulted(alloc, value, "supers", List::new(alloc))?;
        let attributes = read_defaulted(alloc, value, "attributes", List::new(alloc))?;
        let references = read_defaulted(alloc, value, "references", List::new(alloc))?;
        Ok(ClassDocument {
            name,
            is_abstract,
            supers,
            attributes,
            references,
        })
    }
}

/// Whether the document says `"format":1`.
pub fn has_format_one(value: &Value) -> bool
    ensures { result ≡ has_format_one (view value.now) }
{
    value.get("format").and_then(Value::as_u64) == Some(1)
}

fn read_uri(alloc: Global, value: &Value) -> Result<Text, ShapeFault>
    ensures { Reads result (defaulted (codes "uri") [] as_str (view value.now)) }
{
    let none = Text::new(alloc, "")?;
    read_defaulted(alloc, value, "uri", none)
}

impl Shape for MetamodelDocument {
    ghost shape = { document_shape };

    fn read(alloc: Global, value: &Value) -> Result<MetamodelDocument, ShapeFault> {
        if !(has_only(value, &["format", "uri", "enums", "classes"]) && has_format_one(value)) {
            return Err(ShapeFault::BadShape);
        }
        let uri = read_uri(alloc, value)?;
        let enums = read_defaulted(alloc, value, "enums", List::new(alloc))?;
        let classes = read_required(alloc, value, "classes")?;
        Ok(MetamodelDocument {
            uri,
            enums,
            classes,
        })
    }
}
