// Changes to a model, and why one is refused.
ghost use Rattle.std.specs.Prelude.{◌≡◌};
ghost use Rattle.vt_model.specs.Storable.{IsGivable, GivesStorable};

use thiserror::Error;
use vt_base::Text;

/// A value that a change gives to an attribute.
#[derive(Debug, Drop)]
pub enum Given {
    Bool(bool),
    Int(i64),
    Text(Text),
    /// The number of an enum, and of a literal of it.
    Literal(u16, u16),
}

impl Given {
    /// The same value, for one more owner. It takes no memory and can't fail.
    pub fn share(&self) -> Given
        ensures { result ≡ self.now }
    {
        match self {
            Given::Bool(b) => Given::Bool(*b),
            Given::Int(n) => Given::Int(*n),
            Given::Text(text) => Given::Text(text.share()),
            Given::Literal(e, l) => Given::Literal(*e, *l),
        }
    }

    /// A number that is given has 64 bits, and a text is UTF-8.
    pub fn is_givable(&self)
        ensures { IsGivable self.now }
    {
        match self {
            Given::Int(n) => {
                let _n = *n;
            }
            Given::Text(text) => {
                let _text = text.as_str();
            }
            Given::Bool(_) | Given::Literal(_, _) => {}
        }
    }
}

/// A change to a model. It names objects, classes and features by their names.
#[derive(Debug, Drop)]
pub enum Change {
    /// A new object. Its number is the next one, or a greater one that is asked for.
    Create {
        name: Text,
        class: Text,
        number: Option<u32>,
    },
    /// The object goes, with all that it contains directly or indirectly, and with every link that
    /// touches these.
    Delete {
        name: Text,
    },
    /// An attribute gets a value.
    Set {
        name: Text,
        attr: Text,
        value: Given,
    },
    /// An attribute gets its default back.
    Unset {
        name: Text,
        attr: Text,
    },
    /// An object gets a target for a reference. Nothing changes where it has it.
    Link {
        name: Text,
        reference: Text,
        target: Text,
    },
    /// An object loses a target of a reference. Nothing changes where it doesn't have it.
    Unlink {
        name: Text,
        reference: Text,
        target: Text,
    },
    /// An object goes into another one by a containment.
    Move {
        child: Text,
        parent: Text,
        reference: Text,
    },
}

impl Change {
    /// The same change, for one more owner. It takes no memory and can't fail.
    pub fn share(&self) -> Change
        ensures { result ≡ self.now }
    {
        match self {
            Change::Create {
                name,
                class,
                number,
            } => Change::Create {
                name: name.share(),
                class: class.share(),
                number: *number,
            },
            Change::Delete { name } => Change::Delete { name: name.share() },
            Change::Set { name, attr, value } => Change::Set {
                name: name.share(),
                attr: attr.share(),
                value: value.share(),
            },
            Change::Unset { name, attr } => Change::Unset {
                name: name.share(),
                attr: attr.share(),
            },
            Change::Link {
                name,
                reference,
                target,
            } => Change::Link {
                name: name.share(),
                reference: reference.share(),
                target: target.share(),
            },
            Change::Unlink {
                name,
                reference,
                target,
            } => Change::Unlink {
                name: name.share(),
                reference: reference.share(),
                target: target.share(),
            },
            Change::Move {
                child,
                parent,
                reference,
            } => Change::Move {
                child: child.share(),
                parent: parent.share(),
                reference: reference.share(),
            },
        }
    }

    /// So is what a change gives.
    pub fn gives_storable(&self)
        ensures { GivesStorable self.now }
    {
        if let Change::Set { value, .. } = self {
            value.is_givable();
        }
    }
}

/// Why a change is refused: the first of these that applies, in this order.
#[derive(Clone, Copy, Debug, PartialEq, Eq, Error)]
pub enum Refusal {
    /// A named object never existed, as `b` in `delete b` where nothing was called so.
    #[error("an object that is named never existed")]
    UnknownObject,
    /// A named object was deleted, as `b` in `delete b` after `delete b`.
    #[error("an object that is named was deleted")]
    Gone,
    /// No class has the name, as `Boook` where there is a class `Book`.
    #[error("no class has the name")]
    UnknownClass,
    /// The class is abstract, so that it has no objects of its own.
    #[error("the class is abstract")]
    AbstractClass,
    /// A live or deleted object has the name already.
    #[error("a live or deleted object has the name already")]
    NameTaken,
    /// The name begins with `_` and isn't `_` and the object's number, as `_8` for number 7.
    #[error("the name begins with `_` and is not that of the object's number")]
    ReservedName,
    /// The object's class has no such feature, its own or inherited.
    #[error("the object's class has no such feature")]
    UnknownFeature,
    /// A value is given to a reference, a link to an attribute, or a value of another kind; or an
    /// object is moved by what is no containment.
    #[error("the feature takes no such value, or is no containment")]
    WrongKind,
    /// A text that is given to an attribute of an enum names no literal of it.
    #[error("the text names no literal of the attribute's enum")]
    WrongValue,
    /// The target isn't of the class that the reference leads to.
    #[error("the target is not of the class that the reference leads to")]
    WrongTarget,
    /// The link would make an object contain itself, directly or indirectly.
    #[error("an object would contain itself")]
    ContainmentCycle,
    /// The object's number would be 1,048,576 or more.
    #[error("the object's number would be 1048576 or more")]
    TooManyObjects,
}
