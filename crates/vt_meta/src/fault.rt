// Why a metamodel document is refused.
ghost use Rattle.std.specs.Prelude.{◌≡◌};
ghost use Rattle.vt_meta.specs.declared.fault.MetaFault.TheVariants as fault;

use std::alloc::{AllocError, AllocFailed};
use thiserror::Error;

/// The first fault of a metamodel document, in the order of docs/FORMATS.md. The place counts the
/// document's items, which are its enums and then its classes, from 0.
#[derive(Clone, Copy, Debug, PartialEq, Eq, Error)]
pub enum MetaFault {
    /// The bytes are no JSON text, as `{"format":1,}`.
    #[error("the bytes are no JSON text")]
    NotJson { place: u64 },
    /// A key that isn't listed, a key that is missing, or a value of another form, as
    /// `"format":"1"`.
    #[error("a key is missing or not listed, or a value has another form")]
    BadShape { place: u64 },
    /// An item has the name of an earlier one or of a kind, an enum two equal literals, or a class
    /// declares two features of one name.
    #[error("item {place} has a name that is taken, or declares one twice")]
    DuplicateName { place: u64 },
    /// A supertype or a target is no class, or an attribute's kind is none, as `"kind":"Int"`.
    #[error("item {place} names a class or a kind that is not there")]
    UnknownType { place: u64 },
    /// A class is its own supertype, directly or indirectly.
    #[error("item {place} is its own supertype")]
    SuperCycle { place: u64 },
    /// A reference's opposite isn't another reference that its target declares, which leads back and
    /// names the first as its opposite.
    #[error("item {place} has a reference whose opposite does not answer")]
    BadOpposite { place: u64 },
    /// The opposite of a containment is a containment or leads to many.
    #[error("item {place} has a containment whose opposite is a containment or many")]
    BadContainment { place: u64 },
    /// A class has two different features of one name, as `w` from two supertypes.
    #[error("item {place} has two features of one name")]
    FeatureClash { place: u64 },
    /// There are more classes, enums, literals of an enum, or attributes and references than may be.
    /// The place is their count, as 1025 for classes.
    #[error("there are {place} of what the limits allow fewer of")]
    TooMany { place: u64 },
    /// Memory ran out. It may stand for any other answer.
    #[error("memory ran out before the document was read")]
    NoMemory,
}

impl From<AllocError> for MetaFault {
    ghost from_gives = { λ _ e. e ≡ fault.NoMemory };

    fn from(_: AllocError) -> MetaFault {
        MetaFault::NoMemory
    }
}

impl<T: Drop> From<AllocFailed<T>> for MetaFault {
    ghost from_gives = { λ _ e. e ≡ fault.NoMemory };

    fn from(_: AllocFailed<T>) -> MetaFault {
        MetaFault::NoMemory
    }
}

impl From<vt_base::NoMemory> for MetaFault {
    ghost from_gives = { λ _ e. e ≡ fault.NoMemory };

    fn from(_: vt_base::NoMemory) -> MetaFault {
        MetaFault::NoMemory
    }
}
