// Changes that are collected, to be made as a whole.
ghost use Rattle.std.specs.Prelude.{◌≡◌, ◌↔◌, ◌≤◌, [], ◌∷◌, ◌++◌, length, OnOk, OnErr};
ghost use Rattle.vt_change.specs.declared.transaction.PushFault.TheVariants as fault;

use std::alloc::Global;
use std::marker::Model;
use thiserror::Error;
use vt_base::{List, NoMemory};
use vt_model::Change;

/// The most changes that a transaction takes.
const MOST: usize = 65_536;

/// Changes that are to be made as a whole. Contracts see the list of them.
#[derive(Debug, Drop)]
pub struct Transaction {
    changes: List<Change>,
}

impl Model for Transaction {
    ghost use Rattle.std.specs.Prelude.{List, length, ◌≤◌};
    ghost use Rattle.vt_model.specs.declared.change.Change.{Change as Item};

    ghost Value = { List Item };

    ghost view = { λ t. t.changes };

    ghost invariant = { λ t. length t.changes ≤ 65536 };
}

/// Why a transaction takes no further change. It is as it was before.
#[derive(Clone, Copy, Debug, PartialEq, Eq, Error)]
pub enum PushFault {
    /// It has 65,536 changes.
    #[error("the transaction has 65536 changes, the most that one takes")]
    Full,
    /// Memory ran out. It may stand for any other answer but that of a full transaction.
    #[error("there is no memory for the change")]
    NoMemory,
}

impl From<NoMemory> for PushFault {
    ghost from_gives = { λ _ e. e ≡ fault.NoMemory };

    fn from(_: NoMemory) -> PushFault {
        PushFault::NoMemory
    }
}

impl Transaction {
    /// No changes. It takes no memory.
    pub fn new(alloc: Global) -> Transaction
        ensures { result ≡ [] }
    {
        Transaction {
            changes: List::new(alloc),
        }
    }

    /// Adds a change at the end. One that isn't added is dropped.
    pub fn push(&mut self, change: Change) -> Result<(), PushFault>
        ensures added { OnOk result (self.new ≡ self.old ++ change ∷ []) }
        ensures full { (result ≡ Err fault.Full) ↔ (length self.old ≡ 65536) }
        ensures unchanged { OnErr result (self.new ≡ self.old) }
    {
        if self.changes.len() >= MOST {
            return Err(PushFault::Full);
        }
        self.changes.add(change)?;
        Ok(())
    }

    /// The changes in the order in which they were added.
    pub fn changes(&self) -> &[Change]
        ensures value { result.now ≡ self.now }
        ensures few { length self.now ≤ 65536 }
    {
        self.changes.as_slice()
    }
}
