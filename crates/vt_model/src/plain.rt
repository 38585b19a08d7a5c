// Features, links and changes that can be copied. The texts in a change are shared with the copy.

use crate::change::{Change, Given, Refusal};
use crate::metamodel::Feature;
use crate::model::Link;
use std::alloc::Global;
use vt_base::{NoMemory, Plain};

impl Plain for Feature {
    fn copy(&self, _alloc: Global) -> Result<Feature, NoMemory> {
        Ok(*self)
    }
}

impl Plain for Link {
    fn copy(&self, _alloc: Global) -> Result<Link, NoMemory> {
        Ok(*self)
    }
}

impl Plain for Given {
    fn copy(&self, _alloc: Global) -> Result<Given, NoMemory> {
        Ok(self.share())
    }
}

impl Plain for Change {
    fn copy(&self, _alloc: Global) -> Result<Change, NoMemory> {
        Ok(self.share())
    }
}

impl Plain for Refusal {
    fn copy(&self, _alloc: Global) -> Result<Refusal, NoMemory> {
        Ok(*self)
    }
}
