// What one change did.
ghost use Rattle.std.specs.Prelude.{◌≡◌, ◌≤◌, [], map, option_to_list};
ghost use Rattle.std.specs.Option.{option_copied};
ghost use Rattle.vt_store.specs.Inside.Displaced.{links_edit};
ghost use Rattle.vt_store.specs.Inside.Kept.{AreOf, creation, deletion_edit, waiting_place};
ghost use Rattle.vt_store.specs.Inside.Assigned.{values_edit};

use std::alloc::Global;
use std::marker::Model;
use vt_base::List;
use vt_graph::Buried;
use vt_model::{AttributeValue, Link, Metamodel, Object};

/// What one change put into a model and took out of it. A store takes it back by
/// [`Store::revert`](crate::Store::revert).
#[derive(Drop)]
pub struct Edit {
    pub(crate) meta: Metamodel,
    // The number that the next object was to get.
    pub(crate) next: u32,
    pub(crate) created: Option<Object>,
    // The lists of their ends keep their room.
    pub(crate) deleted: List<Buried>,
    pub(crate) values_added: List<AttributeValue>,
    pub(crate) values_removed: List<AttributeValue>,
    pub(crate) links_added: List<Link>,
    pub(crate) links_removed: List<Link>,
}

impl Model for Edit {
    ghost use Rattle.std.specs.Prelude.{map, IfSome};
    ghost use Rattle.vt_store.specs.Undoing.{HeldEdit};
    ghost use Rattle.vt_store.specs.Inside.Kept.{waiting_place, kept_edit, IsFresh, AreOf};

    ghost Value = { HeldEdit };

    ghost view = { λ e. record {
      meta = e.meta;
      edit = kept_edit e.next e.created e.deleted
          (record { added = e.values_added; removed = e.values_removed })
          (record { added = e.links_added; removed = e.links_removed });
      waiting = map waiting_place e.deleted;
    } };

    ghost invariant = { λ e. IfSome e.created (IsFresh e.next e.deleted)
        × AreOf e.meta e.deleted };
}

impl Edit {
    // What a change that created an object did.
    pub(crate) fn of_creation(
        alloc: Global,
        meta: Metamodel,
        next: u32,
        object: Object,
        values: List<AttributeValue>,
    ) -> Edit
        requires above { next ≤ object.number.0 }
        ensures { result ≡ record { meta = meta; edit = creation next object values; waiting = [] } }
    {
        Edit {
            meta,
            next,
            created: Some(object),
            deleted: List::new(alloc),
            values_added: values,
            values_removed: List::new(alloc),
            links_added: List::new(alloc),
            links_removed: List::new(alloc),
        }
    }

    // What a change of values alone did.
    pub(crate) fn of_values(
        alloc: Global,
        meta: &Metamodel,
        next: u32,
        added: List<AttributeValue>,
        removed: List<AttributeValue>,
    ) -> Edit
        ensures { result ≡ record {
          meta = meta.now;
          edit = values_edit next (record { added = added; removed = removed });
          waiting = [];
        } }
    {
        Edit {
            meta: meta.share(),
            next,
            created: None,
            deleted: List::new(alloc),
            values_added: added,
            values_removed: removed,
            links_added: List::new(alloc),
            links_removed: List::new(alloc),
        }
    }

    // What a change of links alone did.
    pub(crate) fn of_links(
        alloc: Global,
        meta: &Metamodel,
        next: u32,
        added: List<Link>,
        removed: List<Link>,
    ) -> Edit
        ensures { result ≡ record { meta = meta.now; edit = links_edit next added removed; waiting = [] } }
    {
        Edit {
            meta: meta.share(),
            next,
            created: None,
            deleted: List::new(alloc),
            values_added: List::new(alloc),
            values_removed: List::new(alloc),
            links_added: added,
            links_removed: removed,
        }
    }

    // What a deletion did.
    pub(crate) fn of_deletion(
        alloc: Global,
        meta: &Metamodel,
        next: u32,
        deleted: List<Buried>,
        values: List<AttributeValue>,
        links: List<Link>,
    ) -> Edit
        requires of { AreOf meta.now deleted }
        ensures { result ≡ record {
          meta = meta.now;
          edit = deletion_edit next deleted values links;
          waiting = map waiting_place deleted;
        } }
    {
        Edit {
            meta: meta.share(),
            next,
            created: None,
            deleted,
            values_added: List::new(alloc),
            values_removed: values,
            links_added: List::new(alloc),
            links_removed: links,
        }
    }
}

// ---- what a change put in, and what it took out

impl Edit {
    /// The object that was created.
    pub fn created(&self) -> Option<&Object>
        ensures { option_to_list (option_copied result) ≡ self.now.edit.live.added }
    {
        self.created.as_ref()
    }

    /// The objects that were deleted.
    pub fn deleted(&self) -> &[Buried]
        ensures { map (λ b. b.object) result.now ≡ self.now.edit.live.removed }
    {
        self.deleted.as_slice()
    }

    /// The values that came, and those that went.
    pub fn values(&self) -> (&[AttributeValue], &[AttributeValue])
        ensures came { result.0.now ≡ self.now.edit.values.added }
        ensures went { result.1.now ≡ self.now.edit.values.removed }
    {
        (self.values_added.as_slice(), self.values_removed.as_slice())
    }

    /// The links that came, and those that went.
    pub fn links(&self) -> (&[Link], &[Link])
        ensures came { result.0.now ≡ self.now.edit.links.added }
        ensures went { result.1.now ≡ self.now.edit.links.removed }
    {
        (self.links_added.as_slice(), self.links_removed.as_slice())
    }
}
