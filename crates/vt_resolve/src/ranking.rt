// Orders of entries, and an entry in one of them.
ghost use Rattle.std.specs.Prelude.{◌≡◌, ◌+◌, ◌≤◌, slice_get, refl, OnOk, OnErr, IfErr, IsOk};
ghost use Rattle.std.specs.Option.{option_copied};
ghost use Rattle.std.specs.declared.cmp.Ordering.{Ordering as Order};
ghost use Rattle.std.specs.Cmp.{IsTotalOrder, partial_equiv_from_equiv, partial_order_from_total};
ghost use Rattle.std.specs.List.Sorted.{IsStrictlySortedBy};
ghost use Rattle.std.specs.Ordering.{eq_by_cmp, as_partial_cmp};
ghost use Rattle.std.proofs.lemmas.Cmp.{eq_by_cmp_equiv};
ghost use Rattle.vt_sorted.specs.Ascending.{with_item};
ghost use Rattle.vt_resolve.specs.Inside.EntryLaws.{IsExact};
ghost use Rattle.vt_resolve.specs.declared.entry.Entry.{Entry as Item};

use crate::Entry;
use std::cmp::Ordering;
use std::marker::{Model, PhantomData};
use vt_sorted::{Like, Sorted};

/// An order of entries, which tells all of them apart.
pub trait Ranking {
    /// The order.
    ghost rank: { Item → Item → Order };

    fn compare(a: &Entry, b: &Entry) -> Ordering
        ensures { result ≡ Self.rank a.now b.now };

    ghost total: { IsTotalOrder Self.rank };

    ghost exact: { IsExact Self.rank };
}

/// An entry, ordered by a ranking.
#[derive(Drop)]
pub struct Ranked<O: Ranking> {
    entry: Entry,
    order: PhantomData<O>,
}

impl<O: Ranking> Model for Ranked<O> {
    ghost use Rattle.vt_resolve.specs.declared.entry.Entry.{Entry as Item};

    ghost Value = { Item };

    ghost view = { λ r. r.entry };
}

impl<O: Ranking> Ranked<O> {
    pub fn new(entry: Entry) -> Ranked<O>
        ensures { result ≡ entry }
    {
        Ranked {
            entry,
            order: PhantomData,
        }
    }

    pub fn entry(&self) -> &Entry
        ensures { result.now ≡ self.now }
    {
        &self.entry
    }

    pub fn into_entry(self) -> Entry
        ensures { result ≡ self }
    {
        self.entry
    }
}

impl<O: Ranking> PartialEq for Ranked<O> {
    ghost eq = { eq_by_cmp O.rank };

    ghost laws = { partial_equiv_from_equiv (eq_by_cmp_equiv O.total) };

    fn eq(&self, other: &Ranked<O>) -> bool {
        O::compare(self.entry(), other.entry()).is_eq()
    }
}

impl<O: Ranking> Eq for Ranked<O> {
    ghost laws = { eq_by_cmp_equiv O.total };
}

impl<O: Ranking> PartialOrd for Ranked<O> {
    ghost partial_cmp = { as_partial_cmp O.rank };

    ghost laws = { partial_order_from_total O.total };

    fn partial_cmp(&self, other: &Ranked<O>) -> Option<Ordering> {
        Some(O::compare(self.entry(), other.entry()))
    }
}

impl<O: Ranking> Ord for Ranked<O> {
    ghost cmp = { O.rank };

    ghost total = { O.total };

    ghost matches_partial_cmp = { λ _ _. refl };

    ghost matches_eq = { λ _ _. refl };

    fn cmp(&self, other: &Ranked<O>) -> Ordering {
        O::compare(self.entry(), other.entry())
    }
}

// An entry is its own key, in whichever order.
impl<O: Ranking> Like<Ranked<O>> for Entry {
    ghost stands_for = { λ e. e };

    fn order(&self, item: &Ranked<O>) -> Ordering {
        O::compare(self, item.entry())
    }
}

/// The first entry. `None` is of no entries alone.
pub(crate) fn first<O: Ranking>(held: &Sorted<Ranked<O>>) -> Option<&Entry>
    ensures value { option_copied result ≡ slice_get held.now.items 0 }
    ensures ascends { IsStrictlySortedBy O.rank held.now.items }
{
    held.ascend();
    match held.first() {
        Some(ranked) => Some(ranked.entry()),
        None => None,
    }
}

/// Adds the entry, or hands it back for want of memory.
pub(crate) fn put<O: Ranking>(held: &mut Sorted<Ranked<O>>, entry: Entry) -> Result<(), Entry>
    ensures items { OnOk result (held.new.items ≡ with_item O.rank held.old.items entry) }
    ensures unchanged { OnErr result (held.new.items ≡ held.old.items) }
    ensures comes_back { IfErr result (λ back. back ≡ entry) }
    ensures succeeds { 1 ≤ held.old.spare → IsOk result }
    ensures room { held.old.spare ≤ held.new.spare + 1 }
{
    match held.insert(Ranked::new(entry)) {
        Ok(_) => Ok(()),
        Err(back) => Err(back.into_entry()),
    }
}
