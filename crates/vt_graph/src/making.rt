// A graph without an object, and what is worked out once for it.
ghost use Rattle.std.specs.Prelude.{◌≡◌, ◌≤◌, [], IfOk, length};
ghost use Rattle.vt_model.specs.Model.{empty_model};
ghost use Rattle.vt_graph.specs.Inside.Planned.{attributes_from, above_from, plan_of, ArePlans, AreListings};

use crate::Graph;
use crate::plan::{AttributePlan, ClassPlan};
use std::alloc::Global;
use vt_base::{AttrId, ClassId, List, NoMemory, ObjId};
use vt_model::{AttrInfo, Metamodel};
use vt_slots::Slots;

fn attributes_of(
    alloc: Global,
    meta: &Metamodel,
    c: ClassId,
    attributes: &[AttrInfo],
) -> Result<List<AttributePlan>, NoMemory>
    requires few { length attributes.now ≤ 4096 }
    ensures { IfOk result (λ had. had ≡ attributes_from meta.now c 0 attributes.now) }
{
    let mut had = List::new(alloc);
    for (a, info) in attributes.iter().enumerate() {
        if meta.isa(c, info.class) {
            had.add(AttributePlan {
                attribute: AttrId(a as u16),
                kind: info.kind,
            })?;
        }
    }
    Ok(had)
}

fn classes_above(alloc: Global, meta: &Metamodel, c: ClassId) -> Result<List<ClassId>, NoMemory>
    ensures { IfOk result (λ above. above ≡ above_from meta.now c 0 meta.now.classes) }
{
    let mut above = List::new(alloc);
    for d in 0..meta.class_count() {
        if meta.isa(c, ClassId(d)) {
            above.add(ClassId(d))?;
        }
    }
    Ok(above)
}

fn plan_of(alloc: Global, meta: &Metamodel, c: ClassId) -> Result<ClassPlan, NoMemory>
    ensures { IfOk result (λ plan. plan ≡ plan_of meta.now c) }
{
    let above = classes_above(alloc, meta, c)?;
    let attributes = attributes_of(alloc, meta, c, meta.attributes())?;
    Ok(ClassPlan { above, attributes })
}

#[tactic(auto, using(crate::proofs::PlanLemmas::has_each_push, crate::proofs::PlanLemmas::are_plans))]
fn plans_of(alloc: Global, meta: &Metamodel) -> Result<Vec<ClassPlan>, NoMemory>
    ensures { IfOk result (λ plans. ArePlans meta.now plans.items) }
{
    let mut plans = Vec::new(alloc);
    for c in 0..meta.class_count() {
        plans.push(plan_of(alloc, meta, ClassId(c))?)?;
    }
    Ok(plans)
}

#[tactic(auto, using(crate::proofs::PlanLemmas::has_each_push, crate::proofs::PlanLemmas::are_listings))]
fn empty_listings(alloc: Global, meta: &Metamodel) -> Result<Vec<List<ObjId>>, NoMemory>
    ensures { IfOk result (λ listings. AreListings meta.now [] listings.items) }
{
    let mut listings = Vec::new(alloc);
    for _ in 0..meta.class_count() {
        listings.push(List::new(alloc))?;
    }
    Ok(listings)
}

impl Graph {
    /// The empty model of a metamodel. Its next number is 0.
    pub fn new(alloc: Global, meta: &Metamodel) -> Result<Graph, NoMemory>
        ensures { IfOk result (λ g. g ≡ record { meta = meta.now; model = empty_model; places = [] }) }
    {
        let plans = plans_of(alloc, meta)?;
        let listings = empty_listings(alloc, meta)?;
        Ok(Graph {
            meta: meta.share(),
            plans,
            listings,
            next: 0,
            slots: Slots::new(alloc),
        })
    }
}
