// What holds of every way back.
ghost use Rattle.vt_graph.specs.Held.{Held};
ghost use Rattle.vt_change.specs.Leading.{IsBack, LeadsBack};
ghost use Rattle.vt_change.specs.declared.applied.Applied.{Applied};

/// What leads back from a store leads back from each with the same model and no less room.
pub fn leads_back_with_more_room()
    ensures { (before s t : Held) (applied : Applied)
        → LeadsBack before applied s → IsBack s t → LeadsBack before applied t }
{}
