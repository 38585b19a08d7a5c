// Laws of net deltas.
ghost use Rattle.std.specs.Prelude.{◌≡◌, ◌≢◌, ℕ, List, [], true, false};
ghost use Rattle.vt_sorted.specs.Ascending.{with_item, without_item};
ghost use Rattle.vt_base.specs.Order.{tuple_cmp};
ghost use Rattle.vt_base.specs.Rows.{Ascends, has_row};
ghost use Rattle.vt_base.specs.Base.{BaseRows};
ghost use Rattle.vt_delta.specs.Deltas.{after_coming, after_going, Change, AreEach, change_of, changes_of, turned_at, net, applied, Fits, AllAscend, IsNet, FitsBase, SameRows, applied_base};
ghost use Rattle.vt_delta.specs.declared.delta.Delta.{Delta};
ghost use Rattle.vt_delta.specs.declared.delta.BaseDelta.{BaseDelta};
ghost use Rattle.vt_base.specs.declared.value.Value.{Value};

/// The net delta of two sets of rows has sets of rows, fits the first, and applied to it gives the
/// second. That of a set with itself is empty.
pub fn a_net_delta_leads_on()
    ensures sets { (before after : List (List Value)) → Ascends before → Ascends after →
        Ascends ((net before after).added) × Ascends ((net before after).removed) }
    ensures fits { (before after : List (List Value)) → Fits before (net before after) }
    ensures leads { (before after : List (List Value)) → Ascends before → Ascends after →
        applied (net before after) before ≡ after }
    ensures empty { (rows : List (List Value)) → net rows rows ≡ record { added = []; removed = [] } }
{}

/// A net delta stays net while rows come and go one at a time.
pub fn a_net_delta_stays_net()
    ensures came { (before now : List (List Value)) (row : List Value) → Ascends before → Ascends now →
        has_row now row ≡ false →
        after_coming (net before now) row ≡ net before (with_item tuple_cmp now row) }
    ensures went { (before now : List (List Value)) (row : List Value) → Ascends before → Ascends now →
        has_row now row ≡ true →
        after_going (net before now) row ≡ net before (without_item tuple_cmp now row) }
{}

/// Where the change at one number turns, and the rows at each other number stay, the change at each
/// number is that of its rows again.
pub fn deltas_turn_with_their_rows()
    ensures { (is was : ℕ → Change) (turn : Change → Change) (old new : List Delta) (n : ℕ) →
        changes_of new ≡ turned_at turn (changes_of old) n →
        AreEach (λ m delta. change_of delta ≡ was m) old →
        is n ≡ turn (was n) → ((m : ℕ) → m ≢ n → is m ≡ was m) →
        AreEach (λ m delta. change_of delta ≡ is m) new }
{}

/// So is it with all rows of a base: deltas that are the net ones fit the rows before, and applied to
/// these they give the rows after.
pub fn net_deltas_lead_on()
    ensures fits { (before after : BaseRows) (difference : BaseDelta) →
        IsNet before after difference → FitsBase before difference }
    ensures leads { (before after : BaseRows) (difference : BaseDelta) → AllAscend before → AllAscend after →
        IsNet before after difference → SameRows (applied_base difference before) after }
{}
