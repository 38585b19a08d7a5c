// Laws of the order of values and tuples, and of sets of tuples.
ghost use Rattle.std.specs.Prelude.{◌≡◌, ◌↔◌, List, true};
ghost use Rattle.std.specs.declared.cmp.Ordering.TheVariants.{Equal};
ghost use Rattle.std.specs.Cmp.{IsTotalOrder};
ghost use Rattle.std.specs.List.{Contains};
ghost use Rattle.vt_base.specs.Order.{value_cmp, tuple_cmp};
ghost use Rattle.vt_base.specs.Rows.{Ascends, has_row, IsSetOf};
ghost use Rattle.vt_base.specs.declared.value.Value.{Value};

/// Values are totally ordered, and values that are equal in order are equal.
pub fn values_are_ordered()
    ensures total { IsTotalOrder value_cmp }
    ensures exact { (v w : Value) → value_cmp v w ≡ Equal → v ≡ w }
{}

/// So are tuples.
pub fn tuples_are_ordered()
    ensures total { IsTotalOrder tuple_cmp }
    ensures exact { (s t : List Value) → tuple_cmp s t ≡ Equal → s ≡ t }
{}

/// The test whether a tuple stands in a list tells whether it is one of the items.
pub fn a_tuple_stands_where_it_is()
    ensures { (rows : List (List Value)) (row : List Value) →
        (has_row rows row ≡ true) ↔ Contains rows row }
{}

/// A list of tuples has one set.
pub fn a_list_has_one_set()
    ensures { (given a b : List (List Value)) → IsSetOf given a → IsSetOf given b → a ≡ b }
{}
