//! What the definitions say where it is easily got wrong. It is proved, and nothing runs.
ghost use Rattle.std.specs.Prelude.{◌≡◌, true, false, List, [], ◌∷◌, None, pos};
ghost use Rattle.vt_base.specs.declared.aggregate.AggKind.TheVariants.{Sum, Min, Max};
ghost use Rattle.vt_base.specs.declared.value.Value.{Value};
ghost use Rattle.vt_base.specs.declared.value.Value.TheVariants as value;
ghost use Rattle.vt_text.specs.declared.expr.Expr.TheVariants as expr;
ghost use Rattle.vt_model.specs.Metamodel.{Metamodel};
ghost use Rattle.vt_model.specs.Model.{Model};
ghost use Rattle.vt_query.specs.Terms.{agrees};
ghost use Rattle.vt_query.specs.Holding.{Holds};
ghost use Rattle.vt_query.specs.Tables.{StandFor};
ghost use Rattle.vt_query.specs.declared.program.Term.TheVariants as term;
ghost use Rattle.vt_query.specs.declared.program.Arg.TheVariants as arg;
ghost use Rattle.vt_query.specs.declared.program.Constraint.TheVariants as constraint;

// Which rows agree with arguments.
fn rows_agree_with_arguments_so()
    ensures none { agrees [] [] [] ≡ true }
    ensures too_short { agrees [] (arg.Any ∷ []) [] ≡ false }
    ensures too_long { agrees [] [] (value.Bool true ∷ []) ≡ false }
    ensures no_value { agrees [] (arg.Term (term.Var 0) ∷ []) (value.Bool true ∷ []) ≡ false }
    ensures other_value { agrees (value.Int (pos 1) ∷ [])
        (arg.Term (term.Var 0) ∷ []) (value.Int (pos 2) ∷ []) ≡ false }
    ensures same_value { agrees (value.Int (pos 1) ∷ [])
        (arg.Any ∷ arg.Term (term.Var 0) ∷ arg.Column ∷ [])
        (value.Int (pos 2) ∷ value.Int (pos 1) ∷ value.Int (pos 3) ∷ []) ≡ true }
{}

// Calls without arguments, of a pattern that has the row () or no row.
fn calls_without_arguments_hold_so()
    ensures found { (meta : Metamodel) (g : Model) →
        Holds meta g (([] ∷ []) ∷ []) [] (constraint.Find (record { 0 = 0 }) []) }
    ensures not_found { (meta : Metamodel) (g : Model) →
        Holds meta g ([] ∷ []) [] (constraint.Find (record { 0 = 0 }) []) → ⊥ }
    ensures denied { (meta : Metamodel) (g : Model) →
        Holds meta g (([] ∷ []) ∷ []) [] (constraint.Neg (record { 0 = 0 }) []) → ⊥ }
    ensures not_denied { (meta : Metamodel) (g : Model) →
        Holds meta g ([] ∷ []) [] (constraint.Neg (record { 0 = 0 }) []) }
{}

// Aggregates over no rows.
fn aggregates_of_no_rows_hold_so()
    ensures sum { (meta : Metamodel) (g : Model) → Holds meta g ([] ∷ []) []
        (constraint.Agg Sum (term.Const (value.Int (pos 0))) (record { 0 = 0 }) (arg.Column ∷ [])) }
    ensures least { (meta : Metamodel) (g : Model) (v : Value) → Holds meta g ([] ∷ []) (v ∷ [])
        (constraint.Agg Min (term.Var 0) (record { 0 = 0 }) (arg.Column ∷ [])) → ⊥ }
    ensures greatest { (meta : Metamodel) (g : Model) (v : Value) → Holds meta g ([] ∷ []) (v ∷ [])
        (constraint.Agg Max (term.Var 0) (record { 0 = 0 }) (arg.Column ∷ [])) → ⊥ }
{}

// Expressions and equations over a variable that isn't there.
fn constraints_without_a_value_hold_so()
    ensures checked { (meta : Metamodel) (g : Model) →
        Holds meta g [] [] (constraint.Check (expr.Slot 0) (3 ∷ [])) → ⊥ }
    ensures no_slot { (meta : Metamodel) (g : Model) →
        Holds meta g [] (value.Bool true ∷ []) (constraint.Check (expr.Slot 1) (0 ∷ [])) → ⊥ }
    ensures equal { (meta : Metamodel) (g : Model) →
        Holds meta g [] [] (constraint.Equal (term.Var 0) (term.Var 0)) → ⊥ }
    ensures different { (meta : Metamodel) (g : Model) → Holds meta g [] []
        (constraint.Differ (term.Var 0) (term.Const (value.Bool true))) → ⊥ }
{}

// The pattern `p() {}`.
fn a_pattern_without_parameters_has_the_empty_row()
    ensures { (meta : Metamodel) (g : Model) → StandFor meta g
        (record {
          patterns = record {
            name = [];
            shown = true;
            params = [];
            bodies =
                record { vars = 0; constraints = [] } ∷ [];
          } ∷ [];
        })
        (([] ∷ []) ∷ []) }
{}

// The pattern `p() { find p(); }`.
fn a_circle_of_calls_has_two_lists_of_tables()
    ensures none { (meta : Metamodel) (g : Model) → StandFor meta g
        (record {
          patterns = record {
            name = [];
            shown = true;
            params = [];
            bodies =
                record { vars = 0; constraints = constraint.Find (record { 0 = 0 }) [] ∷ [] } ∷ [];
          } ∷ [];
        })
        ([] ∷ []) }
    ensures one { (meta : Metamodel) (g : Model) → StandFor meta g
        (record {
          patterns = record {
            name = [];
            shown = true;
            params = [];
            bodies =
                record { vars = 0; constraints = constraint.Find (record { 0 = 0 }) [] ∷ [] } ∷ [];
          } ∷ [];
        })
        (([] ∷ []) ∷ []) }
{}

// The pattern `p() { neg find p(); }`.
fn a_pattern_matched_where_it_is_not_has_no_table()
    ensures { (meta : Metamodel) (g : Model) (tables : List (List (List Value))) → StandFor meta g
        (record {
          patterns = record {
            name = [];
            shown = true;
            params = [];
            bodies =
                record { vars = 0; constraints = constraint.Neg (record { 0 = 0 }) [] ∷ [] } ∷ [];
          } ∷ [];
        })
        tables → ⊥ }
{}

// The pattern `p(x) {}`.
fn a_parameter_that_nothing_binds_has_no_table()
    ensures { (meta : Metamodel) (g : Model) (tables : List (List (List Value))) → StandFor meta g
        (record {
          patterns = record {
            name = [];
            shown = true;
            params =
                record { name = []; ty = None } ∷ [];
            bodies =
                record { vars = 1; constraints = [] } ∷ [];
          } ∷ [];
        })
        tables → ⊥ }
{}
