//! Laws of the rules. They run no code.
ghost use Rattle.std.specs.Prelude.{◌≡◌, ◌≢◌, ℕ, ◌+◌, ◌<◌, true, List, length, [], ◌++◌, ◌∷◌, All, Option, Some, None, slice_get, slice_set};
ghost use Rattle.std.specs.List.{slice_index_or};
ghost use Rattle.grove_sorts.specs.declared.ctor.Ctor.{Ctor};
ghost use Rattle.grove_sorts.specs.declared.ident.Ident.{Ident};
ghost use Rattle.grove_sorts.specs.declared.sort.Sort.TheVariants.{Exp};
ghost use Rattle.grove_sorts.specs.Ctor.{sort_of_ctor, positions};
ghost use Rattle.type_core.specs.declared.type_id.TypeId.{TypeId};
ghost use Rattle.type_core.specs.Typ.{Typ, Unknown, is_consistent};
ghost use Rattle.type_core.specs.TypeTable.{IsTypeOf, type_at, KeepsTypes};
ghost use Rattle.ctx_table.specs.Context.{Context};
ghost use Rattle.ctx_table.specs.CtxTable.{KeepsContexts};
ghost use Rattle.mark_step.specs.declared.node.Demand.{Demand};
ghost use Rattle.mark_step.specs.declared.node.Mark.{Mark};
ghost use Rattle.mark_step.specs.declared.node.NodeView.{NodeView};
ghost use Rattle.mark_step.specs.declared.node.Mark.TheVariants as mark;
ghost use Rattle.mark_step.specs.Scope.{Scope, type_of_name};
ghost use Rattle.mark_step.specs.Expression.{Bound, Expression, Marked};
ghost use Rattle.mark_step.specs.Step.{demand, settled};
ghost use Rattle.mark_step.specs.Node.{expression_at, demanded_at, AreNumbers, IsNodeOf, IsDemandOf, sort_at_index, type_or_unknown, types_before, types_done};
ghost use Rattle.mark_step.specs.Rows.{Judgement, Synthesises, Follows, child_types, judged, judgements, expression_count};

/// Law: an expression whose children have types follows a row of the tables, and what every row gives is what the functions give.
/// Only expressions have rows, and a row judges each expression among the children.
pub fn each_expression_follows_one_row()
    ensures some { (e : Expression) (done : List Typ) → sort_of_ctor e.ctor ≡ Exp → length done ≡ expression_count e.ctor
        → Follows e (judgements e done) (settled e done) }
    ensures demanded { (e : Expression) (js : List Judgement) (m : Marked) → Follows e js m → js ≡ judgements e (child_types js) }
    ensures settled { (e : Expression) (js : List Judgement) (m : Marked) → Follows e js m → m ≡ settled e (child_types js) }
    ensures counted { (e : Expression) (js : List Judgement) (m : Marked) → Follows e js m
        → (sort_of_ctor e.ctor ≡ Exp) × (length js ≡ expression_count e.ctor) }
{}

/// Law: a marked synthesis gives the unknown type, which is consistent with every type, so that an analysis puts no second mark.
pub fn no_expression_has_two_marks()
    ensures unknown { (scope : Scope) (b : Bound) (ctor : Ctor) (js : List Judgement) (t : Typ) (m : Mark)
        → Synthesises scope b ctor js t m → m ≢ mark.None → t ≡ Unknown }
    ensures consistent { (t : Typ) → is_consistent Unknown t ≡ true }
    ensures one { (e : Expression) (js : List Judgement) (m n : Marked) → Follows e js m → Follows e js n → m ≡ n }
{}

/// Law: a name has the type of its innermost binding, and none exactly where nothing binds it.
pub fn look_ups_are_innermost()
    ensures found { (inner outer : Scope) (name : Ident) (t : Typ) → All (λ b. b.0 ≢ name) inner
        → type_of_name (inner ++ (name, t) ∷ outer) name ≡ Some t }
    ensures unbound { (scope : Scope) (name : Ident) → All (λ b. b.0 ≢ name) scope → type_of_name scope name ≡ None }
    ensures only_unbound { (scope : Scope) (name : Ident) → type_of_name scope name ≡ None → All (λ b. b.0 ≢ name) scope }
{}

/// Law: what the numbers of a demand or a node stand for stays as the tables grow.
pub fn numbers_keep_their_meaning()
    ensures demand { (types grown : List Typ) (ctxs more : List Context) (d : Demand)
        → KeepsTypes types grown → KeepsContexts ctxs more → IsDemandOf types ctxs d → demanded_at grown more d ≡ demanded_at types ctxs d }
    ensures demand_numbers { (types grown : List Typ) (ctxs more : List Context) (d : Demand)
        → KeepsTypes types grown → KeepsContexts ctxs more → IsDemandOf types ctxs d → IsDemandOf grown more d }
    ensures expression { (types grown : List Typ) (ctxs more : List Context) (node : NodeView)
        → KeepsTypes types grown → KeepsContexts ctxs more → IsNodeOf types ctxs node → expression_at grown more node ≡ expression_at types ctxs node }
    ensures before { (types grown : List Typ) (ctxs more : List Context) (node : NodeView) (index : ℕ)
        → KeepsTypes types grown → KeepsContexts ctxs more → IsNodeOf types ctxs node → types_before grown node index ≡ types_before types node index }
    ensures done { (types grown : List Typ) (ctxs more : List Context) (node : NodeView)
        → KeepsTypes types grown → KeepsContexts ctxs more → IsNodeOf types ctxs node → types_done grown node ≡ types_done types node }
    ensures node_numbers { (types grown : List Typ) (ctxs more : List Context) (node : NodeView)
        → KeepsTypes types grown → KeepsContexts ctxs more → IsNodeOf types ctxs node → IsNodeOf grown more node }
{}

/// Law: the two calls follow one row. What `settle` answers is what the row gives, and what `child_demand` answers for each child is
/// what the row says of it.
pub fn each_node_follows_its_row()
    ensures settled { (types : List Typ) (ctxs : List Context) (node : NodeView) → sort_of_ctor node.ctor.now ≡ Exp
        → let e = expression_at types ctxs node in let done = types_done types node in Follows e (judgements e done) (settled e done) }
    ensures demanded { (types : List Typ) (ctxs : List Context) (node : NodeView) (index : ℕ) → sort_at_index node.ctor.now index ≡ Some Exp
        → let e = expression_at types ctxs node in let before = types_before types node index in
        slice_get (judgements e (types_done types node)) (length before)
        ≡ Some (judged (demand e before) (type_or_unknown types (slice_index_or node.done index None))) }
{}

/// Law: children get their types one after the other. One that gets its type comes after the children before it, a position of no
/// expression adds none, and after the last position all types are there.
pub fn children_are_done_in_table_order()
    ensures done { (types : List Typ) (node : NodeView) (index : ℕ) (t : TypeId) → sort_at_index node.ctor.now index ≡ Some Exp → index < length node.done
        → types_before types (record node { done = slice_set node.done index (Some t) }) (index + 1)
        ≡ types_before types node index ++ type_at types t ∷ [] }
    ensures skipped { (types : List Typ) (node : NodeView) (index : ℕ) → sort_at_index node.ctor.now index ≢ Some Exp
        → types_before types node (index + 1) ≡ types_before types node index }
    ensures all { (types : List Typ) (node : NodeView) → types_before types node (length (positions node.ctor.now)) ≡ types_done types node }
    ensures numbers { (types : List Typ) (done : List (Option TypeId)) (index : ℕ) (t : TypeId) → IsTypeOf types t → AreNumbers types done
        → AreNumbers types (slice_set done index (Some t)) }
{}
