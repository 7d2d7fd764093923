//! Laws of the definitions.

ghost use Rattle.std.specs.Prelude.{ℕ, List, ◌≡◌, ◌<◌, ◌↔◌, length, true};
ghost use Rattle.plan_base.specs.declared.ids.ArcId.{ArcId as AnyArc};
ghost use Rattle.plan_base.specs.declared.parts.Parts.{Parts as AnyParts};
ghost use Rattle.plan_base.specs.Arcs.{demand_at};
ghost use Rattle.plan_base.specs.Paths.{IsSimplePath};
ghost use Rattle.arc_restrict.specs.Restrictions.{Forbidden, IsPermitted};
ghost use Rattle.column_pool.specs.Columns.{Columns, is_column, is_permitted, column_added, no_columns, columns_with, AreColumns};

/// The columns of all demands are different simple paths, and not too many, and stay so where a path is added.
pub fn columns_stay()
    ensures first { (p : AnyParts) → AreColumns p (no_columns p) }
    ensures added { (p : AnyParts) (columns : Columns) (k : ℕ) (path : List AnyArc)
        → AreColumns p columns → k < length p.demands → IsSimplePath p (demand_at p k) path → AreColumns p (columns_with columns k path) }
{}

/// A path that was added is a column.
pub fn added_is_column()
    ensures { (paths : List (List AnyArc)) (path : List AnyArc) → is_column (column_added paths path) path ≡ true }
{}

/// The test whether a path is permitted tells what it is to tell.
pub fn permitted_is_told()
    ensures { (r : Forbidden) (k : ℕ) (path : List AnyArc) → (is_permitted r k path ≡ true) ↔ IsPermitted r k path }
{}
