//! Limits of designs and plans.

ghost use Rattle.std.specs.Prelude.{◌≡◌, ◌*◌, ◌^◌};
ghost use Rattle.plan_base.specs.declared.limits.TheConstants.{MAX_COUNT, MAX_COUNT_COST};
ghost use Rattle.proof_tree.specs.declared.limits.TheConstants.{MAX_BUDGET, MAX_RECORDS, MAX_PATH_ARCS, MAX_SIDE_ARCS, MAX_CUTS, MAX_PERIOD};

/// How often a design installs a module at most, and the greatest cost of that, in cost grains.
pub fn numbers_of_designs()
    ensures count { MAX_COUNT ≡ 10 ^ 18 }
    ensures cost { MAX_COUNT_COST ≡ 10 ^ 30 }
{}

/// How many nodes a plan allows to be examined at most, how many records its tree has, arcs a path, and arcs each side of
/// a split.
pub fn sizes_of_plans()
    ensures budget { MAX_BUDGET ≡ 4096 }
    ensures records { MAX_RECORDS ≡ 8193 }
    ensures path { MAX_PATH_ARCS ≡ 512 }
    ensures side { MAX_SIDE_ARCS ≡ 1024 }
{}

/// How many cuts a plan has at most, and the greatest period of one, in load grains.
pub fn sizes_of_cuts()
    ensures cuts { MAX_CUTS ≡ 256 }
    ensures period { MAX_PERIOD ≡ 2 * 10 ^ 18 }
{}
