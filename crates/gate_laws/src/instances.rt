//! Limits of instances.

ghost use Rattle.std.specs.Prelude.{◌≡◌, ◌↔◌, ◌*◌, ◌^◌, None};
ghost use Rattle.plan_base.specs.declared.parts.Parts.{Parts as AnyParts};
ghost use Rattle.plan_base.specs.Facts.{IsInstance};
ghost use Rattle.plan_base.specs.Faults.{build_fault};
ghost use Rattle.plan_base.specs.declared.limits.TheConstants.{MAX_NODES, MAX_LINKS, MAX_PLACES, MAX_DEMANDS, MAX_MODULES, MAX_TOTAL_LOAD, MAX_ROUTING_COST, CAPACITY_BOUND, MODULE_COST_BOUND, MAX_PRICED_LOAD};
ghost use Rattle.base_items.specs.declared.met_nodes.TheConstants.{NODE_BOUND};
ghost use Rattle.cut_separation.specs.declared.node_set.TheConstants.{NODE_BOUND as SET_BOUND};
ghost use Rattle.demand_worth.specs.declared.limits.TheConstants.{MAX_SURCHARGES, MAX_MEASURES};
ghost use Rattle.explicit_steps.specs.declared.limits.TheConstants.{CAPACITY_BOUND as CHOICE_BOUND, MAX_CHOICES};
ghost use Rattle.link_steps.specs.declared.limits.TheConstants.{MAX_STEPS};

/// How many nodes, links, places and demands an instance has at most, and modules a link; and what the numbers of nodes that
/// a walk has met, and those of a set of nodes, are below.
pub fn sizes_of_instances()
    ensures nodes { MAX_NODES ≡ 512 }
    ensures links { MAX_LINKS ≡ 1024 }
    ensures places { MAX_PLACES ≡ 2048 }
    ensures demands { MAX_DEMANDS ≡ 4096 }
    ensures modules { MAX_MODULES ≡ 32 }
    ensures met { NODE_BOUND ≡ 512 }
    ensures sets { SET_BOUND ≡ 512 }
{}

/// How many surcharges a list has at most, and in how many measures a total load is counted.
pub fn sizes_of_worths()
    ensures surcharges { MAX_SURCHARGES ≡ 65536 }
    ensures measures { MAX_MEASURES ≡ 65536 }
{}

/// The greatest total load, in load grains, and routing cost of it, in cost grains; what a capacity and a module's cost
/// stay below; and what a price times the total load stays within.
pub fn amounts_of_instances()
    ensures load { MAX_TOTAL_LOAD ≡ 10 ^ 18 }
    ensures routing { MAX_ROUTING_COST ≡ 10 ^ 30 }
    ensures capacity { CAPACITY_BOUND ≡ 10 ^ 18 }
    ensures module_cost { MODULE_COST_BOUND ≡ 10 ^ 24 }
    ensures priced_load { MAX_PRICED_LOAD ≡ 4 * 10 ^ 33 }
{}

/// How many different least costs the loads of a link have at most.
pub fn steps_of_links()
    ensures { MAX_STEPS ≡ 4096 }
{}

/// What a pre-installed capacity and those of choices stay below, in load grains, where a link may have one choice; and how
/// many choices it has at most.
pub fn choices_of_links()
    ensures capacity { CHOICE_BOUND ≡ 10 ^ 18 }
    ensures choices { MAX_CHOICES ≡ 32 }
{}

/// Parts have no fault exactly where they are an instance. So `Instance::build`, which tells the first fault of its parts,
/// refuses exactly those that are none, but for want of memory.
pub fn built_or_refused()
    ensures { (p : AnyParts) → (build_fault p ≡ None) ↔ IsInstance p }
{}
