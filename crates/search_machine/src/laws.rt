//! Laws of the machine.

ghost use Rattle.plan_base.specs.declared.ids.BranchId.{BranchId as AnyBranch};
ghost use Rattle.branch_tree.specs.declared.node.Division.{Division as AnyDivision};
ghost use Rattle.branch_tree.specs.declared.node.Fate.TheVariants.{DividedBy};
ghost use Rattle.proof_tree.specs.declared.cuts.Cut.{Cut as AnyCut};
ghost use Rattle.proof_tree.specs.RatedTrees.{IsRatedTree};
ghost use Rattle.search_machine.specs.State.{State, Node, Best, cutoff_of};
ghost use Rattle.search_machine.specs.Machine.{IsReachable, Run, Entry, IsCounted, IsOpeningState};
ghost use Rattle.search_machine.specs.Soundness.{IsSound};
ghost use Rattle.search_machine.specs.Family.{IsChildBy};
ghost use Rattle.search_machine.specs.Tasks.{LeadsTo, IsSearchState, IsToAdvance};
ghost use Rattle.search_machine.specs.declared.answers.Opened.{Opened as AnyOpened};
ghost use Rattle.search_machine.specs.declared.answers.RoundFault.{RoundFault as AnyRoundFault};
ghost use Rattle.search_machine.specs.declared.answers.Settle.{Settle as AnySettle};
ghost use Rattle.search_machine.specs.declared.answers.Publish.{Publish as AnyPublish};
ghost use Rattle.search_machine.specs.declared.answers.Publish.TheVariants as publish;
ghost use Rattle.search_machine.specs.Opening.{OpenStep};
ghost use Rattle.search_machine.specs.Gathering.{gather_fault};
ghost use Rattle.search_machine.specs.Settling.{SettleStep};
ghost use Rattle.search_machine.specs.Publishing.{PublishStep};
ghost use Rattle.plan_base.specs.declared.parts.Parts.{Parts};
ghost use Rattle.std.specs.Prelude.{ℕ, Result, Some, None, slice_get, ◌≤ℤ◌, List, [], ◌≡◌, ◌<◌, ◌≤◌, ◌-◌, ◌^◌, ◌+◌};
ghost use Rattle.search_machine.specs.Depth.{IsBranchingDepth};
ghost use Rattle.search_machine.specs.PlanOf.{tree_of, open_count};

/// Each state that any events lead to, in any order, refused and late ones among them, is sound.
pub fn every_run()
    ensures { (s : State) → IsReachable s → IsSound s }
{}

/// The counts of a run are those of its answers.
pub fn counted_run()
    ensures { (s t : State) (entries : List Entry) → Run s entries t → IsCounted s entries t }
{}

/// The tree of a sound state is a valid proof tree with its cuts against its incumbent's cost.
pub fn tree_of_state()
    ensures { (s : State) → IsSound s → IsRatedTree s.problem s.cuts (cutoff_of s) (tree_of s) }
{}

/// Each instance has a branching depth, and one alone.
pub fn one_depth()
    ensures some { (p : Parts) → (depth : ℕ) × IsBranchingDepth p depth }
    ensures one { (p : Parts) (depth other : ℕ) → IsBranchingDepth p depth → IsBranchingDepth p other → depth ≡ other }
{}

/// With one node for each place down to the branching depth, no leaf stays open.
pub fn enough_budget()
    ensures { (s : State) (depth : ℕ) → IsSound s → IsBranchingDepth s.problem depth → 2 ^ (depth + 1) - 1 ≤ s.budget → s.examined ≡ s.budget → open_count s ≡ 0 }
{}

/// A child's recorded bound is at least its parent's.
pub fn child_rises()
    ensures { (s : State) (n m : ℕ) (parent child : Node) (division : AnyDivision) (one other : Best) → IsSound s
        → slice_get s.nodes n ≡ Some parent → parent.fate ≡ DividedBy division
        → slice_get s.nodes m ≡ Some child → IsChildBy parent division child
        → parent.best ≡ Some one → child.best ≡ Some other → one.bound ≤ℤ other.bound }
{}

/// The counts stay far below their types' ends.
pub fn stays_small()
    ensures versions { (s : State) → IsSound s → s.budget ≤ 4096 → s.next_version ≤ 139282 }
    ensures accepted { (s : State) → IsSound s → s.budget ≤ 4096 → s.accepted < 2 ^ 64 }
{}

/// Where events lead from an opening state, the state is sound, and has the instance, the cuts and the budget of the
/// opening one.
pub fn every_search()
    ensures { (p : Parts) (cuts : List AnyCut) (budget : ℕ) (s t : State) → IsOpeningState p cuts budget s → LeadsTo s t → IsSearchState p cuts budget t }
{}

/// What an opening, a settling or a publishing answers at a state is one.
pub fn one_answer()
    ensures opening { (s t u : State) (id : AnyBranch) (a b : Result AnyOpened AnyRoundFault) → OpenStep s id a t → OpenStep s id b u → a ≡ b }
    ensures settling { (s t u : State) (id : AnyBranch) (version : ℕ) (a b : AnySettle) → SettleStep s id version a t → SettleStep s id version b u → a ≡ b }
    ensures publishing { (s t u : State) (id : AnyBranch) (seen : ℕ) (prices : List ℕ) (a b : AnyPublish)
        → PublishStep s id seen prices a t → PublishStep s id seen prices b u → a ≡ b }
{}

/// Without cuts no publishing is refused as unlawful.
pub fn lawful_without_cuts()
    ensures { (s t : State) (id : AnyBranch) (seen : ℕ) (prices : List ℕ) → s.cuts ≡ [] → PublishStep s id seen prices publish.Unlawful t → ⊥ }
{}

/// The gathering that a `Master` task begins with is not refused.
pub fn master_gathers()
    ensures { (s : State) (id : AnyBranch) (version : ℕ) → IsToAdvance s id version → gather_fault s id version ≡ None }
{}
