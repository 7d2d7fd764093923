//! Laws of growing and merging.

ghost use Rattle.std.specs.Prelude.{◌≡◌, ℕ, ◌+◌, ◌≤◌, Bool, List, [], ◌∷◌, length, All, count_by, Option, Some, ℤ, pos, ◌<ℤ◌, ◌+ℤ◌};
ghost use Rattle.plan_base.specs.declared.parts.Parts.{Parts as AnyParts};
ghost use Rattle.plan_base.specs.Facts.{IsInstance};
ghost use Rattle.plan_base.specs.Places.{places};
ghost use Rattle.link_steps.specs.Unit.{IsUnit};
ghost use Rattle.proof_tree.specs.declared.cuts.Cut.{Cut as AnyCut};
ghost use Rattle.proof_tree.specs.declared.plan.Plan.{Plan as AnyPlan};
ghost use Rattle.proof_tree.specs.declared.tree.TreeNode.{TreeNode as AnyRecord};
ghost use Rattle.proof_tree.specs.declared.tree.Evidence.TheVariants.{Bound, Open};
ghost use Rattle.proof_tree.specs.Plans.{HasSizes};
ghost use Rattle.proof_tree.specs.Regions.{Region, whole};
ghost use Rattle.proof_tree.specs.RatedEvidence.{HasRatedEvidence, IsBoundAt};
ghost use Rattle.proof_tree.specs.RatedTrees.{AreRatedTrees, IsRatedTree, IsRatedRecord};
ghost use Rattle.proof_tree.specs.Spellings.{IsSpellable};
ghost use Rattle.branch_tree.specs.declared.node.BranchNode.{BranchNode as AnyNode};
ghost use Rattle.branch_tree.specs.Branches.{IsTreeOf, HaveTheirEvidence};
ghost use Rattle.plan_merge.specs.declared.bounded_record.BoundedRecord.{BoundedRecord as AnyBounded};
ghost use Rattle.plan_merge.specs.Walks.{nodes_of, HaveTheirBounds, IsAbove, AreAbove};
ghost use Rattle.plan_merge.specs.Closing.{closed};
ghost use Rattle.plan_merge.specs.Growing.{AreReplaced, AreGrown, joined, put_in, IsNoDearer};
ghost use Rattle.plan_merge.specs.Merging.{merged};
ghost use Rattle.plan_merge.specs.Starts.{AreForest, forest_from, regions_from, starts_of, HoldsAtStart, IsStart};

/// What is valid against a cost is so against a lower one, and what is valid against none against any.
pub fn cheaper()
    ensures { (p : AnyParts) (cuts : List AnyCut) (old : Option ℕ) (cost : ℕ) (records : List AnyRecord)
        → IsNoDearer cost old → IsRatedTree p cuts old records → IsRatedTree p cuts (Some cost) records }
{}

/// A valid tree stays valid where whole valid trees of their regions stand in place of some leaves.
pub fn graft()
    ensures { (p : AnyParts) (cuts : List AnyCut) (cost : Option ℕ) (records : List AnyRecord) (subs : List (List AnyRecord))
        → IsRatedTree p cuts cost records → AreReplaced p cuts cost (whole p ∷ []) records subs → IsRatedTree p cuts cost (joined subs) }
{}

/// Two valid trees merged are a valid tree.
pub fn merging()
    ensures { (p : AnyParts) (cuts : List AnyCut) (cost : Option ℕ) (one other : List AnyBounded)
        → IsRatedTree p cuts cost (nodes_of one) → IsRatedTree p cuts cost (nodes_of other) → IsRatedTree p cuts cost (nodes_of (merged one other)) }
{}

/// No open leaf of two merged trees has a lower bound than each open leaf of one of them; and beside the merged records
/// stand the bounds of their open leaves.
pub fn rising()
    ensures first { (p : AnyParts) (cuts : List AnyCut) (one other : List AnyBounded) (least : ℤ)
        → HaveTheirBounds p cuts (whole p ∷ []) one → HaveTheirBounds p cuts (whole p ∷ []) other
        → AreAbove p cuts least (whole p ∷ []) (nodes_of one) → AreAbove p cuts least (whole p ∷ []) (nodes_of (merged one other)) }
    ensures second { (p : AnyParts) (cuts : List AnyCut) (one other : List AnyBounded) (least : ℤ)
        → HaveTheirBounds p cuts (whole p ∷ []) one → HaveTheirBounds p cuts (whole p ∷ []) other
        → AreAbove p cuts least (whole p ∷ []) (nodes_of other) → AreAbove p cuts least (whole p ∷ []) (nodes_of (merged one other)) }
    ensures bounds { (p : AnyParts) (cuts : List AnyCut) (one other : List AnyBounded)
        → HaveTheirBounds p cuts (whole p ∷ []) one → HaveTheirBounds p cuts (whole p ∷ []) other
        → HaveTheirBounds p cuts (whole p ∷ []) (merged one other) }
{}

/// No start has a lower bound than each open leaf of its tree, at the region that the start's limits make; the starts of a
/// valid tree have lawful limits and numbers; and there are no more of them than are chosen.
pub fn starts()
    ensures above { (p : AnyParts) (cuts : List AnyCut) (least : ℤ) (xs : List AnyBounded) (chosen : List Bool)
        → AreAbove p cuts least (whole p ∷ []) (nodes_of xs) → All (HoldsAtStart (IsAbove p cuts least) p) (starts_of xs chosen) }
    ensures lawful { (p : AnyParts) (cuts : List AnyCut) (cost : Option ℕ) (xs : List AnyBounded) (chosen : List Bool)
        → IsInstance p → IsRatedTree p cuts cost (nodes_of xs) → All (IsStart p cuts) (starts_of xs chosen) }
    ensures few { (xs : List AnyBounded) (chosen : List Bool) → length (starts_of xs chosen) ≤ count_by (λ one. one) chosen }
{}

/// A valid tree stays valid where valid trees of their starts stand in place of its chosen open leaves, and has no open leaf
/// below a bound that none of its own and none of theirs is below.
pub fn grown()
    ensures valid { (p : AnyParts) (cuts : List AnyCut) (cost : Option ℕ) (xs : List AnyBounded) (chosen : List Bool) (subs : List (List AnyRecord))
        → length chosen ≡ length xs → IsRatedTree p cuts cost (nodes_of xs) → AreGrown (IsRatedRecord p cuts cost) p (starts_of xs chosen) subs
        → IsRatedTree p cuts cost (put_in xs chosen subs) }
    ensures above { (p : AnyParts) (cuts : List AnyCut) (least : ℤ) (xs : List AnyBounded) (chosen : List Bool) (subs : List (List AnyRecord))
        → length chosen ≡ length xs → AreAbove p cuts least (whole p ∷ []) (nodes_of xs) → AreGrown (IsAbove p cuts least) p (starts_of xs chosen) subs
        → AreAbove p cuts least (whole p ∷ []) (put_in xs chosen subs) }
{}

/// An open leaf whose bound is above a cost less the unit of costs is closed against that cost by its own numbers; so a valid
/// tree stays valid where these are closed, and no open leaf of it has a lower bound.
pub fn closing()
    ensures leaf { (p : AnyParts) (cuts : List AnyCut) (old : Option ℕ) (cost unit : ℕ) (g : Region) (numbers : List ℕ) (bound : ℤ)
        → HasRatedEvidence p cuts old g (Open numbers) → IsBoundAt p cuts g numbers bound → IsUnit p unit → pos cost <ℤ (bound +ℤ pos unit)
        → HasRatedEvidence p cuts (Some cost) g (Bound numbers) }
    ensures tree { (p : AnyParts) (cuts : List AnyCut) (cost unit : ℕ) (xs : List AnyBounded) → IsUnit p unit
        → HaveTheirBounds p cuts (whole p ∷ []) xs → IsRatedTree p cuts (Some cost) (nodes_of xs) → IsRatedTree p cuts (Some cost) (closed cost unit xs) }
    ensures above { (p : AnyParts) (cuts : List AnyCut) (cost unit : ℕ) (least : ℤ) (xs : List AnyBounded)
        → AreAbove p cuts least (whole p ∷ []) (nodes_of xs) → AreAbove p cuts least (whole p ∷ []) (closed cost unit xs) }
{}

/// The subtrees of a search's starts are valid trees of the starts' regions, one after the other.
pub fn forest()
    ensures { (p : AnyParts) (cuts : List AnyCut) (cost : Option ℕ) (nodes : List AnyNode) (starts : ℕ)
        → AreForest nodes starts → IsTreeOf p nodes → HaveTheirEvidence p cuts cost nodes → AreRatedTrees p cuts cost (regions_from p starts 0 nodes) (forest_from starts 0 nodes) }
{}

/// The starts of a plan that fits have a number for each place and for each cut.
pub fn sized()
    ensures { (p : AnyParts) (plan : AnyPlan) (xs : List AnyBounded) (chosen : List Bool) → HasSizes p plan → IsSpellable plan → nodes_of xs ≡ plan.tree
        → All (λ start. length start.prices ≡ places p + length plan.cuts) (starts_of xs chosen) }
{}
