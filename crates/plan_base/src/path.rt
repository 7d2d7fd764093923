//! Paths and designs.

ghost use Rattle.std.specs.Prelude.{◌≡◌, IfOk, ◌<◌, length, List};
ghost use Rattle.plan_base.specs.Paths.{uses};

use crate::ids::{ArcId, LinkId};
use base_items::Items;
use std::alloc::AllocError;
use std::hash::{Hash, Hasher};
use std::marker::Model;

/// A list of arcs. Nothing is asked of it: `check_design` tells whether it is a simple path.
#[derive(Debug, Drop)]
pub struct Path {
    arcs: Vec<ArcId>,
}

impl Model for Path {
    ghost use Rattle.std.specs.Prelude.{List};
    ghost use Rattle.plan_base.specs.declared.ids.ArcId.{ArcId};

    ghost Value = { List ArcId };

    ghost view = { λ a. a.arcs.items };
}

impl PartialEq for Path {
    ghost use Rattle.std.specs.Prelude.{◌==◌};
    ghost use Rattle.std.specs.Ordering.{on};
    ghost use Rattle.std.specs.Cmp.Lexicographic.{pointwise};
    ghost use Rattle.std.specs.Cmp.Rules.{comparing};
    ghost use Rattle.std.proofs.Common.{rules};

    ghost eq = { pointwise (on (λ a. a.0) ◌==◌) };

    ghost laws = { Prim.search (comparing, rules) };

    fn eq(&self, other: &Path) -> bool {
        self.arcs == other.arcs
    }
}

impl Eq for Path {
    ghost use Rattle.std.specs.Cmp.Rules.{comparing};
    ghost use Rattle.std.proofs.Common.{rules};

    ghost laws = { Prim.search (comparing, rules) };
}

impl Hash for Path {
    ghost use Rattle.std.specs.Hash as fed;
    ghost use Rattle.std.specs.Hash.{items_Alike, on_Alike, same_Alike};
    ghost use Rattle.plan_base.specs.declared.ids.ArcId.{ArcId};
    ghost use Rattle.std.proofs.lemmas.Bool.Decides.{Decides-eqb};

    ghost hash_input = { λ p. fed.slice (λ a. fed.u32 a.0) p };

    ghost respects_eq = { (items_Alike (on_Alike (λ (a : ArcId). a.0) (same_Alike fed.u32 Decides-eqb))).fed };

    fn hash<H: Hasher>(&self, state: &mut H) {
        self.arcs.hash(state);
    }
}

impl Path {
    /// The same arcs. Takes no memory.
    pub fn from_vec(arcs: Vec<ArcId>) -> Self
        ensures { result ≡ arcs.items }
    {
        Path { arcs }
    }

    /// The same arcs. Takes no memory.
    pub fn into_vec(self) -> Vec<ArcId>
        ensures { result.items ≡ self }
    {
        self.arcs
    }

    /// The same path.
    ///
    /// - Errors: want of memory alone.
    /// - Time: linear in the arcs.
    pub fn copy(&self) -> Result<Path, AllocError>
        ensures { IfOk result (λ path. path ≡ self.now) }
    {
        Ok(Path {
            arcs: self.arcs.clone()?,
        })
    }

    /// The arcs as a slice.
    pub fn as_slice(&self) -> &[ArcId]
        ensures value { result.now ≡ self.now }
        ensures len { length result.now ≡ length self.now }
    {
        self.arcs.as_slice()
    }

    /// Whether the path goes along the link in either direction.
    ///
    /// - Rule: docs/DEFINITIONS.md, "Simple paths".
    /// - Time: linear in the arcs.
    pub fn uses(&self, link: LinkId) -> bool
        ensures { result ≡ uses link.0 self.now }
    {
        self.as_slice().iter().any(|arc| arc.0 / 2 == link.0)
    }
}

/// One path for each demand, and for each link one count for each module.
///
/// Nothing is asked of it: `check_design` tells whether it serves an instance.
#[derive(Debug, Drop)]
pub struct Design {
    /// In the order of the demands.
    pub paths: Items<Path>,
    /// In the order of the links, each list in the order of the link's modules.
    pub counts: Items<Items<u64>>,
}

impl Design {
    /// The same design.
    ///
    /// - Errors: want of memory alone.
    /// - Time: linear in the arcs of all paths and in the counts.
    pub fn copy(&self) -> Result<Design, AllocError>
        ensures { IfOk result (λ design. design ≡ self.now) }
    {
        Ok(Design {
            paths: copy_paths(&self.paths)?,
            counts: copy_counts(&self.counts)?,
        })
    }
}

/// The same paths.
fn copy_paths(paths: &Items<Path>) -> Result<Items<Path>, AllocError>
    ensures { IfOk result (λ copy. copy ≡ paths.now) }
{
    let mut copy = paths.empty_vec();
    for path in paths.as_slice() {
        copy.push(path.copy()?)?;
    }
    Ok(Items::from_vec(copy))
}

/// The same lists of counts.
fn copy_counts(counts: &Items<Items<u64>>) -> Result<Items<Items<u64>>, AllocError>
    ensures { IfOk result (λ copy. copy ≡ counts.now) }
{
    let mut copy = counts.empty_vec();
    for list in counts.as_slice() {
        copy.push(list.copy()?)?;
    }
    Ok(Items::from_vec(copy))
}
