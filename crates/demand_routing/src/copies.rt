//! Paths that are put into the memory of others.

ghost use Rattle.std.specs.Prelude.{◌≡◌, ◌<◌, length, slice_set, IfOk, OnOk};

use plan_base::{DemandId, Instance, Path};
use std::alloc::{AllocError, Global};
use std::mem;

/// Gives a demand the same path as this one, in the memory of the path that it has.
#[tactic(auto, using(crate::proofs::ReroutingLaws::set_twice))]
pub fn set_path(paths: &mut Vec<Path>, demand: DemandId, path: &Path) -> Result<(), AllocError>
    requires { demand.0 < length paths.old.items }
    ensures { OnOk result (paths.new.items ≡ slice_set paths.old.items demand.0 path.now) }
{
    let empty = Path::from_vec(Vec::new(*paths.allocator()));
    let mut arcs = mem::replace(&mut paths[demand.0 as usize], empty).into_vec();
    arcs.clear();
    arcs.extend_from_slice(path.as_slice())?;
    paths[demand.0 as usize] = Path::from_vec(arcs);
    Ok(())
}

/// The same arcs, with memory for as many as there are nodes.
fn roomy_copy(alloc: Global, inst: &Instance, path: &Path) -> Result<Path, AllocError>
    ensures { IfOk result (λ copy. copy ≡ path.now) }
{
    let mut arcs = Vec::with_capacity(alloc, inst.nodes() as usize)?;
    arcs.extend_from_slice(path.as_slice())?;
    Ok(Path::from_vec(arcs))
}

/// The same paths, each with memory for as many arcs as there are nodes.
pub fn roomy_copies(alloc: Global, inst: &Instance, paths: &[Path]) -> Result<Vec<Path>, AllocError>
    ensures { IfOk result (λ copies. copies.items ≡ paths.now) }
{
    let mut copies = Vec::with_capacity(alloc, paths.len())?;
    for path in paths {
        copies.push(roomy_copy(alloc, inst, path)?)?;
    }
    Ok(copies)
}
