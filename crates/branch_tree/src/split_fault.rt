//! Why a node is not split.

ghost use Rattle.std.specs.Prelude.{◌≡◌};
ghost use Rattle.branch_tree.specs.declared.split_fault.SplitFault.TheVariants.{OutOfMemory};
ghost use Rattle.branch_tree.specs.declared.split_fault.LoadFault.TheVariants as load_fault;

use std::alloc::AllocError;

/// The first fault of a split, or want of memory.
#[derive(Clone, Copy, Debug, PartialEq, Eq)]
pub enum SplitFault {
    /// The node is closed or split, or there is no node of this number.
    NotOpen,
    /// A path is forbidden at the node.
    NotPermitted {
        /// 1 for the first path, 2 for the second.
        which: u8,
    },
    /// The paths are equal.
    SamePath,
    /// There is no memory left. It may come in place of any other answer.
    OutOfMemory,
}

impl From<AllocError> for SplitFault {
    ghost from_gives = { λ _ e. e ≡ OutOfMemory };

    fn from(_e: AllocError) -> SplitFault {
        SplitFault::OutOfMemory
    }
}

/// The first fault of a split by loads, or want of memory.
#[derive(Clone, Copy, Debug, PartialEq, Eq)]
pub enum LoadFault {
    /// The node is closed or split, or there is no node of this number.
    NotOpen,
    /// The place's range has no load up to this one, or none above it.
    OutsideRange,
    /// There is no memory left. It may come in place of any other answer.
    OutOfMemory,
}

impl From<AllocError> for LoadFault {
    ghost from_gives = { λ _ e. e ≡ load_fault.OutOfMemory };

    fn from(_e: AllocError) -> LoadFault {
        LoadFault::OutOfMemory
    }
}
