//! Where marks stand in a picture.

use plan_base::Items;

/// The width of the part of a picture that has the network, in picture units.
pub const WIDTH: u32 = 1200;

/// The height of that part, in picture units.
pub const HEIGHT: u32 = 800;

/// Two coordinates, in millionths: to the east and to the north.
#[derive(Clone, Copy, Debug, PartialEq, Eq)]
pub struct Coordinates {
    pub x: i128,
    pub y: i128,
}

/// A node that is to be placed: how many bytes its name has, and its coordinates, where it has some.
#[derive(Clone, Copy, Debug, PartialEq, Eq)]
pub struct Site {
    pub name: usize,
    pub at: Option<Coordinates>,
}

/// A link that is to be placed: how many bytes its name and its figures have, the numbers of its ends, and how wide it is
/// drawn, in picture units.
#[derive(Clone, Copy, Debug, PartialEq, Eq)]
pub struct Span {
    pub name: usize,
    pub figures: usize,
    pub source: usize,
    pub target: usize,
    pub width: u32,
}

/// The width of a link without a load, in picture units; each other one is wider.
pub const UNUSED_WIDTH: u32 = 1;

impl Span {
    /// Whether the link has a load.
    pub(crate) fn is_loaded(&self) -> bool {
        self.width > UNUSED_WIDTH
    }
}

/// A place in a picture, in picture units from its left upper corner.
#[derive(Clone, Copy, Debug, PartialEq, Eq)]
pub struct Spot {
    pub x: u32,
    pub y: u32,
}

/// Where a node stands, and the middle of its name.
#[derive(Clone, Copy, Debug, PartialEq, Eq)]
pub struct NodeLook {
    pub at: Spot,
    pub label: Spot,
}

/// Where a link bends between its ends, the middle of its name and, where there is room for them, that of its figures, and
/// how wide it is drawn, in picture units.
#[derive(Clone, Copy, Debug, PartialEq, Eq)]
pub struct LinkLook {
    pub bend: Spot,
    pub label: Spot,
    pub figures: Option<Spot>,
    pub width: u32,
}

/// Where the marks of a network stand.
#[derive(Debug, Drop)]
pub struct Looks {
    pub nodes: Items<NodeLook>,
    pub links: Items<LinkLook>,
}
