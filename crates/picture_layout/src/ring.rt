//! Places of nodes: at their coordinates, or on a circle.

ghost use Rattle.std.specs.Prelude.{◌≤◌};
ghost use Rattle.picture_layout.specs.declared.ring.TheConstants.{ROOM_ACROSS, ROOM_DOWN};

use crate::looks::{Coordinates, HEIGHT, Site, Spot, WIDTH};
use std::alloc::{AllocError, Global};

/// What is kept free at each side, in picture units.
const MARGIN: u32 = 90;

/// The radius of the circle, in picture units.
const RADIUS: u64 = 300;

/// What nodes take at most from west to east, in picture units.
const ROOM_ACROSS: u32 = WIDTH - 2 * MARGIN;

/// What nodes take at most from north to south, in picture units.
const ROOM_DOWN: u32 = HEIGHT - 2 * MARGIN;

/// The greatest longitude and the greatest latitude, in millionths of a degree.
const GREATEST: Coordinates = Coordinates {
    x: 180_000_000,
    y: 90_000_000,
};

/// The least rectangle that has all coordinates.
#[derive(Clone, Copy)]
struct Frame {
    least: Coordinates,
    most: Coordinates,
}

/// The frame of these coordinates.
fn frame_of(all: &[Coordinates]) -> Option<Frame> {
    let first = *all.first()?;
    let mut frame = Frame {
        least: first,
        most: first,
    };
    for both in all {
        frame.least.x = frame.least.x.min(both.x);
        frame.least.y = frame.least.y.min(both.y);
        frame.most.x = frame.most.x.max(both.x);
        frame.most.y = frame.most.y.max(both.y);
    }
    Some(frame)
}

/// How many picture units a distance takes where this extent takes this room.
fn drawn(distance: u128, extent: u128, room: u32) -> u32
    ensures { result ≤ room }
{
    let share = distance.saturating_mul(u128::from(room)) / extent.max(1);
    u32::try_from(share).unwrap_or(room).min(room)
}

impl Frame {
    /// Its width and its height.
    fn extents(&self) -> (u128, u128) {
        (
            self.most.x.abs_diff(self.least.x),
            self.most.y.abs_diff(self.least.y),
        )
    }

    /// Whether it is more than a line from west to east or from south to north.
    fn has_room(&self) -> bool {
        let (width, height) = self.extents();
        width > 0 && height > 0
    }

    /// Whether all its coordinates are longitudes and latitudes in degrees.
    fn is_on_earth(&self) -> bool {
        let (x, y) = (GREATEST.x, GREATEST.y);
        self.least.x >= 0 - x && self.most.x <= x && self.least.y >= 0 - y && self.most.y <= y
    }

    /// How long a degree to the east is at its middle, in thousandths of one to the north.
    fn shortening(&self) -> u128 {
        let middle = self.least.y.saturating_add(self.most.y) / 2;
        let north = u64::try_from(middle.unsigned_abs())
            .unwrap_or(0)
            .min(90_000_000);
        u128::from(half_sine((90_000_000 - north) / 180_000).max(50))
    }

    /// How its coordinates are drawn: on earth in their proportions, as far as neither side becomes less than a third of its
    /// room, and elsewhere so that they fill the room.
    fn scale(&self) -> Scale {
        let (width, height) = self.extents();
        if !self.is_on_earth() {
            return Scale {
                shortening: 1000,
                width,
                height,
            };
        }
        let shortening = self.shortening();
        let across = width.saturating_mul(shortening) / 1000;
        let (right, down) = (u128::from(ROOM_ACROSS), u128::from(ROOM_DOWN));
        Scale {
            shortening,
            width: across.max((height.saturating_mul(right) / down).min(across.saturating_mul(3))),
            height: height.max((across.saturating_mul(down) / right).min(height.saturating_mul(3))),
        }
    }

    /// The place of these coordinates in the middle of the room between the margins, north above.
    fn spot(&self, scale: &Scale, both: Coordinates) -> Spot {
        let (width, height) = self.extents();
        let east = both.x.abs_diff(self.least.x);
        let south = self.most.y.abs_diff(both.y);
        Spot {
            x: MARGIN + scale.across(east) + (ROOM_ACROSS - scale.across(width)) / 2,
            y: MARGIN + scale.down(south) + (ROOM_DOWN - scale.down(height)) / 2,
        }
    }
}

/// How coordinates become places of a picture.
#[derive(Clone, Copy)]
struct Scale {
    /// How long a step to the east is, in thousandths of one to the north.
    shortening: u128,
    /// What fills the room from west to east.
    width: u128,
    /// What fills the room from north to south.
    height: u128,
}

impl Scale {
    /// How many picture units a distance to the east takes.
    fn across(&self, distance: u128) -> u32
        ensures { result ≤ ROOM_ACROSS }
    {
        drawn(
            distance.saturating_mul(self.shortening) / 1000,
            self.width,
            ROOM_ACROSS,
        )
    }

    /// How many picture units a distance to the south takes.
    fn down(&self, distance: u128) -> u32
        ensures { result ≤ ROOM_DOWN }
    {
        drawn(distance, self.height, ROOM_DOWN)
    }
}

/// The sine of so many thousandths of a half turn, in thousandths, for 0 to 1,000 of them.
fn half_sine(turn: u64) -> u64 {
    let turn = turn.min(1000);
    let product = (turn * (1000 - turn)).min(250_000);
    4000 * product / (1_250_000 - product)
}

/// A place on a line through the middle, so many thousandths of the radius away from it.
fn beside(middle: u32, thousandths: u64, is_after: bool) -> u32 {
    let distance = u32::try_from(thousandths.min(1000) * RADIUS / 1000)
        .unwrap_or(0)
        .min(middle);
    if is_after {
        middle.saturating_add(distance)
    } else {
        middle - distance
    }
}

/// The place on the circle at so many thousandths of a half turn from the top, to the right.
fn ring_spot(turn: u64) -> Spot {
    let half = turn % 1000;
    let quarter = (half + 500) % 1000;
    let is_low = turn >= 500 && turn < 1500;
    Spot {
        x: beside(WIDTH / 2, half_sine(half), turn < 1000),
        y: beside(HEIGHT / 2, half_sine(quarter), is_low),
    }
}

/// Places on a circle for so many nodes.
fn ring_spots(alloc: Global, count: usize) -> Result<Vec<Spot>, AllocError> {
    let mut spots = Vec::new(alloc);
    for place in 0..count {
        let turn = (place as u64).saturating_mul(2000) / (count as u64);
        spots.push(ring_spot(turn))?;
    }
    Ok(spots)
}

/// Places at these coordinates in a frame.
fn framed_spots(alloc: Global, frame: Frame, all: &[Coordinates]) -> Result<Vec<Spot>, AllocError> {
    let mut spots = Vec::new(alloc);
    let scale = frame.scale();
    for both in all {
        spots.push(frame.spot(&scale, *both))?;
    }
    Ok(spots)
}

/// The coordinates of all nodes, if each has some.
fn coordinates_of(alloc: Global, sites: &[Site]) -> Result<Option<Vec<Coordinates>>, AllocError> {
    let mut all = Vec::new(alloc);
    for site in sites {
        match site.at {
            Some(both) => all.push(both)?,
            None => return Ok(None),
        }
    }
    Ok(Some(all))
}

/// The place of each node.
pub fn node_spots(alloc: Global, sites: &[Site]) -> Result<Vec<Spot>, AllocError> {
    let Some(all) = coordinates_of(alloc, sites)? else {
        return ring_spots(alloc, sites.len());
    };
    match frame_of(all.as_slice()) {
        Some(frame) if frame.has_room() => framed_spots(alloc, frame, all.as_slice()),
        _ => ring_spots(alloc, sites.len()),
    }
}
