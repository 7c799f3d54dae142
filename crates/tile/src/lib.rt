// Coordinates, the bounds of a tile and its four edges, by value. Rings are in `ring`.
#![tactic(auto)]

ghost use Rattle.std.specs.Prelude.{◌≡◌};
ghost use Rattle.tile.specs.Bounds as Bounds;

use binary64::compare::{maximum, minimum};

pub mod ring;

// A vertex: longitude and latitude. Equal as IEEE 754 compares: -0.0 equals 0.0, and a coordinate that holds a NaN equals nothing, not even
// itself.
#[derive(Clone, Copy, PartialEq)]
pub struct Coord {
    pub x: f64,
    pub y: f64,
}

// West, south, east, north.
#[derive(Clone, Copy)]
pub struct TileBounds {
    pub lng_min: f64,
    pub lat_min: f64,
    pub lng_max: f64,
    pub lat_max: f64,
}

// The four edges of the bounds, in the order in which a ring is cut at them.
#[derive(Clone, Copy)]
pub enum Edge {
    Left,
    Right,
    Bottom,
    Top,
}

impl TileBounds {
    // Takes any four numbers.
    pub fn new(lng_min: f64, lat_min: f64, lng_max: f64, lat_max: f64) -> Self
        ensures { result ≡ Bounds.new_of lng_min lat_min lng_max lat_max }
    {
        Self {
            lng_min,
            lat_min,
            lng_max,
            lat_max,
        }
    }

    // Bounds that hold nothing: expanding them by any others without a NaN gives the others.
    pub fn empty() -> Self
        ensures { result ≡ Bounds.empty }
    {
        let infinity = 1.0 / 0.0;
        Self {
            lng_min: infinity,
            lat_min: infinity,
            lng_max: -infinity,
            lat_max: -infinity,
        }
    }

    pub fn is_valid(self) -> bool
        ensures { result ≡ Bounds.is_valid self }
    {
        self.lng_min <= self.lng_max && self.lat_min <= self.lat_max
    }

    pub fn expand(self, other: TileBounds) -> Self
        ensures { result ≡ Bounds.expand self other }
    {
        Self {
            lng_min: minimum(self.lng_min, other.lng_min),
            lat_min: minimum(self.lat_min, other.lat_min),
            lng_max: maximum(self.lng_max, other.lng_max),
            lat_max: maximum(self.lat_max, other.lat_max),
        }
    }

    pub fn intersect(self, other: TileBounds) -> Self
        ensures { result ≡ Bounds.intersect self other }
    {
        Self {
            lng_min: maximum(self.lng_min, other.lng_min),
            lat_min: maximum(self.lat_min, other.lat_min),
            lng_max: minimum(self.lng_max, other.lng_max),
            lat_max: minimum(self.lat_max, other.lat_max),
        }
    }

    pub fn width(self) -> f64
        ensures { result ≡ Bounds.width self }
    {
        self.lng_max - self.lng_min
    }

    pub fn height(self) -> f64
        ensures { result ≡ Bounds.height self }
    {
        self.lat_max - self.lat_min
    }

    // Wider by the buffer on every side; a negative buffer narrows.
    pub fn buffered(self, buffer: f64) -> Self
        ensures { result ≡ Bounds.buffered self buffer }
    {
        Self {
            lng_min: self.lng_min - buffer,
            lat_min: self.lat_min - buffer,
            lng_max: self.lng_max + buffer,
            lat_max: self.lat_max + buffer,
        }
    }
}
