// A polygon as it is lent.
ghost use Rattle.rings.specs.LentRings.{Lent};

// The rings of a polygon, ring behind ring, as lent: their numbers x, y and their lengths in coordinates.
#[derive(Clone, Copy)]
pub struct LentRings<'a> {
    pub coords: &'a [f64],
    pub lengths: &'a [u32],
    ghost lent: { Lent lengths.now coords.now },
}
