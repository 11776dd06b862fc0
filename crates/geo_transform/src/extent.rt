use fixed_coord::Coord;

/// A rectangle along the axes, by its edges.
#[derive(Clone, Copy, Debug, PartialEq, Eq)]
pub struct Extent {
    pub xmin: Coord,
    pub ymin: Coord,
    pub xmax: Coord,
    pub ymax: Coord,
}
