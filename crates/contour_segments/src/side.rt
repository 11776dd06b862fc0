ghost use Rattle.std.specs.Prelude.{◌≡◌};
ghost use Rattle.contour_segments.specs.Segments.{sides_of};
ghost use Rattle.contour_segments.specs.Inner.Blocks.{ways_listed};

/// A side of a lattice cell, whose corners are the centres of four neighbouring cells.
#[derive(Clone, Copy, Debug, PartialEq, Eq)]
pub enum Side {
    Top,
    Right,
    Bottom,
    Left,
}

// From which side to which the segments of a lattice cell lead.
#[derive(Clone, Copy)]
pub(crate) enum Ways {
    None,
    One(Side, Side),
    Two(Side, Side, Side, Side),
}

// The ways by which corners are high: upper left, upper right, lower right, lower left; and by whether two that are
// high across a saddle are joined.
pub(crate) fn ways_of(nw: bool, ne: bool, se: bool, sw: bool, joined: bool) -> Ways
    ensures { ways_listed result ≡ sides_of nw ne se sw joined }
{
    match (nw, ne, se, sw) {
        (false, false, false, false) => Ways::None,
        (false, false, false, true) => Ways::One(Side::Left, Side::Bottom),
        (false, false, true, false) => Ways::One(Side::Bottom, Side::Right),
        (false, false, true, true) => Ways::One(Side::Left, Side::Right),
        (false, true, false, false) => Ways::One(Side::Right, Side::Top),
        (false, true, false, true) => {
            if joined {
                Ways::Two(Side::Left, Side::Top, Side::Right, Side::Bottom)
            } else {
                Ways::Two(Side::Left, Side::Bottom, Side::Right, Side::Top)
            }
        }
        (false, true, true, false) => Ways::One(Side::Bottom, Side::Top),
        (false, true, true, true) => Ways::One(Side::Left, Side::Top),
        (true, false, false, false) => Ways::One(Side::Top, Side::Left),
        (true, false, false, true) => Ways::One(Side::Top, Side::Bottom),
        (true, false, true, false) => {
            if joined {
                Ways::Two(Side::Top, Side::Right, Side::Bottom, Side::Left)
            } else {
                Ways::Two(Side::Top, Side::Left, Side::Bottom, Side::Right)
            }
        }
        (true, false, true, true) => Ways::One(Side::Top, Side::Right),
        (true, true, false, false) => Ways::One(Side::Right, Side::Left),
        (true, true, false, true) => Ways::One(Side::Right, Side::Bottom),
        (true, true, true, false) => Ways::One(Side::Bottom, Side::Left),
        (true, true, true, true) => Ways::None,
    }
}
