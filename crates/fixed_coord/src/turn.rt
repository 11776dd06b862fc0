// Which way three points turn.
ghost use Rattle.std.specs.Prelude.{◌≡◌, ◌^◌, ◌*ℤ◌, pos, unsigned_abs, ◌≤◌};
ghost use Rattle.std.specs.Ordering.{int_cmp};
ghost use Rattle.fixed_coord.specs.Turn.{turn};

use std::cmp::Ordering;

/// On which side of the line from `a` to `b` the point `p` lies: `Greater` on its left, `Less` on its right,
/// `Equal` on it.
pub fn side(a: (i64, i64), b: (i64, i64), p: (i64, i64)) -> Ordering
    requires a_x { unsigned_abs a.0 ≤ 10 ^ 18 }
    requires a_y { unsigned_abs a.1 ≤ 10 ^ 18 }
    requires b_x { unsigned_abs b.0 ≤ 10 ^ 18 }
    requires b_y { unsigned_abs b.1 ≤ 10 ^ 18 }
    requires p_x { unsigned_abs p.0 ≤ 10 ^ 18 }
    requires p_y { unsigned_abs p.1 ≤ 10 ^ 18 }
    ensures { result ≡ int_cmp (turn a b p) (pos 0) }
{
    let along = product(b.0 - a.0, p.1 - a.1);
    let across = product(b.1 - a.1, p.0 - a.0);
    along.cmp(&across)
}

// The product, which any two such numbers have.
fn product(x: i64, y: i64) -> i128
    ensures { result ≡ x *ℤ y }
{
    i128::from(x) * i128::from(y)
}
