// Rounding to whole numbers.
ghost use Rattle.std.specs.Prelude.{◌≡◌, ◌^◌, ◌≤ℤ◌, pos, unsigned_abs, ◌≤◌};
ghost use Rattle.fixed_coord.specs.Round.{round_half_away};

/// `n / d`, rounded to the nearest whole number, a half away from zero.
pub fn ratio_round(n: i128, d: i128) -> i128
    requires low { pos 1 ≤ℤ d }
    requires high { d ≤ℤ pos (10 ^ 37) }
    requires size { unsigned_abs n ≤ 10 ^ 37 }
    ensures { result ≡ round_half_away n (unsigned_abs d) }
{
    let size = n.unsigned_abs();
    let d = d.unsigned_abs();
    let rounded = ((2 * size + d) / (2 * d)) as i128;
    if n < 0 { -rounded } else { rounded }
}
