// What holds of the numbers, whatever code reads and writes them.
ghost use Rattle.std.specs.Prelude.{◌≡◌, ◌<◌, ◌≤◌, ℕ, ℤ, Ok, unsigned_abs};
ghost use Rattle.std.specs.Fmt.{signed_decimal};
ghost use Rattle.fixed_coord.specs.Limits.{largest};
ghost use Rattle.fixed_coord.specs.Scaled.{scaled_of};
ghost use Rattle.fixed_coord.specs.Round.{IsNearest, round_half_up};
ghost use Rattle.fixed_coord.specs.Shortest.{NoneIsShorter, shortest, shortest_size};
ghost use Rattle.fixed_coord.specs.Whole.{whole_of};

/// A rounded fraction is the nearest whole number, of two that are as near the greater, and no other number is.
pub fn rounds_to_nearest()
    ensures nearest { (n d : ℕ) → 0 < d → IsNearest n d (round_half_up n d) }
    ensures only { (n d r s : ℕ) → IsNearest n d r → IsNearest n d s → r ≡ s }
{}

/// Reading the shortest text of a number of units gives that number, for each of at most 10^30 in size and at any
/// number of places.
pub fn reads_what_is_written()
    ensures { (v : ℤ) (places : ℕ) → unsigned_abs v ≤ largest → scaled_of places (shortest v places) ≡ Ok v }
{}

/// At no places the shortest text is the decimal text, and reading it as a whole number gives it back.
pub fn writes_whole_numbers()
    ensures text { (v : ℤ) → shortest v 0 ≡ signed_decimal v }
    ensures reads { (v : ℤ) → unsigned_abs v ≤ largest → whole_of (shortest v 0) ≡ Ok v }
{}

/// No text of whole digits and decimals that stands for a size of at most 10^30 is shorter than the shortest text.
pub fn writes_the_shortest()
    ensures { (size places : ℕ) → size ≤ largest → NoneIsShorter size places (shortest_size size places) }
{}
