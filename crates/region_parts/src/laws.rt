// What holds of parts.
ghost use Rattle.std.specs.Prelude.{◌≡◌, [], ℤ, Bool, map, length};
ghost use Rattle.std.specs.List.{range_with_len};
ghost use Rattle.cell_base.specs.Raster.{Raster};
ghost use Rattle.region_label.specs.Labelling.{IsLabelling, RegionTable};
ghost use Rattle.region_parts.specs.Parts.{AreEachItsOwn};

/// In its own labelling each component has one part, itself.
pub fn each_is_its_own_part()
    ensures { (connectivity : Bool) (cells : Raster ℤ) (valid : Raster Bool) (regions : RegionTable)
        → IsLabelling connectivity cells valid regions → AreEachItsOwn regions }
{}
