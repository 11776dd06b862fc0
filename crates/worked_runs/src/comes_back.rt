// Grids that are polygonized, and the layers burned back.
use crate::running::{GRID, LAND_COVER, folder_with, run_with};
use rv_outside::MemorySink;
use std::test::Fail;
use tool_run::Status;

// An island in a lake on an island, at negative coordinates.
const ISLANDS: &[u8] =
    b"ncols 5\nnrows 5\nxllcorner -10\nyllcorner -5\ncellsize 0.5\n1 1 1 1 1\n1 2 2 2 1\n1 2 1 2 1\n1 2 2 2 1\n1 1 1 1 1\n";

// Two components that touch at a corner, and cells without data between them.
const CORNERS: &[u8] =
    b"ncols 2\nnrows 2\nxllcorner 0\nyllcorner 0\ncellsize 0.0000000002\nNODATA_value 0\n7 0\n0 7\n";

// A source, the extent, size and values of the back words, and the grid that comes back.
const BACK: [(&[u8], &[&str], &[u8]); 4] = [
    (
        GRID,
        &["-te", "0", "0", "3", "2", "-ts", "3", "2", "-init", "0"],
        GRID,
    ),
    (
        LAND_COVER,
        &[
            "-te",
            "500000",
            "5400000",
            "500180",
            "5400090",
            "-ts",
            "6",
            "3",
            "-init",
            "-9999",
            "-a_nodata",
            "-9999",
        ],
        b"ncols 6\nnrows 3\nxllcorner 500000\nyllcorner 5400000\ncellsize 30\nNODATA_value -9999\n11 11 41 41 41 -9999\n11 11 41 82 41 -9999\n11 21 21 21 21 21\n",
    ),
    (
        ISLANDS,
        &[
            "-te", "-10", "-5", "-7.5", "-2.5", "-ts", "5", "5", "-init", "0",
        ],
        ISLANDS,
    ),
    (
        CORNERS,
        &[
            "-te",
            "0",
            "0",
            "0.0000000004",
            "0.0000000004",
            "-ts",
            "2",
            "2",
            "-init",
            "0",
            "-a_nodata",
            "0",
        ],
        CORNERS,
    ),
];

#[test]
fn grids_come_back(rt: HostRuntime) -> Result<(), Fail> {
    let alloc = rt.alloc();
    for (source, options, dest) in BACK {
        let there = run_with(
            alloc,
            &["gdal_polygonize", "src.asc", "p.csv"],
            &[],
            folder_with(alloc, source)?,
            MemorySink::new(alloc),
        )?;
        assert_eq!(rt; there.status, Status::Done);
        let back = run_with(
            alloc,
            &["gdal_rasterize", "-a", "DN", "p.csv", "back.asc"],
            options,
            there.into_folder(),
            MemorySink::new(alloc),
        )?;
        assert_eq!(rt; back.status, Status::Done);
        assert!(rt; back.has("back.asc", Some(dest)));
        assert!(rt; back.has("src.asc", Some(source)));
        assert!(rt; back.said(b""));
    }
    Ok(())
}
