// Sieved grids.
use crate::running::{LAND_COVER, folder_with, run_with};
use rv_outside::MemorySink;
use std::test::Fail;
use tool_run::Status;

// The 82 takes the 41, since 41 and 21 both have five cells and 41 has the lower number.
const SIEVED_LAND_COVER: &[u8] =
    b"ncols 6\nnrows 3\nxllcorner 500000\nyllcorner 5400000\ncellsize 30\nNODATA_value -9999\n11 11 41 41 41 -9999\n11 11 41 41 41 -9999\n11 21 21 21 21 21\n";

const CORNERS: &[u8] =
    b"ncols 3\nnrows 3\nxllcorner 0\nyllcorner 0\ncellsize 1\n5 5 5\n5 7 5\n5 5 7\n";

const FIVES: &[u8] =
    b"ncols 3\nnrows 3\nxllcorner 0\nyllcorner 0\ncellsize 1\n5 5 5\n5 5 5\n5 5 5\n";

// Options of gdal_sieve, a source, and what is written of it.
const SIEVED: [(&[&str], &[u8], &[u8]); 10] = [
    (
        &["-st", "3"],
        b"ncols 6\nnrows 1\nxllcorner 0\nyllcorner 0\ncellsize 1\n1 2 2 3 3 3\n",
        b"ncols 6\nnrows 1\nxllcorner 0\nyllcorner 0\ncellsize 1\n3 3 3 3 3 3\n",
    ),
    (
        &[],
        b"ncols 2\nnrows 1\nxllcorner 0\nyllcorner 0\ncellsize 1\n1 2\n",
        b"ncols 2\nnrows 1\nxllcorner 0\nyllcorner 0\ncellsize 1\n1 2\n",
    ),
    (
        &["-st", "2"],
        b"ncols 5\nnrows 1\nxllcorner 0\nyllcorner 0\ncellsize 1\n5 5 7 6 6\n",
        b"ncols 5\nnrows 1\nxllcorner 0\nyllcorner 0\ncellsize 1\n5 5 5 6 6\n",
    ),
    (
        &["-st", "2"],
        b"ncols 3\nnrows 1\nxllcorner 0\nyllcorner 0\ncellsize 1\nNODATA_value -9999\n1 -9999 2\n",
        b"ncols 3\nnrows 1\nxllcorner 0\nyllcorner 0\ncellsize 1\nNODATA_value -9999\n1 -9999 2\n",
    ),
    (&[], LAND_COVER, SIEVED_LAND_COVER),
    (&["-st", "2"], CORNERS, FIVES),
    (&["-st", "2", "-8"], CORNERS, CORNERS),
    (&["-st", "3", "-8"], CORNERS, FIVES),
    (&["-st", "0"], CORNERS, CORNERS),
    (
        &[
            "-8",
            "-4",
            "-q",
            "-of",
            "aaigrid",
            "-st",
            "2147483647",
            "-st",
            "2",
        ],
        CORNERS,
        FIVES,
    ),
];

#[test]
fn grids_are_sieved(rt: HostRuntime) -> Result<(), Fail> {
    let alloc = rt.alloc();
    for (options, source, dest) in SIEVED {
        let words = ["gdal_sieve", "src.asc", "dst.asc"];
        let ran = run_with(
            alloc,
            &words,
            options,
            folder_with(alloc, source)?,
            MemorySink::new(alloc),
        )?;
        assert_eq!(rt; ran.status, Status::Done);
        assert!(rt; ran.has("dst.asc", Some(dest)));
        assert!(rt; ran.said(b""));
    }
    Ok(())
}
