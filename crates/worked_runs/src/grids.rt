// Grids in every spelling, and the first offence of those that are refused.
use crate::running::{GRID, folder_with, run_over};
use std::test::Fail;
use tool_run::Status;

const SIEVE: [&str; 5] = ["gdal_sieve", "-st", "1", "src.asc", "dst.asc"];

// Sources, and what is written of them.
const WRITTEN: [(&[u8], &[u8]); 8] = [
    (GRID, GRID),
    (
        b"NCOLS        3\nNROWS        2\nXLLCORNER    0.000000000000\nYLLCORNER    0.000000000000\nCELLSIZE     1.000000000000\n 1 1 2\n 1 2 2\n",
        GRID,
    ),
    (
        b"ncols 2 nrows 1 xllcorner 0 yllcorner -0 cellsize 1 007 -0",
        b"ncols 2\nnrows 1\nxllcorner 0\nyllcorner 0\ncellsize 1\n7 0\n",
    ),
    (
        b"ncols 1\r\nnrows 2\r\nxllcorner -40000000\tyllcorner 39999998\r\ncellsize 1\r\n-9223372036854775808\r\n5",
        b"ncols 1\nnrows 2\nxllcorner -40000000\nyllcorner 39999998\ncellsize 1\n-9223372036854775808\n5\n",
    ),
    (
        b"\n\nyllcorner 8 cellsize 1e1 ncols 00000002 nrows 1 xllcorner .5\n10 -10\n\n",
        b"ncols 2\nnrows 1\nxllcorner 0.5\nyllcorner 8\ncellsize 10\n10 -10\n",
    ),
    (
        b"ncols 1 nrows 1 xllcenter 0.5 yllcenter 0 cellsize 1 4",
        b"ncols 1\nnrows 1\nxllcorner 0\nyllcorner -0.5\ncellsize 1\n4\n",
    ),
    (
        b"ncols 1 nrows 1 xllcenter 0 yllcenter 0 cellsize 0.0000000001 4",
        b"ncols 1\nnrows 1\nxllcorner -0.0000000001\nyllcorner -0.0000000001\ncellsize 0.0000000001\n4\n",
    ),
    (
        b"ncols 2 nrows 1 xllcorner 0 yllcorner 0 cellsize 1 nodata_VALUE -9999.0 4 -9999",
        b"ncols 2\nnrows 1\nxllcorner 0\nyllcorner 0\ncellsize 1\nNODATA_value -9999\n4 -9999\n",
    ),
];

#[test]
fn grids_are_written_in_their_canonical_text(rt: HostRuntime) -> Result<(), Fail> {
    let alloc = rt.alloc();
    for (source, dest) in WRITTEN {
        let ran = run_over(alloc, &SIEVE, folder_with(alloc, source)?)?;
        assert_eq!(rt; ran.status, Status::Done);
        assert!(rt; ran.has("dst.asc", Some(dest)));
        assert!(rt; ran.has("src.asc", Some(source)));
        assert!(rt; ran.said(b""));
    }
    Ok(())
}

#[test]
fn the_destination_may_be_the_source(rt: HostRuntime) -> Result<(), Fail> {
    let alloc = rt.alloc();
    let words = ["gdal_sieve", "-st", "1", "src.asc", "src.asc"];
    let source = b"ncols 1 nrows 1 xllcorner 0 yllcorner 0 cellsize 1 04";
    let ran = run_over(alloc, &words, folder_with(alloc, source)?)?;
    assert_eq!(rt; ran.status, Status::Done);
    assert!(rt;
        ran.has(
            "src.asc",
            Some(b"ncols 1\nnrows 1\nxllcorner 0\nyllcorner 0\ncellsize 1\n4\n")
        )
    );
    Ok(())
}

// Sources that are refused, and the line of each.
const REFUSED: [(&[u8], Status, &[u8]); 12] = [
    (b"", Status::BadInput, b"src.asc: line 1: missing keyword\n"),
    (
        b" \n",
        Status::BadInput,
        b"src.asc: line 2: missing keyword\n",
    ),
    (
        b"ncols 2\nnrows 2\nxllcorner 0\nyllcorner 0\ncellsize 1\n1 2\n3\n",
        Status::BadInput,
        b"src.asc: line 8: too few cells\n",
    ),
    (
        b"ncols 2\nnrows 2\nxllcorner 0\nyllcorner 0\ncellsize 1\n1 2\n3 4 5\n",
        Status::BadInput,
        b"src.asc: line 7: too many cells\n",
    ),
    (
        b"ncols 2\nnrows 2\nxllcorner 0\nyllcorner 0\ncellsize 1\n1 12.5\n3 4\n",
        Status::BadInput,
        b"src.asc: line 6: bad cell\n",
    ),
    (
        b"nclos 2\nnrows 2\nxllcorner 0\nyllcorner 0\ncellsize 1\n1 2\n3 4\n",
        Status::BadInput,
        b"src.asc: line 1: unknown keyword\n",
    ),
    (
        b"ncols 16777217\nnrows 1\nxllcorner 0\nyllcorner 0\ncellsize 1\n1\n",
        Status::TooLarge,
        b"src.asc: line 6: too large: 16777217\n",
    ),
    (
        b"ncols 2147483647 nrows 2147483647 xllcorner 0 yllcorner 0 cellsize 1",
        Status::TooLarge,
        b"src.asc: line 1: too large: 4611686014132420609\n",
    ),
    (
        b"ncols 4096 nrows 4096 xllcorner 0 yllcorner 0 cellsize 1\n",
        Status::BadInput,
        b"src.asc: line 2: too few cells\n",
    ),
    (
        b"ncols 2 nrows 1\nxllcorner 39999999 yllcorner 0 cellsize 1\n4 5",
        Status::BadInput,
        b"src.asc: line 3: out of range\n",
    ),
    (
        b"ncols 1\nnrows 1\nNROWS 1\n",
        Status::BadInput,
        b"src.asc: line 3: repeated keyword\n",
    ),
    (
        b"ncols 3\nnrows 2\nxllcorner 0\nyllcorner 0\ncellsize 1\nNODATA_value -3.4028234663852886e+38\n0.5 10.5 -3.4028234663852886e+38\n0.5 10.5 -3.4028234663852886e+38\n",
        Status::BadInput,
        b"src.asc: line 7: bad cell\n",
    ),
];

#[test]
fn the_first_offence_of_a_source_is_told(rt: HostRuntime) -> Result<(), Fail> {
    let alloc = rt.alloc();
    for (source, status, line) in REFUSED {
        let ran = run_over(alloc, &SIEVE, folder_with(alloc, source)?)?;
        assert_eq!(rt; ran.status, status);
        assert!(rt; ran.said(line));
        assert!(rt; ran.has("dst.asc", None));
    }
    Ok(())
}
