// Layers of contour lines.
use crate::running::{folder_with, run_with};
use rv_outside::{Call, MemorySink};
use std::test::Fail;
use tool_run::Status;

const SLOPE: &[u8] = b"ncols 2\nnrows 2\nxllcorner 0\nyllcorner 0\ncellsize 1\n0 10\n0 10\n";

const SADDLE: &[u8] = b"ncols 2\nnrows 2\nxllcorner 0\nyllcorner 0\ncellsize 1\n10 0\n0 10\n";

const HEIGHTS: &[u8] =
    b"ncols 3\nnrows 2\nxllcorner 0\nyllcorner 0\ncellsize 1\nNODATA_value -3.4028234663852886e+38\n0.5 10.5 -3.4028234663852886e+38\n0.5 10.5 -3.4028234663852886e+38\n";

// Options of gdal_contour, a source, and the layer that is written of it.
const CONTOURED: [(&[&str], &[u8], &[u8]); 12] = [
    (
        &["-fl", "5"],
        SLOPE,
        b"WKT,ID\n\"LINESTRING (1 0.5,1 1.5)\",0\n",
    ),
    (
        &["-i", "5", "-a", "elev"],
        SLOPE,
        b"WKT,ID,elev\n\"LINESTRING (1 0.5,1 1.5)\",0,5\n\"LINESTRING (1.5 0.5,1.5 1.5)\",1,10\n",
    ),
    (
        &["-fl", "1"],
        b"ncols 2\nnrows 2\nxllcorner 0\nyllcorner 0\ncellsize 1\n0 3\n0 3\n",
        b"WKT,ID\n\"LINESTRING (0.8333333333 0.5,0.8333333333 1.5)\",0\n",
    ),
    // rounded after the product, not before it
    (
        &["-fl", "1"],
        b"ncols 2\nnrows 2\nxllcorner 0\nyllcorner 0\ncellsize 3\n0 3\n0 3\n",
        b"WKT,ID\n\"LINESTRING (2.5 1.5,2.5 4.5)\",0\n",
    ),
    (
        &["-fl", "5"],
        SADDLE,
        b"WKT,ID\n\"LINESTRING (1 1.5,1.5 1)\",0\n\"LINESTRING (1 0.5,0.5 1)\",1\n",
    ),
    (
        &["-fl", "6"],
        SADDLE,
        b"WKT,ID\n\"LINESTRING (0.9 1.5,0.5 1.1)\",0\n\"LINESTRING (1.1 0.5,1.5 0.9)\",1\n",
    ),
    // a line of one point is left out, and takes no number
    (
        &["-fl", "5"],
        b"ncols 2\nnrows 2\nxllcorner 0\nyllcorner 0\ncellsize 1\n5 0\n0 0\n",
        b"WKT,ID\n",
    ),
    (
        &["-fl", "4", "5", "-a", "z"],
        b"ncols 4\nnrows 2\nxllcorner 0\nyllcorner 0\ncellsize 1\n5 0 0 8\n0 0 0 8\n",
        b"WKT,ID,z\n\"LINESTRING (0.7 1.5,0.5 1.3)\",0,4\n\"LINESTRING (3 0.5,3 1.5)\",1,4\n\"LINESTRING (3.125 0.5,3.125 1.5)\",2,5\n",
    ),
    (
        &["-fl", "5"],
        b"ncols 3\nnrows 3\nxllcorner 0\nyllcorner 0\ncellsize 1\n0 0 0\n0 10 0\n0 0 0\n",
        b"WKT,ID\n\"LINESTRING (1 1.5,1.5 2,2 1.5,1.5 1,1 1.5)\",0\n",
    ),
    (
        &["-fl", "5.5", "-a", "elev"],
        HEIGHTS,
        b"WKT,ID,elev\n\"LINESTRING (1 0.5,1 1.5)\",0,5.5\n",
    ),
    (
        &["-i", "4", "-off", "1", "-a", "z"],
        b"ncols 3\nnrows 2\nxllcorner 0\nyllcorner 0\ncellsize 1\nNODATA_value -9999\n0 10 -9999\n0 10 -9999\n",
        b"WKT,ID,z\n\"LINESTRING (0.6 0.5,0.6 1.5)\",0,1\n\"LINESTRING (1 0.5,1 1.5)\",1,5\n\"LINESTRING (1.4 0.5,1.4 1.5)\",2,9\n",
    ),
    // fixed levels stand among those at the interval, each once; without valid cells there is none at the interval
    (
        &["-fl", "7.5", "-2.25", "5", "-i", "5", "-a", "z,m"],
        b"ncols 2\nnrows 2\nxllcorner 0\nyllcorner 0\ncellsize 1\n-5 15\n-5 15\n",
        b"WKT,ID,\"z,m\"\n\"LINESTRING (0.6375 0.5,0.6375 1.5)\",0,-2.25\n\"LINESTRING (0.75 0.5,0.75 1.5)\",1,0\n\"LINESTRING (1 0.5,1 1.5)\",2,5\n\"LINESTRING (1.125 0.5,1.125 1.5)\",3,7.5\n\"LINESTRING (1.25 0.5,1.25 1.5)\",4,10\n\"LINESTRING (1.5 0.5,1.5 1.5)\",5,15\n",
    ),
];

#[test]
fn levels_are_written_as_lines(rt: HostRuntime) -> Result<(), Fail> {
    let alloc = rt.alloc();
    for (options, source, layer) in CONTOURED {
        let words = ["gdal_contour", "src.asc", "c.csv"];
        let ran = run_with(
            alloc,
            &words,
            options,
            folder_with(alloc, source)?,
            MemorySink::new(alloc),
        )?;
        assert_eq!(rt; ran.status, Status::Done);
        assert!(rt; ran.has("c.csv", Some(layer)));
        assert!(rt; ran.has("src.asc", Some(source)));
        assert!(rt; ran.said(b""));
    }
    Ok(())
}

#[test]
fn too_many_levels_are_refused_before_the_layer_is_made(rt: HostRuntime) -> Result<(), Fail> {
    let alloc = rt.alloc();
    let examples: [(&[&str], &[u8]); 2] = [
        (&["-i", "0.0001"], b"levels: too many: 100000\n"),
        (
            &["-i", "0.0001", "-fl", "-1", "5", "-1"],
            b"levels: too many: 100001\n",
        ),
    ];
    for (options, line) in examples {
        let words = ["gdal_contour", "src.asc", "c.csv"];
        let ran = run_with(
            alloc,
            &words,
            options,
            folder_with(alloc, SLOPE)?,
            MemorySink::new(alloc),
        )?;
        assert_eq!(rt; ran.status, Status::TooLarge);
        assert!(rt; ran.has("c.csv", None));
        assert!(rt; ran.said(line));
    }
    Ok(())
}

#[test]
fn lines_that_cannot_be_written_are_told(rt: HostRuntime) -> Result<(), Fail> {
    let alloc = rt.alloc();
    let mut folder = folder_with(alloc, SLOPE)?;
    folder.fail(Call::Append, 1)?;
    let words = ["gdal_contour", "-i", "5", "src.asc", "c.csv"];
    let ran = run_with(alloc, &words, &[], folder, MemorySink::new(alloc))?;
    assert_eq!(rt; ran.status, Status::WriteFault);
    assert!(rt; ran.said(b"c.csv: write failed\n"));
    assert!(rt; ran.has("c.csv", Some(b"")));
    Ok(())
}
