// Layers of polygons.
use crate::running::{GRID, LAND_COVER, folder_with, run_with};
use rv_outside::MemorySink;
use std::test::Fail;
use tool_run::Status;

// Names behind the source and the destination, a source, and the layer that is written of it.
const POLYGONIZED: [(&[&str], &[u8], &[u8]); 12] = [
    (
        &[],
        GRID,
        b"WKT,DN\n\"POLYGON ((0 2,0 0,1 0,1 1,2 1,2 2,0 2))\",1\n\"POLYGON ((2 2,2 1,1 1,1 0,3 0,3 2,2 2))\",2\n",
    ),
    (
        &[],
        b"ncols 1\nnrows 1\nxllcorner 0\nyllcorner 0\ncellsize 1\n-5\n",
        b"WKT,DN\n\"POLYGON ((0 1,0 0,1 0,1 1,0 1))\",-5\n",
    ),
    (
        &["lay", "a,b"],
        b"ncols 1\nnrows 1\nxllcorner 0\nyllcorner 0\ncellsize 1\n-5\n",
        b"WKT,\"a,b\"\n\"POLYGON ((0 1,0 0,1 0,1 1,0 1))\",-5\n",
    ),
    (
        &["-q", "-b", "1", "-f", "csv", "-lco", "geometry=as_wkt"],
        b"ncols 3\nnrows 3\nxllcorner 0\nyllcorner 0\ncellsize 1\n1 1 1\n1 2 1\n1 1 1\n",
        b"WKT,DN\n\"POLYGON ((0 3,0 0,3 0,3 3,0 3),(1 2,2 2,2 1,1 1,1 2))\",1\n\"POLYGON ((1 2,1 1,2 1,2 2,1 2))\",2\n",
    ),
    (
        &[],
        b"ncols 4\nnrows 4\nxllcorner 0\nyllcorner 0\ncellsize 1\n1 1 1 1\n1 2 1 1\n1 1 2 1\n1 1 1 1\n",
        b"WKT,DN\n\"POLYGON ((0 4,0 0,4 0,4 4,0 4),(1 3,2 3,2 2,1 2,1 3),(2 2,3 2,3 1,2 1,2 2))\",1\n\"POLYGON ((1 3,1 2,2 2,2 3,1 3))\",2\n\"POLYGON ((2 2,2 1,3 1,3 2,2 2))\",2\n",
    ),
    (
        &[],
        b"ncols 3\nnrows 3\nxllcorner 0\nyllcorner 0\ncellsize 1\n1 1 1\n1 2 1\n1 1 2\n",
        b"WKT,DN\n\"POLYGON ((0 3,0 0,2 0,2 1,3 1,3 3,0 3),(1 2,2 2,2 1,1 1,1 2))\",1\n\"POLYGON ((1 2,1 1,2 1,2 2,1 2))\",2\n\"POLYGON ((2 1,2 0,3 0,3 1,2 1))\",2\n",
    ),
    (
        &[],
        b"ncols 2\nnrows 2\nxllcorner 0\nyllcorner 0\ncellsize 1\n1 2\n2 1\n",
        b"WKT,DN\n\"POLYGON ((0 2,0 1,1 1,1 2,0 2))\",1\n\"POLYGON ((1 2,1 1,2 1,2 2,1 2))\",2\n\"POLYGON ((0 1,0 0,1 0,1 1,0 1))\",2\n\"POLYGON ((1 1,1 0,2 0,2 1,1 1))\",1\n",
    ),
    (
        &[],
        b"ncols 2\nnrows 1\nxllcorner 0\nyllcorner 0\ncellsize 1\nNODATA_value -9999\n-9999 -9999\n",
        b"WKT,DN\n",
    ),
    (
        &[],
        LAND_COVER,
        b"WKT,DN\n\"POLYGON ((500000 5400090,500000 5400000,500030 5400000,500030 5400030,500060 5400030,500060 5400090,500000 5400090))\",11\n\"POLYGON ((500060 5400090,500060 5400030,500090 5400030,500090 5400060,500120 5400060,500120 5400030,500150 5400030,500150 5400090,500060 5400090))\",41\n\"POLYGON ((500090 5400060,500090 5400030,500120 5400030,500120 5400060,500090 5400060))\",82\n\"POLYGON ((500030 5400030,500030 5400000,500180 5400000,500180 5400030,500030 5400030))\",21\n",
    ),
    // under all steps the parts of a component stand in order of their first cells, whatever their sizes
    (
        &["-8"],
        b"ncols 2\nnrows 2\nxllcorner 0\nyllcorner 0\ncellsize 1\n1 2\n2 1\n",
        b"WKT,DN\n\"MULTIPOLYGON (((0 2,0 1,1 1,1 2,0 2)),((1 1,1 0,2 0,2 1,1 1)))\",1\n\"MULTIPOLYGON (((1 2,1 1,2 1,2 2,1 2)),((0 1,0 0,1 0,1 1,0 1)))\",2\n",
    ),
    (
        &["-8"],
        b"ncols 3\nnrows 2\nxllcorner 0\nyllcorner 0\ncellsize 1\n1 2 2\n2 1 1\n",
        b"WKT,DN\n\"MULTIPOLYGON (((0 2,0 1,1 1,1 2,0 2)),((1 1,1 0,3 0,3 1,1 1)))\",1\n\"MULTIPOLYGON (((1 2,1 1,3 1,3 2,1 2)),((0 1,0 0,1 0,1 1,0 1)))\",2\n",
    ),
    (
        &["-8", "-q"],
        b"ncols 3\nnrows 3\nxllcorner 0\nyllcorner 0\ncellsize 1\n1 1 1\n1 2 1\n1 1 2\n",
        b"WKT,DN\n\"POLYGON ((0 3,0 0,2 0,2 1,3 1,3 3,0 3),(1 2,2 2,2 1,1 1,1 2))\",1\n\"MULTIPOLYGON (((1 2,1 1,2 1,2 2,1 2)),((2 1,2 0,3 0,3 1,2 1)))\",2\n",
    ),
];

#[test]
fn components_are_written_as_polygons(rt: HostRuntime) -> Result<(), Fail> {
    let alloc = rt.alloc();
    for (names, source, layer) in POLYGONIZED {
        let words = ["gdal_polygonize", "src.asc", "p.csv"];
        let ran = run_with(
            alloc,
            &words,
            names,
            folder_with(alloc, source)?,
            MemorySink::new(alloc),
        )?;
        assert_eq!(rt; ran.status, Status::Done);
        assert!(rt; ran.has("p.csv", Some(layer)));
        assert!(rt; ran.has("src.asc", Some(source)));
        assert!(rt; ran.said(b""));
    }
    Ok(())
}
