// Layers that are burned.
use crate::running::{run_over, run_with};
use rv_outside::{Call, MemoryFolder, MemorySink};
use std::alloc::{AllocError, Global};
use std::test::Fail;
use tool_run::Status;

const HOLE: &[u8] =
    b"WKT,DN\n\"POLYGON ((0 3,0 0,3 0,3 3,0 3),(1 2,2 2,2 1,1 1,1 2))\",1\n\"POLYGON ((1 2,1 1,2 1,2 2,1 2))\",2\n";

const TWO_HOLES: &[u8] =
    b"WKT,DN\n\"POLYGON ((0 4,0 0,4 0,4 4,0 4),(1 3,2 3,2 2,1 2,1 3),(2 2,3 2,3 1,2 1,2 2))\",1\n\"POLYGON ((1 3,1 2,2 2,2 3,1 3))\",2\n\"POLYGON ((2 2,2 1,3 1,3 2,2 2))\",2\n";

// A square with its sides through centres.
const SQUARE: &[u8] = b"WKT,DN\n\"POLYGON ((0.5 0.5,2.5 0.5,2.5 2.5,0.5 2.5,0.5 0.5))\",1\n";

const OVERLAP: &[u8] =
    b"WKT,v\n\"POLYGON ((0 0,2 0,2 2,0 2,0 0))\",200\n\"POLYGON ((1 1,3 1,3 3,1 3,1 1))\",100\n";

// The second record has no geometry.
const UNIT: &[u8] = b"WKT,DN\n\"POLYGON ((0 0,1 0,1 1,0 1,0 0))\",1\n,7\n";

// The first square has no value.
const SKIPPED: &[u8] =
    b"WKT,v\n\"POLYGON ((0 0,1 0,1 1,0 1,0 0))\",\n\"POLYGON ((2 0,3 0,3 1,2 1,2 0))\",5\n";

const EMPTY_FIRST: &[u8] = b"WKT,v\n,4\nPOLYGON EMPTY,7\n\"POLYGON ((0 0,1 0,1 1,0 1,0 0))\",8\n";

// Options of gdal_rasterize, a source, and what is written of it.
const BURNED: [(&[&str], &[u8], &[u8]); 18] = [
    (
        &[
            "-a",
            "DN",
            "-te",
            "0",
            "0",
            "2",
            "1",
            "-ts",
            "2",
            "1",
            "-init",
            "-9999",
            "-a_nodata",
            "-9999",
        ],
        b"WKT,DN\n",
        b"ncols 2\nnrows 1\nxllcorner 0\nyllcorner 0\ncellsize 1\nNODATA_value -9999\n-9999 -9999\n",
    ),
    (
        &[
            "-a", "DN", "-te", "0", "0", "3", "3", "-ts", "3", "3", "-init", "0",
        ],
        HOLE,
        b"ncols 3\nnrows 3\nxllcorner 0\nyllcorner 0\ncellsize 1\n1 1 1\n1 2 1\n1 1 1\n",
    ),
    (
        &[
            "-a", "DN", "-te", "0", "0", "4", "4", "-ts", "4", "4", "-init", "0",
        ],
        TWO_HOLES,
        b"ncols 4\nnrows 4\nxllcorner 0\nyllcorner 0\ncellsize 1\n1 1 1 1\n1 2 1 1\n1 1 2 1\n1 1 1 1\n",
    ),
    (
        &["-burn", "1", "-te", "0", "0", "3", "3", "-ts", "3", "3"],
        SQUARE,
        b"ncols 3\nnrows 3\nxllcorner 0\nyllcorner 0\ncellsize 1\n0 0 0\n1 1 0\n1 1 0\n",
    ),
    (
        &["-a", "v", "-add", "-ot", "Byte", "-ts", "3", "3"],
        OVERLAP,
        b"ncols 3\nnrows 3\nxllcorner 0\nyllcorner 0\ncellsize 1\n0 100 100\n200 255 100\n200 200 0\n",
    ),
    (
        &["-a", "v", "-ot", "Byte", "-ts", "3", "3"],
        OVERLAP,
        b"ncols 3\nnrows 3\nxllcorner 0\nyllcorner 0\ncellsize 1\n0 100 100\n200 100 100\n200 200 0\n",
    ),
    (
        &["-burn", "9", "-i", "-ts", "3", "3"],
        OVERLAP,
        b"ncols 3\nnrows 3\nxllcorner 0\nyllcorner 0\ncellsize 1\n9 0 0\n0 0 0\n0 0 9\n",
    ),
    // outside, the first attribute
    (
        &["-a", "v", "-i", "-ts", "3", "3"],
        OVERLAP,
        b"ncols 3\nnrows 3\nxllcorner 0\nyllcorner 0\ncellsize 1\n200 0 0\n0 0 0\n0 0 200\n",
    ),
    (
        &["-a", "v", "-te", "0", "0", "1", "1", "-ts", "1", "1"],
        b"WKT,v\nPOINT EMPTY,7\n",
        b"ncols 1\nnrows 1\nxllcorner 0\nyllcorner 0\ncellsize 1\n0\n",
    ),
    (
        &["-a", "DN", "-te", "0", "0", "1", "1", "-ts", "1", "1"],
        UNIT,
        b"ncols 1\nnrows 1\nxllcorner 0\nyllcorner 0\ncellsize 1\n1\n",
    ),
    (
        &[
            "-burn",
            "1",
            "-te",
            "-40000000",
            "-40000000",
            "40000000",
            "40000000",
            "-ts",
            "2",
            "2",
        ],
        SQUARE,
        b"ncols 2\nnrows 2\nxllcorner -40000000\nyllcorner -40000000\ncellsize 40000000\n0 0\n0 0\n",
    ),
    (
        &["-burn", "1", "-te", "0", "0", "5", "3", "-tr", "2", "2"],
        SQUARE,
        b"ncols 3\nnrows 2\nxllcorner 0\nyllcorner -1\ncellsize 2\n1 0 0\n0 0 0\n",
    ),
    // a feature without a value is skipped, and lies within the extent
    (
        &["-a", "v", "-init", "3", "-tr", "1", "1"],
        SKIPPED,
        b"ncols 3\nnrows 1\nxllcorner 0\nyllcorner 0\ncellsize 1\n3 3 5\n",
    ),
    // an EMPTY geometry isn't skipped
    (
        &["-a", "v", "-i", "-te", "0", "0", "2", "1", "-tr", "1", "1"],
        EMPTY_FIRST,
        b"ncols 2\nnrows 1\nxllcorner 0\nyllcorner 0\ncellsize 1\n0 7\n",
    ),
    (
        &[
            "-a", "v", "-i", "-add", "-init", "10", "-te", "0", "0", "2", "1", "-tr", "1", "1",
        ],
        EMPTY_FIRST,
        b"ncols 2\nnrows 1\nxllcorner 0\nyllcorner 0\ncellsize 1\n10 17\n",
    ),
    // values are held at the ends of the type
    (
        &[
            "-burn",
            "300",
            "-init",
            "-5",
            "-a_nodata",
            "999",
            "-ot",
            "Byte",
            "-te",
            "0",
            "0",
            "2",
            "1",
            "-tr",
            "1",
            "1",
        ],
        UNIT,
        b"ncols 2\nnrows 1\nxllcorner 0\nyllcorner 0\ncellsize 1\nNODATA_value 255\n255 0\n",
    ),
    (
        &[
            "-burn", "-40000", "-init", "40000", "-ot", "Int16", "-te", "0", "0", "2", "1", "-tr",
            "1", "1",
        ],
        UNIT,
        b"ncols 2\nnrows 1\nxllcorner 0\nyllcorner 0\ncellsize 1\n-32768 32767\n",
    ),
    (
        &[
            "-burn",
            "3000000000",
            "-add",
            "-ot",
            "Int32",
            "-init",
            "1",
            "-te",
            "0",
            "0",
            "2",
            "1",
            "-tr",
            "1",
            "1",
        ],
        UNIT,
        b"ncols 2\nnrows 1\nxllcorner 0\nyllcorner 0\ncellsize 1\n2147483647 1\n",
    ),
];

// Half of a square of nine cells, cut along its diagonal.
const TRIANGLE: &[u8] = b"WKT\n\"POLYGON ((0 0,3 0,0 3,0 0))\"\n";

// Over no centre, and within the second cell but for a corner of it.
const SLIVER: &[u8] = b"WKT\n\"POLYGON ((1 0,1.1 0.3,1.2 0.2,1 0))\"\n";

// Options with `-at` and without, a source, and what is written of it.
const TOUCHED: [(&[&str], &[u8], &[u8]); 8] = [
    (
        &["-burn", "1", "-te", "0", "0", "3", "3", "-ts", "3", "3"],
        TRIANGLE,
        b"ncols 3\nnrows 3\nxllcorner 0\nyllcorner 0\ncellsize 1\n0 0 0\n1 0 0\n1 1 0\n",
    ),
    (
        &[
            "-burn", "1", "-at", "-te", "0", "0", "3", "3", "-ts", "3", "3",
        ],
        TRIANGLE,
        b"ncols 3\nnrows 3\nxllcorner 0\nyllcorner 0\ncellsize 1\n1 0 0\n1 1 0\n1 1 1\n",
    ),
    (
        &[
            "-burn", "1", "-at", "-i", "-te", "0", "0", "3", "3", "-ts", "3", "3",
        ],
        TRIANGLE,
        b"ncols 3\nnrows 3\nxllcorner 0\nyllcorner 0\ncellsize 1\n0 1 1\n0 0 1\n0 0 0\n",
    ),
    (
        &[
            "-burn", "1", "-at", "-te", "0", "0", "3", "3", "-ts", "3", "3",
        ],
        SQUARE,
        b"ncols 3\nnrows 3\nxllcorner 0\nyllcorner 0\ncellsize 1\n1 1 1\n1 1 1\n1 1 1\n",
    ),
    // along the edges of cells all touched is the centre rule
    (
        &[
            "-a", "DN", "-at", "-te", "0", "0", "4", "4", "-ts", "4", "4", "-init", "0",
        ],
        TWO_HOLES,
        b"ncols 4\nnrows 4\nxllcorner 0\nyllcorner 0\ncellsize 1\n1 1 1 1\n1 2 1 1\n1 1 2 1\n1 1 1 1\n",
    ),
    // a cell is added to once, however many edges meet it
    (
        &["-a", "v", "-at", "-add", "-ot", "Byte", "-ts", "3", "3"],
        OVERLAP,
        b"ncols 3\nnrows 3\nxllcorner 0\nyllcorner 0\ncellsize 1\n0 100 100\n200 255 100\n200 200 0\n",
    ),
    (
        &[
            "-burn", "1", "-at", "-add", "-te", "0", "0", "3", "1", "-ts", "3", "1",
        ],
        SLIVER,
        b"ncols 3\nnrows 1\nxllcorner 0\nyllcorner 0\ncellsize 1\n0 1 0\n",
    ),
    (
        &["-burn", "1", "-te", "0", "0", "3", "1", "-ts", "3", "1"],
        SLIVER,
        b"ncols 3\nnrows 1\nxllcorner 0\nyllcorner 0\ncellsize 1\n0 0 0\n",
    ),
];

// Options, a source that is refused, the status and the line.
const REFUSED: [(&[&str], &[u8], Status, &[u8]); 23] = [
    (
        &["-a", "DN", "-te", "0", "0", "1", "1", "-ts", "1", "1"],
        b"WKT,DN\n\"POLYGON ((0 0,1 0,1 1,0 1,0 0))\",1\n,7\n\"POLYGON ((0 0,1 0,1 1,0 1))\",2\n",
        Status::BadInput,
        b"in.csv: record 3: open ring at byte 26\n",
    ),
    (
        &["-a", "height", "-te", "0", "0", "1", "1", "-ts", "1", "1"],
        UNIT,
        Status::BadInput,
        b"in.csv: no such field\n",
    ),
    (
        &["-burn", "1", "-te", "0", "0", "2", "1", "-ts", "1", "1"],
        SQUARE,
        Status::BadInput,
        b"frame: not square\n",
    ),
    (
        &[
            "-burn", "1", "-te", "0", "0", "1", "1", "-ts", "5000", "5000",
        ],
        SQUARE,
        Status::TooLarge,
        b"frame: too large: 25000000\n",
    ),
    (
        &["-burn", "1", "-te", "1", "0", "1", "1", "-ts", "1", "1"],
        SQUARE,
        Status::BadInput,
        b"frame: bad size\n",
    ),
    (
        &[
            "-burn",
            "1",
            "-te",
            "-40000000",
            "-40000000",
            "40000000",
            "40000000",
            "-ts",
            "1",
            "1",
        ],
        SQUARE,
        Status::BadInput,
        b"frame: out of range\n",
    ),
    (
        &[
            "-burn",
            "1",
            "-te",
            "0",
            "0",
            "0.0000000001",
            "0.0000000001",
            "-ts",
            "4",
            "4",
        ],
        SQUARE,
        Status::BadInput,
        b"frame: bad cell\n",
    ),
    (
        &["-burn", "1", "-ts", "1", "1"],
        b"WKT,DN\n",
        Status::BadInput,
        b"in.csv: no extent\n",
    ),
    // a record that isn't a polygon is told before the frame, also where its feature would be skipped
    (
        &["-a", "v", "-te", "0", "0", "1", "1", "-ts", "1", "1"],
        b"WKT,v\nPOINT EMPTY,7\nPOINT (1 2),8\n",
        Status::BadInput,
        b"in.csv: record 2: not a polygon\n",
    ),
    (
        &["-a", "v", "-te", "1", "0", "1", "1", "-ts", "1", "1"],
        b"WKT,v\n\"LINESTRING (1 2,3 4)\",\n",
        Status::BadInput,
        b"in.csv: record 1: not a polygon\n",
    ),
    // but behind a record that is refused
    (
        &["-a", "v", "-te", "1", "0", "1", "1", "-ts", "1", "1"],
        b"WKT,v\nMULTIPOINT (1 2),8\nPOINT EMPTY,x\n",
        Status::BadInput,
        b"in.csv: record 2: bad attribute\n",
    ),
    (
        &["-burn", "1", "-ts", "1", "1"],
        b"",
        Status::BadInput,
        b"in.csv: no header\n",
    ),
    (
        &["-burn", "1", "-ts", "1", "1"],
        b"v,geometry\n",
        Status::BadInput,
        b"in.csv: no geometry column\n",
    ),
    // the attribute may be the geometry column, whose text is no number
    (
        &["-a", "WKT", "-ts", "1", "1"],
        UNIT,
        Status::BadInput,
        b"in.csv: record 1: bad attribute\n",
    ),
    (
        &["-burn", "1", "-ts", "1", "1"],
        b"WKT\nCIRCLE (0 0)\n",
        Status::BadInput,
        b"in.csv: record 1: unknown kind at byte 1\n",
    ),
    (
        &["-burn", "1", "-ts", "1", "1"],
        b"WKT\nPOINT Z (1 2 3)\n",
        Status::BadInput,
        b"in.csv: record 1: bad dimension at byte 7\n",
    ),
    (
        &["-burn", "1", "-ts", "1", "1"],
        b"WKT\nPOINT 1\n",
        Status::BadInput,
        b"in.csv: record 1: bad syntax at byte 7\n",
    ),
    (
        &["-burn", "1", "-ts", "1", "1"],
        b"WKT\nPOINT (x 2)\n",
        Status::BadInput,
        b"in.csv: record 1: bad number at byte 8\n",
    ),
    (
        &["-burn", "1", "-ts", "1", "1"],
        b"WKT\nPOINT (0 40000001)\n",
        Status::BadInput,
        b"in.csv: record 1: out of range at byte 10\n",
    ),
    (
        &["-burn", "1", "-ts", "1", "1"],
        b"WKT\n\"POLYGON ((0 0,1 0,0 0))\"\n",
        Status::BadInput,
        b"in.csv: record 1: short ring at byte 22\n",
    ),
    // without an extent no frame is made
    (
        &["-burn", "1", "-ts", "5000", "5000"],
        b"WKT\nPOLYGON EMPTY\n",
        Status::BadInput,
        b"in.csv: no extent\n",
    ),
    (
        &["-burn", "1", "-ts", "1", "1"],
        b"WKT\nMULTILINESTRING EMPTY\nMULTIPOLYGON EMPTY\n",
        Status::BadInput,
        b"in.csv: no extent\n",
    ),
    (
        &["-burn", "1", "-ts", "1", "1"],
        b"WKT\nMULTILINESTRING ((0 0))\n",
        Status::BadInput,
        b"in.csv: record 1: not a polygon\n",
    ),
];

fn folder_with(alloc: Global, source: &[u8]) -> Result<MemoryFolder, AllocError> {
    let mut folder = MemoryFolder::new(alloc);
    folder.put_file("in.csv", source)?;
    folder.put_file("out.asc", b"other")?;
    Ok(folder)
}

const WORDS: [&str; 3] = ["gdal_rasterize", "in.csv", "out.asc"];

// The words are obeyed, and this is what they write.
fn writes(alloc: Global, options: &[&str], source: &[u8], dest: &[u8]) -> Result<bool, Fail> {
    let ran = run_with(
        alloc,
        &WORDS,
        options,
        folder_with(alloc, source)?,
        MemorySink::new(alloc),
    )?;
    Ok(
        ran.status == Status::Done
            && ran.has("out.asc", Some(dest))
            && ran.has("in.csv", Some(source))
            && ran.said(b""),
    )
}

#[test]
fn polygons_are_burned(rt: HostRuntime) -> Result<(), Fail> {
    for (options, source, dest) in BURNED {
        assert!(rt; writes(rt.alloc(), options, source, dest)?);
    }
    Ok(())
}

#[test]
fn cells_that_polygons_touch_are_burned(rt: HostRuntime) -> Result<(), Fail> {
    for (options, source, dest) in TOUCHED {
        assert!(rt; writes(rt.alloc(), options, source, dest)?);
    }
    Ok(())
}

#[test]
fn the_first_refusal_is_told(rt: HostRuntime) -> Result<(), Fail> {
    let alloc = rt.alloc();
    for (options, source, status, line) in REFUSED {
        let ran = run_with(
            alloc,
            &WORDS,
            options,
            folder_with(alloc, source)?,
            MemorySink::new(alloc),
        )?;
        assert_eq!(rt; ran.status, status);
        assert!(rt; ran.said(line));
        assert!(rt; ran.has("in.csv", Some(source)));
        assert!(rt; ran.has("out.asc", Some(b"other")));
    }
    Ok(())
}

#[test]
fn faults_of_files_are_told(rt: HostRuntime) -> Result<(), Fail> {
    let alloc = rt.alloc();
    let words = [
        "gdal_rasterize",
        "-burn",
        "1",
        "-ts",
        "3",
        "3",
        "in.csv",
        "out.asc",
    ];
    let examples: [(Call, Status, &[u8], &[u8]); 3] = [
        (
            Call::Read,
            Status::ReadFault,
            b"in.csv: read failed\n",
            b"other",
        ),
        (
            Call::Create,
            Status::WriteFault,
            b"out.asc: write failed\n",
            b"other",
        ),
        (
            Call::Append,
            Status::WriteFault,
            b"out.asc: write failed\n",
            b"",
        ),
    ];
    for (call, status, line, dest) in examples {
        let mut folder = folder_with(alloc, OVERLAP)?;
        folder.fail(call, 1)?;
        let ran = run_over(alloc, &words, folder)?;
        assert_eq!(rt; ran.status, status);
        assert!(rt; ran.said(line));
        assert!(rt; ran.has("out.asc", Some(dest)));
    }
    let ran = run_over(alloc, &words, MemoryFolder::new(alloc))?;
    assert_eq!(rt; ran.status, Status::Missing);
    assert!(rt; ran.said(b"in.csv: no such file\n"));
    assert!(rt; ran.has("out.asc", None));
    Ok(())
}
