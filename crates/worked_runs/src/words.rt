// Words that are refused, and a source that is missing.
use crate::running::{GRID, folder_with, run_over};
use std::test::Fail;
use tool_run::Status;

// Words that are refused, and the line of each.
const REFUSED_WORDS: [(&[&str], &[u8]); 17] = [
    (&[], b"gdal_tools: no tool at word 1\n"),
    (&["gdal_warp"], b"gdal_tools: unknown tool at word 1\n"),
    (&["gdal_sieve"], b"gdal_tools: missing name at word 2\n"),
    (
        &["gdal_sieve", "-st"],
        b"gdal_tools: missing value at word 2\n",
    ),
    (
        &["gdal_sieve", "-st", "a", "b"],
        b"gdal_tools: bad value at word 3\n",
    ),
    (
        &["gdal_sieve", "a"],
        b"gdal_tools: missing name at word 3\n",
    ),
    (
        &["gdal_sieve", "a", "b", "c"],
        b"gdal_tools: extra word at word 4\n",
    ),
    (
        &["gdal_sieve", "-mask", "m", "a", "b"],
        b"gdal_tools: unknown option at word 2\n",
    ),
    (
        &["gdal_sieve", "-st", "2147483648", "a", "b"],
        b"gdal_tools: bad value at word 3\n",
    ),
    (
        &["gdal_sieve", "-st", "-1", "a", "b"],
        b"gdal_tools: bad value at word 3\n",
    ),
    (
        &[
            "gdal_rasterize",
            "-te",
            "0",
            "0",
            "x",
            "1",
            "-ts",
            "1",
            "1",
            "-burn",
            "1",
            "a",
            "b",
        ],
        b"gdal_tools: bad value at word 5\n",
    ),
    // the words that -te takes are missing, though the first of them is out of form
    (
        &["gdal_rasterize", "-te", "x", "0"],
        b"gdal_tools: missing value at word 2\n",
    ),
    (
        &["gdal_rasterize", "-ts", "1", "1", "a", "b"],
        b"gdal_tools: bad combination at word 7\n",
    ),
    (
        &["gdal_polygonize", "a", "b", "lay", "wkt"],
        b"gdal_tools: bad value at word 5\n",
    ),
    (
        &["gdal_contour", "-zz", "a", "b"],
        b"gdal_tools: unknown option at word 2\n",
    ),
    (
        &["gdal_contour", "-fl", "a", "b"],
        b"gdal_tools: missing value at word 2\n",
    ),
    (
        &["gdal_contour", "a", "b"],
        b"gdal_tools: bad combination at word 4\n",
    ),
];

#[test]
fn the_first_fault_of_the_words_is_told(rt: HostRuntime) -> Result<(), Fail> {
    let alloc = rt.alloc();
    for (words, line) in REFUSED_WORDS {
        let ran = run_over(alloc, words, folder_with(alloc, GRID)?)?;
        assert_eq!(rt; ran.status, Status::Usage);
        assert!(rt; ran.said(line));
        assert!(rt; ran.has("src.asc", Some(GRID)));
        assert!(rt; ran.has("dst.asc", None));
    }
    Ok(())
}

#[test]
fn a_source_that_is_missing_is_told(rt: HostRuntime) -> Result<(), Fail> {
    let alloc = rt.alloc();
    let words = ["gdal_sieve", "-st", "1", "nosuch.asc", "dst.asc"];
    let ran = run_over(alloc, &words, folder_with(alloc, GRID)?)?;
    assert_eq!(rt; ran.status, Status::Missing);
    assert!(rt; ran.said(b"nosuch.asc: no such file\n"));
    assert!(rt; ran.has("src.asc", Some(GRID)));
    assert!(rt; ran.has("dst.asc", None));
    Ok(())
}
