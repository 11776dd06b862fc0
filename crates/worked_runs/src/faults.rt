// Files and sinks that fail.
use crate::running::{GRID, folder_with, run_over, run_with};
use rv_outside::{Call, MemorySink};
use std::test::Fail;
use tool_run::Status;

const SIEVE: [&str; 5] = ["gdal_sieve", "-st", "1", "src.asc", "dst.asc"];

#[test]
fn the_first_failed_call_ends_the_run(rt: HostRuntime) -> Result<(), Fail> {
    let alloc = rt.alloc();
    let examples: [(Call, u64, Status, &[u8], Option<&[u8]>); 4] = [
        (
            Call::Read,
            1,
            Status::ReadFault,
            b"src.asc: read failed\n",
            None,
        ),
        (
            Call::Read,
            2,
            Status::ReadFault,
            b"src.asc: read failed\n",
            None,
        ),
        (
            Call::Create,
            1,
            Status::WriteFault,
            b"dst.asc: write failed\n",
            None,
        ),
        (
            Call::Append,
            1,
            Status::WriteFault,
            b"dst.asc: write failed\n",
            Some(b""),
        ),
    ];
    for (call, n, status, line, dest) in examples {
        let mut folder = folder_with(alloc, GRID)?;
        folder.fail(call, n)?;
        let ran = run_over(alloc, &SIEVE, folder)?;
        assert_eq!(rt; ran.status, status);
        assert!(rt; ran.said(line));
        assert!(rt; ran.has("dst.asc", dest));
        assert!(rt; ran.has("src.asc", Some(GRID)));
    }
    Ok(())
}

#[test]
fn a_failing_sink_changes_no_status(rt: HostRuntime) -> Result<(), Fail> {
    let alloc = rt.alloc();
    let examples: [(u64, &[u8]); 2] = [(1, b""), (2, b"nosuch.asc")];
    for (n, said) in examples {
        let mut err = MemorySink::new(alloc);
        err.fail(n)?;
        let words = ["gdal_sieve", "-st", "1", "nosuch.asc", "dst.asc"];
        let ran = run_with(alloc, &words, &[], folder_with(alloc, GRID)?, err)?;
        assert_eq!(rt; ran.status, Status::Missing);
        assert!(rt; ran.said(said));
    }
    Ok(())
}

#[test]
fn a_layer_that_cannot_be_written_is_told(rt: HostRuntime) -> Result<(), Fail> {
    let alloc = rt.alloc();
    let mut folder = folder_with(alloc, GRID)?;
    folder.fail(Call::Append, 1)?;
    let words = ["gdal_polygonize", "src.asc", "p.csv"];
    let ran = run_over(alloc, &words, folder)?;
    assert_eq!(rt; ran.status, Status::WriteFault);
    assert!(rt; ran.said(b"p.csv: write failed\n"));
    assert!(rt; ran.has("p.csv", Some(b"")));
    Ok(())
}
