// Grids that are made, polygonized and burned back.
ghost use Rattle.std.specs.Prelude.{None};
ghost use Rattle.rv_outside.specs.Folder.{FolderState};
ghost use Rattle.rv_outside.specs.MemoryFolder.{memory_state};

use crate::running::{GRID, folder_with, run_into, words_of};
use cell_base::CellKind;
use rv_outside::{Folder, MemoryFolder, MemorySink, SureFolder, Taken, Trouble};
use std::alloc::{AllocError, Global};
use std::test::Fail;
use tool_run::{CheckJob, Status, check_runs, run};

const SMALL: CheckJob = CheckJob {
    seed: 1,
    width: 3,
    height: 2,
    values: 2,
    kind: CellKind::Int64,
};

const SMALL_GRID: &[u8] = b"ncols 3\nnrows 2\nxllcorner 0\nyllcorner 0\ncellsize 1\n0 0 1\n1 1 1\n";

const SMALL_LAYER: &[u8] =
    b"WKT,DN\n\"POLYGON ((0 2,0 1,2 1,2 2,0 2))\",0\n\"POLYGON ((2 2,2 1,0 1,0 0,3 0,3 2,2 2))\",1\n";

const ZEROS: &[u8] = b"ncols 3\nnrows 2\nxllcorner 0\nyllcorner 0\ncellsize 1\n0 0 0\n0 0 0\n";

// Words of check, and what each prints. The numbers of the larger grids are those of a labelling and a tracing that were
// written apart from this program.
const PRINTED: [(&[&str], &[u8]); 7] = [
    (
        &["check", "1", "3", "2", "2"],
        b"cells 6\npolygons 2\nlayer 87\nsame\n",
    ),
    (
        &["check", "1", "3", "2", "2", "-ot", "Byte"],
        b"cells 6\npolygons 2\nlayer 87\nsame\n",
    ),
    (
        &["check", "-ot", "int16", "-q", "7", "100", "100", "2"],
        b"cells 10000\npolygons 1427\nlayer 123292\nsame\n",
    ),
    (
        &["check", "12345", "40", "30", "3"],
        b"cells 1200\npolygons 487\nlayer 24584\nsame\n",
    ),
    (
        &["check", "2147483647", "17", "9", "256", "-ot", "byte"],
        b"cells 153\npolygons 152\nlayer 6042\nsame\n",
    ),
    (
        &["check", "7", "1", "1", "256", "-ot", "Int32"],
        b"cells 1\npolygons 1\nlayer 45\nsame\n",
    ),
    (
        &["check", "0", "5", "1", "3"],
        b"cells 5\npolygons 3\nlayer 115\nsame\n",
    ),
];

// Each twice: a run depends on nothing else.
#[test]
fn check_says_how_much_came_back(rt: HostRuntime) -> Result<(), Fail> {
    let alloc = rt.alloc();
    for (given, text) in PRINTED {
        for _ in 0..2 {
            let words = words_of(alloc, given, &[])?;
            let ran = run_into(
                alloc,
                &words,
                folder_with(alloc, GRID)?,
                MemorySink::new(alloc),
                MemorySink::new(alloc),
            )?;
            assert_eq!(rt; ran.status, Status::Done);
            assert!(rt; ran.printed(text));
            assert!(rt; ran.has("src.asc", Some(GRID)));
            assert!(rt; ran.has("grid.asc", None));
            assert!(rt; ran.has("layer.csv", None));
            assert!(rt; ran.has("back.asc", None));
        }
    }
    Ok(())
}

#[test]
fn a_grid_of_too_many_cells_is_not_made(rt: HostRuntime) -> Result<(), Fail> {
    let alloc = rt.alloc();
    let words = words_of(alloc, &["check", "1", "5000", "5000", "2"], &[])?;
    let ran = run_into(
        alloc,
        &words,
        MemoryFolder::new(alloc),
        MemorySink::new(alloc),
        MemorySink::new(alloc),
    )?;
    assert_eq!(rt; ran.status, Status::TooLarge);
    assert!(rt; ran.said(b"frame: too large: 25000000\n"));
    Ok(())
}

#[test]
fn a_failed_output_is_told(rt: HostRuntime) -> Result<(), Fail> {
    let alloc = rt.alloc();
    let words = words_of(alloc, &["check", "1", "3", "2", "2"], &[])?;
    let mut out = MemorySink::new(alloc);
    out.fail(1)?;
    let ran = run_into(
        alloc,
        &words,
        MemoryFolder::new(alloc),
        out,
        MemorySink::new(alloc),
    )?;
    assert_eq!(rt; ran.status, Status::WriteFault);
    assert!(rt; ran.said(b"output: write failed\n"));
    Ok(())
}

#[test]
fn check_leaves_three_files(rt: HostRuntime) -> Result<(), Fail> {
    let alloc = rt.alloc();
    let mut work = SureFolder::new(alloc);
    let polygons = check_runs(alloc, &SMALL, &mut work);
    assert!(rt; matches!(polygons, Ok(2)));
    assert!(rt; work.file("grid.asc") == Some(SMALL_GRID));
    assert!(rt; work.file("layer.csv") == Some(SMALL_LAYER));
    assert!(rt; work.file("back.asc") == Some(SMALL_GRID));
    Ok(())
}

// A folder that tells no files, and hands out another layer wherever the layer is read.
#[derive(Drop)]
struct OtherLayer {
    under: MemoryFolder,
}

impl OtherLayer {
    fn new(alloc: Global) -> Result<OtherLayer, AllocError> {
        let mut under = MemoryFolder::new(alloc);
        under.put_file("other.csv", b"WKT,DN\n")?;
        Ok(OtherLayer { under })
    }
}

impl Folder for OtherLayer {
    ghost state = { λ folder. record {
      files = None;
      read_faults = (memory_state folder.under).read_faults;
      write_faults = (memory_state folder.under).write_faults;
      missing = (memory_state folder.under).missing;
    } };

    fn read_at(&mut self, name: &str, offset: u64, into: &mut [u8]) -> Result<Taken, Trouble> {
        let name = if name == "layer.csv" {
            "other.csv"
        } else {
            name
        };
        self.under.read_at(name, offset, into)
    }

    fn create(&mut self, name: &str) -> Result<(), Trouble> {
        self.under.create(name)
    }

    // An append to no file never comes: a file is made before it is added to.
    fn append(&mut self, name: &str, piece: &[u8]) -> Result<usize, Trouble> {
        if self.under.file(name).is_none() {
            return Err(Trouble::NoMemory);
        }
        self.under.append(name, piece)
    }
}

// What comes back is what was read of the layer.
#[test]
fn the_layer_that_is_read_is_burned(rt: HostRuntime) -> Result<(), Fail> {
    let alloc = rt.alloc();
    let mut work = OtherLayer::new(alloc)?;
    let polygons = check_runs(alloc, &SMALL, &mut work);
    assert!(rt; matches!(polygons, Ok(2)));
    assert!(rt; work.under.file("grid.asc") == Some(SMALL_GRID));
    assert!(rt; work.under.file("layer.csv") == Some(SMALL_LAYER));
    assert!(rt; work.under.file("back.asc") == Some(ZEROS));
    Ok(())
}

#[test]
fn a_folder_that_never_fails_serves_a_run(rt: HostRuntime) -> Result<(), Fail> {
    let alloc = rt.alloc();
    let words = words_of(
        alloc,
        &["gdal_sieve", "-st", "1", "src.asc", "dst.asc"],
        &[],
    )?;
    let mut folder = SureFolder::new(alloc);
    folder.put_file("src.asc", GRID)?;
    let mut out = MemorySink::new(alloc);
    let mut err = MemorySink::new(alloc);
    let status = run(alloc, &words, &mut folder, &mut out, &mut err);
    assert_eq!(rt; status, Status::Done);
    assert!(rt; folder.file("dst.asc") == Some(GRID));
    assert!(rt; out.bytes().is_empty() && err.bytes().is_empty());
    Ok(())
}
