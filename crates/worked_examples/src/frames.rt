// Frames. Each example is an extent's edges, two more numbers and the answer.
use fixed_coord::Coord;
use geo_transform::{Extent, Frame, FrameFault};
use std::alloc::Global;
use std::test::Fail;

// columns and rows
const BY_SIZE: &str = "0 0 2 1 1 1 NotSquare
0 0 1 1 5000 5000 TooLarge(25000000)
1 0 1 1 1 1 BadSize
1 0 1 1 5000 5000 BadSize
0 0 1 1 0 1 BadSize
0 0 1e-10 1 3 1 BadCell
-40000000 -40000000 40000000 40000000 1 1 OutOfRange
-40000000 -40000000 40000000 40000000 2 2 2x2,-400000000000000000,-400000000000000000,400000000000000000
0 0 10 5 4 2 4x2,0,0,25000000000";

// the cell's width and height
const BY_CELL: &str = "0 0 5 3 2 2 3x2,0,-10000000000,20000000000
0 0 10 5.2 4 4 3x1,0,12000000000,40000000000
0 0 10 5.2 30 30 1x1,0,-248000000000,300000000000
0 0 10 5.2 1 4 NotSquare
0 0 10 5 1e-10 1 TooLarge(500000000000)
0 0 0 5 1e-10 1 BadSize
-40000000 -40000000 40000000 40000000 30000000 30000000 OutOfRange";

// columns and rows, the left and the lower edge, and the cell's size
const BY_NUMBERS: &str = "0 3 0 0 0 BadSize
4097 4096 0 0 0 TooLarge(16781312)
4096 4096 0 0 0 BadCell
1 1 40000000 0 1 OutOfRange
1 2 0 39999999 1 OutOfRange
3 2 -1.5 0 0.5 3x2,-15000000000,0,5000000000";

/// A word of an example, by its number.
fn word<'a>(example: &'a str, at: usize) -> Result<&'a str, Fail> {
    Ok(example.split(' ').nth(at).ok_or("a word")?)
}

fn coordinate(example: &str, at: usize) -> Result<Coord, Fail> {
    Ok(
        Coord::read(word(example, at)?.as_bytes())
            .ok()
            .ok_or("a coordinate")?,
    )
}

fn count(example: &str, at: usize) -> Result<u32, Fail> {
    Ok(word(example, at)?.parse().ok().ok_or("a count")?)
}

fn extent(example: &str) -> Result<Extent, Fail> {
    Ok(Extent {
        xmin: coordinate(example, 0)?,
        ymin: coordinate(example, 1)?,
        xmax: coordinate(example, 2)?,
        ymax: coordinate(example, 3)?,
    })
}

/// The columns and rows, the left and the lower edge and the cell's size of a frame, or its fault.
fn shown(alloc: Global, answer: Result<Frame, FrameFault>) -> Result<String, Fail> {
    Ok(match answer {
        Ok(f) => format!(in alloc;
            "{}x{},{},{},{}",
            f.ncols,
            f.nrows,
            f.xll.units(),
            f.yll.units(),
            f.cell.units()
        )?,
        Err(fault) => format!(in alloc; "{fault:?}")?,
    })
}

#[test]
fn cuts_by_size(rt: HostRuntime) -> Result<(), Fail> {
    for example in BY_SIZE.lines() {
        let answer = Frame::from_extent_size(
            &extent(example)?,
            count(example, 4)?,
            count(example, 5)?,
        );
        assert!(rt;
            shown(rt.alloc(), answer)?.as_str() == word(example, 6)?,
            "{example}"
        );
    }
    Ok(())
}

#[test]
fn cuts_by_cells(rt: HostRuntime) -> Result<(), Fail> {
    for example in BY_CELL.lines() {
        let width = coordinate(example, 4)?;
        let height = coordinate(example, 5)?;
        assert!(rt; width.units() > 0);
        assert!(rt; height.units() > 0);
        let answer = Frame::from_extent_cell(&extent(example)?, width, height);
        assert!(rt;
            shown(rt.alloc(), answer)?.as_str() == word(example, 6)?,
            "{example}"
        );
    }
    Ok(())
}

#[test]
fn makes_frames(rt: HostRuntime) -> Result<(), Fail> {
    for example in BY_NUMBERS.lines() {
        let answer = Frame::make(
            count(example, 0)?,
            count(example, 1)?,
            coordinate(example, 2)?,
            coordinate(example, 3)?,
            coordinate(example, 4)?,
        );
        assert!(rt;
            shown(rt.alloc(), answer)?.as_str() == word(example, 5)?,
            "{example}"
        );
    }
    Ok(())
}

#[test]
fn places_corners(rt: HostRuntime) -> Result<(), Fail> {
    let example = "0 0 5 3";
    let two = Coord::from_units(20_000_000_000).ok_or("two")?;
    assert!(rt; two.units() > 0);
    let Ok(frame) = Frame::from_extent_cell(&extent(example)?, two, two) else {
        return Err(Fail::from("no frame"));
    };
    assert!(rt; frame.ncols == 3);
    assert!(rt; frame.nrows == 2);
    let (x, y) = frame.corner(0, 1);
    assert!(rt; (x.units(), y.units()) == (20_000_000_000, 30_000_000_000));
    let (x, y) = frame.corner(2, 3);
    assert!(rt; (x.units(), y.units()) == (60_000_000_000, -10_000_000_000));
    assert!(rt; frame.centre2(0, 0) == (20_000_000_000, 40_000_000_000));
    assert!(rt; frame.centre2(1, 2) == (100_000_000_000, 0));
    Ok(())
}
