// Runs over real files.
use rv_outside::{HostFolder, MemorySink};
use std::alloc::{AllocError, Global};
use std::fs;
use std::test::Fail;
use tool_run::{Status, Words, run};

// A grid of more than one block and of more than one piece, in another spelling and in the canonical one.
// The cells are spelled here digit by digit, so that no expected byte comes from the program.
const SIDE: u32 = 600;

fn push_cell(value: u32, padded: bool, text: &mut Vec<u8>) -> Result<(), AllocError> {
    let digits = [
        value / 10_000 % 10,
        value / 1_000 % 10,
        value / 100 % 10,
        value / 10 % 10,
        value % 10,
    ];
    let mut spelled = padded;
    for digit in digits {
        spelled = spelled || digit != 0;
        if spelled {
            text.push(b'0' + digit as u8)?;
        }
    }
    if !spelled {
        text.push(b'0')?;
    }
    Ok(())
}

fn large_grid(
    alloc: Global,
    header: &[u8],
    padded: bool,
    line_end: &[u8],
) -> Result<Vec<u8>, AllocError> {
    let mut text = Vec::from_slice(alloc, header)?;
    for row in 0..SIDE {
        for col in 0..SIDE {
            push_cell((row * 257 + col * 31) % 90_001, padded, &mut text)?;
            if col + 1 < SIDE {
                text.push(b' ')?;
            }
        }
        text.extend_from_slice(line_end)?;
    }
    Ok(text)
}

fn sieved_on_disk(
    rt: &HostRuntime,
    alloc: Global,
    source: &str,
    dest: &str,
) -> Result<Status, Fail> {
    let mut words = Words::new(alloc);
    for word in ["gdal_sieve", "-st", "1", source, dest] {
        words.push(word)?;
    }
    let mut folder = HostFolder::new(rt, alloc);
    let mut out = MemorySink::new(alloc);
    let mut err = MemorySink::new(alloc);
    Ok(run(alloc, &words, &mut folder, &mut out, &mut err))
}

#[test]
fn a_large_grid_goes_through_real_files(rt: HostRuntime) -> Result<(), Fail> {
    let alloc = rt.alloc();
    let spelled = large_grid(
        alloc,
        b"ncols 600\r\nnrows 600\r\nxllcorner 0\r\nyllcorner 0\r\ncellsize 01\r\n",
        true,
        b"\r\n",
    )?;
    let canonical = large_grid(
        alloc,
        b"ncols 600\nnrows 600\nxllcorner 0\nyllcorner 0\ncellsize 1\n",
        false,
        b"\n",
    )?;
    assert!(rt; spelled.len() > 2_000_000);
    fs::write(&rt, "grid.asc", spelled.as_slice())?;
    assert_eq!(rt;
        sieved_on_disk(&rt, alloc, "grid.asc", "made.asc")?,
        Status::Done
    );
    assert!(rt; fs::read(&rt, "made.asc")?.as_slice() == canonical.as_slice());
    assert!(rt; fs::read(&rt, "grid.asc")?.as_slice() == spelled.as_slice());
    assert_eq!(rt;
        sieved_on_disk(&rt, alloc, "grid.asc", "grid.asc")?,
        Status::Done
    );
    assert!(rt; fs::read(&rt, "grid.asc")?.as_slice() == canonical.as_slice());
    Ok(())
}
