// The edges that tell nothing of what they hold, real files and a writer, compared by the system's own calls; and
// folders in memory.
use asc_grid::{read_grid, write_grid};
use rv_outside::{
    FetchFault, Folder, HostFolder, MemoryFolder, MemorySink, StdSink, SureFolder, Taken,
    append_all, read_whole, say,
};
use std::alloc::Global;
use std::fs;
use std::process::Abort;
use std::test::Fail;

#[test]
fn a_real_file_holds_what_was_appended_and_nothing_else(rt: HostRuntime) -> Result<(), Fail> {
    let alloc = rt.alloc();
    let mut folder = HostFolder::new(&rt, alloc);
    assert!(rt;
        matches!(
            read_whole(alloc, &mut folder, "nosuch.txt"),
            Err(FetchFault::Missing)
        )
    );
    for text in [b"first\n".as_slice(), b"second line\n".as_slice()] {
        assert!(rt; folder.create("a.txt").is_ok());
        assert!(rt; append_all(&mut folder, "a.txt", text).is_ok());
        assert!(rt; append_all(&mut folder, "a.txt", b"more\n").is_ok());
        let mut whole = Vec::from_slice(alloc, text)?;
        whole.extend_from_slice(b"more\n")?;
        assert!(rt; fs::read(&rt, "a.txt")?.as_slice() == whole.as_slice());
        let read = read_whole(alloc, &mut folder, "a.txt");
        assert!(rt; matches!(&read, Ok(bytes) if bytes.as_slice() == whole.as_slice()));
    }
    assert!(rt; matches!(read_whole(alloc, &mut folder, "."), Err(FetchFault::Fault)));
    assert!(rt; folder.create("nosuch/b.txt").is_err());
    Ok(())
}

#[test]
fn a_real_file_is_read_from_any_offset(rt: HostRuntime) -> Result<(), Fail> {
    let alloc = rt.alloc();
    fs::write(&rt, "a.txt", "0123456789")?;
    fs::write(&rt, "b.txt", "abcdefghij")?;
    let mut folder = HostFolder::new(&rt, alloc);
    let examples: [(&str, u64, &[u8]); 6] = [
        ("a.txt", 0, b"0123"),
        ("a.txt", 4, b"4567"),
        ("a.txt", 1, b"1234"),
        ("b.txt", 5, b"fghi"),
        ("a.txt", 5, b"5678"),
        ("b.txt", 6, b"ghij"),
    ];
    for (name, offset, bytes) in examples {
        let mut block = [0u8; 4];
        assert!(rt;
            matches!(
                folder.read_at(name, offset, &mut block),
                Ok(Taken::Bytes(4))
            )
        );
        assert!(rt; block.as_slice() == bytes);
    }
    let mut block = [0u8; 4];
    assert!(rt; matches!(folder.read_at("a.txt", 10, &mut block), Ok(Taken::End)));
    assert!(rt; folder.append("a.txt", b"xy").is_ok());
    assert!(rt; fs::read(&rt, "a.txt")?.as_slice() == b"0123456789xy".as_slice());
    Ok(())
}

/// What a folder gives that has no file of the second name, whether or not it has one of the first.
fn writes_and_reads<F: Folder>(
    rt: &impl Abort,
    alloc: Global,
    folder: &mut F,
    name: &str,
    no_name: &str,
) -> Result<(), Fail> {
    assert!(rt; folder.create(name).is_ok());
    assert!(rt; matches!(read_whole(alloc, folder, name), Ok(bytes) if bytes.is_empty()));
    assert!(rt; folder.append(name, b"0123456").is_ok());
    assert!(rt; append_all(folder, name, b"789").is_ok());
    let read = read_whole(alloc, folder, name);
    assert!(rt; matches!(&read, Ok(bytes) if bytes.as_slice() == b"0123456789".as_slice()));
    let mut block = [0u8; 4];
    assert!(rt; matches!(folder.read_at(name, 5, &mut block), Ok(Taken::Bytes(4))));
    assert!(rt; block.as_slice() == b"5678".as_slice());
    assert!(rt; matches!(folder.read_at(name, 8, &mut block), Ok(Taken::Bytes(2))));
    assert!(rt; block.as_slice() == b"8978".as_slice());
    assert!(rt; matches!(folder.read_at(name, 10, &mut block), Ok(Taken::End)));
    assert!(rt; matches!(folder.read_at(no_name, 0, &mut block), Ok(Taken::Missing)));
    assert!(rt; matches!(read_whole(alloc, folder, no_name), Err(FetchFault::Missing)));
    Ok(())
}

#[test]
fn a_sure_folder_keeps_its_files(rt: HostRuntime) -> Result<(), Fail> {
    let alloc = rt.alloc();
    let mut folder = SureFolder::new(alloc);
    assert!(rt; folder.file("a.txt").is_none());
    folder.put_file("a.txt", b"first")?;
    folder.put_file("b.txt", b"other")?;
    folder.put_file("a.txt", b"in its place")?;
    assert!(rt; folder.file("a.txt") == Some(b"in its place".as_slice()));
    writes_and_reads(&rt, alloc, &mut folder, "a.txt", "c.txt")?;
    assert!(rt; folder.file("a.txt") == Some(b"0123456789".as_slice()));
    assert!(rt; folder.file("b.txt") == Some(b"other".as_slice()));
    assert!(rt; folder.file("c.txt").is_none());
    Ok(())
}

#[test]
fn a_folder_in_memory_keeps_its_files(rt: HostRuntime) -> Result<(), Fail> {
    let alloc = rt.alloc();
    let mut folder = MemoryFolder::new(alloc);
    folder.put_file("b.txt", b"other")?;
    writes_and_reads(&rt, alloc, &mut folder, "a.txt", "c.txt")?;
    assert!(rt; folder.file("a.txt") == Some(b"0123456789".as_slice()));
    assert!(rt; folder.file("b.txt") == Some(b"other".as_slice()));
    assert!(rt; folder.file("c.txt").is_none());
    Ok(())
}

#[test]
fn a_writer_is_handed_the_whole_text(rt: HostRuntime) -> Result<(), Fail> {
    let alloc = rt.alloc();
    let mut written = Vec::new(alloc);
    let mut sink = StdSink::new(&mut written);
    assert!(rt; say(&mut sink, b"a line\n").is_ok());
    assert!(rt; say(&mut sink, b"").is_ok());
    drop(sink);
    assert!(rt; written.as_slice() == b"a line\n".as_slice());
    Ok(())
}

#[test]
fn a_grid_is_written_at_once(rt: HostRuntime) -> Result<(), Fail> {
    let alloc = rt.alloc();
    let text = b"ncols 2\nnrows 1\nxllcorner -7\nyllcorner 0\ncellsize 3\n-1 20\n";
    let Ok(asc) = read_grid::<i16>(alloc, text) else {
        return Err("no grid".into());
    };
    assert!(rt; asc.frame.ncols == 2 && asc.cells.get(0, 1) == 20);
    let mut out = Vec::from_slice(alloc, b"> ")?;
    write_grid(&asc, &mut out)?;
    assert!(rt;
        out.as_slice()
            == b"> ncols 2\nnrows 1\nxllcorner -7\nyllcorner 0\ncellsize 3\n-1 20\n".as_slice()
    );
    Ok(())
}
