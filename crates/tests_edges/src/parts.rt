//! What no clause says: which parts of real files and of a pipe are read, when a sink over a writer writes, and what
//! each call answers where nothing fails.
use memory_edge::{MemoryShelf, MemorySink};
use std::alloc::{AllocError, Global};
use std::io::{PipeReader, Write};
use std::os::fd::AsRawFd;
use std::process::Abort;
use std::rt::Files;
use std::{fs, io};
use water_edge::{FileShelf, Shelf, ShelfRefused, Sink, SinkFailed, StdSink};

/// Whether a read of a part into the first `room` of seven bytes answers `want`, and leaves the seven as `after`.
fn is_part<S: Shelf>(
    shelf: &mut S,
    name: &str,
    from: u64,
    room: usize,
    want: Result<usize, ShelfRefused>,
    after: &str,
) -> bool
    requires { S.serves shelf.old name.now }
{
    let mut into = [b'.'; 7];
    let answer = shelf.read_part(name, from, &mut into[..room.min(7)]);
    answer == want && into.as_slice() == after.as_bytes()
}

/// A shelf of one file of ten bytes, whose calls of these numbers fail.
fn digits(alloc: Global, failing: Vec<u64>) -> Result<MemoryShelf, AllocError> {
    let name = String::from_str(alloc, "digits")?;
    let mut files = Vec::new(alloc);
    files.push((name, Vec::from_slice(alloc, b"0123456789")?))?;
    Ok(MemoryShelf::new(files, failing))
}

/// A part that is read: of which file, from which index, into how much room, the answer, and what stands there then.
type Part<'a> = (&'a str, u64, usize, Result<usize, ShelfRefused>, &'a str);

/// Fails where a part in memory is read otherwise.
fn expect_in_memory<R: Abort>(rt: &R, shelf: &mut MemoryShelf, parts: &[Part<'_>]) {
    for (name, from, room, want, after) in parts {
        assert!(rt;
            is_part(shelf, name, *from, *room, *want, after),
            "{name} {from} {room}"
        );
    }
}

#[test]
fn memory_shelf_reads_parts(rt: HostRuntime) -> Result<(), AllocError> {
    let parts = [
        ("digits", 0, 1, Ok(1), "0......"),
        ("digits", 0, 2, Ok(2), "01....."),
        ("digits", 0, 7, Ok(7), "0123456"),
        ("digits", 9, 1, Ok(1), "9......"),
        ("digits", 9, 2, Ok(1), "9......"),
        ("digits", 9, 7, Ok(1), "9......"),
        ("digits", 10, 1, Ok(0), "......."),
        ("digits", 10, 2, Ok(0), "......."),
        ("digits", 10, 7, Ok(0), "......."),
        ("digits", 11, 1, Ok(0), "......."),
        ("digits", 11, 2, Ok(0), "......."),
        ("digits", 11, 7, Ok(0), "......."),
        ("digits", 5, 0, Ok(0), "......."),
    ];
    let mut shelf = digits(rt.alloc(), Vec::new(rt.alloc()))?;
    expect_in_memory(&rt, &mut shelf, &parts);
    Ok(())
}

/// Call 1 fails.
#[test]
fn memory_shelf_fails_to_read_parts(rt: HostRuntime) -> Result<(), AllocError> {
    let parts = [
        ("digits", 8, 3, Ok(2), "89....."),
        ("digits", 8, 3, Err(ShelfRefused::Failed), "......."),
        ("digits", 8, 3, Ok(2), "89....."),
        ("absent", 8, 3, Err(ShelfRefused::Failed), "......."),
    ];
    let mut shelf = digits(rt.alloc(), vec![in rt.alloc(); 1]?)?;
    expect_in_memory(&rt, &mut shelf, &parts);
    Ok(())
}

/// Parts have at most three bytes.
#[test]
fn memory_shelf_reads_in_pieces(rt: HostRuntime) -> Result<(), AllocError> {
    let parts = [
        ("digits", 0, 7, Ok(3), "012...."),
        ("digits", 0, 2, Ok(2), "01....."),
        ("digits", 8, 7, Ok(2), "89....."),
        ("digits", 10, 7, Ok(0), "......."),
    ];
    let mut shelf = digits(rt.alloc(), Vec::new(rt.alloc()))?.in_pieces(3);
    expect_in_memory(&rt, &mut shelf, &parts);
    Ok(())
}

/// Fails where a part of a file is read otherwise.
fn expect_in_files<R: Files + Abort>(rt: &R, parts: &[Part<'_>]) {
    let mut shelf = FileShelf::new(rt);
    for (name, from, room, want, after) in parts {
        assert!(rt;
            is_part(&mut shelf, name, *from, *room, *want, after),
            "{name} {from} {room}"
        );
    }
}

/// Files lie in the folder where the tests run, which is theirs alone.
#[test]
fn file_shelf_reads_parts_of_a_real_file(rt: HostRuntime) -> io::Result<()> {
    fs::write(&rt, "parts_test", "0123456789")?;
    let parts = [
        ("parts_test", 0, 7, Ok(7), "0123456"),
        ("parts_test", 7, 7, Ok(3), "789...."),
        ("parts_test", 10, 7, Ok(0), "......."),
        ("parts_test", 2, 2, Ok(2), "23....."),
        ("parts_test", 0, 1, Ok(1), "0......"),
        ("parts_test", 11, 7, Ok(0), "......."),
        ("no_such_file", 0, 1, Err(ShelfRefused::Failed), "......."),
        ("parts_test", 9, 2, Ok(1), "9......"),
        ("parts_test", 0, 2, Ok(2), "01....."),
    ];
    expect_in_files(&rt, &parts);
    fs::remove_file(&rt, "parts_test")
}

/// A pipe in which ten bytes lie, and no more will come.
fn filled_pipe(rt: &HostRuntime) -> io::Result<PipeReader> {
    let (reader, mut writer) = io::pipe(rt)?;
    writer.write_all(b"0123456789")?;
    Ok(reader)
}

/// It can't go back.
#[test]
fn file_shelf_reads_a_pipe(rt: HostRuntime) -> io::Result<()> {
    let reader = filled_pipe(&rt)?;
    let path = format!(in rt.alloc(); "/proc/self/fd/{}", reader.as_raw_fd())?;
    let name = path.as_str();
    let parts = [
        (name, 0, 2, Ok(2), "01....."),
        (name, 2, 7, Ok(7), "2345678"),
        (name, 9, 7, Ok(1), "9......"),
        (name, 10, 7, Ok(0), "......."),
        (name, 3, 1, Err(ShelfRefused::Failed), "......."),
    ];
    expect_in_files(&rt, &parts);
    Ok(())
}

/// How many bytes a sink over a vector has written after pieces of these lengths and `flushes` calls of `flush`.
/// Then the sink is dropped, and with it what it keeps.
fn written(alloc: Global, lengths: &[usize], flushes: u32) -> Result<usize, AllocError> {
    let line = vec![in alloc; b'x'; 70_000]?;
    let mut bytes = Vec::new(alloc);
    let mut sink = StdSink::new(&mut bytes);
    for length in lengths {
        let _ = sink.put(&line[..(*length).min(line.len())]);
    }
    for _ in 0..flushes {
        let _ = sink.flush();
    }
    drop(sink);
    Ok(bytes.len())
}

#[test]
fn std_sink_gathers_pieces(rt: HostRuntime) -> Result<(), AllocError> {
    for (lengths, flushes, want) in [
        ([0, 0, 0], 1, 0),
        ([100, 65_436, 0], 0, 0),
        ([100, 65_436, 1], 0, 65_536),
        ([100, 65_436, 1], 1, 65_537),
        ([100, 65_435, 2], 0, 65_535),
        ([100, 200, 0], 1, 300),
        ([100, 200, 0], 2, 300),
        ([65_535, 0, 0], 0, 0),
        ([65_536, 7, 0], 0, 65_536),
        ([3, 70_000, 5], 0, 70_003),
        ([3, 70_000, 5], 1, 70_008),
    ] {
        assert_eq!(rt;
            written(rt.alloc(), &lengths, flushes)?,
            want,
            "{flushes} flushes"
        );
    }
    Ok(())
}

/// What a sink over five bytes of memory answers to two pieces, each flushed.
fn overflows(place: &mut [u8]) -> [Result<(), SinkFailed>; 5] {
    let mut sink = StdSink::new(place);
    [
        sink.put(b"abc"),
        sink.flush(),
        sink.put(b"defg"),
        sink.flush(),
        sink.flush(),
    ]
}

#[test]
fn std_sink_answers_a_failure(rt: HostRuntime) {
    let mut place = [b'.'; 5];
    let failed = Err(SinkFailed);
    assert_eq!(rt;
        overflows(&mut place),
        [Ok(()), Ok(()), Ok(()), failed, failed]
    );
    assert!(rt; place.as_slice() == b"abcde".as_slice());
}

#[test]
fn memory_sink_keeps_nothing_back(rt: HostRuntime) -> Result<(), AllocError> {
    let mut sink = MemorySink::new(rt.alloc(), 5, vec![in rt.alloc(); 1]?)?;
    assert!(rt; sink.put(b"ab").is_ok() && sink.flush().is_ok());
    assert!(rt; sink.put(b"c").is_err() && sink.put(b"cde").is_ok());
    assert!(rt; sink.bytes() == b"abcde".as_slice());
    Ok(())
}
