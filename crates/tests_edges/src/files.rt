//! What no clause says: that real files and streams are met, and that a shelf and a sink in memory can be had.
use memory_edge::{MemoryShelf, MemorySink, WatchedShelf};
use std::alloc::{AllocError, Global};
use std::fs::File;
use std::io::{BufWriter, Write};
use std::process::Abort;
use std::rt::Files;
use std::{fs, io};
use water_edge::{FileShelf, Shelf, ShelfRefused, Sink, SinkFailed, StdSink};

/// Whether a shelf answered with these bytes, or refused as is wanted.
fn is_answer(answer: Result<Vec<u8>, ShelfRefused>, want: Result<&[u8], ShelfRefused>) -> bool {
    match answer {
        Ok(bytes) => Ok(bytes.as_slice()) == want,
        Err(refused) => Err(refused) == want,
    }
}

/// Two whole pieces of a file and some bytes more.
fn file_bytes(alloc: Global) -> Result<Vec<u8>, AllocError> {
    let mut bytes = Vec::new(alloc);
    for i in 0..8195u64 {
        bytes.push((i % 251) as u8)?;
    }
    Ok(bytes)
}

/// Reads a file of these bytes, and one that there isn't.
fn read_files<R: Files + AllocGlobal + Abort>(rt: &R, bytes: &[u8]) {
    let mut shelf = FileShelf::new(rt);
    for (name, limit, want) in [
        ("shelf_test", 8195, Ok(bytes)),
        ("shelf_test", 8194, Err(ShelfRefused::TooLong)),
        ("shelf_test", 0, Err(ShelfRefused::TooLong)),
        ("no_such_file", 8195, Err(ShelfRefused::Failed)),
    ] {
        assert!(rt;
            is_answer(shelf.read_whole(rt.alloc(), name, limit), want),
            "{name} {limit}"
        );
    }
}

/// Whether a shelf answers with this many bytes of the file from an offset on.
fn is_part<R: Files>(shelf: &mut FileShelf<'_, R>, bytes: &[u8], from: u64, want: usize) -> bool {
    let mut part = [0u8; 5000];
    match shelf.read_part("shelf_test", from, &mut part) {
        Ok(count) => {
            let rest = bytes.iter().skip(from as usize);
            count == want && rest.zip(&part[..count]).all(|(byte, read)| byte == read)
        }
        Err(_) => false,
    }
}

/// Reads parts: on from the last one, after the end, back by a seek, and anew.
fn read_parts<R: Files + Abort>(rt: &R, bytes: &[u8]) {
    let mut shelf = FileShelf::new(rt);
    for (from, want) in [(0, 5000), (5000, 3195), (8195, 0), (100, 5000), (0, 5000)] {
        assert!(rt;
            is_part(&mut shelf, bytes, from, want),
            "{want} bytes from {from} on"
        );
    }
}

/// Files lie in the folder where the tests run, which is theirs alone.
#[test]
fn file_shelf_reads_a_real_file(rt: HostRuntime) -> io::Result<()> {
    let bytes = file_bytes(rt.alloc())?;
    fs::write(&rt, "shelf_test", bytes.as_slice())?;
    read_files(&rt, bytes.as_slice());
    read_parts(&rt, bytes.as_slice());
    fs::remove_file(&rt, "shelf_test")
}

/// Whether pieces can be put by this writer, and the file has them, once they are flushed, while it is still open.
fn puts_pieces<W: Write + Drop>(rt: &HostRuntime, writer: W) -> io::Result<bool> {
    let mut sink = StdSink::new(writer);
    let put = sink.put(b"snow").is_ok()
        && sink.put(b"").is_ok()
        && sink.put(b"melt\n").is_ok()
        && sink.flush().is_ok();
    let read = fs::read(rt, "sink_test")?;
    Ok(put && read.as_slice() == b"snowmelt\n".as_slice())
}

/// The same by a writer that gathers the pieces first.
fn puts_gathered(rt: &HostRuntime) -> io::Result<bool> {
    let writer = BufWriter::new(rt.alloc(), File::create(rt, "sink_test")?)?;
    puts_pieces(rt, writer)
}

/// Whether a file that is open for reading alone refuses to be written, at the latest when what was put is flushed.
fn refuses(rt: &HostRuntime) -> io::Result<bool> {
    let mut sink = StdSink::new(File::open(rt, "sink_test")?);
    Ok(sink.put(b"more").is_err() || sink.flush() == Err(SinkFailed))
}

#[test]
fn std_sink_writes_a_real_file(rt: HostRuntime) -> io::Result<()> {
    assert!(rt; puts_pieces(&rt, File::create(&rt, "sink_test")?)?);
    assert!(rt; puts_gathered(&rt)?);
    assert!(rt; refuses(&rt)?);
    fs::remove_file(&rt, "sink_test")
}

/// A name and a text as a file.
fn file(alloc: Global, name: &str, text: &str) -> Result<(String, Vec<u8>), AllocError> {
    let bytes = Vec::from_slice(alloc, text.as_bytes())?;
    Ok((String::from_str(alloc, name)?, bytes))
}

/// A shelf of three files, two of one name, whose call 2 fails.
fn memory_shelf(alloc: Global) -> Result<MemoryShelf, AllocError> {
    let mut files = Vec::new(alloc);
    for (name, text) in [("basin", "three"), ("series", ""), ("basin", "second")] {
        files.push(file(alloc, name, text)?)?;
    }
    Ok(MemoryShelf::new(files, vec![in alloc; 2]?))
}

#[test]
fn memory_reads(rt: HostRuntime) -> Result<(), AllocError> {
    let mut shelf = memory_shelf(rt.alloc())?;
    for (name, limit, want) in [
        ("basin", 5, Ok("three".as_bytes())),
        ("basin", 4, Err(ShelfRefused::TooLong)),
        ("basin", 5, Err(ShelfRefused::Failed)),
        ("series", 0, Ok("".as_bytes())),
        ("absent", 5, Err(ShelfRefused::Failed)),
    ] {
        assert!(rt;
            is_answer(shelf.read_whole(rt.alloc(), name, limit), want),
            "{name} {limit}"
        );
    }
    Ok(())
}

/// Call 1 fails.
#[test]
fn memory_takes(rt: HostRuntime) -> Result<(), AllocError> {
    let mut sink = MemorySink::new(rt.alloc(), 5, vec![in rt.alloc(); 1]?)?;
    for (piece, want) in [
        ("ab", Ok(())),
        ("c", Err(SinkFailed)),
        ("cdef", Err(SinkFailed)),
        ("cde", Ok(())),
    ] {
        assert_eq!(rt; sink.put(piece.as_bytes()), want, "{piece}");
    }
    assert!(rt; sink.bytes() == b"abcde".as_slice());
    Ok(())
}

/// A shelf of two files, which watches the first.
fn watched(alloc: Global) -> Result<WatchedShelf<MemoryShelf>, AllocError> {
    let mut held = Vec::new(alloc);
    held.push(file(alloc, "one", "ab")?)?;
    held.push(file(alloc, "other", "cd")?)?;
    let shelf = MemoryShelf::new(held, Vec::new(alloc));
    Ok(WatchedShelf::new(shelf, String::from_str(alloc, "one")?))
}

/// Whether a whole file is answered so, and this many calls are counted then.
fn is_whole(
    shelf: &mut WatchedShelf<MemoryShelf>,
    alloc: Global,
    name: &str,
    most: u64,
    want: Result<&[u8], ShelfRefused>,
    asked: u64,
) -> bool {
    is_answer(shelf.read_whole(alloc, name, most), want) && shelf.asked() == asked
}

/// Of its own file a watched shelf counts each call, and of others none.
#[test]
fn watched_shelf_counts_the_calls_for_its_file(rt: HostRuntime) -> Result<(), AllocError> {
    let alloc = rt.alloc();
    let mut shelf = watched(alloc)?;
    let mut part = [0u8; 2];
    assert!(rt; is_whole(&mut shelf, alloc, "other", 2, Ok(b"cd"), 0));
    assert!(rt; is_whole(&mut shelf, alloc, "one", 2, Ok(b"ab"), 1));
    assert_eq!(rt; shelf.read_part("one", 1, &mut part), Ok(1));
    assert_eq!(rt; shelf.read_part("other", 0, &mut part), Ok(2));
    assert!(rt; is_whole(&mut shelf, alloc, "one", 1, Err(ShelfRefused::TooLong), 3));
    Ok(())
}
