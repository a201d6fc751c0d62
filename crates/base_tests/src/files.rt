//! Tests of what no clause says.
use soy_io::{
    Fetch, FetchFault, Library, MemoryLibrary, MemorySink, NamedFile, PlainLibrary, PlainSink,
    PutAll, PutFault, Sink, put_all,
};
use std::alloc::Global;
use std::test::Fail;

/// Three files, two of them of one name.
fn some_files(alloc: Global) -> Result<Vec<NamedFile>, Fail> {
    let mut files = Vec::new(alloc);
    for (name, text) in [("a", "xyz"), ("b", ""), ("a", "second")] {
        files.push(NamedFile {
            name: String::from_str(alloc, name)?,
            bytes: Vec::from_slice(alloc, text.as_bytes())?,
        })?;
    }
    Ok(files)
}

/// Through the bound, as a program over any library does.
fn fetched<L: Library>(
    library: &mut L,
    name: &str,
    into: &mut Vec<u8>,
    limit: usize,
) -> Result<Fetch, FetchFault> {
    library.fetch(name, into, limit)
}

#[test]
fn the_plain_library_and_sink_give_and_take(rt: HostRuntime) -> Result<(), Fail> {
    let alloc = rt.alloc();
    let mut library = PlainLibrary::new(some_files(alloc)?);
    let rows = [
        ("a", 3, Fetch::Whole, "-xyz"),
        ("a", 2, Fetch::TooLarge, "-"),
        ("b", 0, Fetch::Whole, "-"),
        ("c", 9, Fetch::Missing, "-"),
    ];
    for (name, limit, answer, text) in rows {
        let mut into = Vec::from_slice(alloc, "-".as_bytes())?;
        assert_eq!(rt;
            fetched(&mut library, name, &mut into, limit),
            Ok(answer),
            "{name} {limit}"
        );
        assert_eq!(rt; into.as_slice(), text.as_bytes(), "{name} {limit}");
    }
    let mut sink = PlainSink::new(alloc);
    for piece in ["ab", "", "cde"] {
        assert_eq!(rt; put_all(&mut sink, piece.as_bytes()), Ok(()));
    }
    assert_eq!(rt; sink.taken(), "abcde".as_bytes());
    Ok(())
}

#[test]
fn the_memory_library_and_sink_fail_at_chosen_calls(rt: HostRuntime) -> Result<(), Fail> {
    let alloc = rt.alloc();
    let mut library = MemoryLibrary::new(some_files(alloc)?, Vec::from_slice(alloc, &[2])?);
    let answers = [Ok(Fetch::Whole), Err(FetchFault::Failed), Ok(Fetch::Whole)];
    let mut into = Vec::new(alloc);
    for answer in answers {
        assert_eq!(rt; fetched(&mut library, "a", &mut into, 3), answer);
    }
    assert_eq!(rt; into.as_slice(), "xyzxyz".as_bytes());

    // The most bytes in one put, the put that fails, how many bytes were taken before it, and all.
    let rows = [
        (1, 3, 2, "ab"),
        (2, 2, 2, "ab"),
        (3, 1, 0, ""),
        (2, 9, 5, "abcde"),
    ];
    for (most, fails, taken, text) in rows {
        let mut sink = MemorySink::new(alloc, most, Vec::from_slice(alloc, &[fails])?);
        let cause = PutFault::Failed;
        let answer = if taken == 5 {
            Ok(())
        } else {
            Err(PutAll { taken, cause })
        };
        assert_eq!(rt;
            put_all(&mut sink, "abcde".as_bytes()),
            answer,
            "{most} {fails}"
        );
        assert_eq!(rt; sink.taken(), text.as_bytes(), "{most} {fails}");
    }
    Ok(())
}
