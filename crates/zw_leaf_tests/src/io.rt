//! Objects in memory, with pieces and failing calls, and the process's own folder.
use std::alloc::Global;
use std::fs;
use std::process::Abort;
use std::test::Fail;
use zw_io::{
    Folder, LineEnd, Lines, LinesFault, MemFolder, MemSink, MemSource, Out, RealFolder, RealSink,
    RealSource, Source, WriteFault,
};

// The lines, each with a bar behind it, and what ended them.
fn given<S: Source>(
    rt: &impl Abort,
    alloc: Global,
    source: &mut S,
) -> Result<(Vec<u8>, Option<LinesFault>), Fail> {
    let mut lines = Lines::new(source);
    let mut text = Vec::new(alloc);
    let mut line = Vec::new(alloc);
    for _ in 0..9 {
        match lines.next_line(&mut line) {
            Ok(LineEnd::Line) => {
                text.extend_from_slice(&line)?;
                text.push(b'|')?;
            }
            Ok(LineEnd::TooLong) => text.push(b'+')?,
            Ok(LineEnd::End) => return Ok((text, None)),
            Err(fault) => {
                let again = lines.next_line(&mut line);
                assert!(rt; again == Err(fault));
                return Ok((text, Some(fault)));
            }
        }
    }
    assert!(rt; false, "more lines than were put in");
    Ok((text, None))
}

fn fails(alloc: Global, at: u64) -> Result<Vec<u64>, Fail> {
    let mut all = Vec::new(alloc);
    if at > 0 {
        all.push(at)?;
    }
    Ok(all)
}

#[test]
fn lines_end_with_lf_or_the_stream(rt: HostRuntime) -> Result<(), Fail> {
    let rows = [
        ("", ""),
        ("\n", "|"),
        ("a", "a|"),
        ("a\nbc", "a|bc|"),
        ("a\nbc\n", "a|bc|"),
        ("\n\na\r\nb\rc\n", "||a\r|b\rc|"),
    ];
    for (stream, wanted) in rows {
        for piece in [1, 2, 6, 4096] {
            let bytes = stream.as_bytes().to_vec(rt.alloc())?;
            let mut source = MemSource::new(bytes, piece, Vec::new(rt.alloc()));
            let (text, fault) = given(&rt, rt.alloc(), &mut source)?;
            assert!(rt;
                text.as_slice() == wanted.as_bytes(),
                "at {stream:?} in pieces of {piece}"
            );
            assert!(rt; fault == None, "at {stream:?} in pieces of {piece}");
        }
    }
    Ok(())
}

#[test]
fn a_failed_read_is_told(rt: HostRuntime) -> Result<(), Fail> {
    // The stream, the piece, the call that fails, and what is given before.
    let rows = [
        ("one\ntwo\nthree", 6, 2, "one|", Some(LinesFault::ReadFault)),
        ("one\ntwo\n", 4, 2, "one|", Some(LinesFault::ReadFault)),
        ("one\ntwo\n", 4, 3, "one|two|", Some(LinesFault::ReadFault)),
        ("one", 2, 1, "", Some(LinesFault::ReadFault)),
        // The third call meets the end, and there is no fourth.
        ("one", 2, 4, "one|", None),
    ];
    for (stream, piece, at, wanted, wanted_fault) in rows {
        let bytes = stream.as_bytes().to_vec(rt.alloc())?;
        let mut source = MemSource::new(bytes, piece, fails(rt.alloc(), at)?);
        let (text, fault) = given(&rt, rt.alloc(), &mut source)?;
        assert!(rt;
            text.as_slice() == wanted.as_bytes(),
            "at {stream:?}, call {at}"
        );
        assert!(rt; fault == wanted_fault, "at {stream:?}, call {at}");
    }
    Ok(())
}

#[test]
fn a_line_of_two_to_the_twenty_bytes_is_not_too_long(rt: HostRuntime) -> Result<(), Fail> {
    for (size, wanted) in [(1_048_576, LineEnd::Line), (1_048_577, LineEnd::TooLong)] {
        let bytes = vec![in rt.alloc(); b'x'; size]?;
        let mut source = MemSource::new(bytes, 4096, Vec::new(rt.alloc()));
        let mut lines = Lines::new(&mut source);
        let mut line = Vec::new(rt.alloc());
        let end = lines.next_line(&mut line);
        assert!(rt; end == Ok(wanted), "at {size}");
        assert!(rt; line.len() == size, "at {size}");
    }
    Ok(())
}

#[test]
fn put_writes_all_or_a_front(rt: HostRuntime) -> Result<(), Fail> {
    let rows = [
        (1, 0, "abcdefg", Ok(())),
        (3, 0, "abcdefg", Ok(())),
        (3, 2, "abc", Err(WriteFault)),
        (4096, 1, "", Err(WriteFault)),
    ];
    for (piece, at, wanted, answer) in rows {
        let mut sink = MemSink::new(rt.alloc(), piece, fails(rt.alloc(), at)?);
        let put = Out::new(&mut sink).put(b"abcdefg");
        assert!(rt; put == answer, "in pieces of {piece}");
        assert!(rt; sink.taken() == wanted.as_bytes(), "in pieces of {piece}");
    }
    Ok(())
}

fn folder(alloc: Global, fail_at: u64) -> Result<MemFolder, Fail> {
    let mut files = Vec::new(alloc);
    for (path, text) in [("a.rb", "first"), ("b.rb", "second"), ("a.rb", "third")] {
        let path = String::from_str(alloc, path)?;
        files.push((path, text.as_bytes().to_vec(alloc)?))?;
    }
    Ok(MemFolder::new(files, fails(alloc, fail_at)?))
}

// The paths that are listed, each with a bar behind it.
fn listed<F: Folder>(alloc: Global, folder: &mut F) -> Result<Vec<u8>, Fail> {
    let mut text = Vec::new(alloc);
    let mut path = Vec::new(alloc);
    for _ in 0..9 {
        match folder.next_path(&mut path) {
            Ok(true) => {
                text.extend_from_slice(&path)?;
                text.push(b'|')?;
            }
            Ok(false) => return Ok(text),
            Err(_) => {
                text.push(b'!')?;
                return Ok(text);
            }
        }
    }
    Ok(text)
}

#[test]
fn a_folder_lists_and_reads(rt: HostRuntime) -> Result<(), Fail> {
    let mut whole = folder(rt.alloc(), 0)?;
    let paths = listed(rt.alloc(), &mut whole)?;
    assert!(rt; paths.as_slice() == b"a.rb|b.rb|a.rb|".as_slice());
    let mut failing = folder(rt.alloc(), 3)?;
    let paths = listed(rt.alloc(), &mut failing)?;
    assert!(rt; paths.as_slice() == b"a.rb|b.rb|!".as_slice());
    let rows = [
        ("a.rb", 9, ">first", true),
        ("b.rb", 3, ">sec", true),
        ("c.rb", 9, ">", false),
    ];
    for (path, most, wanted, wanted_there) in rows {
        let mut text = b">".to_vec(rt.alloc())?;
        let there = whole.read(path, most, &mut text);
        assert!(rt; there == Ok(wanted_there), "at {path}");
        assert!(rt; text.as_slice() == wanted.as_bytes(), "at {path}");
    }
    Ok(())
}

#[test]
fn real_objects_give_what_they_stand_on(rt: HostRuntime) -> Result<(), Fail> {
    let mut source = RealSource::new(b"a\nb".as_slice());
    let (text, fault) = given(&rt, rt.alloc(), &mut source)?;
    assert!(rt; text.as_slice() == b"a|b|".as_slice());
    assert!(rt; fault == None);
    let mut sink = RealSink::new(Vec::new(rt.alloc()));
    let put = Out::new(&mut sink).put(b"abc");
    assert!(rt; put == Ok(()));
    let mut folder = RealFolder::new(rt);
    let mut text = Vec::new(rt.alloc());
    let there = folder.read("no such file", 9, &mut text);
    assert!(rt; there == Ok(false));
    Ok(())
}
