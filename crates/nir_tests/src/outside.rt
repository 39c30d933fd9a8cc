//! Sources and sinks, reading and writing to the end, and lists.

use nir_host::{
    Bytes, Failed, FileSource, MemSink, MemSource, OutOfMemory, ReadAllFault, Seq, Sink, Source,
    StderrSink, StdinSource, StdoutSink, WriteFault, read_all, write_all,
};
use std::alloc::Global;
use std::fs;
use std::test::Fail;

// The answer of one read into a buffer of two bytes, and what then stands there.
fn read_two(source: &mut MemSource) -> (Result<usize, Failed>, [u8; 2]) {
    let mut buffer = [9; 2];
    let answer = source.read(&mut buffer);
    (answer, buffer)
}

/// The answers of reads into a buffer of two bytes, one after another, and what then stands there.
static READS: &[(Result<usize, Failed>, [u8; 2])] = &[
    (Ok(2), [1, 2]),
    (Err(Failed), [9, 9]),
    (Ok(2), [3, 4]),
    (Ok(1), [5, 9]),
    (Ok(0), [9, 9]),
    (Ok(0), [9, 9]),
    (Err(Failed), [9, 9]),
];

#[test]
fn a_source_gives_pieces_and_fails_where_it_was_told_to(rt: HostRuntime) -> Result<(), Fail> {
    let mut source = MemSource::new(rt.alloc(), &[1, 2, 3, 4, 5], &[1, 6])?;
    for &(call, want) in READS {
        let (answer, buffer) = read_two(&mut source);
        assert_eq!(rt; answer, call);
        assert_eq!(rt; buffer, want);
    }
    Ok(())
}

/// Pieces, and what a sink with room for three bytes, whose first call fails, says to each of them in turn.
static WRITES: &[(&[u8], Result<usize, Failed>)] = &[
    (&[1, 2], Err(Failed)),
    (&[1, 2], Ok(2)),
    (&[], Ok(0)),
    (&[3, 4], Ok(1)),
    (&[4], Err(Failed)),
    (&[], Ok(0)),
];

#[test]
fn a_sink_takes_what_fits_and_fails_where_it_was_told_to(rt: HostRuntime) -> Result<(), Fail> {
    let mut sink = MemSink::new(rt.alloc(), 3, &[0])?;
    for &(piece, want) in WRITES {
        assert_eq!(rt; sink.write(piece), want);
    }
    assert_eq!(rt; sink.taken(), [1, 2, 3].as_slice());
    Ok(())
}

/// The bytes of a source, which of its calls fail, how many bytes may come, and why it is refused.
static READ_ALL: &[(&[u8], &[u64], u64, Option<ReadAllFault>)] = &[
    (&[], &[], 0, None),
    (&[1, 2, 3], &[], 3, None),
    (&[1, 2, 3], &[], 2, Some(ReadAllFault::TooLong)),
    (&[1, 2, 3], &[0], 9, Some(ReadAllFault::ReadFault)),
    (&[1, 2, 3], &[1], 9, Some(ReadAllFault::ReadFault)),
    (&[7; 5000], &[], 5000, None),
    (&[7; 5000], &[], 4999, Some(ReadAllFault::TooLong)),
];

#[test]
fn a_source_is_read_to_its_end_or_refused(rt: HostRuntime) -> Result<(), Fail> {
    for &(bytes, failing, max, refusal) in READ_ALL {
        let mut source = MemSource::new(rt.alloc(), bytes, failing)?;
        match read_all(rt.alloc(), &mut source, max) {
            Ok(all) => {
                assert_eq!(rt; refusal, None);
                assert_eq!(rt; all.as_slice(), bytes);
            }
            Err(fault) => assert_eq!(rt; Some(fault), refusal),
        }
    }
    Ok(())
}

/// The room of a sink, which of its calls fail, what it says to three bytes, and what it takes.
static WRITE_ALL: &[(usize, &[u64], Result<(), WriteFault>, &[u8])] = &[
    (3, &[], Ok(()), &[1, 2, 3]),
    (4, &[1], Ok(()), &[1, 2, 3]),
    (2, &[], Err(WriteFault), &[1, 2]),
    (3, &[0], Err(WriteFault), &[]),
];

#[test]
fn a_sink_takes_all_or_a_front(rt: HostRuntime) -> Result<(), Fail> {
    for &(room, failing, want, taken) in WRITE_ALL {
        let mut sink = MemSink::new(rt.alloc(), room, failing)?;
        assert_eq!(rt; write_all(&mut sink, &[1, 2, 3]), want);
        assert_eq!(rt; sink.taken(), taken);
    }
    Ok(())
}

// A list made of a slice, with a piece and an item put at its end.
fn grown(alloc: Global) -> Result<Bytes, OutOfMemory> {
    let mut bytes: Bytes = Seq::from_slice(alloc, &[1, 2])?;
    bytes.extend_from_slice(&[3, 4])?;
    bytes.push(5)?;
    bytes.push(6)?;
    Ok(bytes)
}

#[test]
fn a_list_grows_and_shrinks_at_its_end(rt: HostRuntime) -> Result<(), Fail> {
    let mut bytes = grown(rt.alloc())?;
    assert_eq!(rt; bytes.pop(), Some(6));
    assert_eq!(rt; bytes.as_slice(), [1, 2, 3, 4, 5].as_slice());
    assert_eq!(rt; bytes.len(), 5);
    assert_eq!(rt; Bytes::new(rt.alloc()).pop(), None);
    Ok(())
}

#[test]
fn a_missing_file_fails_at_each_read_and_is_not_read_as_empty(rt: HostRuntime) {
    let mut source = FileSource::open(&rt, "there-is-no-such-file");
    assert_eq!(rt; source.read(&mut [0; 4]), Err(Failed));
    assert_eq!(rt; source.read(&mut [0; 4]), Err(Failed));
    assert_eq!(rt; source.read(&mut []), Err(Failed));
    let all = read_all(rt.alloc(), &mut source, 100);
    assert!(rt; matches!(all, Err(ReadAllFault::ReadFault)));
}

#[test]
fn a_file_is_read_to_its_end(rt: HostRuntime) -> Result<(), Fail> {
    let path = "file-source-of-a-test";
    fs::write(&rt, path, "some text")?;
    let mut source = FileSource::open(&rt, path);
    let all = read_all(rt.alloc(), &mut source, 100)?;
    fs::remove_file(&rt, path)?;
    assert_eq!(rt; all.as_slice(), b"some text".as_slice());
    Ok(())
}

#[test]
fn standard_input_gives_no_more_than_the_buffer_holds(rt: HostRuntime) {
    let mut source = StdinSource::new(rt.stdin());
    assert_eq!(rt; source.read(&mut []), Ok(0));
}

// `rt try --test --short-io 1..` has each of these writes take one byte, and the lines have to come out whole all the same.
#[test]
fn standard_output_and_standard_error_take_a_line(rt: HostRuntime) {
    let mut output = StdoutSink::new(rt.stdout());
    assert_eq!(rt; write_all(&mut output, b"to output\n"), Ok(()));
    let mut errors = StderrSink::new(rt.stderr());
    assert_eq!(rt; write_all(&mut errors, b"to error\n"), Ok(()));
}
