use crate::files::{FileSink, FileSource, StandardOutput};
use crate::memory::{MemSink, MemSource};
use crate::meter::{Meter, Over};
use crate::stream::{Failed, Sink, Source, write_whole};
use std::test::Fail;

fn read_one<S: Source>(source: &mut S, buf: &mut [u8]) -> Result<usize, Failed> {
    source.read(buf)
}

fn write_one<K: Sink>(sink: &mut K, piece: &[u8]) -> Result<usize, Failed> {
    sink.write(piece)
}

#[test]
fn a_source_gives_pieces_and_fails_at_its_call(rt: HostRuntime) {
    let mut source = MemSource::new(b"hello", 3, &[1]);
    let mut buf = [0u8; 8];
    assert_eq!(rt; read_one(&mut source, &mut buf), Ok(3));
    assert!(rt; &buf[..3] == b"hel".as_slice());
    assert_eq!(rt; read_one(&mut source, &mut buf), Err(Failed));
    assert_eq!(rt; read_one(&mut source, &mut buf), Ok(2));
    assert!(rt; &buf[..2] == b"lo".as_slice());
    assert_eq!(rt; read_one(&mut source, &mut buf), Ok(0));
}

#[test]
fn a_sink_takes_all_in_pieces(rt: HostRuntime) {
    let mut sink = MemSink::new(rt.alloc(), 2, &[]);
    assert_eq!(rt; write_whole(&mut sink, b"hello"), Ok(()));
    assert!(rt; sink.bytes() == b"hello".as_slice());
    assert!(rt; sink.into_bytes().as_slice() == b"hello".as_slice());
}

#[test]
fn a_sink_takes_a_piece_and_fails_at_its_call(rt: HostRuntime) {
    let mut sink = MemSink::new(rt.alloc(), 2, &[1]);
    assert_eq!(rt; write_one(&mut sink, b"hello"), Ok(2));
    assert_eq!(rt; write_one(&mut sink, b"llo"), Err(Failed));
    assert_eq!(rt; write_one(&mut sink, b"llo"), Ok(2));
    assert!(rt; sink.bytes() == b"hell".as_slice());
}

#[test]
fn a_failing_sink_keeps_a_front(rt: HostRuntime) {
    let mut sink = MemSink::new(rt.alloc(), 2, &[1]);
    assert_eq!(rt; write_whole(&mut sink, b"hello"), Err(Failed));
    assert!(rt; sink.bytes() == b"he".as_slice());
}

#[test]
fn a_file_gives_what_it_was_given(rt: HostRuntime) -> Result<(), Fail> {
    let path = "desk_test_file";
    assert_eq!(rt;
        write_whole(&mut FileSink::new(&rt, path), b"hello"),
        Ok(())
    );
    let mut source = FileSource::new(&rt, path);
    let mut buf = [0u8; 8];
    assert_eq!(rt; read_one(&mut source, &mut buf), Ok(5));
    assert!(rt; &buf[..5] == b"hello".as_slice());
    assert_eq!(rt; read_one(&mut source, &mut buf), Ok(0));
    assert_eq!(rt; (source.taken(), source.has_failed()), (5, false));
    std::fs::remove_file(&rt, path)?;
    Ok(())
}

#[test]
fn a_missing_file_fails_at_its_first_use(rt: HostRuntime) {
    let mut source = FileSource::new(&rt, "no/such/file");
    assert!(rt; !source.has_failed());
    assert_eq!(rt; read_one(&mut source, &mut [0u8; 8]), Err(Failed));
    assert_eq!(rt; (source.taken(), source.has_failed()), (0, true));
    let mut sink = FileSink::new(&rt, "no/such/file");
    assert!(rt; !sink.has_failed());
    assert_eq!(rt; write_whole(&mut sink, b"hello"), Err(Failed));
    assert!(rt; sink.has_failed());
}

#[test]
fn standard_output_takes_bytes(rt: HostRuntime) {
    assert_eq!(rt; write_whole(&mut StandardOutput::new(&rt), b""), Ok(()));
}

#[test]
fn a_meter_counts_up_to_its_limit(rt: HostRuntime) {
    let mut meter = Meter::new(3);
    assert_eq!(rt; meter.take(2), Ok(()));
    assert_eq!(rt; (meter.take(2), meter.left()), (Err(Over { held: 2 }), 1));
    assert_eq!(rt; (meter.take(1), meter.left()), (Ok(()), 0));
    assert_eq!(rt; meter.take(1), Err(Over { held: 3 }));
    assert_eq!(rt;
        (meter.take(0), meter.take(usize::MAX)),
        (Ok(()), Err(Over { held: 3 }))
    );
}
