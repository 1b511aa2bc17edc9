//! The real source and sink: a file that is there, one that isn't, and standard output.
use sv_io::{Failed, Sink, Source, StdSink, StdSource};

#[test]
fn the_real_source_is_reached(rt: HostRuntime) {
    let mut buffer = [0u8; 4];
    let mut source = StdSource::new(rt);
    assert!(rt; source.open(Some("no/such/file")) == Err(Failed));
    assert!(rt; source.open(Some("/dev/zero")) == Ok(()));
    assert!(rt; source.read(&mut buffer) == Ok(4));
}

#[test]
fn the_end_of_a_real_source_is_reached(rt: HostRuntime) {
    let mut buffer = [0u8; 4];
    let mut source = StdSource::new(rt);
    assert!(rt; source.open(Some("/dev/null")) == Ok(()));
    assert!(rt; source.read(&mut buffer) == Ok(0));
}

#[test]
fn the_real_sink_is_reached(rt: HostRuntime) {
    let mut sink = StdSink::new(rt);
    assert!(rt; sink.write(b"a\n") == Ok(2));
    assert!(rt; sink.flush() == Ok(()));
}
