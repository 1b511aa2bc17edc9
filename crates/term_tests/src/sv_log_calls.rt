//! The size of a log.
use std::mem::size_of;
use sv_log::Log;

#[test]
fn a_log_takes_no_memory(rt: HostRuntime) {
    assert!(rt; size_of::<Log<u64>>() == 0);
}
