use ordered_monitor::{Entry, Monitor};
use std::process::Abort;
use std::test::Fail;

#[test]
fn a_wider_monitor_has_the_same_entries(rt: HostRuntime) -> Result<(), Fail> {
    let mut narrow = Monitor::new(rt.alloc(), 1, 5)?;
    narrow.wait(6);
    let mut monitor = Monitor::wider(&narrow, 2)?;
    monitor.wait(7);
    assert_eq!(rt; monitor.try_enter(7, 6), Entry::NotYet(5));
    assert_eq!(rt; monitor.try_enter(6, 5), Entry::Entered);
    assert!(rt; monitor.cancel(7));
    assert_eq!(rt; monitor.try_enter(7, 6), Entry::Cancelled);
    monitor.leave(6);
    assert_eq!(rt; monitor.last_left(), 6);
    Ok(())
}
