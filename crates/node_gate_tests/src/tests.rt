use crate::jobs::two_jobs;
use crate::relay::turns_in_turns;
use crate::told::{self, Watcher};
use crate::turns::{seen_by_another, two_threads};
use crate::waits::seen_in_time;
use node_gate::Counted;
use std::test::Fail;

#[test]
fn two_threads_leave_six_entries(rt: HostRuntime) -> Result<(), Fail> {
    let tally = two_threads(&rt, rt.alloc())?;
    assert_eq!(rt; tally.steps(), 6);
    for seat in [0, 1] {
        assert_eq!(rt;
            tally.notes.iter().filter(|note| **note == seat).count(),
            3,
            "seat {seat}"
        );
    }
    Ok(())
}

#[test]
fn another_seat_loads_the_number_after_a_turn(rt: HostRuntime) -> Result<(), Fail> {
    assert_eq!(rt; seen_by_another(&rt, rt.alloc())?, (0, 1));
    Ok(())
}

#[test]
fn turns_are_made_inside_turns_of_another_gate(rt: HostRuntime) -> Result<(), Fail> {
    assert_eq!(rt; turns_in_turns(&rt, rt.alloc())?, (2, 2));
    Ok(())
}

#[test]
fn jobs_take_seats_and_give_them_back(rt: HostRuntime) -> Result<(), Fail> {
    assert_eq!(rt; two_jobs(&rt, rt.alloc())?, 6);
    Ok(())
}

#[test]
fn a_caller_waits_for_turns_of_another_thread(rt: HostRuntime) -> Result<(), Fail> {
    assert!(rt; seen_in_time(&rt, rt.alloc())?);
    Ok(())
}

// Hears the seats of a gate's turns, and keeps none.
#[derive(Drop)]
struct Deaf;

impl Watcher for Deaf {
    fn hear(&mut self, _seat: u64) {}
}

#[test]
fn a_value_tells_a_boxed_watcher(rt: HostRuntime) -> Result<(), Fail> {
    let watcher: Box<dyn Watcher + Send> = Box::new(rt.alloc(), Deaf)?;
    assert_eq!(rt; told::two_threads(&rt, rt.alloc(), watcher)?, 2);
    Ok(())
}
