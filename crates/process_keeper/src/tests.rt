//! Worked lives of a label.

use crate::input::Input;
use crate::keeper::Keeper;
use crate::scan::Scan;
use crate::task::Task;

#[test]
fn a_death_is_reported_and_the_next_start_begins(rt: HostRuntime) {
    let mut keeper = Keeper::new(rt.alloc(), 1, 1).expect(&rt, "memory for one label");
    assert!(rt; keeper.give().is_none());
    assert!(rt; keeper.to_write() == Some(65));
    assert!(rt; keeper.note_written(65));
    assert!(rt; matches!(keeper.task(0), Some((0, Task::Clear))));
    assert!(rt; keeper.take(0, Input::Scanned(Scan::Dying)));
    assert!(rt; keeper.task(0).is_none());
    assert!(rt; keeper.take(0, Input::Cleared));
    assert!(rt; keeper.give() == Some(1));
    assert!(rt; keeper.take(0, Input::Started(1)));
    assert!(rt; !keeper.take(0, Input::Started(2)));
    assert!(rt; !keeper.take(1, Input::Started(2)));
    assert!(rt; matches!(keeper.task(0), Some((0, Task::Fork(1)))));
    assert!(rt; keeper.take(0, Input::Failed(10)));
    assert!(rt; keeper.task(109).is_none());
    assert!(rt; matches!(keeper.task(110), Some((0, Task::Fork(1)))));
    assert!(rt; keeper.take(0, Input::Begun(700)));
    assert!(rt; keeper.task(110).is_none());
    assert!(rt; keeper.take(0, Input::Exited));
    assert!(rt; matches!(keeper.task(120), Some((0, Task::Report(1)))));
    assert!(rt; keeper.take(0, Input::Reported(120)));
    assert!(rt; keeper.take(0, Input::Started(2)));
    assert!(rt; matches!(keeper.task(120), Some((0, Task::Kill(700)))));
    assert!(rt; keeper.take(0, Input::Killed));
    assert!(rt; matches!(keeper.task(120), Some((0, Task::Scan(700)))));
    assert!(rt; keeper.take(0, Input::Scanned(Scan::Dying)));
    assert!(rt; keeper.task(120).is_none());
    assert!(rt; !keeper.take(0, Input::Reaped));
    assert!(rt; keeper.take(0, Input::Changed));
    assert!(rt; keeper.take(0, Input::Scanned(Scan::Nothing)));
    assert!(rt; matches!(keeper.task(120), Some((0, Task::Reap(700)))));
    assert!(rt; keeper.take(0, Input::Reaped));
    assert!(rt; matches!(keeper.task(120), Some((0, Task::Fork(2)))));
}

#[test]
fn a_group_has_its_grace_period(rt: HostRuntime) {
    let mut keeper = Keeper::new(rt.alloc(), 1, 1).expect(&rt, "memory for one label");
    assert!(rt; keeper.take(0, Input::Cleared));
    assert!(rt; keeper.take(0, Input::Started(1)));
    assert!(rt; keeper.take(0, Input::Begun(700)));
    assert!(rt; keeper.take(0, Input::Stopped(100)));
    assert!(rt; !keeper.take(0, Input::Stopped(90)));
    assert!(rt; matches!(keeper.task(50), Some((0, Task::Ask(700)))));
    assert!(rt; keeper.take(0, Input::Asked));
    assert!(rt; keeper.task(50).is_none());
    assert!(rt; keeper.take(0, Input::Exited));
    assert!(rt; matches!(keeper.task(50), Some((0, Task::Scan(700)))));
    assert!(rt; keeper.take(0, Input::Scanned(Scan::Living)));
    assert!(rt; keeper.task(99).is_none());
    assert!(rt; matches!(keeper.task(100), Some((0, Task::Kill(700)))));
}
