ghost use Rattle.std.specs.Prelude.{◌≡◌};

use super::{Event, Events, Memory, Name};
use std::alloc::Global;
use std::process::Abort;
use std::test::Fail;

/// A listener is added: whether it is new.
fn listen(alloc: Global, events: &mut Events, name: &str) -> Result<bool, Memory>
    ensures { events.new.room ≡ events.old.room }
{
    match Name::new(alloc, name) {
        Ok(name) => match events.listen(name) {
            Ok(added) => Ok(added),
            Err(_) => Err(Memory),
        },
        Err(_) => Err(Memory),
    }
}

/// Asserts what a listener fetches.
fn assert_fetched(
    rt: &impl Abort,
    events: &mut Events,
    name: &str,
    wanted: Option<&[Event]>,
) -> Result<(), Memory>
    ensures { events.new.room ≡ events.old.room }
{
    let fetched = events.fetch(name)?;
    assert_eq!(rt; fetched.as_deref(), wanted);
    Ok(())
}

#[test]
fn a_listener_fetches_each_event_once(rt: HostRuntime) -> Result<(), Fail> {
    let mut events = Events::new(rt.alloc(), 4)?;
    assert!(rt; listen(rt.alloc(), &mut events, "app")?);
    assert!(rt; !listen(rt.alloc(), &mut events, "app")?);
    events.fire(Event::Ended(1));
    assert!(rt; listen(rt.alloc(), &mut events, "late")?);
    events.fire(Event::Cancelled(2));
    assert_fetched(
        &rt,
        &mut events,
        "app",
        Some(&[Event::Ended(1), Event::Cancelled(2)]),
    )?;
    assert_fetched(&rt, &mut events, "app", Some(&[]))?;
    assert_fetched(&rt, &mut events, "App", None)?;
    events.fire(Event::Ended(3));
    events.fire(Event::Ended(4));
    assert_fetched(
        &rt,
        &mut events,
        "app",
        Some(&[Event::Ended(3), Event::Ended(4)]),
    )?;
    assert_fetched(
        &rt,
        &mut events,
        "late",
        Some(&[Event::Cancelled(2), Event::Ended(3), Event::Ended(4)]),
    )?;
    Ok(())
}
