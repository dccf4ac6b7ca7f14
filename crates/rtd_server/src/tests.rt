use super::{Feed, FeedMaker, Maker, RtdServer};
use cell_values::{ErrorKind, Name, Text, Value};
use std::alloc::Global;
use std::process::Abort;
use std::test::Fail;

/// What is done to a feed. Strings are cut at bars.
#[derive(Clone, Copy)]
enum Step {
    Publish(&'static str, i64),
    Open,
    Connect(u64, &'static str, Option<i64>),
    Disconnect(u64),
    Refresh(&'static [(u64, i64)]),
}

/// A feed of the maker.
fn new_feed(alloc: Global) -> Result<Feed, Fail> {
    let name = Name::new(alloc, "f")?;
    Ok(FeedMaker.make(alloc, &name)?)
}

/// The strings between the bars.
fn strings(alloc: Global, text: &str) -> Result<Vec<Text>, Fail> {
    let mut strings = Vec::new(alloc);
    for part in text.split('|') {
        strings.push(Text::new(alloc, part)?)?;
    }
    Ok(strings)
}

/// The number, or `#N/A`.
fn number_or_na(number: Option<i64>) -> Value {
    match number {
        Some(n) => Value::Num(n),
        None => Value::Error(ErrorKind::Na),
    }
}

/// Publishes a number for strings.
fn publish<S: RtdServer>(server: &mut S, alloc: Global, text: &str, n: i64) -> Result<(), Fail> {
    let strings = strings(alloc, text)?;
    match server.publish(strings, Value::Num(n)) {
        Ok(()) => Ok(()),
        Err(_) => Err(Fail::from("a refused value")),
    }
}

/// Asks for what is new, and compares it.
fn assert_refresh(rt: &impl Abort, feed: &mut Feed, want: &[(u64, i64)]) -> Result<(), Fail> {
    let news = feed.refresh_data()?;
    assert_eq!(rt; news.len(), want.len());
    for ((id, value), (want_id, want)) in news.iter().zip(want) {
        assert_eq!(rt; *id, *want_id);
        assert!(rt; *value == Value::Num(*want));
    }
    Ok(())
}

/// Does a step, and compares what is answered.
fn take_step(rt: &impl Abort, alloc: Global, feed: &mut Feed, step: &Step) -> Result<(), Fail> {
    match step {
        Step::Publish(text, n) => publish(feed, alloc, text, *n)?,
        Step::Open => feed.open_round(),
        Step::Connect(id, text, want) => {
            let strings = strings(alloc, text)?;
            if feed.is_connected(*id) {
                return Err(Fail::from("an id that is connected"));
            }
            assert!(rt; feed.connect_data(*id, &strings)? == number_or_na(*want));
        }
        Step::Disconnect(id) => feed.disconnect_data(*id)?,
        Step::Refresh(want) => assert_refresh(rt, feed, want)?,
    }
    Ok(())
}

/// Does steps on a new feed.
fn take_steps(rt: &impl Abort, alloc: Global, steps: &[Step]) -> Result<(), Fail> {
    let mut feed = new_feed(alloc)?;
    for step in steps.iter() {
        take_step(rt, alloc, &mut feed, step)?;
    }
    Ok(())
}

#[test]
fn a_feed_shows_what_was_published_at_the_opening(rt: HostRuntime) -> Result<(), Fail> {
    let alloc = rt.alloc();
    for steps in [
        &[
            Step::Publish("a", 5),
            Step::Open,
            Step::Publish("a", 6),
            Step::Connect(1, "a", Some(5)),
            Step::Refresh(&[(1, 6)]),
            Step::Refresh(&[]),
        ] as &[Step],
        &[
            Step::Connect(7, "a", None),
            Step::Refresh(&[]),
            Step::Publish("a", 5),
            Step::Publish("a", 6),
            Step::Publish("a", 5),
            Step::Connect(8, "a", None),
            Step::Open,
            Step::Connect(9, "a", Some(5)),
            Step::Refresh(&[(7, 5), (8, 5)]),
        ],
        &[
            Step::Connect(3, "a|b", None),
            Step::Connect(2, "b|a", None),
            Step::Connect(4, "ab", None),
            Step::Publish("b|a", 1),
            Step::Publish("a|b", 2),
            Step::Refresh(&[(2, 1), (3, 2)]),
            Step::Publish("a|b", 3),
            Step::Publish("b|a", 4),
            Step::Disconnect(3),
            Step::Disconnect(3),
            Step::Refresh(&[(2, 4)]),
            Step::Connect(3, "ab", None),
            Step::Publish("ab", 7),
            Step::Refresh(&[(3, 7), (4, 7)]),
        ],
    ] {
        take_steps(&rt, alloc, steps)?;
    }
    Ok(())
}

#[test]
fn a_feed_starts_lives_and_ends(rt: HostRuntime) -> Result<(), Fail> {
    let mut feed = new_feed(rt.alloc())?;
    assert_eq!(rt; feed.server_start(), 1);
    assert_eq!(rt; feed.heartbeat()?, 1);
    feed.server_terminate()?;
    Ok(())
}
