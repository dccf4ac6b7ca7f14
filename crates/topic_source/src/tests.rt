//! What no contract says: a source without servers answers with ample memory.

use super::{NoTopics, TopicSource};
use cell_refs::Cell;
use cell_values::{ErrorKind, Name, Text, Texts, Topic, Value};
use std::test::Fail;

#[test]
fn without_servers_each_topic_is_not_available(rt: HostRuntime) -> Result<(), Fail> {
    let alloc = rt.alloc();
    let topic = Topic {
        server: Name::new(alloc, "feed")?,
        strings: Texts::new(vec![in alloc; Text::new(alloc, "px")?]?)?,
    };
    let reader = Cell {
        sheet: 1,
        row: 1,
        col: 1,
    };
    let value = NoTopics.read(&topic, reader)?;
    assert!(rt; value == Value::Error(ErrorKind::Na));
    Ok(())
}
