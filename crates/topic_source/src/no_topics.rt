ghost use Rattle.topic_source.specs.Source.{no_topics};

use super::sources::TopicSource;
use cell_refs::Cell;
use cell_values::{ErrorKind, Memory, Topic, Value};

/// A source without servers: each topic is `#N/A`, and nothing is noted.
#[derive(Clone, Copy, Debug)]
pub struct NoTopics;

impl TopicSource for NoTopics {
    ghost state = { λ source. no_topics };

    fn read(&mut self, _topic: &Topic, _reader: Cell) -> Result<Value, Memory> {
        Ok(Value::Error(ErrorKind::Na))
    }
}
