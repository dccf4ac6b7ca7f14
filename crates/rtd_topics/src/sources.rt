ghost use Rattle.rtd_topics.specs.Parts.{rtd_of};
ghost use Rattle.rtd_topics.specs.RtdState.{source_of};

use super::topics::RtdTopics;
use cell_refs::Cell;
use cell_values::{Memory, Topic, Value};
use rtd_server::RtdServer;
use topic_source::TopicSource;

impl<S: RtdServer + Drop> TopicSource for RtdTopics<S> {
    ghost state = { λ topics. source_of (rtd_of S.state topics) };

    fn read(&mut self, topic: &Topic, reader: Cell) -> Result<Value, Memory> {
        self.read_topic(topic, reader)
    }
}
