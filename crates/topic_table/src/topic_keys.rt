ghost use Rattle.std.specs.Cmp.{partial_equiv_from_equiv};
ghost use Rattle.cell_values.specs.Topic.{same_topic};
ghost use Rattle.topic_table.specs.TopicKey.{same_topics, same_topic_input, topic_input};

use cell_values::Topic;
use std::hash::{Hash, Hasher};
use std::marker::Model;

/// A topic, as the key of a map.
#[derive(Drop)]
pub struct TopicKey {
    pub topic: Topic,
}

impl Model for TopicKey {
    ghost use Rattle.cell_values.specs.declared.topics.Topic.{Topic as OneTopic};

    ghost Value = { OneTopic };

    ghost view = { λ k. k.topic };
}

impl PartialEq for TopicKey {
    ghost eq = { same_topic };

    ghost laws = { partial_equiv_from_equiv same_topics };

    fn eq(&self, other: &TopicKey) -> bool {
        self.topic == other.topic
    }
}

impl Eq for TopicKey {
    ghost laws = { same_topics };
}

impl Hash for TopicKey {
    ghost hash_input = { topic_input };

    ghost respects_eq = { same_topic_input };

    fn hash<H: Hasher>(&self, state: &mut H) {
        self.topic.server.as_str().hash(state);
        let strings = self.topic.strings.as_slice();
        for i in 0..strings.len() {
            strings[i].as_str().hash(state);
        }
    }
}
