ghost use Rattle.std.specs.Prelude.{◌≡◌, [], Some, None, if◌then◌else◌, OnOk, OnErr};
ghost use Rattle.std.specs.Map.{lookup};
ghost use Rattle.cell_values.specs.declared.topics.Topic.{Topic as OneTopic};
ghost use Rattle.cell_values.specs.Topic.{same_topic};

use super::topic_keys::TopicKey;
use cell_values::{Memory, Topic};
use indexmap::IndexMap;
use std::alloc::Global;
use std::marker::Model;

/// The id of each topic.
#[derive(Drop)]
pub struct TopicIds {
    ids: IndexMap<TopicKey, u64>,
}

impl Model for TopicIds {
    ghost use Rattle.std.specs.Prelude.{List, ℕ};
    ghost use Rattle.cell_values.specs.declared.topics.Topic.{Topic as OneTopic};

    ghost Value = { List (OneTopic × ℕ) };

    ghost view = { λ t. t.ids.entries };
}

impl TopicIds {
    /// No topics.
    pub fn new(alloc: Global) -> TopicIds
        ensures { result ≡ [] }
    {
        TopicIds {
            ids: IndexMap::new(alloc),
        }
    }

    /// Takes the room for one more topic. What is there stays.
    pub fn reserve(&mut self) -> Result<(), Memory>
        ensures { self.new ≡ self.old }
    {
        self.ids.reserve(1)?;
        Ok(())
    }

    /// The id of a topic.
    pub fn get(&self, topic: Topic) -> Option<u64>
        ensures { result ≡ lookup (same_topic topic) self.now }
    {
        self.ids.get(&TopicKey { topic }).copied()
    }

    /// Adds a topic under an id. A refusal changes nothing.
    pub fn add(&mut self, topic: Topic, id: u64) -> Result<(), Memory>
        ensures ok { OnOk result ((t : OneTopic) → lookup (same_topic t) self.new
            ≡ (if same_topic topic t then Some id else lookup (same_topic t) self.old)) }
        ensures refused { OnErr result (self.new ≡ self.old) }
    {
        self.ids.insert(TopicKey { topic }, id)?;
        Ok(())
    }

    /// Takes a topic out, and gives it back.
    pub fn remove(&mut self, topic: Topic) -> Topic
        ensures topic { result ≡ topic }
        ensures out { (t : OneTopic) → lookup (same_topic t) self.new
            ≡ (if same_topic topic t then None else lookup (same_topic t) self.old) }
    {
        let key = TopicKey { topic };
        let _ = self.ids.swap_remove(&key);
        let TopicKey { topic } = key;
        topic
    }
}
