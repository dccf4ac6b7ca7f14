ghost use Rattle.std.specs.Prelude.{◌≡◌, IfOk, OnOk, OnErr};
ghost use Rattle.topic_source.specs.Source.{KeepsReaders, KeepsValues, NotesReader, SourceState};

use cell_refs::Cell;
use cell_values::{Memory, Topic, Value};

/// Gives a recalculation the value of each topic, the same one throughout, and notes who reads it.
pub trait TopicSource {
    // The value of each topic, and who has read which.
    ghost state: { Self → SourceState };

    /// The value of a topic, which this cell reads. A refusal notes nothing.
    fn read(&mut self, topic: &Topic, reader: Cell) -> Result<Value, Memory>
        ensures value { IfOk result (λ value. value ≡ (state self.old).snapshot topic.now) }
        ensures values { KeepsValues (state self.old) (state self.new) }
        ensures noted { OnOk result (NotesReader (state self.old) (state self.new) topic.now reader) }
        ensures refused { OnErr result (KeepsReaders (state self.old) (state self.new)) };
}
