//! What a job comes to over the topics of a source.

ghost use Rattle.std.specs.Prelude.{◌≡◌, [], IfOk, OnOk, Some};
ghost use Rattle.cell_eval.specs.Jobs.{world_of};
ghost use Rattle.topic_source.specs.Source.{KeepsValues};
ghost use Rattle.workbook.specs.Reads.{answer_knowing, is_listed, topics_read};
ghost use Rattle.calc_round.specs.Looks.{answer_as};
ghost use Rattle.calc_round.specs.Noting.{NotesSome, NotesTopics};

use super::answered::Answered;
use addin_types::AddIns;
use cell_eval::{Job, Outcome, eval};
use cell_values::Memory;
use std::alloc::Global;
use topic_source::TopicSource;

/// Evaluates a job that knows no topic. Each topic that its formula needs is read for the job's cell, and the formula is
/// evaluated again.
pub fn answer_of_job<F: AddIns, T: TopicSource>(
    alloc: Global,
    job: Job,
    addins: &F,
    topics: &mut T,
) -> Result<Answered, Memory>
    requires { job.topics ≡ [] }
    ensures answer { IfOk result (λ answered. answer_as answered ≡ answer_knowing
        (world_of F.answer job) job.tree (λ topic. Some ((T.state topics.old).snapshot topic))) }
    ensures values { KeepsValues (T.state topics.old) (T.state topics.new) }
    ensures noted { OnOk result (NotesTopics (T.state topics.old) (T.state topics.new) job.cell
        (is_listed (topics_read (world_of F.answer job) (T.state topics.old).snapshot job.tree))) }
    ensures some { NotesSome (T.state topics.old) (T.state topics.new) job.cell
        (is_listed (topics_read (world_of F.answer job) (T.state topics.old).snapshot job.tree)) }
{
    let mut job = job;
    'topics: loop {
        match eval(alloc, &job, addins)? {
            Outcome::Done(value) => return Ok(Answered::Value(value)),
            Outcome::Call { site, name, args } => return Ok(Answered::Asks { site, name, args }),
            Outcome::Topic(topic) => {
                let value = topics.read(&topic, job.cell)?;
                job.topics.push(topic, value)?;
            }
        }
    }
}
