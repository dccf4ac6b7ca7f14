ghost use Rattle.std.specs.Prelude.{◌≡◌, ◌≢◌, ◌++◌, List, map, IfOk};
ghost use Rattle.cell_values.specs.declared.topics.Topic.{Topic as OneTopic};
ghost use Rattle.cell_eval.specs.declared.jobs.Outcome.TheVariants as outcomes;
ghost use Rattle.workbook.specs.Evaluation.{answer_of};
ghost use Rattle.cell_eval.specs.Jobs.{closed_world, world_of};
ghost use Rattle.cell_eval.specs.Outcomes.{outcome_answer};
ghost use Rattle.cell_eval.specs.Resuming.{AreNeeded};

use super::jobs::{Job, Outcome};
use super::outcomes::eval;
use addin_types::AddIns;
use cell_values::{Memory, Value};
use std::alloc::Global;

/// Evaluates a formula to its end: each topic that the job doesn't know has this value. The job then knows the
/// topics that were needed.
pub fn eval_closed<F: AddIns>(
    alloc: Global,
    job: &mut Job,
    addins: &F,
    value: &Value,
) -> Result<Outcome, Memory>
    ensures closed { IfOk result (λ outcome. outcome_answer outcome
        ≡ answer_of (closed_world F.answer job.old value.now) job.old.tree) }
    ensures ended { IfOk result (λ outcome. (topic : OneTopic) → outcome ≢ outcomes.Topic topic) }
    ensures known { IfOk result (λ outcome. outcome_answer outcome
        ≡ answer_of (world_of F.answer job.new) job.new.tree) }
    ensures round { job.new.round ≡ job.old.round }

    // Each added topic is the next one that the formula needed; the job didn't know it before.
    ensures grown { (added : List OneTopic) × (AreNeeded F.answer job.old value.now added × (job.new
        ≡ record job.old { topics = job.old.topics ++ map (λ topic. (topic, value.now)) added })) }
{
    'topics: loop {
        match eval(alloc, job, addins)? {
            Outcome::Topic(topic) => job.topics.push(topic, value.copy()?)?,
            outcome => return Ok(outcome),
        }
    }
}
