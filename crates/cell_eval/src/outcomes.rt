ghost use Rattle.std.specs.Prelude.{◌≡◌, IfOk};
ghost use Rattle.workbook.specs.Evaluation.{answer_of};
ghost use Rattle.cell_eval.specs.Jobs.{world_of};
ghost use Rattle.cell_eval.specs.Outcomes.{outcome_answer};

use super::evaluation::Evaluator;
use super::halts::Halt;
use super::jobs::{Job, Outcome};
use addin_types::AddIns;
use cell_values::Memory;
use std::alloc::Global;

/// Evaluates a formula as far as it comes with what the job knows.
pub fn eval<F: AddIns>(alloc: Global, job: &Job, addins: &F) -> Result<Outcome, Memory>
    ensures { IfOk result (λ outcome. outcome_answer outcome
        ≡ answer_of (world_of F.answer job.now) job.now.tree) }
{
    let evaluator = Evaluator { alloc, job, addins };
    let mut sites = 0;
    match evaluator.part(job.tree.root(), &mut sites) {
        Ok(value) => Ok(Outcome::Done(value.or_zero())),
        Err(Halt::Memory) => Err(Memory),
        Err(Halt::Topic(topic)) => Ok(Outcome::Topic(topic)),
        Err(Halt::Call { site, name, args }) => Ok(Outcome::Call { site, name, args }),
    }
}
