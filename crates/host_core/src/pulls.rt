//! A host's pulls of real-time data.

ghost use Rattle.std.specs.Prelude.{◌≡◌, true, false, IfOk, OnErr};
ghost use Rattle.host_core.specs.HostState.{Answers};
ghost use Rattle.workbook.specs.InForm.{IsMomentInForm};
ghost use Rattle.host_core.specs.Standing.{IsStep, KeepsNumbers, KeepsStates, StandsForSome};
ghost use Rattle.rtd_topics.specs.Parts.{rtd_of};
ghost use Rattle.workbook.specs.Pulling.{Now, is_flagged, pull_due};
ghost use Rattle.workbook.specs.declared.commands.Command.TheVariants as commands;

use super::round_books::RoundBook;
use cell_values::Memory;
use rtd_server::RtdServer;
use throttle::Due;
use workbook::{Moment, Names, Reply};

#[tactic(none)]
impl<S: RtdServer + Drop> RoundBook<S> {
    /// Takes what the flagged servers have published, where a pull is due.
    pub(super) fn pull(&mut self, moment: Moment) -> Result<Reply, Memory>
        requires form { IsMomentInForm moment }
        requires stands { StandsForSome S.state self.old }
        ensures step { (answer : Answers)
            → IfOk result (IsStep S.state answer self.old self.new (commands.Pull moment)) }
        ensures refused { (answer : Answers)
            → OnErr result (KeepsStates S.state answer self.old self.new) }
        ensures numbers { KeepsNumbers self.old self.new }
    {
        if self.running {
            return Ok(Reply::Busy(self.round));
        }
        if !self.rtd.is_flagged() {
            return Ok(Reply::Nothing);
        }
        match self.rtd.due(&moment) {
            Due::Manual => Ok(Reply::Manual),
            Due::Early(wait) => Ok(Reply::Early(wait)),
            Due::Now => self.take(moment),
        }
    }

    /// Takes what the flagged servers have published. The cells that read what changes are changed.
    fn take(&mut self, moment: Moment) -> Result<Reply, Memory>
        requires form { IsMomentInForm moment }
        requires stands { StandsForSome S.state self.old }
        requires rests { self.old.running ≡ false }
        requires flagged { is_flagged (rtd_of S.state self.old.rtd).servers ≡ true }
        requires due { pull_due (rtd_of S.state self.old.rtd).throttle moment ≡ Now }
        ensures step { (answer : Answers)
            → IfOk result (IsStep S.state answer self.old self.new (commands.Pull moment)) }
        ensures refused { (answer : Answers)
            → OnErr result (KeepsStates S.state answer self.old self.new) }
        ensures numbers { KeepsNumbers self.old self.new }
    {
        self.rtd.facts();
        let news = self.rtd.prepare_pull()?;
        self.calc.note_changed(news.readers.as_slice())?;
        // From here on nothing takes memory.
        self.rtd.take_pull(&moment);
        Ok(Reply::Pulled {
            changed: news.changed,
            failed: Names::from_vec(Vec::new(self.alloc)),
        })
    }
}
