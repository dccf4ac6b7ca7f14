//! What holds of the cells that aren't stale, after any commands. The functions do nothing; each
//! carries a theorem as its contract.

ghost use Rattle.std.specs.Prelude.{◌≡◌, List, false, true};
ghost use Rattle.cell_refs.specs.declared.grid.Cell.{Cell};
ghost use Rattle.cell_values.specs.declared.topics.Topic.{Topic};
ghost use Rattle.workbook.specs.declared.commands.BeginKind.{BeginKind};
ghost use Rattle.workbook.specs.Agreement.{IsAlikeBesideChanged};
ghost use Rattle.workbook.specs.Book.{is_formula};
ghost use Rattle.workbook.specs.History.{Attempt, state_after_attempts};
ghost use Rattle.workbook.specs.Meaning.{meaning};
ghost use Rattle.workbook.specs.Reads.{cell_reads, topics_of_cell};
ghost use Rattle.workbook.specs.Stale.{is_stale};
ghost use Rattle.workbook.specs.State.{HostTerms, completed_setting, first_state, setting_of};
ghost use Rattle.workbook.specs.Step.{after_begin};

/// In every state that commands lead to, whichever servers fail in them, and whether or not a
/// recalculation runs, all beside what is changed is as it was in the last completed recalculation.
/// So it is where the next recalculation begins.
pub fn every_state_is_alike()
    ensures alike { (terms : HostTerms) (attempts : List Attempt)
        → let s = state_after_attempts terms first_state attempts in
        IsAlikeBesideChanged (completed_setting terms s) (setting_of terms s)
        s.completed.book.contents s.book.contents s.changed }
    ensures begun { (terms : HostTerms) (attempts : List Attempt) (kind : BeginKind)
        → let s = after_begin (state_after_attempts terms first_state attempts) kind in
        IsAlikeBesideChanged (completed_setting terms s) (setting_of terms s)
        s.completed.book.contents s.book.contents s.changed }
{}

/// A formula cell that isn't stale means the same, and reads the same topics, as in the last
/// completed recalculation.
pub fn a_clean_cell_keeps_its_meaning()
    ensures meaning { (terms : HostTerms) (attempts : List Attempt) (cell : Cell)
        → let s = state_after_attempts terms first_state attempts in
        is_formula s.book.contents cell ≡ true → is_stale s.book.contents s.changed cell ≡ false
        → meaning (completed_setting terms s) s.completed.book.contents cell
        ≡ meaning (setting_of terms s) s.book.contents cell }
    ensures reads { (terms : HostTerms) (attempts : List Attempt) (cell : Cell) (topic : Topic)
        → let s = state_after_attempts terms first_state attempts in
        is_formula s.book.contents cell ≡ true → is_stale s.book.contents s.changed cell ≡ false
        → cell_reads (completed_setting terms s) s.completed.book.contents cell topic
        ≡ cell_reads (setting_of terms s) s.book.contents cell topic }
    ensures topics { (terms : HostTerms) (attempts : List Attempt) (cell : Cell)
        → let s = state_after_attempts terms first_state attempts in
        is_formula s.book.contents cell ≡ true → is_stale s.book.contents s.changed cell ≡ false
        → topics_of_cell (completed_setting terms s) s.completed.book.contents cell
        ≡ topics_of_cell (setting_of terms s) s.book.contents cell }
{}
