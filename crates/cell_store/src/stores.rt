ghost use Rattle.std.specs.Prelude.{◌≡◌};

use super::gathering::gather;
use super::sheets::sheet;
use super::unknowns::next_unknown;
use super::updates::{put, remove, replace, touch};
use cell_refs::{Area, Cell};
use cell_values::{Memory, Value};
use std::alloc::Global;
use std::collections::BTreeMap;
use std::marker::Model;

/// The values of cells: what each has at present, and what the sheet showed at the last completion, which is kept only
/// of the cells that were touched since.
#[derive(Drop)]
pub struct CellStore {
    present: BTreeMap<Cell, Option<Value>>,
    before: BTreeMap<Cell, Option<Option<Value>>>,
}

impl Model for CellStore {
    ghost use Rattle.cell_store.specs.Store.{AreInOrder, StoreState};

    ghost Value = { StoreState };

    ghost view = { λ s. record { present = s.present.entries; before = s.before.entries } };

    ghost invariant = { λ s. AreInOrder s.present.entries × AreInOrder s.before.entries };
}

impl CellStore {
    ghost use Rattle.std.specs.Prelude.{None, Some, true, false, IsTrue, IfOk, OnOk, OnErr, MatchOption, is_some, option_copied, option_map};
    ghost use Rattle.cell_refs.specs.declared.grid.Cell.{Cell as OneCell};
    ghost use Rattle.cell_store.specs.Gathering.{AreGathered, HasUnknown, IsLeast, is_sought};
    ghost use Rattle.cell_store.specs.Store.{AreInOrder, GainsTouched, KeepsPresent, KeepsShown, KeepsTouched, PutsPresent, entry_at, is_touched, present_at, shown_at};

    /// Nothing is present, and nothing shown.
    pub fn new(alloc: Global) -> CellStore
        ensures present { (q : OneCell) → present_at result q ≡ None }
        ensures shown { (q : OneCell) → shown_at result q ≡ None }
        ensures touched { (q : OneCell) → is_touched result q ≡ false }
    {
        CellStore {
            present: BTreeMap::new(alloc),
            before: BTreeMap::new(alloc),
        }
    }

    /// Makes this value the present one of a cell; the sheet shows what it showed. A refusal changes nothing.
    pub fn put(&mut self, cell: Cell, value: Option<Value>) -> Result<(), Memory>
        ensures present { OnOk result (PutsPresent self.old self.new cell (Some value)) }
        ensures touched { OnOk result (GainsTouched self.old self.new cell) }
        ensures shown { KeepsShown self.old self.new }
        ensures refused { OnErr result (self.new ≡ self.old) }
    {
        put(&mut self.present, &mut self.before, cell, value)
    }

    /// Takes away what is present at a cell; the sheet shows what it showed. A refusal changes nothing.
    pub fn remove(&mut self, cell: Cell) -> Result<(), Memory>
        ensures present { OnOk result (PutsPresent self.old self.new cell None) }
        ensures touched { OnOk result (GainsTouched self.old self.new cell) }
        ensures shown { KeepsShown self.old self.new }
        ensures refused { OnErr result (self.new ≡ self.old) }
    {
        remove(&mut self.present, &mut self.before, cell)
    }

    /// Notes what the sheet shows of a cell, so that its value can be taken away without memory. A refusal changes
    /// nothing.
    pub fn touch(&mut self, cell: Cell) -> Result<(), Memory>
        ensures present { KeepsPresent self.old self.new }
        ensures touched { OnOk result (GainsTouched self.old self.new cell) }
        ensures shown { KeepsShown self.old self.new }
        ensures refused { OnErr result (self.new ≡ self.old) }
    {
        touch(&self.present, &mut self.before, cell)
    }

    /// Takes the value of a touched cell that is present away; it stays present. It takes no memory.
    pub fn empty(&mut self, cell: Cell)
        requires present { IsTrue (is_some (present_at self.old cell)) }
        requires touched { IsTrue (is_touched self.old cell) }
        ensures present { PutsPresent self.old self.new cell (Some None) }
        ensures shown { KeepsShown self.old self.new }
        ensures touched { KeepsTouched self.old self.new }
    {
        replace(&mut self.present, cell, None);
    }

    /// Gives a touched cell that is present its value. It takes no memory.
    pub fn finish(&mut self, cell: Cell, value: Value)
        requires present { IsTrue (is_some (present_at self.old cell)) }
        requires touched { IsTrue (is_touched self.old cell) }
        ensures present { PutsPresent self.old self.new cell (Some (Some value)) }
        ensures shown { KeepsShown self.old self.new }
        ensures touched { KeepsTouched self.old self.new }
    {
        replace(&mut self.present, cell, Some(value));
    }

    /// The sheet shows what is present, and no cell is touched any more. It takes no memory, and costs the touched
    /// cells alone.
    pub fn complete(&mut self)
        ensures shown { (q : OneCell) → shown_at self.new q ≡ present_at self.old q }
        ensures present { KeepsPresent self.old self.new }
        ensures touched { (q : OneCell) → is_touched self.new q ≡ false }
    {
        self.before.clear();
    }

    /// What is present at a cell.
    pub fn present(&self, cell: Cell) -> Option<Option<&Value>>
        ensures { option_map option_copied result ≡ present_at self.now cell }
    {
        match self.present.get(&cell) {
            None => None,
            Some(value) => Some(value.as_ref()),
        }
    }

    /// Whether a cell was touched since the last completion.
    pub fn is_touched(&self, cell: Cell) -> bool
        ensures { result ≡ is_touched self.now cell }
    {
        self.before.contains_key(&cell)
    }

    /// The values of the cells of the areas that are present, each once and in cell order; None exactly where one has
    /// no value.
    pub fn gather(
        &self,
        alloc: Global,
        areas: &[Area],
    ) -> Result<Option<Vec<(Cell, Value)>>, Memory>
        ensures { IfOk result (λ all.
            MatchOption all (HasUnknown (present_at self.now) areas.now)
            (λ entries. AreGathered (present_at self.now) areas.now entries.items)) }
    {
        gather(alloc, &self.present, areas)
    }

    /// The least cell of the areas, behind `after` where that is given, that is present with no value. It takes no
    /// memory.
    pub fn next_unknown(&self, areas: &[Area], after: Option<Cell>) -> Option<Cell>
        ensures { IsLeast (is_sought (present_at self.now) areas.now after) result }
    {
        next_unknown(&self.present, areas, after)
    }

    /// What the sheet shows, in cell order, each shown cell once.
    pub fn sheet(&self, alloc: Global) -> Result<Vec<(Cell, Option<Value>)>, Memory>
        ensures ordered { IfOk result (λ sheet. AreInOrder sheet.items) }
        ensures shown { IfOk result (λ sheet. (q : OneCell)
            → entry_at sheet.items q ≡ shown_at self.now q) }
    {
        sheet(alloc, &self.present, &self.before)
    }
}
