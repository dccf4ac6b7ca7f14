ghost use Rattle.std.specs.Prelude.{◌≡◌, unwrap_or};
ghost use Rattle.std.specs.Option.{option_map};
ghost use Rattle.workbook.specs.Book.{formula_weight};

use super::contents::Content;
use super::registry::Registry;
use addin_types::Registration;
use cell_refs::Cell;
use cell_values::{Memory, Name};
use std::alloc::Global;
use std::collections::BTreeMap;
use std::collections::btree_map::Range;
use std::marker::Model;
use std::ops::Bound;

/// The most cells with content.
pub const CELL_LIMIT: usize = 500_000;

/// The most cells with a formula.
pub const FORMULA_LIMIT: usize = 100_000;

/// Why a content was not taken; it is given back.
#[derive(Drop)]
pub enum SetFault {
    /// The cell has no content, and 500,000 cells have one.
    CellLimit(Content),
    /// The cell has no formula, and 100,000 cells have one.
    FormulaLimit(Content),
    Memory(Content),
}

/// The cells with content, and the registered functions.
#[derive(Drop)]
pub struct Book {
    contents: BTreeMap<Cell, Content>,
    formulas: usize,
    functions: Registry,
}

impl Model for Book {
    ghost use Rattle.std.specs.Prelude.{◌≡◌, ◌≤◌, length};
    ghost use Rattle.workbook.specs.Book.{BookState, formula_count, IsInOrder, CELL_LIMIT, FORMULA_LIMIT};
    ghost use Rattle.formula_parse.specs.contracts.nodes.Node as e;
    ghost use Rattle.std.specs.Coded.{codes};

    ghost Value = { BookState };

    ghost coded = { Prim.hlevel (codes, e.the_row.coded) };

    ghost view = { λ b. record { contents = b.contents.entries; functions = b.functions } };

    ghost invariant = { λ b. (b.formulas ≡ formula_count b.contents.entries)
        × IsInOrder b.contents.entries
        × (length b.contents.entries ≤ CELL_LIMIT)
        × (formula_count b.contents.entries ≤ FORMULA_LIMIT) };
}

impl Book {
    ghost use Rattle.std.specs.Prelude.{[], None, Some, false, length, ◌<◌, ◌≤◌, ◌^◌, OnOk, OnErr, IfErr, MatchResult, option_copied};
    ghost use Rattle.std.specs.BTreeMap.{insert_entry};
    ghost use Rattle.std.specs.Map.{remove_entry};
    ghost use Rattle.std.specs.Map.Iter.{ShowsInOrder, deref_pair};
    ghost use Rattle.cell_refs.specs.Cell.{cell_cmp, same_cell};
    ghost use Rattle.workbook.specs.Book.{CELL_LIMIT, FORMULA_LIMIT, content_at, formula_count, is_formula, next_cell, cells_from, IsInOrder, SetsContent, PutsContent, limit_fault, exceeds_cells, exceeds_formulas, IsRefusal};
    ghost use Rattle.workbook.specs.Registry.{AreInOrder, name_cmp, registration_of, next_name};
    ghost use Rattle.workbook.specs.declared.books.SetFault.TheVariants as faults;

    /// An empty book.
    pub fn new(alloc: Global) -> Book
        ensures { result ≡ record { contents = []; functions = [] } }
    {
        Book {
            contents: BTreeMap::new(alloc),
            formulas: 0,
            functions: Registry::new(alloc),
        }
    }

    /// The content of a cell.
    pub fn get(&self, cell: Cell) -> Option<&Content>
        ensures found { option_copied result ≡ content_at self.now.contents cell }
        ensures ordered { IsInOrder self.now.contents }
    {
        self.contents.get(&cell)
    }

    /// How many cells have content.
    pub fn cells(&self) -> usize
        ensures count { result ≡ length self.now.contents }
        ensures limit { result ≤ CELL_LIMIT }
        ensures ordered { IsInOrder self.now.contents }
    {
        self.contents.len()
    }

    /// How many cells have a formula.
    pub fn formulas(&self) -> usize
        ensures count { result ≡ formula_count self.now.contents }
        ensures limit { result ≤ FORMULA_LIMIT }
        ensures ordered { IsInOrder self.now.contents }
    {
        self.formulas
    }

    /// Gives the cell this content, in place of any that it has. A refusal gives the content back and changes nothing.
    pub fn set(&mut self, cell: Cell, content: Content) -> Result<(), SetFault>
        ensures ok { OnOk result
            (self.new
            ≡ record self.old { contents = insert_entry cell_cmp self.old.contents cell content }) }
        ensures contents { OnOk result
            (SetsContent self.old.contents self.new.contents cell content) }
        ensures refused { OnErr result (self.new ≡ self.old) }
        ensures ordered { IsInOrder self.old.contents × IsInOrder self.new.contents }

        // A limit is answered exactly where it would be passed, that of cells first; else memory may be wanting.
        ensures limits { MatchResult result (λ _. limit_fault self.old.contents cell content ≡ None)
            (IsRefusal (limit_fault self.old.contents cell content) content) }
    {
        if self.exceeds_cells(cell) {
            return Err(SetFault::CellLimit(content));
        }
        if self.exceeds_formulas(cell, &content) {
            return Err(SetFault::FormulaLimit(content));
        }
        match self.put(cell, content) {
            Ok(()) => Ok(()),
            Err(content) => Err(SetFault::Memory(content)),
        }
    }

    /// Gives the cell this content, which passes no limit.
    fn put(&mut self, cell: Cell, content: Content) -> Result<(), Content>
        requires cells { exceeds_cells self.old.contents cell ≡ false }
        requires formulas { exceeds_formulas self.old.contents cell content ≡ false }
        ensures ok { OnOk result
            (self.new
            ≡ record self.old { contents = insert_entry cell_cmp self.old.contents cell content }) }
        ensures contents { OnOk result
            (SetsContent self.old.contents self.new.contents cell content) }
        ensures refused { IfErr result (λ back. (back ≡ content) × (self.new ≡ self.old)) }
        ensures ordered { IsInOrder self.old.contents × IsInOrder self.new.contents }
    {
        let more = content.formula_weight();
        match self.contents.insert(cell, content) {
            Ok(before) => {
                let less = weight_before(before);
                self.formulas = self.formulas + more - less;
                Ok(())
            }
            Err(refused) => {
                let (_, content) = refused.value;
                Err(content)
            }
        }
    }

    /// Whether a content at this cell would be that of one cell too many.
    fn exceeds_cells(&self, cell: Cell) -> bool
        ensures test { result ≡ exceeds_cells self.now.contents cell }
        ensures ordered { IsInOrder self.now.contents }
    {
        !self.contents.contains_key(&cell) && self.contents.len() >= CELL_LIMIT
    }

    /// Whether this content at the cell would be one formula too many.
    fn exceeds_formulas(&self, cell: Cell, content: &Content) -> bool
        ensures test { result ≡ exceeds_formulas self.now.contents cell content.now }
        ensures ordered { IsInOrder self.now.contents }
    {
        content.is_formula() && !self.has_formula(cell) && self.formulas >= FORMULA_LIMIT
    }

    /// Whether a cell has a formula.
    fn has_formula(&self, cell: Cell) -> bool
        ensures { result ≡ is_formula self.now.contents cell }
    {
        match self.get(cell) {
            Some(content) => content.is_formula(),
            None => false,
        }
    }

    /// Takes the content of a cell away, and answers it; None where it has none. It takes no memory.
    pub fn clear(&mut self, cell: Cell) -> Option<Content>
        ensures content { result ≡ content_at self.old.contents cell }
        ensures cleared { self.new ≡ record self.old {
          contents = remove_entry
              (same_cell cell) self.old.contents;
        } }
        ensures contents { PutsContent self.old.contents self.new.contents cell None }
        ensures ordered { IsInOrder self.old.contents × IsInOrder self.new.contents }
    {
        match self.contents.remove(&cell) {
            Some(old) => {
                self.formulas -= old.formula_weight();
                Some(old)
            }
            None => None,
        }
    }

    /// The least cell with content among those greater than `after`, or among all.
    pub fn next_cell(&self, after: Option<Cell>) -> Option<Cell>
        ensures next { result ≡ next_cell self.now.contents after }
        ensures ordered { IsInOrder self.now.contents }
    {
        match after {
            None => match self.contents.first_key_value() {
                None => None,
                Some((cell, _)) => Some(*cell),
            },
            Some(cell) => self.next_after(cell),
        }
    }

    fn next_after(&self, cell: Cell) -> Option<Cell>
        ensures next { result ≡ next_cell self.now.contents (Some cell) }
        ensures ordered { IsInOrder self.now.contents }
    {
        match self
            .contents
            .range((Bound::Excluded(&cell), Bound::Unbounded))
            .next()
        {
            None => None,
            Some((next, _)) => Some(*next),
        }
    }

    /// The cells with content from a cell on, in order, each with its content.
    pub fn contents_from(&self, from: Cell) -> Range<'_, Cell, Content>
        ensures entries { result ≡ cells_from from self.now.contents }
        ensures runs { ShowsInOrder (deref_pair {K = Cell} {X = Content}) }
        ensures fits { length result < 2 ^ 63 }
        ensures ordered { IsInOrder self.now.contents }
    {
        self.contents
            .range((Bound::Included(&from), Bound::Unbounded))
    }

    /// Registers a function, in place of any of that name. A refusal changes nothing.
    pub fn register(&mut self, name: Name, registration: Registration) -> Result<(), Memory>
        ensures ok { OnOk result (self.new ≡ record self.old {
          functions = insert_entry name_cmp self.old.functions name registration;
        }) }
        ensures refused { OnErr result (self.new ≡ self.old) }
    {
        self.functions.register(name, registration)
    }

    /// What a name is registered with.
    pub fn registration(&self, name: &str) -> Option<&Registration>
        ensures found { option_copied result ≡ registration_of self.now.functions name.now }
        ensures ordered { AreInOrder self.now.functions }
    {
        self.functions.registration(name)
    }

    /// The least registered name by its bytes among those greater than `after`, or among all.
    pub fn next_name(&self, after: Option<&str>) -> Option<&Name>
        ensures next { option_copied result ≡ next_name self.now.functions
            (option_copied after.entry) }
        ensures ordered { AreInOrder self.now.functions }
    {
        self.functions.next_name(after)
    }
}

// The weight of the content that a cell had.
fn weight_before(before: Option<Content>) -> usize
    ensures { result ≡ unwrap_or (option_map formula_weight before) 0 }
{
    match before {
        Some(old) => old.formula_weight(),
        None => 0,
    }
}
