ghost use Rattle.std.specs.Prelude.{◌≡◌, ◌≤◌, ⊤, map, IfOk, OnSome, MatchOption};
ghost use Rattle.std.specs.List.Sorted.{IsStrictlySortedBy};
ghost use Rattle.std.specs.Map.{keys_of};
ghost use Rattle.std.specs.Ordering.{is_lt};
ghost use Rattle.cell_refs.specs.Area.{cells_of, size_of};
ghost use Rattle.cell_refs.specs.Cell.{cell_cmp};
ghost use Rattle.functions.specs.Functions.{takes_area};
ghost use Rattle.workbook.specs.Evaluation.{World, area_input};
ghost use Rattle.functions.specs.Inputs.{IsInput};
ghost use Rattle.formula_parse.specs.Tree.{site_count};
ghost use Rattle.cell_eval.specs.Jobs.{input_of};
ghost use Rattle.cell_eval.specs.Inputs.{from_cell, head_value};
ghost use Rattle.cell_eval.specs.Steps.{NamesSmallAreas, area_at, taken_area};

use cell_refs::{Area, Cell};
use cell_values::{Memory, Value};
use formula_parse::{LARGEST_AREA, Node};
use functions::{Arg, Function, Values};
use std::alloc::Global;

/// The area that a part of a formula refers to, where it is a reference or an area and nothing else.
fn area_in(node: &Node, home: u8) -> Option<Area>
    ensures area { (world : World) → world.home ≡ home → result ≡ area_at world node.now }
    ensures sites { OnSome result (site_count node.now ≡ 0) }
    ensures small { NamesSmallAreas home node.now
        → MatchOption result ⊤ (λ area. size_of area ≤ LARGEST_AREA) }
    ensures formed { MatchOption result ⊤ (λ area. (area.top ≤ area.bottom)
        × (area.left ≤ area.right)) }
{
    match node {
        Node::Reference(reference) => Some(Area::of(reference, reference, home)),
        Node::Area(first, second) => Some(Area::of(first, second, home)),
        _ => None,
    }
}

/// The area whose values a function takes for its argument at a place.
pub fn area_taken(function: Function, place: usize, node: &Node, home: u8) -> Option<Area>
    ensures area { (world : World) → world.home ≡ home
        → result ≡ taken_area (takes_area function place) (area_at world node.now) }
    ensures sites { OnSome result (site_count node.now ≡ 0) }
    ensures small { NamesSmallAreas home node.now
        → MatchOption result ⊤ (λ area. size_of area ≤ LARGEST_AREA) }
    ensures formed { MatchOption result ⊤ (λ area. (area.top ≤ area.bottom)
        × (area.left ≤ area.right)) }
{
    if function.takes_area(place) {
        area_in(node, home)
    } else {
        None
    }
}

/// The entries from a cell on.
fn from_cell(entries: &[(Cell, Value)], cell: Cell) -> &[(Cell, Value)]
    requires { IsStrictlySortedBy cell_cmp (keys_of entries.now) }
    ensures entries { result.now ≡ from_cell entries.now cell }
    ensures ordered { IsStrictlySortedBy cell_cmp (keys_of result.now) }
{
    match entries.first() {
        Some((first, _)) if *first < cell => {
            let before = entries.partition_point(
                |entry: &(Cell, Value)| -> bool
                    ensures { result ≡ is_lt (cell_cmp entry.now.0 cell) }
                { entry.0 < cell },
            );
            &entries[before..]
        }
        _ => entries,
    }
}

/// The same, where that is likely to be the next entry: it is looked at first.
fn from_next(entries: &[(Cell, Value)], cell: Cell) -> &[(Cell, Value)]
    requires { IsStrictlySortedBy cell_cmp (keys_of entries.now) }
    ensures entries { result.now ≡ from_cell entries.now cell }
    ensures ordered { IsStrictlySortedBy cell_cmp (keys_of result.now) }
{
    match entries {
        [first, rest @ ..] if first.0 < cell => match rest.first() {
            Some((next, _)) if *next < cell => from_cell(rest, cell),
            _ => rest,
        },
        _ => entries,
    }
}

/// The value of a cell, where no entry before the first is the cell's.
fn head_value(entries: &[(Cell, Value)], cell: Cell) -> Result<Value, Memory>
    ensures { IfOk result (λ value. value ≡ head_value entries.now cell) }
{
    match entries.first() {
        Some((first, value)) if cell == *first => value.copy(),
        _ => Ok(Value::Blank),
    }
}

/// The value of a cell: that among the entries, else Blank.
pub fn input_value(entries: &[(Cell, Value)], cell: Cell) -> Result<Value, Memory>
    requires { IsStrictlySortedBy cell_cmp (keys_of entries.now) }
    ensures { IfOk result (λ value. value ≡ input_of entries.now cell) }
{
    head_value(from_cell(entries, cell), cell)
}

/// The values of an area's cells, by rows. The entries are searched at the first cell, and then only behind entries
/// that lie outside of the area; the others are taken one after another.
fn area_values(alloc: Global, inputs: &[(Cell, Value)], area: Area) -> Result<Vec<Value>, Memory>
    requires { IsStrictlySortedBy cell_cmp (keys_of inputs.now) }
    ensures { IfOk result (λ values. values.items ≡ map (input_of inputs.now) (cells_of area)) }
{
    let mut values = Vec::new(alloc);
    let mut rest = inputs;
    for cell in area.cells() {
        rest = from_next(rest, cell);
        if values.push(head_value(rest, cell)?).is_err() {
            return Err(Memory);
        }
    }
    Ok(values)
}

/// An area as an argument.
pub fn area_argument(alloc: Global, inputs: &[(Cell, Value)], area: Area) -> Result<Arg, Memory>
    requires ordered { IsStrictlySortedBy cell_cmp (keys_of inputs.now) }
    requires small { size_of area ≤ LARGEST_AREA }
    requires formed { (area.top ≤ area.bottom) × (area.left ≤ area.right) }
    ensures argument { (world : World) → world.input ≡ input_of inputs.now
        → IfOk result (λ argument. argument ≡ area_input world area) }
    ensures form { IfOk result IsInput }
{
    let values = area_values(alloc, inputs, area)?;
    Ok(Arg::Cells {
        columns: u32::from(area.right) + 1 - u32::from(area.left),
        values: Values::new(values),
    })
}
