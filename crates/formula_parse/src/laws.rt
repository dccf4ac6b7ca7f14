//! Laws over the definitions, each the contract of a function without a body.

ghost use Rattle.std.specs.Prelude.{◌≡◌, ◌≤◌, ◌↔◌, ℕ, List, Some, Err, All};
ghost use Rattle.cell_refs.specs.Area.{IsArea, size_of};
ghost use Rattle.formula_parse.specs.Tree.{IsTree, areas_named, site_count};
ghost use Rattle.formula_parse.specs.declared.faults.ParseFault.TheVariants as faults;
ghost use Rattle.formula_parse.specs.declared.nodes.Node.{Node};
ghost use Rattle.std.specs.Str.{is_utf8};
ghost use Rattle.formula_parse.specs.Faults.{IsFormula, IsShort, IsTooDeep, IsSyntaxFault, IsRangeFault, IsNumberFault};
ghost use Rattle.formula_parse.specs.Printing.{canonical_text};
ghost use Rattle.formula_parse.specs.Parsing.{formula_of, parse_result};

use super::limits::LARGEST_AREA;
use cell_refs::SHEETS;

/// Reading a text from left to right gives exactly the tree that the grammar lets it write.
pub fn reading_gives_what_is_written()
    ensures { (text : List ℕ) (tree : Node) → IsFormula text tree ↔ (formula_of text ≡ Some tree) }
{}

/// A text is a formula of one tree at most.
pub fn a_text_has_one_tree()
    ensures { (text : List ℕ) (a b : Node) → IsFormula text a → IsFormula text b → a ≡ b }
{}

/// Each fault is answered exactly where its cause stands.
pub fn each_fault_has_its_cause()
    ensures too_deep { (text : List ℕ) → IsShort text
        → IsTooDeep text ↔ (parse_result text ≡ Err faults.TooDeep) }
    ensures syntax { (text : List ℕ) (place : ℕ) → IsShort text
        → IsSyntaxFault text place ↔ (parse_result text ≡ Err (faults.Syntax place)) }
    ensures bad_range { (text : List ℕ) → IsShort text
        → IsRangeFault text ↔ (parse_result text ≡ Err faults.BadRange) }
    ensures number_too_large { (text : List ℕ) → IsShort text
        → IsNumberFault text ↔ (parse_result text ≡ Err faults.NumberTooLarge) }
{}

/// The canonical text of a tree is a formula of that tree.
pub fn what_is_printed_reads_back()
    ensures { (text : List ℕ) (tree : Node) → IsFormula text tree
        → IsFormula (canonical_text tree) tree }
{}

/// What a tree names lies inside the grid, and it has no more sites than a `u16` counts.
pub fn trees_are_within_limits()
    ensures small { (tree : Node) (home : ℕ) → IsTree tree
        → All (λ area. size_of area ≤ LARGEST_AREA) (areas_named tree home) }
    ensures inside { (tree : Node) (home : ℕ) → IsTree tree → 1 ≤ home → home ≤ SHEETS
        → All IsArea (areas_named tree home) }
    ensures sites { (tree : Node) → IsTree tree → site_count tree ≤ 65535 }
{}
