ghost use Rattle.std.specs.Prelude.{◌≡◌, ◌≤◌, Bool, [], ◌∷◌, ◌++◌, length, map, min, option_to_list, All, IfOk, OnOk};
ghost use Rattle.std.specs.List.{list_any};
ghost use Rattle.cell_refs.specs.Area.{IsArea, size_of};
ghost use Rattle.formula_parse.specs.Callees.{added_name, is_rtd};
ghost use Rattle.formula_parse.specs.declared.callees.Callee.{Callee};
ghost use Rattle.formula_parse.specs.Tree.{areas_named, calls_of, concat, has_rtd_call, site_count, sites_named};

use super::callees::Callee;
use super::limits::LARGEST_AREA;
use super::nodes::Node;
use super::trees::Tree;
use cell_refs::{Area, SHEETS};
use cell_values::{Memory, Name};
use std::alloc::Global;

/// The areas that a formula on the sheet home names: one for each written reference or area, from
/// left to right, in branches that are taken or not.
pub fn names(alloc: Global, t: &Tree, home: u8) -> Result<Vec<Area>, Memory>
    ensures areas { IfOk result (λ areas. areas.items ≡ areas_named t.now home) }
    ensures inside { (1 ≤ home) × (home ≤ SHEETS) → IfOk result (λ areas. All IsArea areas.items) }
    ensures small { IfOk result (λ areas. All (λ area. size_of area ≤ LARGEST_AREA) areas.items) }
{
    let mut areas = Vec::new(alloc);
    push_areas(t.root(), home, &mut areas)?;
    Ok(areas)
}

/// Adds the areas that a part of a formula names.
#[cycle(push_areas)]
fn push_areas(node: &Node, home: u8, areas: &mut Vec<Area>) -> Result<(), Memory>
    ensures { OnOk result (areas.new.items ≡ areas.old.items ++ areas_named node.now home) }
{
    match node {
        Node::Number(_) | Node::Text(_) | Node::Error(_) | Node::Boolean(_) => Ok(()),
        Node::Reference(reference) => push_area(Area::of(reference, reference, home), areas),
        Node::Area(first, second) => push_area(Area::of(first, second, home), areas),
        Node::Call { arguments, .. } => push_all_areas(arguments.get().as_slice(), home, areas),
        Node::Parentheses(inner) => push_areas(inner.get(), home, areas),
        Node::Negation { operand, .. } => push_areas(operand.get(), home, areas),
        Node::Chain { operands, .. } => push_all_areas(operands.get().as_slice(), home, areas),
    }
}

/// Adds the areas that several parts of a formula name.
#[cycle(push_areas)]
fn push_all_areas(nodes: &[Node], home: u8, areas: &mut Vec<Area>) -> Result<(), Memory>
    ensures { OnOk result (areas.new.items ≡ areas.old.items
        ++ concat (map (λ node. areas_named node home) nodes.now)) }
{
    for node in nodes {
        push_areas(node, home, areas)?;
    }
    Ok(())
}

/// Adds an area.
fn push_area(area: Area, areas: &mut Vec<Area>) -> Result<(), Memory>
    ensures { OnOk result (areas.new.items ≡ areas.old.items ++ area ∷ []) }
{
    areas.push(area)?;
    Ok(())
}

/// The names that a formula calls and that are neither built in nor `RTD`, one for each call, from left to right, in
/// branches that are taken or not.
pub fn called_names(alloc: Global, t: &Tree) -> Result<Vec<Name>, Memory>
    ensures { IfOk result (λ names. names.items ≡ sites_named t.now) }
{
    let mut called = Vec::new(alloc);
    push_names(t.root(), &mut called)?;
    Ok(called)
}

/// Adds the names that a part of a formula calls.
#[cycle(push_names)]
fn push_names(node: &Node, called: &mut Vec<Name>) -> Result<(), Memory>
    ensures { OnOk result (called.new.items ≡ called.old.items ++ sites_named node.now) }
{
    match node {
        Node::Number(_)
        | Node::Text(_)
        | Node::Error(_)
        | Node::Boolean(_)
        | Node::Reference(_)
        | Node::Area(_, _) => Ok(()),
        Node::Call { callee, arguments } => {
            push_name(callee, called)?;
            push_all_names(arguments.get().as_slice(), called)
        }
        Node::Parentheses(inner) => push_names(inner.get(), called),
        Node::Negation { operand, .. } => push_names(operand.get(), called),
        Node::Chain { operands, .. } => push_all_names(operands.get().as_slice(), called),
    }
}

/// Adds the names that several parts of a formula call.
#[cycle(push_names)]
fn push_all_names(nodes: &[Node], called: &mut Vec<Name>) -> Result<(), Memory>
    ensures { OnOk result (called.new.items
        ≡ called.old.items ++ concat (map sites_named nodes.now)) }
{
    for node in nodes {
        push_names(node, called)?;
    }
    Ok(())
}

/// Adds the name of an added function.
fn push_name(callee: &Callee, called: &mut Vec<Name>) -> Result<(), Memory>
    ensures { OnOk result (called.new.items
        ≡ called.old.items ++ option_to_list (added_name callee.now)) }
{
    if let Callee::Added(name) = callee {
        called.push(name.copy()?)?;
    }
    Ok(())
}

/// How many calls a formula has of names that are neither built in nor `RTD`.
pub fn sites(t: &Tree) -> u16
    ensures { result ≡ site_count t.now }
{
    count_sites(t.root())
}

/// How many such calls a part of a formula has; 65,535 stands for more, too.
#[cycle(count_sites)]
fn count_sites(node: &Node) -> u16
    ensures { result ≡ min (site_count node.now) 65535 }
{
    match node {
        Node::Number(_)
        | Node::Text(_)
        | Node::Error(_)
        | Node::Boolean(_)
        | Node::Reference(_)
        | Node::Area(_, _) => 0,
        Node::Call { callee, arguments } => {
            count_all_sites(arguments.get().as_slice()).saturating_add(u16::from(callee.is_added()))
        }
        Node::Parentheses(inner) => count_sites(inner.get()),
        Node::Negation { operand, .. } => count_sites(operand.get()),
        Node::Chain { operands, .. } => count_all_sites(operands.get().as_slice()),
    }
}

/// How many such calls several parts of a formula have; 65,535 stands for more, too.
#[cycle(count_sites)]
fn count_all_sites(nodes: &[Node]) -> u16
    ensures { result ≡ min (length (concat (map sites_named nodes.now))) 65535 }
{
    let mut count: u16 = 0;
    for node in nodes {
        count = count.saturating_add(count_sites(node));
    }
    count
}

/// A test of what a formula calls.
pub trait CallTest {
    ghost passes: { Self → Callee → Bool };

    /// Whether a callee passes the test.
    fn passes(&self, callee: &Callee) -> bool
        ensures { result ≡ passes self.now callee.now };
}

/// Whether some call of a formula passes a test.
pub fn any_call<T: CallTest>(t: &Tree, test: &T) -> bool
    ensures { result ≡ list_any (T.passes test.now) (calls_of t.now) }
{
    calls_any(t.root(), test)
}

/// Whether some call in a part of a formula passes a test.
#[cycle(calls_any)]
fn calls_any<T: CallTest>(node: &Node, test: &T) -> bool
    ensures { result ≡ list_any (T.passes test.now) (calls_of node.now) }
{
    match node {
        Node::Number(_)
        | Node::Text(_)
        | Node::Error(_)
        | Node::Boolean(_)
        | Node::Reference(_)
        | Node::Area(_, _) => false,
        Node::Call { callee, arguments } => {
            test.passes(callee) || all_calls_any(arguments.get().as_slice(), test)
        }
        Node::Parentheses(inner) => calls_any(inner.get(), test),
        Node::Negation { operand, .. } => calls_any(operand.get(), test),
        Node::Chain { operands, .. } => all_calls_any(operands.get().as_slice(), test),
    }
}

/// Whether some call in several parts of a formula passes a test.
#[cycle(calls_any)]
fn all_calls_any<T: CallTest>(nodes: &[Node], test: &T) -> bool
    ensures { result ≡ list_any (T.passes test.now) (concat (map calls_of nodes.now)) }
{
    for node in nodes {
        if calls_any(node, test) {
            return true;
        }
    }
    false
}

/// The test for RTD.
struct RtdTest;

impl CallTest for RtdTest {
    ghost passes = { λ _. is_rtd };

    fn passes(&self, callee: &Callee) -> bool {
        callee.is_rtd()
    }
}

/// Whether a formula calls RTD.
pub fn has_rtd_call(t: &Tree) -> bool
    ensures { result ≡ has_rtd_call t.now }
{
    any_call(t, &RtdTest)
}
