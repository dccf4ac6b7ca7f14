ghost use Rattle.std.specs.Prelude.{◌≡◌, ◌+◌, ◌≤◌, All, length, IfOk, OnOk, MatchResult};
ghost use Rattle.formula_parse.specs.Tree.{site_count};
ghost use Rattle.functions.specs.Inputs.{IsInput};
ghost use Rattle.workbook.specs.Evaluation.{own_site};
ghost use Rattle.cell_eval.specs.Jobs.{world_of};
ghost use Rattle.cell_eval.specs.Steps.{NamesSmallAreas, ComesTo, GiveAll, HaltAll, IsTaken, HaltsTaken, AreTaken, HaltTaken, answer_at, answers_at, argument_at, arguments_at, chain_at, call_at, built_in_at, rtd_at, added_at, chooser_at, only_at, sites_among};

use super::added::{added_answer, all_finished, called_kind};
use super::area_values::{area_argument, area_taken, input_value};
use super::choices::{Choice, Chooser, choice_after, chooser_of};
use super::halts::Halt;
use super::jobs::Job;
use super::operations::{combined, negated};
use super::sites::pass_all;
use super::topics::{takes_rtd_count, topic_answer};
use addin_types::AddIns;
use cell_values::{ErrorKind, Name, Value};
use formula_parse::{Callee, Node, Operator};
use functions::{Arg, Function};
use std::alloc::Global;

/// The evaluation of a job's formula, part by part. `sites` is how many sites stand before a part, and then how many
/// stand before what follows it.
#[derive(Drop)]
pub struct Evaluator<'a, F> {
    pub alloc: Global,
    pub job: &'a Job,
    pub addins: &'a F,
}

impl<'a, F: AddIns> Evaluator<'a, F> {
    /// The value of a part of a formula.
    #[cycle(part)]
    pub fn part(&self, node: &Node, sites: &mut u16) -> Result<Value, Halt>
        requires small { NamesSmallAreas self.now.job.now.cell.sheet node.now }
        requires fits { sites.old + site_count node.now ≤ u16.MAX }
        ensures value { ComesTo
            (answer_at (world_of F.answer self.now.job.now) node.now sites.old) result }
        ensures sites { OnOk result (sites.new ≡ sites.old + site_count node.now) }
    {
        match node {
            Node::Number(n) => Ok(Value::Num(*n)),
            Node::Text(text) => Ok(Value::Text(text.copy()?)),
            Node::Error(kind) => Ok(Value::Error(*kind)),
            Node::Boolean(b) => Ok(Value::Bool(*b)),
            Node::Reference(reference) => {
                let cell = reference.at(self.job.cell.sheet);
                Ok(input_value(self.job.inputs.as_slice(), cell)?)
            }
            Node::Area(_, _) => Ok(Value::Error(ErrorKind::Value)),
            Node::Call { callee, arguments } => {
                let value = self.call(callee, arguments.get().as_slice(), sites)?;
                Ok(value.or_zero())
            }
            Node::Parentheses(inner) => self.part(inner.get(), sites),
            Node::Negation { count, operand } => {
                let value = self.part(operand.get(), sites)?;
                Ok(negated(*count, value))
            }
            Node::Chain {
                operands,
                operators,
            } => self.chain(operands.get().as_slice(), operators.get().as_slice(), sites),
        }
    }

    /// The value of a chain of operands.
    #[cycle(part)]
    fn chain(
        &self,
        operands: &[Node],
        operators: &[Operator],
        sites: &mut u16,
    ) -> Result<Value, Halt>
        requires small { All (NamesSmallAreas self.now.job.now.cell.sheet) operands.now }
        requires fits { sites.old + sites_among operands.now ≤ u16.MAX }
        ensures value { ComesTo
            (chain_at (world_of F.answer self.now.job.now) operands.now operators.now sites.old)
            result }
        ensures sites { OnOk result (sites.new ≡ sites.old + sites_among operands.now) }
    {
        let Some((first, others)) = operands.split_first() else {
            return Ok(Value::Blank);
        };
        let mut value = self.part(first, sites)?;
        for i in 0..others.len() {
            let right = self.part(&others[i], sites)?;
            value = combined(self.alloc, operators, i, value, &right)?;
        }
        Ok(value)
    }

    /// The values of parts of a formula.
    #[cycle(part)]
    fn all_values(&self, nodes: &[Node], sites: &mut u16) -> Result<Vec<Value>, Halt>
        requires small { All (NamesSmallAreas self.now.job.now.cell.sheet) nodes.now }
        requires fits { sites.old + sites_among nodes.now ≤ u16.MAX }
        ensures values { MatchResult result (λ vs. GiveAll
            (answers_at (world_of F.answer self.now.job.now) nodes.now sites.old) vs.items)
            (HaltAll (answers_at (world_of F.answer self.now.job.now) nodes.now sites.old)) }
        ensures sites { OnOk result (sites.new ≡ sites.old + sites_among nodes.now) }
    {
        let mut values = Vec::new(self.alloc);
        for node in nodes {
            let value = self.part(node, sites)?;
            values.push(value)?;
        }
        Ok(values)
    }

    /// The value of a call, before Blank is made 0.
    #[cycle(part)]
    fn call(&self, callee: &Callee, arguments: &[Node], sites: &mut u16) -> Result<Value, Halt>
        requires small { All (NamesSmallAreas self.now.job.now.cell.sheet) arguments.now }
        requires fits { sites.old + (own_site callee.now + sites_among arguments.now) ≤ u16.MAX }
        ensures value { ComesTo
            (call_at (world_of F.answer self.now.job.now) callee.now arguments.now sites.old)
            result }
        ensures sites { OnOk result (sites.new
            ≡ sites.old + (own_site callee.now + sites_among arguments.now)) }
    {
        match callee {
            Callee::BuiltIn(function) => self.built_in(*function, arguments, sites),
            Callee::Rtd => self.topic(arguments, sites),
            Callee::Added(name) => self.added(name, arguments, sites),
        }
    }

    /// The value of a call of RTD.
    #[cycle(part)]
    fn topic(&self, arguments: &[Node], sites: &mut u16) -> Result<Value, Halt>
        requires small { All (NamesSmallAreas self.now.job.now.cell.sheet) arguments.now }
        requires fits { sites.old + sites_among arguments.now ≤ u16.MAX }
        ensures value { ComesTo
            (rtd_at (world_of F.answer self.now.job.now) arguments.now sites.old) result }
        ensures sites { OnOk result (sites.new ≡ sites.old + sites_among arguments.now) }
    {
        if !takes_rtd_count(arguments.len()) {
            pass_all(arguments, sites);
            return Ok(Value::Error(ErrorKind::Value));
        }
        let values = self.all_values(arguments, sites)?;
        topic_answer(self.alloc, self.job, values.as_slice())
    }

    /// The value of a call of an added function, before Blank is made 0.
    #[cycle(part)]
    fn added(&self, name: &Name, arguments: &[Node], sites: &mut u16) -> Result<Value, Halt>
        requires small { All (NamesSmallAreas self.now.job.now.cell.sheet) arguments.now }
        requires fits { sites.old + (1 + sites_among arguments.now) ≤ u16.MAX }
        ensures value { ComesTo
            (added_at (world_of F.answer self.now.job.now) name.now arguments.now sites.old)
            result }
        ensures sites { OnOk result (sites.new ≡ sites.old + (1 + sites_among arguments.now)) }
    {
        *sites += 1;
        let site = *sites;
        match called_kind(self.job.functions.as_slice(), name, arguments.len()) {
            Err(kind) => {
                pass_all(arguments, sites);
                Ok(Value::Error(kind))
            }
            Ok(kind) => {
                let values = all_finished(self.all_values(arguments, sites)?);
                added_answer(self.alloc, self.job, self.addins, kind, site, name, values)
            }
        }
    }

    /// The value of a call of a built-in function, before Blank is made 0.
    #[cycle(part)]
    fn built_in(
        &self,
        function: Function,
        arguments: &[Node],
        sites: &mut u16,
    ) -> Result<Value, Halt>
        requires small { All (NamesSmallAreas self.now.job.now.cell.sheet) arguments.now }
        requires fits { sites.old + sites_among arguments.now ≤ u16.MAX }
        ensures value { ComesTo
            (built_in_at (world_of F.answer self.now.job.now) function arguments.now sites.old)
            result }
        ensures sites { OnOk result (sites.new ≡ sites.old + sites_among arguments.now) }
    {
        if !function.takes_count(arguments.len()) {
            pass_all(arguments, sites);
            return Ok(Value::Error(ErrorKind::Value));
        }
        match chooser_of(function) {
            Some(chooser) => self.chosen(chooser, arguments, sites),
            None => {
                let args = self.inputs(function, arguments, sites)?;
                Ok(function.apply(self.alloc, args.as_slice())?)
            }
        }
    }

    /// The value of a call of a function that evaluates the first of its arguments and then one at most.
    #[cycle(part)]
    fn chosen(&self, chooser: Chooser, arguments: &[Node], sites: &mut u16) -> Result<Value, Halt>
        requires small { All (NamesSmallAreas self.now.job.now.cell.sheet) arguments.now }
        requires fits { sites.old + sites_among arguments.now ≤ u16.MAX }
        ensures value { ComesTo
            (chooser_at (world_of F.answer self.now.job.now) chooser arguments.now sites.old)
            result }
        ensures sites { OnOk result (sites.new ≡ sites.old + sites_among arguments.now) }
    {
        let Some((first, others)) = arguments.split_first() else {
            return Ok(Value::Error(ErrorKind::Value));
        };
        let first = self.part(first, sites)?;
        match choice_after(chooser, first, others.len()) {
            Choice::Value(value) => {
                pass_all(others, sites);
                Ok(value)
            }
            Choice::Argument(place) => self.only(others, place, sites),
        }
    }

    /// The value of the part at a place, where the others aren't evaluated.
    #[cycle(part)]
    fn only(&self, nodes: &[Node], place: usize, sites: &mut u16) -> Result<Value, Halt>
        requires small { All (NamesSmallAreas self.now.job.now.cell.sheet) nodes.now }
        requires fits { sites.old + sites_among nodes.now ≤ u16.MAX }
        ensures value { ComesTo
            (only_at (world_of F.answer self.now.job.now) nodes.now place sites.old)
            result }
        ensures sites { OnOk result (sites.new ≡ sites.old + sites_among nodes.now) }
    {
        if place >= nodes.len() {
            pass_all(nodes, sites);
            return Ok(Value::Error(ErrorKind::Value));
        }
        pass_all(&nodes[..place], sites);
        let value = self.part(&nodes[place], sites)?;
        pass_all(&nodes[place + 1..], sites);
        Ok(value)
    }

    /// The arguments of a call as a function takes them.
    #[cycle(part)]
    fn inputs(&self, function: Function, nodes: &[Node], sites: &mut u16) -> Result<Vec<Arg>, Halt>
        requires small { All (NamesSmallAreas self.now.job.now.cell.sheet) nodes.now }
        requires fits { sites.old + sites_among nodes.now ≤ u16.MAX }
        ensures args { MatchResult result
            (λ args. AreTaken (world_of F.answer self.now.job.now) function 0
            (arguments_at (world_of F.answer self.now.job.now) nodes.now sites.old) args.items)
            (HaltTaken (world_of F.answer self.now.job.now) function 0
            (arguments_at (world_of F.answer self.now.job.now) nodes.now sites.old)) }
        ensures form { IfOk result (λ args. All IsInput args.items
            × (length args.items ≡ length nodes.now)) }
        ensures sites { OnOk result (sites.new ≡ sites.old + sites_among nodes.now) }
    {
        let mut args = Vec::new(self.alloc);
        for place in 0..nodes.len() {
            let arg = self.input(function, place, &nodes[place], sites)?;
            args.push(arg)?;
        }
        Ok(args)
    }

    /// An argument of a call as a function takes it.
    #[cycle(part)]
    fn input(
        &self,
        function: Function,
        place: usize,
        node: &Node,
        sites: &mut u16,
    ) -> Result<Arg, Halt>
        requires small { NamesSmallAreas self.now.job.now.cell.sheet node.now }
        requires fits { sites.old + site_count node.now ≤ u16.MAX }
        ensures arg { MatchResult result
            (IsTaken (world_of F.answer self.now.job.now) function place
            (argument_at (world_of F.answer self.now.job.now) node.now sites.old))
            (HaltsTaken (world_of F.answer self.now.job.now) function place
            (argument_at (world_of F.answer self.now.job.now) node.now sites.old)) }
        ensures form { IfOk result IsInput }
        ensures sites { OnOk result (sites.new ≡ sites.old + site_count node.now) }
    {
        match area_taken(function, place, node, self.job.cell.sheet) {
            Some(area) => Ok(area_argument(self.alloc, self.job.inputs.as_slice(), area)?),
            None => {
                let value = self.part(node, sites)?;
                Ok(Arg::Direct(value))
            }
        }
    }
}
