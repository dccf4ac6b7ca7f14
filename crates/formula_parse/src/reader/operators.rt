ghost use Rattle.std.specs.Prelude.{◌≡◌, IfOk, Some, None, if◌then◌else◌};
ghost use Rattle.formula_parse.specs.ReaderMachine.{after_turn, operator_turn, close_turn, comma_turn, closing, with_argument, tree_at_end};

use super::super::nodes::Node;
use super::super::operators::Operator;
use super::super::stack::Stack;
use super::super::tokens::Token;
use super::chains::{finished, join, negated};
use super::operands::open;
use super::{Frame, Opened, Phase};
use sqlite_items::Boxed;
use std::alloc::{AllocError, Global};

/// The most arguments of a call.
const ARGUMENTS: usize = 255;

/// Takes a token behind an operand.
pub(super) fn after(
    alloc: Global,
    operand: Node,
    phase: &mut Phase,
    frames: &mut Stack<Frame>,
    token: Token,
) -> Result<bool, AllocError>
    ensures { IfOk result (λ is_taken. after_turn operand frames.old token
        ≡ (if is_taken then Some (phase.new, frames.new) else None)) }
{
    match token {
        Token::Operator(operator) => after_operator(alloc, operand, operator, phase, frames),
        Token::Close => close(alloc, operand, phase, frames),
        Token::Comma => comma(alloc, operand, phase, frames),
        _ => Ok(false),
    }
}

/// Takes an operator behind an operand.
fn after_operator(
    alloc: Global,
    operand: Node,
    operator: Operator,
    phase: &mut Phase,
    frames: &mut Stack<Frame>,
) -> Result<bool, AllocError>
    ensures { IfOk result (λ is_taken. operator_turn operand operator frames.old
        ≡ (if is_taken then Some (phase.new, frames.new) else None)) }
{
    let Some(mut frame) = frames.pop() else {
        return Ok(false);
    };
    join(alloc, operand, operator, &mut frame.chains)?;
    frames.push(frame)?;
    *phase = Phase::Signs(0);
    Ok(true)
}

/// Takes a `)` behind an operand.
fn close(
    alloc: Global,
    operand: Node,
    phase: &mut Phase,
    frames: &mut Stack<Frame>,
) -> Result<bool, AllocError>
    ensures { IfOk result (λ is_taken. close_turn operand frames.old
        ≡ (if is_taken then Some (phase.new, frames.new) else None)) }
{
    let Some(frame) = frames.pop() else {
        return Ok(false);
    };
    let last = finished(alloc, operand, frame.chains)?;
    let Some(closed) = closing(alloc, frame.opened, last)? else {
        return Ok(false);
    };
    *phase = Phase::After(negated(alloc, frame.minuses, closed)?);
    Ok(true)
}

/// What a `)` makes of what is open, whose last part this is.
fn closing(alloc: Global, opened: Opened, last: Node) -> Result<Option<Node>, AllocError>
    ensures { IfOk result (λ closed. closed ≡ closing opened last) }
{
    match opened {
        Opened::Formula => Ok(None),
        Opened::Parentheses => Ok(Some(Node::Parentheses(Boxed::new(alloc, last)?))),
        Opened::Call {
            callee,
            mut arguments,
        } => {
            arguments.push(last)?;
            let arguments = arguments.whole(alloc)?;
            Ok(Some(Node::Call { callee, arguments }))
        }
    }
}

/// Takes a `,` behind an operand.
fn comma(
    alloc: Global,
    operand: Node,
    phase: &mut Phase,
    frames: &mut Stack<Frame>,
) -> Result<bool, AllocError>
    ensures { IfOk result (λ is_taken. comma_turn operand frames.old
        ≡ (if is_taken then Some (phase.new, frames.new) else None)) }
{
    let Some(frame) = frames.pop() else {
        return Ok(false);
    };
    let last = finished(alloc, operand, frame.chains)?;
    let Some(opened) = with_argument(frame.opened, last)? else {
        return Ok(false);
    };
    open(alloc, opened, frame.minuses, frame.calls, frames)?;
    *phase = Phase::Signs(0);
    Ok(true)
}

/// A call with one more argument, where a further one may follow.
fn with_argument(opened: Opened, last: Node) -> Result<Option<Opened>, AllocError>
    ensures { IfOk result (λ next. next ≡ with_argument opened last) }
{
    match opened {
        Opened::Call {
            callee,
            mut arguments,
        } if arguments.len() + 1 < ARGUMENTS => {
            arguments.push(last)?;
            Ok(Some(Opened::Call { callee, arguments }))
        }
        _ => Ok(None),
    }
}

/// The formula's tree, where it may end in this phase and these frames.
pub(super) fn ended(
    alloc: Global,
    phase: Phase,
    frames: Stack<Frame>,
) -> Result<Option<Node>, AllocError>
    ensures { IfOk result (λ tree. tree ≡ tree_at_end phase frames) }
{
    let Phase::After(operand) = phase else {
        return Ok(None);
    };
    let mut frames = frames;
    match frames.pop() {
        Some(frame) if frames.len() == 0 => Ok(Some(finished(alloc, operand, frame.chains)?)),
        _ => Ok(None),
    }
}
