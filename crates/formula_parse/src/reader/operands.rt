ghost use Rattle.std.specs.Prelude.{◌≡◌, ◌+◌, ◌<◌, ◌^◌, false, IfOk, OnOk, Some, None, if◌then◌else◌};
ghost use Rattle.formula_parse.specs.ReaderMachine.{operand_turn, empty_call, operand_of, with_frame, calls_open, is_too_deep};

use super::super::growing::Growing;
use super::super::nodes::Node;
use super::super::operators::Operator;
use super::super::stack::Stack;
use super::super::tokens::Token;
use super::chains::negated;
use super::{Frame, Opened, Phase, calls_open};
use std::alloc::{AllocError, Global};

/// Takes a token where an operand or a sign may stand, behind so many `-`.
pub(super) fn operand(
    alloc: Global,
    minuses: u32,
    phase: &mut Phase,
    frames: &mut Stack<Frame>,
    token: Token,
) -> Result<bool, AllocError>
    requires few { minuses + 1 < 2 ^ 32 }
    requires shallow { is_too_deep frames.old ≡ false }
    ensures { IfOk result (λ is_taken. operand_turn minuses frames.old token
        ≡ (if is_taken then Some (phase.new, frames.new) else None)) }
{
    match token {
        Token::Operator(Operator::Add) => *phase = Phase::Signs(minuses),
        Token::Operator(Operator::Subtract) => *phase = Phase::Signs(minuses + 1),
        Token::Open => {
            let calls = calls_open(frames);
            open(alloc, Opened::Parentheses, minuses, calls, frames)?;
            *phase = Phase::Signs(0);
        }
        Token::Call(callee) => {
            let calls = calls_open(frames) + 1;
            let arguments = Growing::new(alloc);
            open(
                alloc,
                Opened::Call { callee, arguments },
                minuses,
                calls,
                frames,
            )?;
            *phase = Phase::Start;
        }
        token => {
            let Some(operand) = own_operand(token) else {
                return Ok(false);
            };
            *phase = Phase::After(negated(alloc, minuses, operand)?);
        }
    }
    Ok(true)
}

/// The operand that a token is by itself.
fn own_operand(token: Token) -> Option<Node>
    ensures { result ≡ operand_of token }
{
    match token {
        Token::Number(number) => Some(Node::Number(number)),
        Token::Text(text) => Some(Node::Text(text)),
        Token::Error(kind) => Some(Node::Error(kind)),
        Token::Boolean(truth) => Some(Node::Boolean(truth)),
        Token::Reference(reference) => Some(Node::Reference(reference)),
        Token::Area(first, second) => Some(Node::Area(first, second)),
        _ => None,
    }
}

/// Opens a frame behind so many `-`.
pub(super) fn open(
    alloc: Global,
    opened: Opened,
    minuses: u32,
    calls: usize,
    frames: &mut Stack<Frame>,
) -> Result<(), AllocError>
    ensures { OnOk result (frames.new ≡ with_frame opened minuses calls frames.old) }
{
    frames.push(Frame {
        opened,
        minuses,
        calls,
        chains: Stack::new(alloc),
    })
}

/// Takes the `)` of a call without arguments.
pub(super) fn close_empty(
    alloc: Global,
    phase: &mut Phase,
    frames: &mut Stack<Frame>,
) -> Result<bool, AllocError>
    ensures { IfOk result (λ is_taken. empty_call frames.old
        ≡ (if is_taken then Some (phase.new, frames.new) else None)) }
{
    let Some(frame) = frames.pop() else {
        return Ok(false);
    };
    let Frame {
        opened,
        minuses,
        ..
    } = frame;
    let Opened::Call { callee, arguments } = opened else {
        return Ok(false);
    };
    let arguments = arguments.whole(alloc)?;
    let call = Node::Call { callee, arguments };
    *phase = Phase::After(negated(alloc, minuses, call)?);
    Ok(true)
}
