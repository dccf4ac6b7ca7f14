//! The tokens that were read, as what stands open.

mod chains;
mod operands;
mod operators;

ghost use Rattle.std.specs.Prelude.{◌≡◌, ◌+◌, ◌<◌, ◌≤◌, ◌^◌, Some, None, IfOk, false, if◌then◌else◌};
ghost use Rattle.formula_parse.specs.ReaderMachine.{reader_behind, turn_at, first_reader, is_too_deep, tree_at_end, awaits_operand, minuses_in, calls_open};
ghost use Rattle.formula_parse.specs.Tokens.{is_wide_area, is_large_number};

use super::callees::Callee;
use super::growing::Growing;
use super::limits::{LARGEST_AREA, MOST_CALLS, MOST_OPEN};
use super::nodes::Node;
use super::operators::Operator;
use super::stack::Stack;
use super::tokens::Token;
use cell_refs::Area;
use std::alloc::{AllocError, Global};

/// The greatest number of a formula.
const GREATEST: i64 = 999_999_999_999_999;

/// A chain that goes on: each of its operands is followed by an operator of one place of the grammar.
#[derive(Debug, Drop)]
pub(crate) struct OpenChain {
    pub(crate) operands: Growing<Node>,
    pub(crate) operators: Growing<Operator>,
}

/// What is open.
#[derive(Debug, Drop)]
pub(crate) enum Opened {
    /// The whole formula, which the end of the text closes.
    Formula,
    Parentheses,
    /// A call, and its arguments so far.
    Call {
        callee: Callee,
        arguments: Growing<Node>,
    },
}

/// What stands open at a place of the text, and the chains that go on in it.
#[derive(Debug, Drop)]
pub(crate) struct Frame {
    pub(crate) opened: Opened,
    /// The `-` in front of it.
    pub(crate) minuses: u32,
    /// How many calls are open, this one included.
    pub(crate) calls: usize,
    /// The tightest first.
    pub(crate) chains: Stack<OpenChain>,
}

/// What the next token may be.
#[derive(Debug, Drop)]
pub(crate) enum Phase {
    /// An operand, a sign or the `)` of a call without arguments.
    Start,
    /// An operand or a sign, behind signs of which so many are `-`.
    Signs(u32),
    /// An operator, a `,`, a `)` or the end, behind this operand.
    After(Node),
}

/// The tokens so far, where some formula begins with them.
#[derive(Debug, Drop)]
pub(crate) struct Reader {
    pub(crate) phase: Phase,
    /// The innermost first.
    pub(crate) frames: Stack<Frame>,
    /// Whether an area had too many cells.
    pub(crate) has_wide_area: bool,
    /// Whether a number was too large.
    pub(crate) has_large_number: bool,
}

impl Reader {
    /// The reader behind the `=` of a formula.
    pub(crate) fn new(alloc: Global) -> Result<Reader, AllocError>
        ensures { IfOk result (λ reader. reader ≡ first_reader) }
    {
        let mut frames = Stack::new(alloc);
        operands::open(alloc, Opened::Formula, 0, 0, &mut frames)?;
        Ok(Reader {
            phase: Phase::Signs(0),
            frames,
            has_wide_area: false,
            has_large_number: false,
        })
    }

    /// Takes a token. False where no formula goes on with it; no more is to be asked of the reader then.
    #[tactic(auto, unfolding(crate::specs::ReaderMachine::reader_behind))]
    pub(crate) fn take(&mut self, alloc: Global, token: Token) -> Result<bool, AllocError>
        requires few { minuses_in self.old.phase + 1 < 2 ^ 32 }
        requires shallow { is_too_deep self.old.frames ≡ false }
        ensures { IfOk result (λ is_taken. reader_behind self.old token
            ≡ (if is_taken then Some self.new else None)) }
    {
        self.has_wide_area = self.has_wide_area || is_wide_area(&token);
        self.has_large_number = self.has_large_number || is_large_number(&token);
        turn(alloc, &mut self.phase, &mut self.frames, token)
    }

    /// Whether more than 64 calls, or more than 128 calls and parentheses, are open.
    pub(crate) fn is_too_deep(&self) -> bool
        ensures { result ≡ is_too_deep self.now.frames }
    {
        MOST_CALLS < calls_open(&self.frames) || MOST_OPEN + 1 < self.frames.len()
    }

    /// The formula's tree, where it may end here.
    pub(crate) fn ended(self, alloc: Global) -> Result<Option<Node>, AllocError>
        ensures { IfOk result (λ tree. tree ≡ tree_at_end self.phase self.frames) }
    {
        operators::ended(alloc, self.phase, self.frames)
    }

    /// Whether an operand is awaited.
    pub(crate) fn awaits_operand(&self) -> bool
        ensures { result ≡ awaits_operand self.now.phase }
    {
        !matches!(&self.phase, Phase::After(_))
    }
}

/// Lets the phase and the frames take a token.
fn turn(
    alloc: Global,
    phase: &mut Phase,
    frames: &mut Stack<Frame>,
    token: Token,
) -> Result<bool, AllocError>
    requires few { minuses_in phase.old + 1 < 2 ^ 32 }
    requires shallow { is_too_deep frames.old ≡ false }
    ensures { IfOk result (λ is_taken. turn_at phase.old frames.old token
        ≡ (if is_taken then Some (phase.new, frames.new) else None)) }
{
    match std::mem::replace(phase, Phase::Start) {
        Phase::Start => match token {
            Token::Close => operands::close_empty(alloc, phase, frames),
            token => operands::operand(alloc, 0, phase, frames, token),
        },
        Phase::Signs(minuses) => operands::operand(alloc, minuses, phase, frames, token),
        Phase::After(operand) => operators::after(alloc, operand, phase, frames, token),
    }
}

/// How many calls are open.
pub(crate) fn calls_open(frames: &Stack<Frame>) -> usize
    ensures { result ≡ calls_open frames.now }
{
    match frames.top() {
        Some(frame) => frame.calls,
        None => 0,
    }
}

/// Whether a token is an area of too many cells.
fn is_wide_area(token: &Token) -> bool
    ensures { result ≡ is_wide_area token.now }
{
    match token {
        Token::Area(a, b) => LARGEST_AREA < Area::of(a, b, 1).size(),
        _ => false,
    }
}

/// Whether a token is a number that is too large.
fn is_large_number(token: &Token) -> bool
    ensures { result ≡ is_large_number token.now }
{
    match token {
        Token::Number(number) => GREATEST < *number,
        _ => false,
    }
}
