//! What rows come to, by evaluation from nothing.

use super::random_steps::{Asked, Asking, Quotes, ROWS, Shape, Shown};

/// The flag of a row.
pub fn has(flags: &[bool; ROWS], row: usize) -> bool {
    match flags.get(row) {
        Some(flag) => *flag,
        None => false,
    }
}

/// Whether a shape is that of a formula.
pub fn is_formula(shape: Shape) -> bool {
    !matches!(shape, Shape::Absent | Shape::Number(_))
}

/// Whether a row with this shape names a row.
fn names(shape: Shape, row: usize) -> bool {
    match shape {
        Shape::Absent | Shape::Number(_) | Shape::Quote(..) => false,
        Shape::Plus(named, _) | Shape::Call(named, _) | Shape::Nested(named) => named == row,
        Shape::Sum(first, second)
        | Shape::Choice(first, _, second)
        | Shape::Branch(first, _, second) => first == row || second == row,
        Shape::Total(last) => row <= last,
    }
}

/// Whether a row with this shape names one that has its flag.
fn names_one(shape: Shape, flags: &[bool; ROWS]) -> bool {
    for row in 0..ROWS {
        if names(shape, row) && has(flags, row) {
            return true;
        }
    }
    false
}

/// The rows with a formula.
fn formulas(shapes: &[Shape; ROWS]) -> [bool; ROWS] {
    let mut flags = [false; ROWS];
    for (flag, shape) in flags.iter_mut().zip(shapes) {
        *flag = is_formula(*shape);
    }
    flags
}

/// The circular rows: from each there is a walk of as many steps as there are rows.
fn circular(shapes: &[Shape; ROWS]) -> [bool; ROWS] {
    let mut walks = formulas(shapes);
    for _ in 0..ROWS {
        let before = walks;
        for (walk, shape) in walks.iter_mut().zip(shapes) {
            *walk = names_one(*shape, &before);
        }
    }
    walks
}

/// The rows from which a changed one is reached.
fn reaching(shapes: &[Shape; ROWS], changed: &[bool; ROWS]) -> [bool; ROWS] {
    let mut reached = *changed;
    for _ in 0..ROWS {
        let before = reached;
        for (flag, shape) in reached.iter_mut().zip(shapes) {
            *flag = *flag || names_one(*shape, &before);
        }
    }
    reached
}

/// The stale rows.
pub fn stale(shapes: &[Shape; ROWS], changed: &[bool; ROWS]) -> [bool; ROWS] {
    let mut flags = reaching(shapes, changed);
    for (flag, shape) in flags.iter_mut().zip(shapes) {
        *flag = *flag && is_formula(*shape);
    }
    flags
}

/// How many rows have their flag.
pub fn count(flags: &[bool; ROWS]) -> u64 {
    let mut count = 0_u64;
    for flag in flags {
        if *flag {
            count = count.wrapping_add(1);
        }
    }
    count
}

/// Whether a shape calls the function.
pub fn is_caller(shape: Shape) -> bool {
    matches!(
        shape,
        Shape::Call(..) | Shape::Nested(_) | Shape::Branch(..)
    )
}

/// Whether a row with this shape reads a topic.
pub fn reads(shape: Shape, topic: usize) -> bool {
    matches!(shape, Shape::Quote(read, _) if read == topic)
}

/// Whether a row reads a topic.
pub fn reads_one(shapes: &[Shape; ROWS], topic: usize) -> bool {
    for shape in shapes {
        if reads(*shape, topic) {
            return true;
        }
    }
    false
}

/// What a topic has.
pub fn quote_of(quotes: &Quotes, topic: usize) -> Option<i64> {
    match quotes.get(topic) {
        Some(quote) => *quote,
        None => None,
    }
}

/// The values that were accepted for the calls of a row, at the first and at the second site.
pub type Answers = [Option<i64>; 2];

/// What rows are evaluated over.
#[derive(Clone, Copy)]
pub struct World {
    pub quotes: Quotes,
    /// Whether the called function is registered as an asynchronous one.
    pub calls: bool,
    pub accepted: [Answers; ROWS],
}

/// What a row comes to.
#[derive(Clone, Copy, PartialEq, Eq)]
pub enum Out {
    Num(i64),
    /// It asks for the call at a site, of this argument.
    Asks(u16, i64),
    /// It names a row that asks or waits.
    Waits,
}

/// The number of a row; 0 where it has none.
fn number_of(outs: &[Out; ROWS], row: usize) -> i64 {
    match outs.get(row) {
        Some(Out::Num(number)) => *number,
        _ => 0,
    }
}

/// Whether a row with this shape names one without a number.
fn is_waiting(shape: Shape, outs: &[Out; ROWS]) -> bool {
    for (row, out) in outs.iter().enumerate() {
        if names(shape, row) && !matches!(out, Out::Num(_)) {
            return true;
        }
    }
    false
}

/// The sum of the rows from the first to this one.
fn total(outs: &[Out; ROWS], last: usize) -> i64 {
    let mut total = 0_i64;
    for row in 0..ROWS {
        if row <= last {
            total = total.wrapping_add(number_of(outs, row));
        }
    }
    total
}

/// A call with this argument, for which a value was accepted or not.
fn call(calls: bool, accepted: Option<i64>, site: u16, argument: i64) -> Out {
    match accepted {
        _ if !calls => Out::Num(-50),
        Some(value) => Out::Num(value),
        None => Out::Asks(site, argument),
    }
}

/// Adds a number to what is one.
fn plus(out: Out, number: i64) -> Out {
    match out {
        Out::Num(found) => Out::Num(found.wrapping_add(number)),
        other => other,
    }
}

/// What is called of what is called of this argument: the inner call stands at the second site.
fn nested(calls: bool, accepted: Answers, argument: i64) -> Out {
    match call(calls, accepted[1], 2, argument) {
        Out::Num(inner) => call(calls, accepted[0], 1, inner),
        other => other,
    }
}

/// What a shape comes to where rows have these numbers, of which it names none that waits.
fn evaluated(shape: Shape, outs: &[Out; ROWS], world: &World, accepted: Answers) -> Out {
    match shape {
        Shape::Absent => Out::Num(0),
        Shape::Number(number) => Out::Num(number),
        Shape::Plus(row, number) => plus(Out::Num(number_of(outs, row)), number),
        Shape::Sum(first, second) => plus(
            Out::Num(number_of(outs, first)),
            number_of(outs, second),
        ),
        Shape::Total(last) => Out::Num(total(outs, last)),
        Shape::Choice(row, number, other) if number_of(outs, row) > number => {
            Out::Num(number_of(outs, other))
        }
        Shape::Quote(topic, number) => match quote_of(&world.quotes, topic) {
            Some(quote) => Out::Num(quote.wrapping_add(number)),
            None => Out::Num(number.wrapping_sub(100)),
        },
        Shape::Call(row, number) => {
            let out = call(world.calls, accepted[0], 1, number_of(outs, row));
            plus(out, number)
        }
        Shape::Nested(row) => nested(world.calls, accepted, number_of(outs, row)),
        Shape::Branch(row, number, other) if number_of(outs, row) > number => {
            call(world.calls, accepted[0], 1, number_of(outs, other))
        }
        Shape::Choice(_, number, _) | Shape::Branch(_, number, _) => Out::Num(number),
    }
}

/// What a row comes to where the others have come to this.
fn outcome(row: usize, shape: Shape, outs: &[Out; ROWS], world: &World) -> Out {
    if is_waiting(shape, outs) {
        return Out::Waits;
    }
    let accepted = match world.accepted.get(row) {
        Some(accepted) => *accepted,
        None => [None; 2],
    };
    evaluated(shape, outs, world, accepted)
}

/// What the rows come to; nothing is told of circular ones.
pub fn outs(shapes: &[Shape; ROWS], world: &World) -> [Out; ROWS] {
    let mut outs = [Out::Num(0); ROWS];
    for _ in 0..ROWS {
        let before = outs;
        for (row, (out, shape)) in outs.iter_mut().zip(shapes).enumerate() {
            *out = outcome(row, *shape, &before, world);
        }
    }
    outs
}

/// What the rows show.
pub fn sheet(shapes: &[Shape; ROWS], world: &World) -> [Shown; ROWS] {
    let walks = circular(shapes);
    let outs = outs(shapes, world);
    let mut shown = [None; ROWS];
    for (row, (seen, shape)) in shown.iter_mut().zip(shapes).enumerate() {
        *seen = match shape {
            Shape::Absent => None,
            _ if has(&walks, row) => Some(None),
            _ => Some(Some(number_of(&outs, row))),
        };
    }
    shown
}

/// The call for which a row asks, that isn't circular.
fn asked_at(row: usize, out: Out) -> Option<Asked> {
    match out {
        Out::Asks(site, argument) => Some(Asked {
            row,
            site,
            argument,
        }),
        _ => None,
    }
}

/// The calls for which the stale rows ask.
pub fn asking(shapes: &[Shape; ROWS], stale: &[bool; ROWS], world: &World) -> Asking {
    let walks = circular(shapes);
    let outs = outs(shapes, world);
    let mut asking = [None; ROWS];
    for (row, (place, out)) in asking.iter_mut().zip(&outs).enumerate() {
        if has(stale, row) && !has(&walks, row) {
            *place = asked_at(row, *out);
        }
    }
    asking
}

/// Whether a row asks.
pub fn is_any(asking: &Asking) -> bool {
    for asked in asking {
        if asked.is_some() {
            return true;
        }
    }
    false
}
