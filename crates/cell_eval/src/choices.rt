ghost use Rattle.std.specs.Prelude.{◌≡◌};
ghost use Rattle.cell_eval.specs.Choices.{choice_after, choice_by_index, choice_by_truth, chooser_of};

use cell_values::{ErrorKind, Value, to_bool, to_number};
use functions::Function;

/// The functions that evaluate only some of their arguments: they choose one by the value of the first.
#[derive(Clone, Copy)]
pub enum Chooser {
    If,
    IfError,
    IfNa,
    Choose,
}

/// What such a function comes to: a value, or the argument at this place among those behind the first.
#[derive(Drop)]
pub enum Choice {
    Value(Value),
    Argument(usize),
}

/// How a function chooses, if it is one that does.
pub fn chooser_of(function: Function) -> Option<Chooser>
    ensures { result ≡ chooser_of function }
{
    match function {
        Function::If => Some(Chooser::If),
        Function::IfError => Some(Chooser::IfError),
        Function::IfNa => Some(Chooser::IfNa),
        Function::Choose => Some(Chooser::Choose),
        _ => None,
    }
}

/// What is chosen by the value of the first argument, where so many others follow.
pub fn choice_after(chooser: Chooser, first: Value, others: usize) -> Choice
    ensures { result ≡ choice_after chooser first others }
{
    match chooser {
        Chooser::If => choice_by_truth(to_bool(&first), others),
        Chooser::IfError => match first {
            Value::Error(_) => Choice::Argument(0),
            value => Choice::Value(value),
        },
        Chooser::IfNa => match first {
            Value::Error(ErrorKind::Na) => Choice::Argument(0),
            value => Choice::Value(value),
        },
        Chooser::Choose => choice_by_index(to_number(&first)),
    }
}

/// IF, by the truth of its test and the number of its other arguments.
fn choice_by_truth(test: Result<bool, ErrorKind>, others: usize) -> Choice
    ensures { result ≡ choice_by_truth test others }
{
    match test {
        Err(kind) => Choice::Value(Value::Error(kind)),
        Ok(true) => Choice::Argument(0),
        Ok(false) if others > 1 => Choice::Argument(1),
        Ok(false) => Choice::Value(Value::Bool(false)),
    }
}

/// CHOOSE, by its index.
fn choice_by_index(index: Result<i64, ErrorKind>) -> Choice
    ensures { result ≡ choice_by_index index }
{
    match index {
        Err(kind) => Choice::Value(Value::Error(kind)),
        Ok(n) if 0 < n => Choice::Argument((n - 1) as usize),
        Ok(_) => Choice::Value(Value::Error(ErrorKind::Value)),
    }
}
