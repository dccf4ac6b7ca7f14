ghost use Rattle.std.specs.Prelude.{◌≡◌, IfOk};
ghost use Rattle.functions.specs.Applied.{result_of, result_by_name};
ghost use Rattle.functions.specs.Functions.{function_named};
ghost use Rattle.functions.specs.Inputs.{AreInputs};

use super::arguments::Arg;
use super::functions::Function;
use super::kinds::{self, ValueKind};
use super::{areas, arithmetic, counting, gathering, logic, text_parts, text_search, text_writing};
use cell_values::{ErrorKind, Memory, Value};
use std::alloc::Global;

impl Function {
    /// What the function answers. IF, IFERROR, IFNA and CHOOSE choose among arguments that aren't evaluated yet; here
    /// they are `#VALUE!`.
    pub fn apply(self, alloc: Global, args: &[Arg]) -> Result<Value, Memory>
        requires { AreInputs args.now }
        ensures { IfOk result (λ answer. answer ≡ result_of self args.now) }
    {
        match self {
            Function::True => Ok(Value::Bool(true)),
            Function::False => Ok(Value::Bool(false)),
            Function::If | Function::IfError | Function::IfNa | Function::Choose => {
                Ok(Value::Error(ErrorKind::Value))
            }
            Function::And => Ok(logic::and(args)),
            Function::Or => Ok(logic::or(args)),
            Function::Not => Ok(logic::not(args)),
            Function::IsNumber => Ok(kinds::ask(ValueKind::Number, args)),
            Function::IsText => Ok(kinds::ask(ValueKind::Text, args)),
            Function::IsLogical => Ok(kinds::ask(ValueKind::Logical, args)),
            Function::IsError => Ok(kinds::ask(ValueKind::Error, args)),
            Function::IsNa => Ok(kinds::ask(ValueKind::Na, args)),
            Function::IsBlank => Ok(kinds::ask(ValueKind::Blank, args)),
            Function::Na => Ok(Value::Error(ErrorKind::Na)),
            Function::Sum => Ok(gathering::sum(args)),
            Function::Product => Ok(gathering::product(args)),
            Function::Min => Ok(gathering::min(args)),
            Function::Max => Ok(gathering::max(args)),
            Function::Count => Ok(counting::count(args)),
            Function::CountA => Ok(counting::counta(args)),
            Function::Abs => Ok(arithmetic::abs(args)),
            Function::Sign => Ok(arithmetic::sign(args)),
            Function::Mod => Ok(arithmetic::modulo(args)),
            Function::Quotient => Ok(arithmetic::quotient(args)),
            Function::Power => Ok(arithmetic::power(args)),
            Function::Index => areas::index(args),
            Function::Len => text_parts::len(alloc, args),
            Function::Left => text_parts::left(alloc, args),
            Function::Right => text_parts::right(alloc, args),
            Function::Mid => text_parts::mid(alloc, args),
            Function::Upper => text_writing::upper(alloc, args),
            Function::Lower => text_writing::lower(alloc, args),
            Function::Concatenate => text_search::concatenate(alloc, args),
            Function::Exact => text_search::exact(alloc, args),
            Function::Find => text_search::find(alloc, args),
            Function::Rept => text_writing::rept(alloc, args),
            Function::Trim => text_writing::trim(alloc, args),
            Function::Value => Ok(text_search::value(args)),
        }
    }
}

/// What the function of a name answers; a name of no function is `#NAME?`.
pub fn apply(alloc: Global, name: &str, args: &[Arg]) -> Result<Value, Memory>
    requires { AreInputs args.now }
    ensures { IfOk result (λ answer. answer ≡ result_by_name (function_named name.now) args.now) }
{
    match Function::of(name) {
        Some(function) => function.apply(alloc, args),
        None => Ok(Value::Error(ErrorKind::Name)),
    }
}
