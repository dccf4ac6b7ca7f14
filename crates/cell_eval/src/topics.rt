ghost use Rattle.std.specs.Prelude.{◌≡◌, ◌∷◌, ℕ, nat_lt, List, map, length, IfOk, MatchResult, Ok, Err};
ghost use Rattle.std.specs.List.{list_any};
ghost use Rattle.std.specs.Str.{chars};
ghost use Rattle.cell_values.specs.declared.values.Value.{Value as OneValue};
ghost use Rattle.cell_values.specs.Coercion.{text_of};
ghost use Rattle.functions.specs.Functions.{is_within};
ghost use Rattle.functions.specs.Inputs.{all_ok};
ghost use Rattle.workbook.specs.Evaluation.{topic_answer, LONGEST_STRING, RTD_ARITY};
ghost use Rattle.cell_eval.specs.Jobs.{world_of};
ghost use Rattle.cell_eval.specs.Steps.{ComesTo};

use super::halts::Halt;
use super::jobs::Job;
use super::lookups::topic_value;
use cell_values::{ErrorKind, Memory, Name, NameFault, Text, Texts, Topic, Value, to_text};
use std::alloc::Global;

/// The greatest number of characters of a topic's string.
const LONGEST_STRING: usize = 255;

/// The least and the most arguments of RTD.
const RTD_ARITY: (usize, usize) = (3, 18);

/// Whether RTD takes so many arguments.
pub fn takes_rtd_count(count: usize) -> bool
    ensures { result ≡ is_within RTD_ARITY count }
{
    RTD_ARITY.0 <= count && count <= RTD_ARITY.1
}

/// The texts that values count as, or the first error.
fn texts_of(alloc: Global, values: &[Value]) -> Result<Result<Vec<Text>, ErrorKind>, Memory>
    ensures { IfOk result (λ texts. MatchResult texts (λ texts. all_ok (map text_of values.now)
        ≡ Ok texts.items)
        (λ kind. all_ok (map text_of values.now) ≡ Err kind)) }
{
    let mut texts = Vec::new(alloc);
    for value in values {
        match to_text(alloc, value)? {
            Err(kind) => return Ok(Err(kind)),
            Ok(text) => {
                if texts.push(text).is_err() {
                    return Err(Memory);
                }
            }
        }
    }
    Ok(Ok(texts))
}

/// Whether a string of a topic is too long.
fn is_any_too_long(strings: &[Text]) -> bool
    ensures { result ≡ list_any (λ s. nat_lt LONGEST_STRING (length (chars s))) strings.now }
{
    strings.iter().any(is_too_long)
}

/// Whether it is.
fn is_too_long(string: &Text) -> bool
    ensures { result ≡ nat_lt LONGEST_STRING (length (chars string.now)) }
{
    string.as_str().chars().count() > LONGEST_STRING
}

/// The value of the topic that texts name, or what they are wrong in.
fn named_answer(
    alloc: Global,
    job: &Job,
    name: &Text,
    machine: &Text,
    strings: Vec<Text>,
) -> Result<Value, Halt>
    ensures { (answer : List ℕ → List OneValue → OneValue)
        → ComesTo (topic_answer (world_of answer job.now)
        (Ok (name.now ∷ machine.now ∷ strings.items))) result }
{
    if !machine.as_str().is_empty() || is_any_too_long(strings.as_slice()) {
        return Ok(Value::Error(ErrorKind::Value));
    }
    let server = match Name::new(alloc, name.as_str()) {
        Ok(server) => server,
        Err(NameFault::Form) => return Ok(Value::Error(ErrorKind::Na)),
        Err(NameFault::Memory) => return Err(Halt::Memory),
    };
    let topic = Topic {
        server,
        strings: Texts::new(strings)?,
    };
    match topic_value(job.topics.as_slice(), &topic)? {
        Some(value) => Ok(value),
        None => Err(Halt::Topic(topic)),
    }
}

/// RTD by the values of its arguments.
pub fn topic_answer(alloc: Global, job: &Job, values: &[Value]) -> Result<Value, Halt>
    ensures { (answer : List ℕ → List OneValue → OneValue)
        → ComesTo (topic_answer (world_of answer job.now)
        (all_ok (map text_of values.now))) result }
{
    let Some((name, others)) = values.split_first() else {
        return Ok(Value::Error(ErrorKind::Value));
    };
    let Some((machine, strings)) = others.split_first() else {
        return match to_text(alloc, name)? {
            Err(kind) => Ok(Value::Error(kind)),
            Ok(_) => Ok(Value::Error(ErrorKind::Value)),
        };
    };
    match (
        to_text(alloc, name)?,
        to_text(alloc, machine)?,
        texts_of(alloc, strings)?,
    ) {
        (Err(kind), _, _) => Ok(Value::Error(kind)),
        (Ok(_), Err(kind), _) => Ok(Value::Error(kind)),
        (Ok(_), Ok(_), Err(kind)) => Ok(Value::Error(kind)),
        (Ok(name), Ok(machine), Ok(strings)) => named_answer(alloc, job, &name, &machine, strings),
    }
}
