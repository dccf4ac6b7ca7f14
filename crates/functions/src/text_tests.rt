use super::arguments::{Arg, Values};
use super::text_parts::{left, len, mid, right};
use super::text_search::{concatenate, exact, find, value};
use super::text_writing::{lower, rept, trim, upper};
use cell_values::{Memory, Value, print_value, read_value};
use std::alloc::Global;
use std::test::Fail;

/// What a function answers.
fn answer(alloc: Global, name: &str, args: &[Arg]) -> Result<Value, Memory> {
    match name {
        "LEN" => len(alloc, args),
        "LEFT" => left(alloc, args),
        "RIGHT" => right(alloc, args),
        "MID" => mid(alloc, args),
        "UPPER" => upper(alloc, args),
        "LOWER" => lower(alloc, args),
        "CONCATENATE" => concatenate(alloc, args),
        "EXACT" => exact(alloc, args),
        "FIND" => find(alloc, args),
        "REPT" => rept(alloc, args),
        "TRIM" => trim(alloc, args),
        _ => Ok(value(args)),
    }
}

/// The arguments that value words stand for, with `|` between two. `blank` is an absent cell's value,
/// and `cells` an area of one number.
fn arguments(alloc: Global, words: &str) -> Result<Vec<Arg>, Fail> {
    let mut args = Vec::new(alloc);
    for word in words.split('|') {
        let arg = match word {
            "blank" => Arg::Direct(Value::Blank),
            "cells" => {
                let mut values = Vec::new(alloc);
                values.push(Value::Num(1))?;
                let values = Values::new(values);
                Arg::Cells { columns: 1, values }
            }
            _ => Arg::Direct(read_value(alloc, word)?),
        };
        args.push(arg)?;
    }
    Ok(args)
}

/// The value word of what a function answers.
fn answer_word(alloc: Global, name: &str, words: &str) -> Result<String, Fail> {
    let args = arguments(alloc, words)?;
    let value = answer(alloc, name, args.as_slice())?;
    let mut out = Vec::new(alloc);
    print_value(&value, &mut out)?;
    Ok(String::from_utf8(out)?)
}

#[test]
fn a_part_is_counted_in_characters(rt: HostRuntime) -> Result<(), Fail> {
    for (name, words, expected) in [
        ("LEN", "\"né🙂\"", "3"),
        ("LEN", "-12", "3"),
        ("LEN", "blank", "0"),
        ("LEN", "#N/A", "#N/A"),
        ("LEN", "cells", "#VALUE!"),
        ("LEFT", "\"éab\"", "\"é\""),
        ("LEFT", "\"abc\"|\"2\"", "\"ab\""),
        ("LEFT", "\"abc\"|9", "\"abc\""),
        ("LEFT", "\"abc\"|0", "\"\""),
        ("LEFT", "\"abc\"|-1", "#VALUE!"),
        ("LEFT", "#NUM!|#N/A", "#NUM!"),
        ("RIGHT", "\"abé\"", "\"é\""),
        ("RIGHT", "TRUE|2", "\"UE\""),
        ("RIGHT", "\"abc\"|4", "\"abc\""),
        ("RIGHT", "\"abc\"|-1", "#VALUE!"),
        ("MID", "\"aébc\"|2|2", "\"éb\""),
        ("MID", "\"abc\"|1|9", "\"abc\""),
        ("MID", "\"abc\"|4|1", "\"\""),
        ("MID", "\"abc\"|0|1", "#VALUE!"),
        ("MID", "\"abc\"|1|-1", "#VALUE!"),
        ("MID", "\"abc\"|\"x\"|#REF!", "#VALUE!"),
    ] {
        let word = answer_word(rt.alloc(), name, words)?;
        assert_eq!(rt; word.as_str(), expected, "{name} of {words}");
    }
    Ok(())
}

#[test]
fn a_text_is_written_anew(rt: HostRuntime) -> Result<(), Fail> {
    for (name, words, expected) in [
        ("UPPER", "\"aZ9é\"", "\"AZ9é\""),
        ("UPPER", "12", "\"12\""),
        ("UPPER", "blank", "\"\""),
        ("UPPER", "#REF!", "#REF!"),
        ("LOWER", "\"aZ9É\"", "\"az9É\""),
        ("LOWER", "TRUE", "\"true\""),
        ("LOWER", "blank", "\"\""),
        ("LOWER", "cells", "#VALUE!"),
        ("CONCATENATE", "\"a\"", "\"a\""),
        ("CONCATENATE", "\"a\"|1|TRUE|blank|\"é\"", "\"a1TRUEé\""),
        ("CONCATENATE", "\"a\"|#DIV/0!|#N/A", "#DIV/0!"),
        ("CONCATENATE", "\"a\"|cells|#N/A", "#VALUE!"),
        ("REPT", "\"éa\"|3", "\"éaéaéa\""),
        ("REPT", "\"ab\"|0", "\"\""),
        ("REPT", "\"\"|999999999999999", "\"\""),
        ("REPT", "\"ab\"|16384", "#VALUE!"),
        ("REPT", "\"ab\"|-1", "#VALUE!"),
        ("REPT", "#N/A|\"x\"", "#N/A"),
        ("TRIM", "\"  a   b c  \"", "\"a b c\""),
        ("TRIM", "\"   \"", "\"\""),
        ("TRIM", "\"a\"", "\"a\""),
        ("TRIM", "#NULL!", "#NULL!"),
    ] {
        let word = answer_word(rt.alloc(), name, words)?;
        assert_eq!(rt; word.as_str(), expected, "{name} of {words}");
    }
    Ok(())
}

#[test]
fn a_text_is_compared_searched_and_read(rt: HostRuntime) -> Result<(), Fail> {
    for (name, words, expected) in [
        ("EXACT", "\"a\"|\"a\"", "TRUE"),
        ("EXACT", "\"a\"|\"A\"", "FALSE"),
        ("EXACT", "1|\"1\"", "TRUE"),
        ("EXACT", "#N/A|#REF!", "#N/A"),
        ("FIND", "\"b\"|\"éabab\"", "3"),
        ("FIND", "\"b\"|\"éabab\"|4", "5"),
        ("FIND", "\"B\"|\"abab\"", "#VALUE!"),
        ("FIND", "\"\"|\"abc\"|4", "4"),
        ("FIND", "\"\"|\"abc\"|5", "#VALUE!"),
        ("FIND", "\"a\"|\"abc\"|0", "#VALUE!"),
        ("FIND", "\"aab\"|\"aaab\"", "2"),
        ("FIND", "1|#REF!|#N/A", "#REF!"),
        ("VALUE", "\" -12 \"", "-12"),
        ("VALUE", "7", "7"),
        ("VALUE", "TRUE", "#VALUE!"),
        ("VALUE", "\"1x\"", "#VALUE!"),
        ("VALUE", "blank", "0"),
        ("VALUE", "#NUM!", "#NUM!"),
    ] {
        let word = answer_word(rt.alloc(), name, words)?;
        assert_eq!(rt; word.as_str(), expected, "{name} of {words}");
    }
    Ok(())
}

#[test]
fn a_text_of_32767_characters_is_the_longest(rt: HostRuntime) -> Result<(), Fail> {
    let args = arguments(rt.alloc(), "\"é\"|32767")?;
    let longest = answer(rt.alloc(), "REPT", args.as_slice())?;
    let mut both = Vec::new(rt.alloc());
    both.push(Arg::Direct(longest))?;
    assert_eq!(rt;
        answer(rt.alloc(), "LEN", both.as_slice())?,
        Value::Num(32_767)
    );
    both.push(Arg::Direct(Value::Num(1)))?;
    let fault = answer(rt.alloc(), "CONCATENATE", both.as_slice())?;
    assert_eq!(rt; fault, Value::Error(cell_values::ErrorKind::Value));
    Ok(())
}
