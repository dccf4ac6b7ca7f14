use super::*;
use cell_values::{ErrorKind, Value, print_value, read_value};
use std::alloc::Global;
use std::test::Fail;

/// A value of its word, `blank` for a Blank.
fn value_of_word(alloc: Global, word: &str) -> Result<Value, Fail> {
    if word == "blank" {
        Ok(Value::Blank)
    } else {
        Ok(read_value(alloc, word)?)
    }
}

/// The area of the words between `;`.
fn area_of_words(alloc: Global, columns: u32, words: &str) -> Result<Arg, Fail> {
    let mut values = Vec::new(alloc);
    for word in words.split(';') {
        values.push(value_of_word(alloc, word)?)?;
    }
    let values = Values::new(values);
    Ok(Arg::Cells { columns, values })
}

/// The argument of a value word, or of words of an area behind `one:` or `two:` for its columns.
fn argument_of_word(alloc: Global, word: &str) -> Result<Arg, Fail> {
    match word.split_once(':') {
        Some(("one", words)) => area_of_words(alloc, 1, words),
        Some(("two", words)) => area_of_words(alloc, 2, words),
        _ => Ok(Arg::Direct(value_of_word(alloc, word)?)),
    }
}

/// The arguments that words stand for, with `|` between two.
fn arguments(alloc: Global, words: &str) -> Result<Vec<Arg>, Fail> {
    let mut args = Vec::new(alloc);
    if !words.is_empty() {
        for word in words.split('|') {
            args.push(argument_of_word(alloc, word)?)?;
        }
    }
    Ok(args)
}

/// The value word of what a function answers.
fn answer_word(alloc: Global, name: &str, words: &str) -> Result<String, Fail> {
    let args = arguments(alloc, words)?;
    if !are_in_form(args.as_slice()) {
        return Err(Fail::from("arguments out of form"));
    }
    let value = apply(alloc, name, args.as_slice())?;
    let mut out = Vec::new(alloc);
    print_value(&value, &mut out)?;
    Ok(String::from_utf8(out)?)
}

#[test]
fn booleans_and_kinds(rt: HostRuntime) -> Result<(), Fail> {
    for (name, words, expected) in [
        ("TRUE", "", "TRUE"),
        ("FALSE", "", "FALSE"),
        ("AND", "TRUE|1|\"true\"", "TRUE"),
        ("AND", "one:1;\"x\";blank;TRUE|0", "FALSE"),
        ("AND", "TRUE|\"x\"", "#VALUE!"),
        ("AND", "one:\"x\";blank", "#VALUE!"),
        ("AND", "FALSE|one:#N/A;#REF!|#NUM!", "#N/A"),
        ("OR", "FALSE|one:blank;2", "TRUE"),
        ("OR", "0|FALSE", "FALSE"),
        ("OR", "one:blank;\"TRUE\"", "#VALUE!"),
        ("OR", "TRUE|#DIV/0!", "#DIV/0!"),
        ("NOT", "blank", "TRUE"),
        ("NOT", "\"False\"", "TRUE"),
        ("NOT", "\"no\"", "#VALUE!"),
        ("NOT", "one:TRUE", "#VALUE!"),
        ("ISNUMBER", "-1", "TRUE"),
        ("ISNUMBER", "\"1\"", "FALSE"),
        ("ISNUMBER", "TRUE", "FALSE"),
        ("ISNUMBER", "#NUM!", "FALSE"),
        ("ISTEXT", "\"\"", "TRUE"),
        ("ISTEXT", "blank", "FALSE"),
        ("ISTEXT", "\"a\"", "TRUE"),
        ("ISTEXT", "1", "FALSE"),
        ("ISLOGICAL", "FALSE", "TRUE"),
        ("ISLOGICAL", "0", "FALSE"),
        ("ISLOGICAL", "TRUE", "TRUE"),
        ("ISLOGICAL", "\"TRUE\"", "FALSE"),
        ("ISERROR", "#N/A", "TRUE"),
        ("ISERROR", "one:1", "TRUE"),
        ("ISERROR", "#DIV/0!", "TRUE"),
        ("ISERROR", "1", "FALSE"),
        ("ISNA", "#N/A", "TRUE"),
        ("ISNA", "#REF!", "FALSE"),
        ("ISNA", "\"#N/A\"", "FALSE"),
        ("ISNA", "blank", "FALSE"),
        ("ISBLANK", "blank", "TRUE"),
        ("ISBLANK", "0", "FALSE"),
        ("ISBLANK", "\"\"", "FALSE"),
        ("ISBLANK", "#N/A", "FALSE"),
        ("NA", "", "#N/A"),
    ] {
        let word = answer_word(rt.alloc(), name, words)?;
        assert_eq!(rt; word.as_str(), expected, "{name} of {words}");
    }
    Ok(())
}

#[test]
fn gathered_numbers(rt: HostRuntime) -> Result<(), Fail> {
    for (name, words, expected) in [
        ("SUM", "1|\" 2 \"|TRUE|blank", "4"),
        ("SUM", "two:1;\"5\";TRUE;blank|3", "4"),
        ("SUM", "999999999999999|1|-1", "999999999999999"),
        ("SUM", "999999999999999|1", "#NUM!"),
        ("SUM", "999999999999999|1|one:3;#REF!|\"x\"", "#REF!"),
        ("PRODUCT", "2|one:3;\"x\";-4", "-24"),
        (
            "PRODUCT",
            "999999999999999|999999999999999|999999999999999|0",
            "0",
        ),
        ("PRODUCT", "999999999999999|-2", "#NUM!"),
        ("PRODUCT", "one:blank;TRUE", "0"),
        ("PRODUCT", "999999999999999|2|\"x\"|#N/A", "#VALUE!"),
        ("MIN", "3|one:-2;\"-9\"", "-2"),
        ("MIN", "one:blank", "0"),
        ("MIN", "5|7", "5"),
        ("MIN", "5|one:#N/A|\"x\"", "#N/A"),
        ("MAX", "-3|one:-2;TRUE", "-2"),
        ("MAX", "one:\"9\"", "0"),
        ("MAX", "TRUE|\"4\"", "4"),
        ("MAX", "\"x\"|#N/A", "#VALUE!"),
        ("COUNT", "1|\"2\"|\"x\"|#N/A|TRUE", "3"),
        ("COUNT", "one:1;\"2\";TRUE;#N/A;blank", "1"),
        ("COUNT", "blank", "1"),
        ("COUNT", "#REF!", "0"),
        ("COUNTA", "one:1;\"\";TRUE;#N/A;blank", "4"),
        ("COUNTA", "blank", "1"),
        ("COUNTA", "#N/A|\"x\"", "2"),
        ("COUNTA", "one:blank;blank", "0"),
    ] {
        let word = answer_word(rt.alloc(), name, words)?;
        assert_eq!(rt; word.as_str(), expected, "{name} of {words}");
    }
    Ok(())
}

#[test]
fn numbers_and_areas(rt: HostRuntime) -> Result<(), Fail> {
    for (name, words, expected) in [
        ("ABS", "-7", "7"),
        ("ABS", "\"+7\"", "7"),
        ("ABS", "\"x\"", "#VALUE!"),
        ("ABS", "one:1", "#VALUE!"),
        ("SIGN", "-5", "-1"),
        ("SIGN", "blank", "0"),
        ("SIGN", "9", "1"),
        ("SIGN", "#NULL!", "#NULL!"),
        ("MOD", "-7|3", "2"),
        ("MOD", "7|-3", "-2"),
        ("MOD", "-7|-3", "-1"),
        ("MOD", "6|-3", "0"),
        ("MOD", "7|0", "#DIV/0!"),
        ("MOD", "\"x\"|#N/A", "#VALUE!"),
        ("QUOTIENT", "-7|2", "-3"),
        ("QUOTIENT", "7|2", "3"),
        ("QUOTIENT", "1|0", "#DIV/0!"),
        ("QUOTIENT", "#N/A|0", "#N/A"),
        ("POWER", "2|10", "1024"),
        ("POWER", "10|15", "#NUM!"),
        ("POWER", "-10|14", "100000000000000"),
        ("POWER", "0|0", "#NUM!"),
        ("POWER", "0|-1", "#DIV/0!"),
        ("POWER", "0|999999999999999", "0"),
        ("POWER", "-1|999999999999999", "-1"),
        ("POWER", "-1|-2", "1"),
        ("POWER", "1|-999999999999999", "1"),
        ("POWER", "2|-1", "#NUM!"),
        ("POWER", "7|0", "1"),
        ("INDEX", "two:1;2;3;4|2|1", "3"),
        ("INDEX", "two:1;2;3;4|1|2", "2"),
        ("INDEX", "two:1;blank|1|2", "0"),
        ("INDEX", "two:1;2;3;4|3|1", "#REF!"),
        ("INDEX", "two:1;2;3;4|1|3", "#REF!"),
        ("INDEX", "two:1;2;3;4|0|3", "#VALUE!"),
        ("INDEX", "5|1|1", "#VALUE!"),
        ("INDEX", "5|#N/A|1", "#N/A"),
        ("INDEX", "one:#N/A|1|1", "#N/A"),
    ] {
        let word = answer_word(rt.alloc(), name, words)?;
        assert_eq!(rt; word.as_str(), expected, "{name} of {words}");
    }
    Ok(())
}

#[test]
fn a_name_is_one_of_forty_in_upper_case(rt: HostRuntime) -> Result<(), Fail> {
    for (name, counts) in [
        ("TRUE", Some((0, 0))),
        ("IF", Some((2, 3))),
        ("IFNA", Some((2, 2))),
        ("SUM", Some((1, 255))),
        ("CHOOSE", Some((2, 255))),
        ("INDEX", Some((3, 3))),
        ("FIND", Some((2, 3))),
        ("VALUE", Some((1, 1))),
        ("sum", None),
        ("RTD", None),
        ("", None),
    ] {
        assert_eq!(rt; arity(name), counts, "{name}");
    }
    let seven = [Arg::Direct(Value::Num(-7)), Arg::Direct(Value::Num(3))];
    assert!(rt; are_in_form(&seven));
    assert_eq!(rt; apply(rt.alloc(), "MOD", &seven)?, Value::Num(2));
    assert_eq!(rt; Function::Mod.apply(rt.alloc(), &seven)?, Value::Num(2));
    assert_eq!(rt;
        apply(rt.alloc(), "RTD", &seven)?,
        Value::Error(ErrorKind::Name)
    );
    Ok(())
}

#[test]
fn a_function_takes_areas_by_the_place_of_its_argument(rt: HostRuntime) -> Result<(), Fail> {
    for (name, first, second) in [
        ("SUM", true, true),
        ("OR", true, true),
        ("INDEX", true, false),
        ("LEN", false, false),
        ("IF", false, false),
    ] {
        let function = Function::of(name).ok_or("no function")?;
        assert_eq!(rt; function.takes_area(0), first, "{name}");
        assert_eq!(rt; function.takes_area(1), second, "{name}");
    }
    for (name, count, takes) in [
        ("TRUE", 0, true),
        ("TRUE", 1, false),
        ("FIND", 1, false),
        ("FIND", 2, true),
        ("FIND", 3, true),
        ("FIND", 4, false),
        ("SUM", 0, false),
        ("SUM", 255, true),
        ("SUM", 256, false),
    ] {
        let function = Function::of(name).ok_or("no function")?;
        assert_eq!(rt; function.takes_count(count), takes, "{name} {count}");
    }
    Ok(())
}

#[test]
fn an_area_out_of_form_is_told(rt: HostRuntime) -> Result<(), Fail> {
    for (columns, words) in [(0, "1"), (2, "1"), (3, "1;2;3;4")] {
        let area = area_of_words(rt.alloc(), columns, words)?;
        assert!(rt; !area.is_in_form());
    }
    let none = Arg::Cells {
        columns: 1,
        values: Values::new(Vec::new(rt.alloc())),
    };
    assert!(rt; !none.is_in_form());
    Ok(())
}
