ghost use Rattle.std.specs.Prelude.{◌≡◌, pos, IfOk};
ghost use Rattle.cell_values.specs.declared.values.Value.TheVariants as values;
ghost use Rattle.addin_types.specs.Samples.{sample_answer};

use super::*;
use cell_refs::{Cell, Handle};
use cell_values::{Memory, Name, Value, print_value, read_value};
use functions::Values;
use std::alloc::Global;
use std::test::Fail;
use std::thread;

/// The values of words, with `|` between two.
fn values_of_words(alloc: Global, words: &str) -> Result<Vec<Value>, Fail> {
    let mut values = Vec::new(alloc);
    if !words.is_empty() {
        for word in words.split('|') {
            values.push(read_value(alloc, word)?)?;
        }
    }
    Ok(values)
}

/// What the functions that are added to a host answer.
fn answer_of<A: AddIns>(
    add_ins: &A,
    alloc: Global,
    name: &Name,
    args: &[Value],
) -> Result<Value, Memory>
    ensures { IfOk result (λ value. value ≡ A.answer name.now args.now) }
{
    add_ins.call(alloc, name, args)
}

/// The same, asked of a second value of the type.
fn shared_answer<A: AddIns + Drop>(
    add_ins: &A,
    alloc: Global,
    name: &Name,
    args: &[Value],
) -> Result<Value, Memory>
    ensures { IfOk result (λ value. value ≡ A.answer name.now args.now) }
{
    answer_of(&add_ins.share(), alloc, name, args)
}

/// What a sample answers, asked through the bound.
fn sample_of(alloc: Global, name: &str, args: &[Value]) -> Result<Value, Fail>
    ensures { IfOk result (λ value. value ≡ sample_answer name.now args.now) }
{
    let name = Name::new(alloc, name)?;
    Ok(shared_answer(&SampleAddIns, alloc, &name, args)?)
}

/// The double of 4: what is proved at the bound is known of the samples.
fn double_of_four(alloc: Global) -> Result<Value, Fail>
    ensures { IfOk result (λ value. value ≡ values.Num (pos 8)) }
{
    sample_of(alloc, "DOUBLE", &[Value::Num(4)])
}

#[test]
fn samples_answer(rt: HostRuntime) -> Result<(), Fail> {
    let alloc = rt.alloc();
    assert_eq!(rt; double_of_four(alloc)?, Value::Num(8));
    for (name, words, want) in [
        ("DOUBLE", "4", "8"),
        ("DOUBLE", "\" 21 \"", "42"),
        ("DOUBLE", "TRUE", "2"),
        ("DOUBLE", "\"a\"", "#VALUE!"),
        ("DOUBLE", "#N/A", "#N/A"),
        ("DOUBLE", "999999999999999", "#NUM!"),
        ("DOUBLE", "", "#VALUE!"),
        ("DOUBLE", "4|4", "#VALUE!"),
        ("ECHO", "\"Ab\"", "\"Ab\""),
        ("ECHO", "-7", "-7"),
        ("ECHO", "#REF!", "#REF!"),
        ("ECHO", "", "#VALUE!"),
        ("ECHO", "1|2|3", "#VALUE!"),
        ("TRIPLE", "4", "#NAME?"),
        ("double", "4", "#NAME?"),
        ("DOUBLES", "4", "#NAME?"),
    ] {
        let args = values_of_words(alloc, words)?;
        let mut out = Vec::new(alloc);
        print_value(&sample_of(alloc, name, args.as_slice())?, &mut out)?;
        assert_eq!(rt; str::from_utf8(out.as_slice())?, want, "at {name} {words}");
    }
    Ok(())
}

/// A call of `ECHO` with the values of words.
fn echo_call(alloc: Global, words: &str) -> Result<Call, Fail> {
    let handle = Handle {
        session: 1,
        round: 2,
        cell: Cell {
            sheet: 3,
            row: 4,
            col: 5,
        },
        site: 6,
    };
    let name = Name::new(alloc, "ECHO")?;
    let args = Values::new(values_of_words(alloc, words)?);
    Ok(Call { handle, name, args })
}

#[test]
fn a_copy_is_equal(rt: HostRuntime) -> Result<(), Fail> {
    let alloc = rt.alloc();
    for words in ["", "7", "1|\"a\"|TRUE|#N/A"] {
        let call = echo_call(alloc, words)?;
        let copy = call.copy(alloc)?;
        assert_eq!(rt; copy.handle, call.handle);
        assert_eq!(rt; copy.name, call.name);
        assert!(rt; copy.args.as_slice() == call.args.as_slice());
        assert!(rt; copy.args.as_slice() == values_of_words(alloc, words)?.as_slice());
    }
    Ok(())
}

#[test]
fn calls_cross_threads(rt: HostRuntime) -> Result<(), Fail> {
    let alloc = rt.alloc();
    let call = echo_call(alloc, "7")?;
    let add_ins = SampleAddIns.share();
    let child = thread::spawn(&rt, move || {
        add_ins.call(alloc, &call.name, call.args.as_slice())
    })?;
    assert_eq!(rt; child.join(&rt)?, Value::Num(7));
    Ok(())
}

/// A registration of so many arguments.
fn registration(kind: Kind, arguments: u16, thread_safe: bool) -> Registration {
    Registration {
        kind,
        arguments,
        thread_safe,
    }
}

#[test]
fn type_texts_both_ways(rt: HostRuntime) -> Result<(), Fail> {
    let mut out = Vec::new(rt.alloc());
    for (text, kind, arguments, thread_safe) in [
        ("Q", Kind::Plain, 0, false),
        ("Q$", Kind::Plain, 0, true),
        ("QQQ", Kind::Plain, 2, false),
        (">X", Kind::Asynchronous { handle_place: 0 }, 0, false),
        (">XQ$", Kind::Asynchronous { handle_place: 0 }, 1, true),
        (">QXQQ", Kind::Asynchronous { handle_place: 1 }, 3, false),
        (">QQX$", Kind::Asynchronous { handle_place: 2 }, 2, true),
    ] {
        let wanted = registration(kind, arguments, thread_safe);
        assert_eq!(rt; read_type(text), Ok(wanted));
        out.clear();
        assert_eq!(rt; write_type(&wanted, &mut out), Ok(()));
        assert_eq!(rt; out.as_slice(), text.as_bytes());
    }
    Ok(())
}

#[test]
fn texts_that_are_no_type(rt: HostRuntime) {
    for (text, fault) in [
        ("", TypeFault::Empty),
        ("#", TypeFault::MacroSheet),
        ("z>#", TypeFault::MacroSheet),
        ("QX#", TypeFault::MacroSheet),
        ("X", TypeFault::Letter(0)),
        ("$", TypeFault::Letter(0)),
        ("q", TypeFault::Letter(0)),
        ("\u{e9}Q", TypeFault::Letter(0)),
        ("Q$Q", TypeFault::Letter(1)),
        ("Q$$", TypeFault::Letter(1)),
        ("QQ>", TypeFault::Letter(2)),
        (">XXB", TypeFault::Letter(3)),
        ("Q ", TypeFault::Letter(1)),
        (">XX", TypeFault::TwoHandles),
        ("QXQX$", TypeFault::TwoHandles),
        (">", TypeFault::VoidWithoutHandle),
        (">QQ$", TypeFault::VoidWithoutHandle),
        ("QX", TypeFault::HandleWithoutVoid),
        ("QQXQ$", TypeFault::HandleWithoutVoid),
    ] {
        assert_eq!(rt; read_type(text), Err(fault), "at {text}");
    }
}

#[test]
fn a_function_has_at_most_255_arguments(rt: HostRuntime) -> Result<(), Fail> {
    let mut out = Vec::new(rt.alloc());
    for (arguments, few) in [(255, true), (256, false)] {
        for kind in [Kind::Plain, Kind::Asynchronous { handle_place: 255 }] {
            let wanted = registration(kind, arguments, true);
            out.clear();
            assert_eq!(rt; write_type(&wanted, &mut out), Ok(()));
            let found = read_type(str::from_utf8(out.as_slice())?);
            let answer = if few {
                Ok(wanted)
            } else {
                Err(TypeFault::TooMany)
            };
            assert_eq!(rt; found, answer);
        }
    }
    Ok(())
}
