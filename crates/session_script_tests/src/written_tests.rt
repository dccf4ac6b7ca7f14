//! Lines of generated commands, each read back.

use addin_types::{Kind, Registration};
use cell_refs::{Cell, Handle};
use cell_values::{ErrorKind, Memory, Name, Text, Texts, Value};
use formula_parse::{Tree, parse, print};
use session_script::{Parsed, read_line, write_line};
use std::alloc::Global;
use std::test::Fail;
use workbook::{BeginKind, Command, Content, Form, Moment};

/// Draws numbers and parts of commands, the same ones in each run.
#[derive(Drop)]
struct Dice {
    state: u64,
}

impl Dice {
    /// A number.
    fn roll(&mut self) -> u64 {
        self.state = self
            .state
            .wrapping_mul(6_364_136_223_846_793_005)
            .wrapping_add(1_442_695_040_888_963_407);
        self.state >> 16
    }

    /// One of some words.
    fn word(&mut self, words: &[&'static str]) -> &'static str {
        let sides = words.len().max(1) as u64;
        words
            .get((self.roll() % sides) as usize)
            .copied()
            .unwrap_or("")
    }

    /// A word of some of these letters, one of them or more.
    fn letters(&mut self, alloc: Global, letters: &[&'static str]) -> Result<String, Fail> {
        let mut text = String::from_str(alloc, self.word(letters))?;
        for _ in 0..self.roll() % 12 {
            text.push_str(self.word(letters))?;
        }
        Ok(text)
    }

    /// A number within the magnitude.
    fn number(&mut self) -> i64 {
        match self.roll() % 6 {
            0 => 999_999_999_999_999,
            1 => -999_999_999_999_999,
            2 => (self.roll() % 10) as i64 - 5,
            _ => (self.roll() % 1_999_999_999_999_999) as i64 - 999_999_999_999_999,
        }
    }

    /// A cell of the grid.
    fn cell(&mut self) -> Cell {
        Cell {
            sheet: (self.roll() % 64) as u8 + 1,
            row: (self.roll() % 1_048_576) as u32 + 1,
            col: (self.roll() % 16_384) as u16 + 1,
        }
    }

    /// An error.
    fn error(&mut self) -> ErrorKind {
        match self.roll() % 7 {
            0 => ErrorKind::Null,
            1 => ErrorKind::Div0,
            2 => ErrorKind::Value,
            3 => ErrorKind::Ref,
            4 => ErrorKind::Name,
            5 => ErrorKind::Num,
            _ => ErrorKind::Na,
        }
    }

    /// A text.
    fn text(&mut self, alloc: Global) -> Result<Text, Fail> {
        let letters = [
            "a",
            "Z",
            "0",
            "-",
            " ",
            ",",
            "'",
            "\"",
            "=",
            "#",
            "\u{e9}",
            "\u{1f600}",
        ];
        let text = self.letters(alloc, &letters)?;
        if self.roll() % 8 == 0 {
            return Ok(Text::new(alloc, "")?);
        }
        Ok(Text::new(alloc, text.as_str())?)
    }

    /// A name.
    fn name(&mut self, alloc: Global) -> Result<Name, Fail> {
        let mut name = String::from_str(alloc, self.word(&["f", "Feed", "X"]))?;
        name.push_str(self.letters(alloc, &["a", "Z", "9", ".", "_"])?.as_str())?;
        Ok(Name::new(alloc, name.as_str())?)
    }

    /// A name of a function, in upper case.
    fn function(&mut self, alloc: Global) -> Result<Name, Fail> {
        let mut name = String::from_str(alloc, self.word(&["F", "SLOW", "X"]))?;
        name.push_str(self.letters(alloc, &["A", "Z", "9", ".", "_"])?.as_str())?;
        Ok(Name::new(alloc, name.as_str())?)
    }

    /// A registration.
    fn registration(&mut self) -> Registration {
        let arguments = self.roll() % 256;
        let kind = match self.roll() % 2 {
            0 => Kind::Plain,
            _ => Kind::Asynchronous {
                handle_place: (self.roll() % (arguments + 1)) as u16,
            },
        };
        Registration {
            kind,
            arguments: arguments as u16,
            thread_safe: self.roll() % 2 == 0,
        }
    }

    /// A formula: operands with an operator between two.
    fn formula(&mut self, alloc: Global) -> Result<Tree, Fail> {
        let operands = [
            "A1",
            "$B$2",
            "Sheet2!xfd1048576",
            "SUM(A1:B9,$C3)",
            "\"x\"\"y, \u{e9}\"",
            "007",
            "#n/a",
            "true",
            "f.x(1,\"a b\")",
            "(1+2)",
            "- +1",
            "rtd(\"f\",\"\",\"t\")",
        ];
        let operators = [
            "+", "-", "*", "/", "&", "=", "<>", "<", ">", "<=", ">=", " + ",
        ];
        let mut text = String::from_str(alloc, "=")?;
        text.push_str(self.word(&operands))?;
        for _ in 0..self.roll() % 5 {
            text.push_str(self.word(&operators))?;
            text.push_str(self.word(&operands))?;
        }
        Ok(parse(alloc, text.as_str())?)
    }

    /// A content.
    fn content(&mut self, alloc: Global) -> Result<Content, Fail> {
        match self.roll() % 5 {
            0 => Ok(Content::Num(self.number())),
            1 => Ok(Content::Text(self.text(alloc)?)),
            2 => Ok(Content::Bool(self.roll() % 2 == 0)),
            3 => Ok(Content::Error(self.error())),
            _ => Ok(Content::Formula(self.formula(alloc)?)),
        }
    }

    /// A value that isn't Blank.
    fn value(&mut self, alloc: Global) -> Result<Value, Fail> {
        match self.roll() % 4 {
            0 => Ok(Value::Num(self.number())),
            1 => Ok(Value::Text(self.text(alloc)?)),
            2 => Ok(Value::Bool(self.roll() % 2 == 0)),
            _ => Ok(Value::Error(self.error())),
        }
    }

    /// The strings of a topic.
    fn strings(&mut self, alloc: Global) -> Result<Texts, Fail> {
        let mut strings = Vec::new(alloc);
        for _ in 0..self.roll() % 16 + 1 {
            strings.push(self.text(alloc)?)?;
        }
        Ok(Texts::new(strings)?)
    }

    /// A handle.
    fn handle(&mut self) -> Handle {
        let session = match self.roll() % 3 {
            0 => 1,
            1 => 18_446_744_073_709_551_615,
            _ => self.roll().max(1),
        };
        Handle {
            session,
            round: self.roll(),
            cell: self.cell(),
            site: (self.roll() % 65_536) as u16,
        }
    }

    /// A command in form.
    fn command(&mut self, alloc: Global, kind: u64) -> Result<Command, Fail> {
        match kind {
            0 => Ok(Command::Set {
                cell: self.cell(),
                content: self.content(alloc)?,
            }),
            1 => Ok(Command::Clear(self.cell())),
            2 => Ok(Command::Register {
                name: self.function(alloc)?,
                registration: self.registration(),
            }),
            3 => Ok(Command::Server(self.name(alloc)?)),
            4 => Ok(Command::Publish {
                server: self.name(alloc)?,
                strings: self.strings(alloc)?,
                value: self.value(alloc)?,
            }),
            5 => Ok(Command::Notify(self.name(alloc)?)),
            6 => Ok(Command::Throttle((self.roll() % 2_147_483_649) as i64 - 1)),
            7 => Ok(Command::Pull(self.moment())),
            8 => Ok(Command::Begin(self.kind())),
            9 => Ok(Command::Settle),
            10 => Ok(Command::Cancel),
            11 => Ok(Command::Return {
                handle: self.handle(),
                value: self.value(alloc)?,
            }),
            12 => Ok(Command::Print(self.form())),
            13 => Ok(Command::Listen(self.name(alloc)?)),
            _ => Ok(Command::Events(self.name(alloc)?)),
        }
    }

    /// A moment.
    fn moment(&mut self) -> Moment {
        match self.roll() % 2 {
            0 => Moment::Force,
            _ => Moment::At(self.roll() % 1_000_000_000_000_000),
        }
    }

    /// A kind of a begin.
    fn kind(&mut self) -> BeginKind {
        match self.roll() % 3 {
            0 => BeginKind::Dirty,
            1 => BeginKind::All,
            _ => BeginKind::Rebuild,
        }
    }

    /// A form of a print.
    fn form(&mut self) -> Form {
        match self.roll() % 2 {
            0 => Form::Lines,
            _ => Form::Csv,
        }
    }
}

/// Whether two formulas are printed alike.
fn same_formula(alloc: Global, a: &Tree, b: &Tree) -> Result<bool, Memory> {
    let mut one = Vec::new(alloc);
    print(a, &mut one)?;
    let mut other = Vec::new(alloc);
    print(b, &mut other)?;
    Ok(one.as_slice() == other.as_slice())
}

/// Whether two contents are the same.
fn same_content(alloc: Global, a: &Content, b: &Content) -> Result<bool, Memory> {
    match (a, b) {
        (Content::Num(n), Content::Num(m)) => Ok(n == m),
        (Content::Text(t), Content::Text(u)) => Ok(t == u),
        (Content::Bool(p), Content::Bool(q)) => Ok(p == q),
        (Content::Error(e), Content::Error(f)) => Ok(e == f),
        (Content::Formula(s), Content::Formula(t)) => same_formula(alloc, s, t),
        _ => Ok(false),
    }
}

/// Whether a command is this one.
fn is_same(alloc: Global, a: &Command, b: &Command) -> Result<bool, Memory> {
    match (a, b) {
        (
            Command::Set { cell, content },
            Command::Set {
                cell: at,
                content: what,
            },
        ) => { Ok(cell == at && same_content(alloc, content, what)?) }
        (Command::Clear(cell), Command::Clear(at)) => Ok(cell == at),
        (
            Command::Register { name, registration },
            Command::Register {
                name: called,
                registration: told,
            },
        ) => Ok(name == called && registration == told),
        (Command::Server(name), Command::Server(called)) => Ok(name == called),
        (
            Command::Publish {
                server,
                strings,
                value,
            },
            Command::Publish {
                server: called,
                strings: topic,
                value: given,
            },
        ) => Ok(server == called && strings == topic && value == given),
        (Command::Notify(name), Command::Notify(called)) => Ok(name == called),
        (Command::Throttle(n), Command::Throttle(m)) => Ok(n == m),
        (Command::Pull(m), Command::Pull(n)) => Ok(m == n),
        (Command::Begin(kind), Command::Begin(other)) => Ok(kind == other),
        (Command::Settle, Command::Settle) => Ok(true),
        (Command::Cancel, Command::Cancel) => Ok(true),
        (
            Command::Return { handle, value },
            Command::Return {
                handle: call,
                value: given,
            },
        ) => Ok(handle == call && value == given),
        (Command::Print(form), Command::Print(other)) => Ok(form == other),
        (Command::Listen(name), Command::Listen(called)) => Ok(name == called),
        (Command::Events(name), Command::Events(called)) => Ok(name == called),
        _ => Ok(false),
    }
}

/// Whether the written line of a command is read as that command.
fn reads_back(alloc: Global, command: &Command) -> Result<bool, Memory> {
    let mut line = Vec::new(alloc);
    write_line(command, &mut line)?;
    match read_line(alloc, line.as_slice()) {
        Ok(Parsed::One(read)) => is_same(alloc, command, &read),
        _ => Ok(false),
    }
}

#[test]
fn written_lines_of_generated_commands_read_back(rt: HostRuntime) -> Result<(), Fail> {
    let mut dice = Dice { state: 6 };
    for _ in 0..100 {
        for kind in 0..15 {
            let command = dice.command(rt.alloc(), kind)?;
            assert!(rt;
                reads_back(rt.alloc(), &command)?,
                "a command of kind {kind}"
            );
        }
    }
    Ok(())
}
