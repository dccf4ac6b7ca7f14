//! For the tests: a sheet of which nothing was evaluated, a source of topics, and a recalculation over both.

ghost use Rattle.std.specs.Prelude.{◌≡◌, ◌<◌, [], ◌∷◌, ◌++◌, None, Some, false, if◌then◌else◌, IfOk, OnOk};
ghost use Rattle.cell_refs.specs.Cell.{is_among};
ghost use Rattle.topic_source.specs.Source.{no_topics};
ghost use Rattle.workbook.specs.Book.{content_at, has_formula};
ghost use Rattle.calc_round.specs.Samples.{IsUnderWay, IsUnevaluated, IsUnread, echo_state, first_value};

use super::{Memory, OpenWork, work_out};
use addin_types::{Kind, Registration, SampleAddIns};
use async_handles::Handles;
use cell_chain::CellChain;
use cell_refs::{Cell, Handle, Steps};
use cell_store::CellStore;
use cell_values::{Name, Topic, Value, read_value};
use command_log::CommandLog;
use formula_parse::parse;
use std::alloc::Global;
use std::marker::Brand;
use std::sync::ledger::{Blank, Ledger};
use std::test::Fail;
use topic_source::TopicSource;
use workbook::{Book, Content};

/// What stands in the rows of the first column.
pub type Texts<'a> = &'a [(u32, &'static str)];

/// A value that was accepted for a site of a row, if there is one.
pub type Accepted = Option<(u32, u16, i64)>;

/// A book, its chain and its values.
#[derive(Drop)]
pub struct Sheet {
    pub book: Book,
    pub chain: CellChain,
    pub store: CellStore,
}

/// A recalculation of a sheet: the accepted values, and what is left to do.
#[derive(Drop)]
pub struct Round {
    pub sheet: Sheet,
    pub log: CommandLog,
    pub work: OpenWork,
}

/// A source in which each topic has its first string as its value. It keeps each reading, and refuses the first few.
#[derive(Drop)]
pub struct Echo {
    pub readings: Vec<(Topic, Cell)>,
    pub refusals: u32,
}

impl TopicSource for Echo {
    ghost state = { λ source. echo_state source.readings.items };

    fn read(&mut self, topic: &Topic, reader: Cell) -> Result<Value, Memory> {
        if self.refusals > 0 {
            self.refusals -= 1;
            return Err(Memory);
        }
        let value = match topic.strings.as_slice() {
            [] => Value::Blank,
            [first, ..] => Value::Text(first.copy()?),
        };
        let topic = topic.copy()?;
        match self.readings.push((topic, reader)) {
            Ok(()) => Ok(value),
            Err(_) => Err(Memory),
        }
    }
}

/// A cell of the first column.
pub fn cell(row: u32) -> Cell {
    Cell {
        sheet: 1,
        row,
        col: 1,
    }
}

/// The handle of a call of the first recalculation.
pub fn handle(row: u32, site: u16) -> Handle {
    Handle {
        session: 7,
        round: 1,
        cell: cell(row),
        site,
    }
}

// ---- sheets

/// A constant by its word, or a formula.
fn content_of(alloc: Global, text: &str) -> Result<Content, Fail> {
    match read_value(alloc, text) {
        Ok(Value::Num(n)) => Ok(Content::Num(n)),
        Ok(Value::Text(text)) => Ok(Content::Text(text)),
        Ok(Value::Bool(b)) => Ok(Content::Bool(b)),
        Ok(Value::Error(kind)) => Ok(Content::Error(kind)),
        Ok(Value::Blank) | Err(_) => Ok(Content::Formula(parse(alloc, text)?)),
    }
}

/// The value of a constant; None for a formula.
fn first_value(content: &Content) -> Result<Option<Value>, Memory>
    ensures { IfOk result (λ value. value ≡ first_value content.now) }
{
    match content {
        Content::Num(n) => Ok(Some(Value::Num(*n))),
        Content::Text(text) => Ok(Some(Value::Text(text.copy()?))),
        Content::Bool(b) => Ok(Some(Value::Bool(*b))),
        Content::Error(kind) => Ok(Some(Value::Error(*kind))),
        Content::Formula(_) => Ok(None),
    }
}

/// Registers a function of one argument.
fn register(alloc: Global, book: &mut Book, name: &str, kind: Kind) -> Result<(), Fail>
    ensures { OnOk result (book.new.contents ≡ book.old.contents) }
{
    let name = Name::new(alloc, name)?;
    let registration = Registration {
        kind,
        arguments: 1,
        thread_safe: false,
    };
    book.register(name, registration)?;
    Ok(())
}

/// A sheet with nothing in it, where `DOUBLE` and the asynchronous `SLOW` are registered.
pub fn empty_sheet(alloc: Global) -> Result<Sheet, Fail>
    ensures { IfOk result (λ sheet. IsUnevaluated sheet.book.contents sheet.store sheet.chain) }
{
    let mut book = Book::new(alloc);
    register(alloc, &mut book, "DOUBLE", Kind::Plain)?;
    register(
        alloc,
        &mut book,
        "SLOW",
        Kind::Asynchronous { handle_place: 0 },
    )?;
    let _ = book.cells();
    Ok(Sheet {
        book,
        chain: CellChain::new(alloc),
        store: CellStore::new(alloc),
    })
}

/// Puts the cell of a formula into the chain.
fn append_formula(chain: &mut CellChain, cell: Cell, content: &Content) -> Result<(), Fail>
    requires { is_among chain.old.entries cell ≡ false }
    ensures entries { OnOk result (chain.new.entries ≡ (if has_formula (Some content.now)
        then chain.old.entries ++ cell ∷ [] else chain.old.entries)) }
    ensures due { OnOk result (chain.new.due ≡ chain.old.due) }
{
    if content.is_formula() {
        chain.append(cell)?;
    }
    Ok(())
}

/// Gives a cell without content a content.
fn enter_content(sheet: &mut Sheet, cell: Cell, content: Content) -> Result<(), Fail>
    requires start { IsUnevaluated sheet.old.book.contents sheet.old.store sheet.old.chain }
    requires new { content_at sheet.old.book.contents cell ≡ None }
    ensures { OnOk result (IsUnevaluated sheet.new.book.contents sheet.new.store
        sheet.new.chain) }
{
    append_formula(&mut sheet.chain, cell, &content)?;
    sheet.store.put(cell, first_value(&content)?)?;
    match sheet.book.set(cell, content) {
        Ok(()) => {}
        Err(_) => return Err(Fail::from("a cell is refused")),
    }
    Ok(())
}

/// Gives a cell of the first column what the text says.
pub fn enter(alloc: Global, sheet: &mut Sheet, row: u32, text: &str) -> Result<(), Fail>
    requires { IsUnevaluated sheet.old.book.contents sheet.old.store sheet.old.chain }
    ensures { OnOk result (IsUnevaluated sheet.new.book.contents sheet.new.store
        sheet.new.chain) }
{
    let content = content_of(alloc, text)?;
    let at = cell(row);
    match sheet.book.get(at) {
        None => {}
        Some(_) => return Err(Fail::from("a cell is entered twice")),
    }
    enter_content(sheet, at, content)
}

/// A sheet of these texts.
fn sheet_of(alloc: Global, texts: Texts<'_>) -> Result<Sheet, Fail>
    ensures { IfOk result (λ sheet. IsUnevaluated sheet.book.contents sheet.store sheet.chain) }
{
    let mut sheet = empty_sheet(alloc)?;
    for (row, text) in texts {
        enter(alloc, &mut sheet, *row, text)?;
    }
    Ok(sheet)
}

// ---- recalculations

/// A log with this accepted value, and room for one more.
fn log_of(alloc: Global, accepted: Accepted) -> Result<CommandLog, Memory>
    ensures { IfOk result (λ log. 0 < log.room) }
{
    let mut log = CommandLog::open(alloc, 2)?;
    log.reserve(1)?;
    if let Some((row, site, n)) = accepted {
        log.accept(1, handle(row, site), Value::Num(n));
    }
    Ok(log)
}

/// All formula cells are to be looked at.
fn begin<T: TopicSource>(
    alloc: Global,
    sheet: &Sheet,
    log: &CommandLog,
    topics: &T,
) -> Result<OpenWork, Fail>
    requires start { IsUnevaluated sheet.now.book.contents sheet.now.store sheet.now.chain }
    requires unread { IsUnread (T.state topics.now) }
    ensures { IfOk result (λ work. IsUnderWay sheet.now.book log.now sheet.now.store
        sheet.now.chain work (T.state topics.now)) }
{
    let waiting = sheet.chain.list(alloc)?;
    let mut calls = Handles::new(alloc, 7);
    calls.reserve(waiting.len())?;
    Ok(OpenWork { waiting, calls })
}

/// A recalculation of a sheet begins, with this accepted value.
pub fn begin_round<T: TopicSource>(
    alloc: Global,
    sheet: Sheet,
    accepted: Accepted,
    topics: &T,
) -> Result<Round, Fail>
    requires start { IsUnevaluated sheet.book.contents sheet.store sheet.chain }
    requires unread { IsUnread (T.state topics.now) }
    ensures under_way { IfOk result (λ round. IsUnderWay round.sheet.book round.log
        round.sheet.store round.sheet.chain round.work (T.state topics.now)) }
    ensures room { IfOk result (λ round. 0 < round.log.room) }
{
    let log = log_of(alloc, accepted)?;
    let work = begin(alloc, &sheet, &log, topics)?;
    Ok(Round { sheet, log, work })
}

/// A recalculation of a sheet of these texts begins.
pub fn round_of<T: TopicSource>(
    alloc: Global,
    texts: Texts<'_>,
    accepted: Accepted,
    topics: &T,
) -> Result<Round, Fail>
    requires { IsUnread (T.state topics.now) }
    ensures under_way { IfOk result (λ round. IsUnderWay round.sheet.book round.log
        round.sheet.store round.sheet.chain round.work (T.state topics.now)) }
    ensures room { IfOk result (λ round. 0 < round.log.room) }
{
    let sheet = sheet_of(alloc, texts)?;
    begin_round(alloc, sheet, accepted, topics)
}

/// Recalculates, by steps that nobody counts.
pub fn recalculate<T: TopicSource>(
    alloc: Global,
    round: &mut Round,
    topics: &mut T,
) -> Result<(), Memory>
    requires { IsUnderWay round.old.sheet.book round.old.log round.old.sheet.store
        round.old.sheet.chain round.old.work (T.state topics.old) }
    ensures under_way { IsUnderWay round.new.sheet.book round.new.log round.new.sheet.store
        round.new.sheet.chain round.new.work (T.state topics.new) }
    ensures log { round.new.log ≡ round.old.log }
{
    counting::<T, Brand>(alloc, Blank::new(1), round, topics)
}

/// Recalculates, by steps that are counted.
fn counting<T: TopicSource, L: Ledger>(
    alloc: Global,
    blank: Blank,
    round: &mut Round,
    topics: &mut T,
) -> Result<(), Memory>
    requires name { blank.name ≡ L.name }
    requires parts { blank.parts ≡ L.parts }
    requires some { 0 < blank.parts }
    requires under_way { IsUnderWay round.old.sheet.book round.old.log round.old.sheet.store
        round.old.sheet.chain round.old.work (T.state topics.old) }
    ensures under_way { IsUnderWay round.new.sheet.book round.new.log round.new.sheet.store
        round.new.sheet.chain round.new.work (T.state topics.new) }
    ensures log { round.new.log ≡ round.old.log }
{
    let mut steps = Steps::<L>::new(blank);
    work_out(
        alloc,
        1,
        &round.sheet.book,
        &round.log,
        &SampleAddIns,
        topics,
        &mut round.sheet.chain,
        &mut round.sheet.store,
        &mut round.work,
        &mut steps,
    )
}

/// Accepts a value for the open call of a row: its cell is to be looked at.
pub fn accept(round: &mut Round, row: u32, value: Value) -> Result<(), Fail>
    requires under_way { IsUnderWay round.old.sheet.book round.old.log round.old.sheet.store
        round.old.sheet.chain round.old.work no_topics }
    requires room { 0 < round.old.log.room }
    ensures { OnOk result (IsUnderWay round.new.sheet.book round.new.log round.new.sheet.store
        round.new.sheet.chain round.new.work no_topics) }
{
    let Some(handle) = round.work.calls.handle_of(cell(row)) else {
        return Err(Fail::from("a cell without a call"));
    };
    round.log.reserve(1)?;
    round.log.accept(1, handle, value);
    let Some((cell, _)) = round.work.calls.redeem(&handle) else {
        return Err(Fail::from("a handle that isn't live"));
    };
    round.work.waiting.push(cell)?;
    Ok(())
}
