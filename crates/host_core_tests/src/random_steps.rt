//! What random lists of commands do and are answered, and the numbers by which they are made.

ghost use Rattle.std.specs.Prelude.{◌<◌};

use workbook::BeginKind;

/// The rows of the first column that have content, from 0.
pub const ROWS: usize = 6;

/// How many topics there are: two of each of two servers.
pub const TOPICS: usize = 4;

/// What topics have, each a number or none.
pub type Quotes = [Option<i64>; TOPICS];

/// What a row shows: nothing without content, else a number, or None where it is circular.
pub type Shown = Option<Option<i64>>;

/// What a row has.
#[derive(Clone, Copy, PartialEq, Eq)]
pub enum Shape {
    Absent,
    Number(i64),
    /// A row and a number.
    Plus(usize, i64),
    /// Two rows.
    Sum(usize, usize),
    /// The rows from the first to this one.
    Total(usize),
    /// A second row where the first is greater than the number, else the number.
    Choice(usize, i64, usize),
    /// A topic and a number; -100 stands for a topic that isn't available.
    Quote(usize, i64),
    /// What is called of a row, and a number; -50 stands for an error.
    Call(usize, i64),
    /// What is called of what is called of a row; -50 stands for an error.
    Nested(usize),
    /// What is called of the second row where the first is greater than the number, else the number.
    Branch(usize, i64, usize),
}

/// A call: the row that asks, the site in its formula, and the argument.
#[derive(Clone, Copy, PartialEq, Eq)]
pub struct Asked {
    pub row: usize,
    pub site: u16,
    pub argument: i64,
}

/// The calls for which rows ask.
pub type Asking = [Option<Asked>; ROWS];

/// A handle of a call.
#[derive(Clone, Copy)]
pub struct Ticket {
    pub session: u64,
    pub round: u64,
    pub row: usize,
    pub site: u16,
}

/// What is done.
#[derive(Clone, Copy)]
pub enum Do {
    Set(usize, Shape),
    Clear(usize),
    /// The called function, as an asynchronous one or not.
    Register(bool),
    Begin(BeginKind),
    Settle,
    Cancel,
    Print,
    /// A number for the call of a handle.
    Return(Ticket, i64),
    Listen,
    Events,
    Server(usize),
    /// A topic and a number.
    Publish(usize, i64),
    Notify(usize),
    Throttle(i64),
    /// At a moment, or by force.
    Pull(Option<u64>),
}

/// What is answered.
#[derive(Clone, Copy)]
pub enum Says {
    Full,
    Ok,
    Busy(u64),
    Begun(u64),
    Done(u64, u64),
    Waiting(u64, Asking),
    Code(u16),
    Idle,
    Known,
    NoServer,
    NoListener,
    Nothing,
    Manual,
    Early(u64),
    Pulled(u64),
    Cancelled(u64),
    /// How many recalculations ended and how many were cancelled since they were last fetched.
    Events(usize, usize),
    Shows([Shown; ROWS]),
}

/// Numbers that look like chance, the same ones from the same start.
#[derive(Drop)]
pub struct Dice {
    pub state: u64,
}

impl Dice {
    /// A number below `sides`.
    pub fn roll(&mut self, sides: u64) -> u64
        requires { 0 < sides }
    {
        self.state = self
            .state
            .wrapping_mul(6_364_136_223_846_793_005)
            .wrapping_add(1_442_695_040_888_963_407);
        (self.state >> 33) % sides
    }

    /// A row.
    pub fn row(&mut self) -> usize {
        match self.roll(6) {
            0 => 0,
            1 => 1,
            2 => 2,
            3 => 3,
            4 => 4,
            _ => 5,
        }
    }

    /// A small number.
    pub fn number(&mut self) -> i64 {
        match self.roll(4) {
            0 => -3,
            1 => 0,
            2 => 2,
            _ => 7,
        }
    }

    /// A topic.
    pub fn topic(&mut self) -> usize {
        match self.roll(4) {
            0 => 0,
            1 => 1,
            2 => 2,
            _ => 3,
        }
    }

    /// A server.
    pub fn server(&mut self) -> usize {
        match self.roll(2) {
            0 => 0,
            _ => 1,
        }
    }

    pub fn shape(&mut self) -> Shape {
        match self.roll(12) {
            0 | 1 => Shape::Number(self.number()),
            2 => Shape::Plus(self.row(), self.number()),
            3 => Shape::Sum(self.row(), self.row()),
            4 => Shape::Total(self.row()),
            5 => Shape::Choice(self.row(), self.number(), self.row()),
            6 | 7 => Shape::Quote(self.topic(), self.number()),
            8 | 9 => Shape::Call(self.row(), self.number()),
            10 => Shape::Nested(self.row()),
            _ => Shape::Branch(self.row(), self.number(), self.row()),
        }
    }

    /// An interval between pulls.
    pub fn interval(&mut self) -> i64 {
        match self.roll(5) {
            0 => -1,
            1 => 0,
            2 => 1,
            3 => 2_147_483_647,
            _ => 2_000,
        }
    }

    /// A moment, or force.
    pub fn moment(&mut self) -> Option<u64> {
        match self.roll(7) {
            0 => Some(0),
            1 => Some(1),
            2 => Some(1_999),
            3 => Some(2_000),
            4 => Some(4_001),
            5 => Some(999_999_999_999_999),
            _ => None,
        }
    }

    /// A handle near the one that asks last: of the round or the one before, of this session or another.
    pub fn ticket(&mut self, round: u64) -> Ticket {
        Ticket {
            session: match self.roll(9) {
                0 => 2,
                _ => 1,
            },
            round: match self.roll(6) {
                0 => round.saturating_sub(1),
                _ => round,
            },
            row: self.row(),
            site: match self.roll(3) {
                0 => 2,
                _ => 1,
            },
        }
    }

    /// An edit of the book or of its functions.
    fn edit(&mut self) -> Do {
        match self.roll(8) {
            0 => Do::Clear(self.row()),
            1 => Do::Register(self.roll(4) > 0),
            _ => Do::Set(self.row(), self.shape()),
        }
    }

    /// A step of real-time data.
    fn feed(&mut self) -> Do {
        match self.roll(10) {
            0 => Do::Server(self.server()),
            1..=3 => Do::Publish(self.topic(), self.number()),
            4 | 5 => Do::Notify(self.server()),
            6 => Do::Throttle(self.interval()),
            _ => Do::Pull(self.moment()),
        }
    }

    /// The kind of a recalculation.
    fn kind(&mut self) -> BeginKind {
        match self.roll(5) {
            0 => BeginKind::All,
            1 => BeginKind::Rebuild,
            _ => BeginKind::Dirty,
        }
    }

    /// What is done, where the recalculation of this number was the last one.
    pub fn step(&mut self, round: u64) -> Do {
        match self.roll(40) {
            0..=7 => self.edit(),
            8..=12 => Do::Begin(self.kind()),
            13..=17 => Do::Settle,
            18 => Do::Cancel,
            19 | 20 => Do::Print,
            21 => Do::Listen,
            22 => Do::Events,
            23..=30 => Do::Return(self.ticket(round), self.number()),
            _ => self.feed(),
        }
    }
}
