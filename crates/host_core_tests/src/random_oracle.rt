//! The answers to a random list of commands, by evaluation from nothing.

use super::random_rows::{
    Answers, World, asking, count, is_any, is_caller, is_formula, reads, sheet, stale,
};
use super::random_steps::{Asking, Do, ROWS, Says, Shape, Shown, Ticket};
use super::random_topics::{Topics, has_server};
use workbook::BeginKind;

/// What the answers go by.
#[derive(Drop)]
pub struct Oracle {
    shapes: [Shape; ROWS],
    changed: [bool; ROWS],
    /// The shapes at the last completed recalculation.
    done: [Shape; ROWS],
    shown: [Shown; ROWS],
    topics: Topics,
    /// Whether the called function is registered as an asynchronous one.
    calls: bool,
    accepted: [Answers; ROWS],
    listens: bool,
    ended: usize,
    cancelled: usize,
    round: u64,
    runs: bool,
    /// How many more commands are answered.
    room: u64,
}

impl Oracle {
    pub fn new(room: u64) -> Oracle {
        Oracle {
            shapes: [Shape::Absent; ROWS],
            changed: [false; ROWS],
            done: [Shape::Absent; ROWS],
            shown: [None; ROWS],
            topics: Topics::new(),
            calls: false,
            accepted: [[None; 2]; ROWS],
            listens: false,
            ended: 0,
            cancelled: 0,
            round: 0,
            runs: false,
            room,
        }
    }

    /// The number of the last recalculation.
    pub fn round(&self) -> u64 {
        self.round
    }

    /// The answer to what is done.
    pub fn answer(&mut self, what: Do) -> Says {
        if self.room == 0 {
            return Says::Full;
        }
        self.room = self.room.wrapping_sub(1);
        match what {
            Do::Print => Says::Shows(self.shown),
            Do::Settle => self.settle(),
            Do::Cancel => self.cancel(),
            Do::Return(ticket, number) => self.take(ticket, number),
            Do::Publish(topic, number) => self.topics.publish(topic, number),
            Do::Notify(server) => self.topics.notify(server),
            Do::Listen => self.listen(),
            Do::Events => self.fetch(),
            _ if self.runs => Says::Busy(self.round),
            Do::Set(row, shape) => self.edit(row, shape),
            Do::Clear(row) => self.edit(row, Shape::Absent),
            Do::Register(calls) => self.register(calls),
            Do::Begin(kind) => self.begin(kind),
            Do::Server(server) => self.server(server),
            Do::Throttle(interval) => {
                self.topics.interval = interval;
                Says::Ok
            }
            Do::Pull(moment) => self.pull(moment),
        }
    }

    fn edit(&mut self, row: usize, shape: Shape) -> Says {
        if let Some(old) = self.shapes.get_mut(row) {
            *old = shape;
        }
        if let Some(flag) = self.changed.get_mut(row) {
            *flag = true;
        }
        Says::Ok
    }

    fn register(&mut self, calls: bool) -> Says {
        self.calls = calls;
        for (flag, shape) in self.changed.iter_mut().zip(&self.shapes) {
            *flag = *flag || is_caller(*shape);
        }
        Says::Ok
    }

    fn server(&mut self, server: usize) -> Says {
        if has_server(&self.topics.known, server) {
            return Says::Known;
        }
        if let Some(flag) = self.topics.known.get_mut(server) {
            *flag = true;
        }
        for (flag, shape) in self.changed.iter_mut().zip(&self.shapes) {
            *flag = *flag || matches!(shape, Shape::Quote(..));
        }
        Says::Ok
    }

    fn pull(&mut self, moment: Option<u64>) -> Says {
        if let Some(says) = self.topics.refusal(moment) {
            return says;
        }
        if moment.is_some() {
            self.topics.last = moment;
        }
        let changes = self.topics.pull();
        let mut count = 0_u64;
        for (topic, change) in changes.iter().enumerate() {
            if *change {
                count = count.wrapping_add(1);
                self.change_readers(topic);
            }
        }
        Says::Pulled(count)
    }

    /// The rows that read a topic in the last completed recalculation are changed.
    fn change_readers(&mut self, topic: usize) {
        for (flag, shape) in self.changed.iter_mut().zip(&self.done) {
            *flag = *flag || reads(*shape, topic);
        }
    }

    fn begin(&mut self, kind: BeginKind) -> Says {
        if kind != BeginKind::Dirty {
            for (flag, shape) in self.changed.iter_mut().zip(&self.shapes) {
                *flag = *flag || is_formula(*shape);
            }
        }
        self.drop_accepted();
        self.topics.opening = self.topics.published;
        self.round = self.round.wrapping_add(1);
        self.runs = true;
        Says::Begun(self.round)
    }

    /// Drops the accepted values of the rows that are stale or have no formula.
    fn drop_accepted(&mut self) {
        let stale = stale(&self.shapes, &self.changed);
        for ((accepted, shape), is_stale) in self
            .accepted
            .iter_mut()
            .zip(&self.shapes)
            .zip(&stale)
        {
            if *is_stale || !is_formula(*shape) {
                *accepted = [None; 2];
            }
        }
    }

    /// What the rows are evaluated over.
    fn world(&self) -> World {
        World {
            quotes: self.topics.snapshot(),
            calls: self.calls,
            accepted: self.accepted,
        }
    }

    /// The calls for which rows ask.
    fn asking(&self) -> Asking {
        if !self.runs {
            return [None; ROWS];
        }
        let stale = stale(&self.shapes, &self.changed);
        let world = self.world();
        asking(&self.shapes, &stale, &world)
    }

    /// Whether the call of a handle is open.
    fn is_open(&self, ticket: Ticket) -> bool {
        let asking = self.asking();
        match asking.get(ticket.row) {
            Some(Some(asked)) => {
                ticket.session == 1 && ticket.round == self.round && ticket.site == asked.site
            }
            _ => false,
        }
    }

    fn take(&mut self, ticket: Ticket, number: i64) -> Says {
        if !self.is_open(ticket) {
            return Says::Code(256);
        }
        if let Some(accepted) = self.accepted.get_mut(ticket.row) {
            match ticket.site {
                1 => accepted[0] = Some(number),
                _ => accepted[1] = Some(number),
            }
        }
        Says::Code(0)
    }

    fn settle(&mut self) -> Says {
        if !self.runs {
            return Says::Idle;
        }
        let asking = self.asking();
        if is_any(&asking) {
            return Says::Waiting(self.round, asking);
        }
        let stale = stale(&self.shapes, &self.changed);
        let world = self.world();
        self.shown = sheet(&self.shapes, &world);
        self.topics.take_read(&self.shapes);
        self.done = self.shapes;
        self.changed = [false; ROWS];
        self.runs = false;
        self.ended = self.ended.wrapping_add(1);
        Says::Done(self.round, count(&stale))
    }

    fn cancel(&mut self) -> Says {
        if !self.runs {
            return Says::Idle;
        }
        self.runs = false;
        self.cancelled = self.cancelled.wrapping_add(1);
        Says::Cancelled(self.round)
    }

    fn listen(&mut self) -> Says {
        if self.listens {
            return Says::Known;
        }
        self.listens = true;
        self.ended = 0;
        self.cancelled = 0;
        Says::Ok
    }

    fn fetch(&mut self) -> Says {
        if !self.listens {
            return Says::NoListener;
        }
        let says = Says::Events(self.ended, self.cancelled);
        self.ended = 0;
        self.cancelled = 0;
        says
    }
}
