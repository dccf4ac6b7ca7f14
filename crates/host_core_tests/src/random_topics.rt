//! Topics and servers, as a random list of commands is answered by them.

use super::random_rows::{quote_of, reads_one};
use super::random_steps::{Quotes, ROWS, Says, Shape, TOPICS};

/// The server of a topic.
pub fn server_of(topic: usize) -> usize {
    match topic {
        0 | 1 => 0,
        _ => 1,
    }
}

/// Whether a server has this.
pub fn has_server(flags: &[bool; 2], server: usize) -> bool {
    match flags.get(server) {
        Some(flag) => *flag,
        None => false,
    }
}

/// Topics and servers, as the answers go by them.
#[derive(Drop)]
pub struct Topics {
    pub known: [bool; 2],
    pub flags: [bool; 2],
    pub published: Quotes,
    pub opening: Quotes,
    pub connected: [bool; TOPICS],
    pub taken: Quotes,
    pub interval: i64,
    pub last: Option<u64>,
}

impl Topics {
    pub fn new() -> Topics {
        Topics {
            known: [false; 2],
            flags: [false; 2],
            published: [None; TOPICS],
            opening: [None; TOPICS],
            connected: [false; TOPICS],
            taken: [None; TOPICS],
            interval: 2_000,
            last: None,
        }
    }

    /// What the topics have in the recalculation that runs.
    pub fn snapshot(&self) -> Quotes {
        let mut quotes = self.opening;
        for (quote, (connected, taken)) in quotes
            .iter_mut()
            .zip(self.connected.iter().zip(&self.taken))
        {
            if *connected {
                *quote = *taken;
            }
        }
        quotes
    }

    /// Takes the topics that these rows read.
    pub fn take_read(&mut self, shapes: &[Shape; ROWS]) {
        self.taken = self.snapshot();
        for (topic, connected) in self.connected.iter_mut().enumerate() {
            *connected = reads_one(shapes, topic) && has_server(&self.known, server_of(topic));
        }
    }

    pub fn publish(&mut self, topic: usize, number: i64) -> Says {
        if !has_server(&self.known, server_of(topic)) {
            return Says::NoServer;
        }
        if let Some(place) = self.published.get_mut(topic) {
            *place = Some(number);
        }
        Says::Ok
    }

    pub fn notify(&mut self, server: usize) -> Says {
        if !has_server(&self.known, server) {
            return Says::NoServer;
        }
        if let Some(flag) = self.flags.get_mut(server) {
            *flag = true;
        }
        Says::Ok
    }

    /// Why a pull isn't due, if it isn't.
    pub fn refusal(&self, moment: Option<u64>) -> Option<Says> {
        if !self.flags[0] && !self.flags[1] {
            return Some(Says::Nothing);
        }
        let moment = moment?;
        let Ok(interval) = u64::try_from(self.interval) else {
            return Some(Says::Manual);
        };
        let due = self.last?.wrapping_add(interval);
        if interval > 0 && moment < due {
            return Some(Says::Early(due.wrapping_sub(moment)));
        }
        None
    }

    /// Takes what flagged servers published: the topics that change.
    pub fn pull(&mut self) -> [bool; TOPICS] {
        let mut changes = [false; TOPICS];
        for (topic, change) in changes.iter_mut().enumerate() {
            let published = quote_of(&self.published, topic);
            if has_server(&self.flags, server_of(topic))
                && published.is_some()
                && let Some(taken) = self.taken.get_mut(topic)
            {
                *change = *taken != published;
                *taken = published;
            }
        }
        for (change, connected) in changes.iter_mut().zip(&self.connected) {
            *change = *change && *connected;
        }
        self.flags = [false; 2];
        changes
    }
}
