use super::commands::Command;

/// An entry of a host's history: an answered command, and the number of the actor that gave it.
#[derive(Drop)]
pub struct Entry {
    pub actor: u32,
    pub command: Command,
}
