//! The first words of lines.

ghost use Rattle.std.specs.Prelude.{◌≡◌};
ghost use Rattle.session_script.specs.Script.{verb_of, verb_said, verb_text};

use super::faults::BadLine;

/// What a line begins with.
#[derive(Clone, Copy, Debug, PartialEq, Eq)]
pub enum Verb {
    Set,
    Clear,
    Register,
    Server,
    Publish,
    Notify,
    Throttle,
    Pull,
    Begin,
    Settle,
    Cancel,
    Calc,
    Return,
    Print,
    Listen,
    Events,
}

impl Verb {
    /// The word.
    pub fn text(self) -> &'static str
        ensures { result.now ≡ verb_text self }
    {
        match self {
            Verb::Set => "set",
            Verb::Clear => "clear",
            Verb::Register => "register",
            Verb::Server => "server",
            Verb::Publish => "publish",
            Verb::Notify => "notify",
            Verb::Throttle => "throttle",
            Verb::Pull => "pull",
            Verb::Begin => "begin",
            Verb::Settle => "settle",
            Verb::Cancel => "cancel",
            Verb::Calc => "calc",
            Verb::Return => "return",
            Verb::Print => "print",
            Verb::Listen => "listen",
            Verb::Events => "events",
        }
    }
}

/// What a line of this first word begins with.
#[tactic(auto, unfolding(crate::specs::Script::verb_said))]
pub fn read_verb(word: &str) -> Result<Verb, BadLine>
    ensures { result ≡ verb_said word.now }
{
    match find_verb(word) {
        Some(verb) => Ok(verb),
        None => Err(BadLine::Word),
    }
}

/// The one of this word.
fn find_verb(word: &str) -> Option<Verb>
    ensures { result ≡ verb_of word.now }
{
    let verbs = [
        Verb::Set,
        Verb::Clear,
        Verb::Register,
        Verb::Server,
        Verb::Publish,
        Verb::Notify,
        Verb::Throttle,
        Verb::Pull,
        Verb::Begin,
        Verb::Settle,
        Verb::Cancel,
        Verb::Calc,
        Verb::Return,
        Verb::Print,
        Verb::Listen,
        Verb::Events,
    ];
    verbs.iter().copied().find(|verb| word == verb.text())
}
