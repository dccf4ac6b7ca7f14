ghost use Rattle.std.specs.Prelude.{◌≡◌, ◌≢◌, ◌≤◌, ◌⊎◌, ℕ, [], false, None, Some, Err, pos, int_le, IsTrue, IfOk, OnOk, OnErr, IfErr};
ghost use Rattle.rtd_server.specs.Count.{Rose};
ghost use Rattle.rtd_server.specs.Server.{AreNews, GainsDue, KeepsAll, KeepsConnected, KeepsDue, KeepsPublished, Opens, Publishes, PutsConnected, PutsDue, ServerState, value_or_na};

use cell_values::{Memory, Text, Value};

/// A server failed.
#[derive(Clone, Copy, Debug, PartialEq, Eq)]
pub struct Failed;

/// Why a server gives no value.
#[derive(Clone, Copy, Debug, PartialEq, Eq)]
pub enum ServerFault {
    Failed,
    Memory,
}

/// A server of real-time data. It publishes values for strings; a host connects topics, which are strings under an id,
/// and asks for what is new.
pub trait RtdServer {
    // What the server holds.
    ghost state: { Self → ServerState };

    // How often the server has failed.
    ghost faults: { Self → ℕ };

    /// Starts the server. 1 is success, and what is less than 1 is failure.
    fn server_start(&mut self) -> i32
        ensures kept { KeepsAll (state self.old) (state self.new) }
        ensures answer { (result ≡ pos 1)
            ⊎ (IsTrue (int_le result (pos 0)) × Rose (faults self.old) (faults self.new)) }
        ensures count { faults self.old ≤ faults self.new };

    /// Connects a topic, and answers its value at the round's opening.
    fn connect_data(&mut self, id: u64, strings: &[Text]) -> Result<Value, ServerFault>
        requires { (state self.old).connected id ≡ None }
        ensures value { IfOk result (λ value. value
            ≡ value_or_na ((state self.old).opening strings.now)) }
        ensures published { KeepsPublished (state self.old) (state self.new) }
        ensures connected { OnOk result (PutsConnected (state self.old) (state self.new) id
            (Some strings.now)) }
        ensures due { OnOk result (PutsDue (state self.old) (state self.new) id
            ((state self.old).is_fresh strings.now)) }
        ensures kept { OnErr result (KeepsAll (state self.old) (state self.new)) }
        ensures steady { (result ≡ Err ServerFault.Failed)
            ⊎ (faults self.new ≡ faults self.old) }
        ensures failed { result ≡ Err ServerFault.Failed → Rose (faults self.old) (faults self.new) }
        ensures count { faults self.old ≤ faults self.new };

    /// Gives the topics that are due with their published values, by rising id. They are no longer due.
    fn refresh_data(&mut self) -> Result<Vec<(u64, Value)>, ServerFault>
        ensures news { IfOk result (λ news. AreNews (state self.old) news.items) }
        ensures published { KeepsPublished (state self.old) (state self.new) }
        ensures connected { KeepsConnected (state self.old) (state self.new) }
        ensures due { OnOk result ((state self.new).due ≡ []) }
        ensures kept { OnErr result (KeepsDue (state self.old) (state self.new)) }
        ensures steady { (result ≡ Err ServerFault.Failed)
            ⊎ (faults self.new ≡ faults self.old) }
        ensures failed { result ≡ Err ServerFault.Failed → Rose (faults self.old) (faults self.new) }
        ensures count { faults self.old ≤ faults self.new };

    /// Takes a topic out.
    fn disconnect_data(&mut self, id: u64) -> Result<(), Failed>
        ensures published { KeepsPublished (state self.old) (state self.new) }
        ensures connected { OnOk result (PutsConnected (state self.old) (state self.new) id None) }
        ensures due { OnOk result (PutsDue (state self.old) (state self.new) id false) }
        ensures kept { OnErr result (KeepsAll (state self.old) (state self.new)) }
        ensures steady { OnOk result (faults self.new ≡ faults self.old) }
        ensures failed { OnErr result (Rose (faults self.old) (faults self.new)) }
        ensures count { faults self.old ≤ faults self.new };

    /// Whether the server is alive: 1 where it is, and what is less than 1 where it isn't.
    fn heartbeat(&mut self) -> Result<i32, Failed>
        ensures kept { KeepsAll (state self.old) (state self.new) }
        ensures steady { OnOk result (faults self.new ≡ faults self.old) }
        ensures failed { OnErr result (Rose (faults self.old) (faults self.new)) }
        ensures count { faults self.old ≤ faults self.new };

    /// Ends the server.
    fn server_terminate(&mut self) -> Result<(), Failed>
        ensures kept { KeepsAll (state self.old) (state self.new) }
        ensures steady { OnOk result (faults self.new ≡ faults self.old) }
        ensures failed { OnErr result (Rose (faults self.old) (faults self.new)) }
        ensures count { faults self.old ≤ faults self.new };

    /// Opens a round: what is published now is what a topic shows that is connected in it.
    fn open_round(&mut self)
        ensures opened { Opens (state self.old) (state self.new) }
        ensures connected { KeepsConnected (state self.old) (state self.new) }
        ensures due { KeepsDue (state self.old) (state self.new) }
        ensures steady { faults self.new ≡ faults self.old };

    /// Publishes a value for strings. A refusal for want of memory gives both back and changes nothing.
    fn publish(&mut self, strings: Vec<Text>, value: Value) -> Result<(), (Vec<Text>, Value)>
        ensures published { OnOk result (Publishes (state self.old) (state self.new) strings.items
            value) }
        ensures connected { KeepsConnected (state self.old) (state self.new) }
        ensures due { OnOk result (GainsDue (state self.old) (state self.new) strings.items) }
        ensures kept { OnErr result (KeepsAll (state self.old) (state self.new)) }
        ensures returned { IfErr result (λ back. (back.0.items ≡ strings.items)
            × (back.1 ≡ value)) }
        ensures steady { faults self.new ≡ faults self.old };
}
