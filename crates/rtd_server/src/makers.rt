ghost use Rattle.std.specs.Prelude.{◌≡◌, Bool, true, IsTrue, IfOk, refl};
ghost use Rattle.rtd_server.specs.Server.{IsNewServer};

use super::feeds::Feed;
use super::servers::RtdServer;
use cell_values::{Memory, Name};
use std::alloc::Global;

/// Makes a host's servers.
pub trait Maker {
    type Server: RtdServer + Drop;

    // No server of this type ever fails. It is the same for all makers of a type.
    ghost is_steady: { Bool };

    /// A new server of this name.
    fn make(&mut self, alloc: Global, name: &Name) -> Result<Self::Server, Memory>
        ensures new { IfOk result (λ server. IsNewServer (Self.Server.state server)) }
        ensures count { IfOk result (λ server. Self.Server.faults server ≡ 0) };

    // A server of a steady maker counts no failure.
    ghost never_fails: { IsTrue is_steady → (server : Self.Server) → Self.Server.faults server ≡ 0 };
}

/// Makes feeds in memory, which never fail.
#[derive(Clone, Copy, Debug)]
pub struct FeedMaker;

impl Maker for FeedMaker {
    type Server = Feed;

    ghost is_steady = { true };

    ghost never_fails = { λ steady server. refl };

    fn make(&mut self, alloc: Global, _name: &Name) -> Result<Feed, Memory> {
        Ok(Feed::new(alloc))
    }
}
