//! Whether a run has ended.
ghost use Rattle.std.specs.Prelude.{◌≡◌, ◌↔◌, [], IsTrue};
ghost use Rattle.peer_machine.specs.Ends.{AllAwake};
ghost use Rattle.peer_net.specs.NetState.{network, net_of};
ghost use Rattle.peer_runs.specs.WorldState.{ready_events};

use peer_machine::ends::Ends;
use peer_net::net::Net;
use peer_runs::world::World;

/// Whether the run of a world has ended. That is so just where no event may happen any more. O(1).
///
/// ```text
/// if !ended(&world) {
///     let event = world.ready_at(0);                        // where a run goes on, an event may happen
/// }
/// ```
pub fn ended<P: Ends>(world: &World<P>) -> bool
    ensures ended { IsTrue result ↔ P.has_ended world.now.net.graph (net_of P.rules world.now.net) }
    ensures ready { IsTrue result ↔ (ready_events P.rules world.now ≡ []) }
{
    let _ = world.net().trace();
    world.ready_count() == 0
}

/// Whether the run has ended. O(N).
pub fn net_ended<P: Ends>(net: &Net<P>) -> bool
    ensures { IsTrue result ↔ P.has_ended net.now.graph (net_of P.rules net.now) }
{
    let _ = net.trace();
    if !net.silent() {
        return false;
    }
    all_awake(net)
}

/// Whether nobody sleeps.
fn all_awake<P: Ends>(net: &Net<P>) -> bool
    ensures { IsTrue result ↔ AllAwake P.rules (network net.now) (net_of P.rules net.now) }
{
    for v in 1..net.graph().nodes() + 1 {
        if P::is_asleep(net.node(v)) {
            return false;
        }
    }
    true
}
