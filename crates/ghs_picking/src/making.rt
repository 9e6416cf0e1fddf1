//! Events that happen in a world and are followed.
ghost use Rattle.ghs_core.specs.NetState.{network};
ghost use Rattle.ghs_core.specs.PutBack.{IsPutBack};
ghost use Rattle.ghs_world.specs.Ready.{is_ready};
ghost use Rattle.ghs_world.specs.Steps.{IsSameWorld, Makes};
ghost use Rattle.ghs_world.specs.WorldState.{has_turn};
ghost use Rattle.peer_index.specs.Places.{IsPlaced};
ghost use Rattle.std.specs.Prelude.{OnErr, OnOk, true, ◌≡◌};

use ghs_following::follower::Follower;
use ghs_world::world::World;
use peer_index::placed::Placed;
use peer_network::event::Event;
use std::alloc::{AllocError, Global};

/// A placed event happens, and is followed; nothing is looked up to come to its queue. A refusal leaves the world; what is
/// kept is then of no use.
pub(crate) fn make<F: Follower>(
    alloc: Global,
    world: &mut World,
    kept: &mut F,
    placed: Placed,
) -> Result<(), AllocError>
    requires placed { IsPlaced (network world.old.net) placed }
    requires ready { is_ready world.old placed.event ≡ true }
    requires turn { has_turn world.old ≡ true }
    requires kept { F.is_of world.old.net.graph world.old.net.trace kept.old }
    ensures made { OnOk result (Makes world.old placed.event world.new) }
    ensures kept { OnOk result (F.is_of world.new.net.graph world.new.net.trace kept.new) }
    ensures err { OnErr result (IsSameWorld world.old world.new) }
{
    if let Event::Take(v, port) = placed.event {
        let net = world.net();
        if net.waits_from(net.start_of(placed), v, port) {
            return put_back(alloc, world, kept, placed, v, port);
        }
    }
    react_to(alloc, world, kept, placed)
}

/// The Take of a message that its node only puts back happens.
fn put_back<F: Follower>(
    alloc: Global,
    world: &mut World,
    kept: &mut F,
    placed: Placed,
    v: u32,
    port: u32,
) -> Result<(), AllocError>
    requires event { placed.event ≡ Event.Take v port }
    requires placed { IsPlaced (network world.old.net) placed }
    requires ready { is_ready world.old placed.event ≡ true }
    requires turn { has_turn world.old ≡ true }
    requires back { IsPutBack world.old.net v port }
    requires kept { F.is_of world.old.net.graph world.old.net.trace kept.old }
    ensures made { OnOk result (Makes world.old placed.event world.new) }
    ensures kept { OnOk result (F.is_of world.new.net.graph world.new.net.trace kept.new) }
    ensures err { OnErr result (IsSameWorld world.old world.new) }
{
    let _ = world.turns();
    kept.follow_back(world.net(), v, port)?;
    world.make_placed(alloc, placed)?;
    Ok(())
}

/// A placed event happens to which its node reacts.
fn react_to<F: Follower>(
    alloc: Global,
    world: &mut World,
    kept: &mut F,
    placed: Placed,
) -> Result<(), AllocError>
    requires placed { IsPlaced (network world.old.net) placed }
    requires ready { is_ready world.old placed.event ≡ true }
    requires turn { has_turn world.old ≡ true }
    requires kept { F.is_of world.old.net.graph world.old.net.trace kept.old }
    ensures made { OnOk result (Makes world.old placed.event world.new) }
    ensures kept { OnOk result (F.is_of world.new.net.graph world.new.net.trace kept.new) }
    ensures err { OnErr result (IsSameWorld world.old world.new) }
{
    let _ = world.turns();
    let delta = world.answer_placed(alloc, placed)?;
    kept.follow(world.net(), placed.event, &delta)?;
    world.make_answered_placed(placed, &delta)?;
    Ok(())
}
