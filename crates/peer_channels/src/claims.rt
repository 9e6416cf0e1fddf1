//! Room for what a node sends.
ghost use Rattle.std.specs.Prelude.{◌≡◌, ℕ, ◌<◌, ◌≤◌, length, slice_index, slice_index_or, OnOk, OnErr};
ghost use Rattle.std.specs.List.{All};
ghost use Rattle.peer_channels.specs.Queue.{no_queue};
ghost use Rattle.peer_channels.specs.Kept.{ClaimsOnly, KeepsEach, HasRoomAt, count_on, places_from, places_in, queues_in};

use crate::queue::Queue;
use std::alloc::{AllocError, Global};

/// Makes room at the far ends of the ports of a node, whose queues begin at `start`, for what goes out on them.
pub fn make_room<M: Drop>(
    alloc: Global,
    start: usize,
    queues: &mut [Queue<M>],
    claims: &mut [usize],
    sends: &[(u32, M)],
) -> Result<(), AllocError>
    requires ports { All (λ (s : ℕ × M). s.0 < length (places_from start (length claims.old) queues.old)) sends.now }
    requires among { All (λ i. i < length queues.old) (places_from start (length claims.old) queues.old) }
    requires unclaimed { (k : ℕ) → slice_index claims.old k ≡ 0 }
    ensures kept { KeepsEach (queues_in queues.old) (queues_in queues.new) }
    ensures places { places_in queues.new ≡ places_in queues.old }
    ensures room { OnOk result (HasRoomAt (places_from start (length claims.old) queues.old) sends.now (queues_in queues.new)) }
    ensures full { OnErr result (HasRoomAt (places_from start (length claims.old) queues.old) sends.now (queues_in queues.old) → ⊥) }
    ensures unclaimed { (k : ℕ) → slice_index claims.new k ≡ 0 }
{
    let granted = claim(alloc, start, queues, claims, sends);
    unclaim(claims, sends);
    granted
}

/// The claims say afterwards, for each port, how many messages have been seen to go out on it.
fn claim<M: Drop>(
    alloc: Global,
    start: usize,
    queues: &mut [Queue<M>],
    claims: &mut [usize],
    sends: &[(u32, M)],
) -> Result<(), AllocError>
    requires ports { All (λ (s : ℕ × M). s.0 < length (places_from start (length claims.old) queues.old)) sends.now }
    requires among { All (λ i. i < length queues.old) (places_from start (length claims.old) queues.old) }
    requires unclaimed { (k : ℕ) → slice_index claims.old k ≡ 0 }
    ensures kept { KeepsEach (queues_in queues.old) (queues_in queues.new) }
    ensures places { places_in queues.new ≡ places_in queues.old }
    ensures room { OnOk result (HasRoomAt (places_from start (length claims.old) queues.old) sends.now (queues_in queues.new)) }
    ensures full { OnErr result (HasRoomAt (places_from start (length claims.old) queues.old) sends.now (queues_in queues.old) → ⊥) }
    ensures claims { ClaimsOnly sends.now claims.new }
{
    for (port, _) in sends {
        let at = *port as usize;
        claims[at] += 1;
        let far = queues[start + at].far() as usize;
        queues[far].reserve(alloc, claims[at])?;
    }
    Ok(())
}

/// Takes the claims back.
fn unclaim<M: Drop>(claims: &mut [usize], sends: &[(u32, M)])
    requires ports { All (λ (s : ℕ × M). s.0 < length claims.old) sends.now }
    requires only { ClaimsOnly sends.now claims.old }
    ensures { (k : ℕ) → slice_index claims.new k ≡ 0 }
{
    for (port, _) in sends {
        claims[*port as usize] = 0;
    }
}
