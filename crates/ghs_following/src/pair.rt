//! Two followers that follow one run.
use crate::follower::Follower;
use ghs_core::net::Net;
use ghs_node::delta::Delta;
use peer_network::event::Event;
use std::alloc::AllocError;

/// Each of two keeps what is its own.
impl<A: Follower, B: Follower> Follower for (A, B) {
    ghost is_of = { λ g es k. A.is_of g es k.0 × B.is_of g es k.1 };

    fn follow(&mut self, net: &Net, event: Event, delta: &Delta) -> Result<(), AllocError> {
        self.0.follow(net, event, delta)?;
        self.1.follow(net, event, delta)?;
        Ok(())
    }

    fn follow_back(&mut self, net: &Net, v: u32, port: u32) -> Result<(), AllocError> {
        self.0.follow_back(net, v, port)?;
        self.1.follow_back(net, v, port)?;
        Ok(())
    }
}
