//! What sessions are served with.

ghost use Rattle.pfl_session.specs.Passes.{IsPassOf};
ghost use Rattle.pfl_serve.specs.Seats.{IsServed};

use crate::gate::Gate;
use crate::seat::{Seat, Served};
use crate::serving::Serving;
use pfl_base::{Input, Output};
use pfl_session::{Lab, Which};
use std::alloc::Allocator;
use std::sync::Wait;

/// What sessions are served with: the runtime, the allocator, and the gate that their calls go through.
#[derive(Drop)]
pub struct Service<'a, B: Allocator, G: Gate, R> {
    pub rt: &'a R,
    pub alloc: B,
    pub gate: &'a G,
}

impl<'a, B: Allocator + Copy, G: Gate, R: Wait> Service<'a, B, G, R> {
    /// Serves a session of the lab by the lines that its reader has left, one after another. The reply to `view` is a revision,
    /// to `setup` the lines of the setup, to `follow` the entries of the journal until the next line comes, and to a command its
    /// reply, or `full` where the journal is full. After a fault the calls that were made stand, and the seat can be served again.
    pub fn serve_session<J: Which, A: Allocator + Copy, I: Input, O: Output>(
        &self,
        lab: &Lab<J, A>,
        mut seat: Seat<A, I, O>,
    ) -> Served<A, I, O>
        requires lab { IsPassOf J.publisher J.tallies seat.pass }
        ensures { IsServed J.Which O.Output G.heard seat result }
    {
        let serving = Serving { service: self, lab };
        let result = serving.serve(&mut seat);
        Served { seat, result }
    }
}
