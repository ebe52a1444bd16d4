//! Sessions that are served, and the lab that they leave.

ghost use Rattle.std.specs.Prelude.{◌≡◌, ◌≤◌, [], map, vec_len, vec_capacity, IfOk};
ghost use Rattle.std.specs.List.{AllByRecursion};
ghost use Rattle.pfl_session.specs.Passes.{IsPassOf};
ghost use Rattle.pfl_serve.specs.Services.{ended_seat, pass_of, IsService};

use crate::gate::Gate;
use crate::seat::{Seat, ServeFault, Served};
use crate::service::Service;
use crate::threads::list_for;
use pfl_base::{Input, Output};
use pfl_script::{Ended, EngineFault, LineReader};
use pfl_session::{Closed, Lab, Pass, Which};
use std::alloc::Allocator;
use std::sync::Wait;
use std::thread::Threads;

/// What is left of a seat after its session, when the lab has taken the pass back.
#[derive(Drop)]
pub struct EndedSeat<I: Input, O: Output> {
    pub reader: LineReader<I>,
    pub writer: O,
    pub result: Result<Ended, EngineFault>,
}

/// What is left when all sessions have been served: the lab, closed, and what is left of each seat, in its place.
#[derive(Drop)]
pub struct Closing<A: Allocator, I: Input, O: Output> {
    pub closed: Closed<A>,
    pub ended: Vec<EndedSeat<I, O>, A>,
}

/// Takes the passes out of the seats, into lists that have room.
fn take_passes<A: Allocator, I: Input + Drop, O: Output + Drop>(
    served: Vec<Served<A, I, O>, A>,
    mut passes: Vec<Pass<A>, A>,
    mut ended: Vec<EndedSeat<I, O>, A>,
) -> (Vec<Pass<A>, A>, Vec<EndedSeat<I, O>, A>)
    requires none { (passes.items ≡ []) × (ended.items ≡ []) }
    requires room { (vec_len served ≤ vec_capacity passes) × (vec_len served ≤ vec_capacity ended) }
    ensures passes { result.0.items ≡ map pass_of served.items }
    ensures ended { result.1.items ≡ map ended_seat served.items }
{
    for one in served {
        let Served { seat, result } = one;
        let Seat {
            pass,
            reader,
            writer,
        } = seat;
        passes.push_reserved(pass);
        ended.push_reserved(EndedSeat {
            reader,
            writer,
            result,
        });
    }
    (passes, ended)
}

impl<A: Allocator + Copy + Send + Sync, G: Gate + Sync, R: Threads + Wait + Sync> Service<
    '_,
    A,
    G,
    R,
> {
    /// Serves all seats at the same time, one thread each, and closes the lab with their passes when each session has ended. Where
    /// there is no memory for the lists, no session begins; where there is no thread for one of them, those that began have ended.
    /// The lab is then gone, and so are the seats.
    pub fn serve_and_close<J: Which + Send + Sync, I: Input + Send + Drop, O: Output + Send + Drop>(
        &self,
        lab: Lab<J, A>,
        seats: Vec<Seat<A, I, O>, A>,
    ) -> Result<Closing<A, I, O>, ServeFault>
        requires lab { AllByRecursion (λ s. IsPassOf J.publisher J.tallies s.pass) seats.items }
        ensures service { IfOk result (λ s. IsService J.Which O.Output G.heard seats.items s.closed.timeline s.closed.journal.items s.ended.items) }
    {
        let passes = list_for(self.alloc, seats.len())?;
        let ended = list_for(self.alloc, seats.len())?;
        let served = self.serve_all(&lab, seats)?;
        let (passes, ended) = take_passes(served, passes, ended);
        Ok(Closing {
            closed: lab.close(passes),
            ended,
        })
    }
}
