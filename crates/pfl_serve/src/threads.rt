//! Sessions that are served at the same time, a thread for each.

ghost use Rattle.std.specs.Prelude.{◌≡◌, ◌<◌, ◌≤◌, ◌⊎◌, [], IsTrue, IfOk, IfErr, IfSome, vec_capacity, vec_len};
ghost use Rattle.std.specs.List.{AllByRecursion};
ghost use Rattle.pfl_session.specs.Passes.{IsPassOf};
ghost use Rattle.pfl_serve.specs.Seats.{AreServed, IsServed};
ghost use Rattle.pfl_serve.specs.declared.seat.ServeFault.TheVariants as fault;
ghost use Rattle.pfl_serve.specs.inner.Promises.{seats_of};

use crate::gate::Gate;
use crate::seat::{Seat, ServeFault, Served};
use crate::service::Service;
use crate::serving::Serving;
use pfl_base::{Input, Output};
use pfl_session::{Lab, Which};
use std::alloc::Allocator;
use std::marker::PhantomData;
use std::snapshot::Snapshot;
use std::sync::Wait;
use std::thread;
use std::thread::{Promise, PromisedHandle, Scope, Threads};

/// That a thread serves this seat.
#[derive(Drop)]
struct ServedFrom<J: Which, A: Allocator, I: Input, O: Output, G: Gate> {
    seat: Snapshot<Seat<A, I, O>>,
    of: PhantomData<J>,
    through: PhantomData<G>,
}

impl<J: Which, A: Allocator, I: Input, O: Output, G: Gate> Promise<Served<A, I, O>>
    for ServedFrom<J, A, I, O, G> {
    ghost kept_by = { λ p served. IsServed J.Which O.Output G.heard p.seat.value served };
}

/// The threads of the sessions that have begun.
#[derive(Drop)]
struct Started<J: Which, A: Allocator, I: Input, O: Output, G: Gate> {
    handles: Vec<PromisedHandle<Served<A, I, O>, ServedFrom<J, A, I, O, G>>, A>,
    /// There was no thread for one of the sessions, and so there are fewer threads than seats.
    refused: bool,
}

/// Lists that have room for the threads of some seats, and for what these served.
#[derive(Drop)]
struct Lists<J: Which, A: Allocator, I: Input, O: Output, G: Gate> {
    handles: Vec<PromisedHandle<Served<A, I, O>, ServedFrom<J, A, I, O, G>>, A>,
    all: Vec<Served<A, I, O>, A>,
}

/// Joins all threads, into a list that has room for what they served.
fn join_all<J: Which, A: Allocator, I: Input + Drop, O: Output + Drop, G: Gate, R: Threads>(
    rt: &R,
    handles: Vec<PromisedHandle<Served<A, I, O>, ServedFrom<J, A, I, O, G>>, A>,
    mut all: Vec<Served<A, I, O>, A>,
) -> Vec<Served<A, I, O>, A>
    requires none { all.items ≡ [] }
    requires room { vec_len handles ≤ vec_capacity all }
    ensures { AreServed J.Which O.Output G.heard (seats_of handles.items) result.items }
{
    for handle in handles {
        all.push_reserved(handle.join(rt));
    }
    all
}

/// Serves one seat, and has the gate know that its session has ended.
fn serve_seat<J: Which, A: Allocator + Copy, I: Input, O: Output, G: Gate, R: Wait>(
    serving: &Serving<'_, J, A, A, G, R>,
    mut seat: Seat<A, I, O>,
) -> Served<A, I, O>
    requires lab { IsPassOf J.publisher J.tallies seat.pass }
    ensures { IsServed J.Which O.Output G.heard seat result }
{
    let result = serving.serve(&mut seat);
    serving
        .service
        .gate
        .end(serving.service.rt, seat.pass.session());
    Served { seat, result }
}

impl<
    J: Which + Send + Sync,
    A: Allocator + Copy + Send + Sync,
    G: Gate + Sync,
    R: Threads + Wait + Sync,
> Serving<'_, J, A, A, G, R> {
    /// Starts a thread for one seat. Where there is none the gate knows that the session has ended, so that no other waits for it.
    fn start<'s, E, I: Input + Send + Drop + 's, O: Output + Send + Drop + 's>(
        &'s self,
        scope: &Scope<'s, E>,
        seat: Seat<A, I, O>,
    ) -> Option<PromisedHandle<Served<A, I, O>, ServedFrom<J, A, I, O, G>>>
        requires lab { IsPassOf J.publisher J.tallies seat.pass }
        ensures promise { IfSome result (λ h. h.promise.seat.value ≡ seat) }
    {
        let session = seat.pass.session();
        let promise = ServedFrom {
            seat: Snapshot::of(&seat),
            of: PhantomData,
            through: PhantomData,
        };
        match scope.spawn_with(promise, move || serve_seat(self, seat)) {
            Ok(handle) => Some(handle),
            Err(_) => {
                self.service.gate.end(self.service.rt, session);
                None
            }
        }
    }

    /// Starts a thread for each seat, as long as there are threads.
    fn start_all<'s, E, I: Input + Send + Drop + 's, O: Output + Send + Drop + 's>(
        &'s self,
        scope: &Scope<'s, E>,
        seats: Vec<Seat<A, I, O>, A>,
        mut handles: Vec<PromisedHandle<Served<A, I, O>, ServedFrom<J, A, I, O, G>>, A>,
    ) -> Started<J, A, I, O, G>
        requires lab { AllByRecursion (λ s. IsPassOf J.publisher J.tallies s.pass) seats.items }
        requires none { handles.items ≡ [] }
        requires room { vec_len seats ≤ vec_capacity handles }
        ensures started { IsTrue result.refused ⊎ (seats_of result.handles.items ≡ seats.items) }
        ensures refused { IsTrue result.refused → vec_len result.handles < vec_len seats }
        ensures few { vec_len result.handles ≤ vec_len seats }
    {
        let mut refused = false;
        for seat in seats {
            if refused {
                self.service.gate.end(self.service.rt, seat.pass.session());
                continue;
            }
            match self.start(scope, seat) {
                Some(handle) => handles.push_reserved(handle),
                None => refused = true,
            }
        }
        Started { handles, refused }
    }

    /// Serves all seats in threads of a scope, with lists that have room for them.
    fn serve_within<'s, E, I: Input + Send + Drop + 's, O: Output + Send + Drop + 's>(
        &'s self,
        scope: &Scope<'s, E>,
        seats: Vec<Seat<A, I, O>, A>,
        lists: Lists<J, A, I, O, G>,
    ) -> Result<Vec<Served<A, I, O>, A>, ServeFault>
        requires lab { AllByRecursion (λ s. IsPassOf J.publisher J.tallies s.pass) seats.items }
        requires none { (lists.handles.items ≡ []) × (lists.all.items ≡ []) }
        requires room { (vec_len seats ≤ vec_capacity lists.handles) × (vec_len seats ≤ vec_capacity lists.all) }
        ensures served { IfOk result (λ all. AreServed J.Which O.Output G.heard seats.items all.items) }
        ensures refused { IfErr result (λ why. why ≡ fault.NoThread) }
    {
        let Lists { handles, all } = lists;
        let started = self.start_all(scope, seats, handles);
        let all = join_all(self.service.rt, started.handles, all);
        if started.refused {
            Err(ServeFault::NoThread)
        } else {
            Ok(all)
        }
    }

    /// Serves all seats in threads of a new scope, with lists that have room for them.
    fn serve_in_threads<'s, I: Input + Send + Drop + 's, O: Output + Send + Drop + 's>(
        &'s self,
        seats: Vec<Seat<A, I, O>, A>,
        lists: Lists<J, A, I, O, G>,
    ) -> Result<Vec<Served<A, I, O>, A>, ServeFault>
        requires lab { AllByRecursion (λ s. IsPassOf J.publisher J.tallies s.pass) seats.items }
        requires none { (lists.handles.items ≡ []) × (lists.all.items ≡ []) }
        requires room { (vec_len seats ≤ vec_capacity lists.handles) × (vec_len seats ≤ vec_capacity lists.all) }
        ensures served { IfOk result (λ all. AreServed J.Which O.Output G.heard seats.items all.items) }
        ensures refused { IfErr result (λ why. why ≡ fault.NoThread) }
    {
        thread::scope(
            thread::scope_env(),
            self.service.rt,
            move |scope| -> Result<Vec<Served<A, I, O>, A>, ServeFault>
                requires lab { AllByRecursion (λ s. IsPassOf J.publisher J.tallies s.pass) seats.items }
                requires none { (lists.handles.items ≡ []) × (lists.all.items ≡ []) }
                requires room { (vec_len seats ≤ vec_capacity lists.handles) × (vec_len seats ≤ vec_capacity lists.all) }
                ensures served { IfOk result (λ all. AreServed J.Which O.Output G.heard seats.items all.items) }
                ensures refused { IfErr result (λ why. why ≡ fault.NoThread) }
            { self.serve_within(scope, seats, lists) },
        )
    }
}

/// An empty list with room for `count` elements.
pub(crate) fn list_for<T, A: Allocator>(alloc: A, count: usize) -> Result<Vec<T, A>, ServeFault>
    ensures none { IfOk result (λ list. list.items ≡ []) }
    ensures room { IfOk result (λ list. count ≤ vec_capacity list) }
    ensures fault { IfErr result (λ why. why ≡ fault.NoMemory) }
{
    match Vec::with_capacity(alloc, count) {
        Ok(list) => Ok(list),
        Err(_) => Err(ServeFault::NoMemory),
    }
}

impl<A: Allocator + Copy + Send + Sync, G: Gate + Sync, R: Threads + Wait + Sync> Service<
    '_,
    A,
    G,
    R,
> {
    /// Serves all seats of a lab at the same time, one thread each, and returns when each session has ended: the seats in the same
    /// order, with how their sessions ended. Where there is no thread for one of them, or no memory for the lists, no seat comes back.
    pub fn serve_all<J: Which + Send + Sync, I: Input + Send + Drop, O: Output + Send + Drop>(
        &self,
        lab: &Lab<J, A>,
        seats: Vec<Seat<A, I, O>, A>,
    ) -> Result<Vec<Served<A, I, O>, A>, ServeFault>
        requires lab { AllByRecursion (λ s. IsPassOf J.publisher J.tallies s.pass) seats.items }
        ensures served { IfOk result (λ all. AreServed J.Which O.Output G.heard seats.items all.items) }
    {
        let lists = Lists {
            handles: list_for(self.alloc, seats.len())?,
            all: list_for(self.alloc, seats.len())?,
        };
        let serving = Serving { service: self, lab };
        serving.serve_in_threads(seats, lists)
    }
}
