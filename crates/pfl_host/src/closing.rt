//! The outcome of sessions that are served.

ghost use Rattle.std.specs.Prelude.{◌≡◌, ◌+◌, ◌≤◌, ◌⊎◌, [], length, map, vec_capacity, IfOk, IfErr};
ghost use Rattle.std.specs.List.{AllByRecursion};
ghost use Rattle.pfl_serve.specs.session.Passes.{IsPassOf};
ghost use Rattle.pfl_serve.specs.Services.{IsService};
ghost use Rattle.pfl_run.specs.declared.fault.RunFault.TheVariants as fault;
ghost use Rattle.pfl_host.specs.Reports.{fault_in, first_fault, first_of};
ghost use Rattle.pfl_host.specs.Servers.{of_serve, AreUnfailed, CameBack, CameBackAll, ServesAll};

use crate::lobby::Lobby;
use crate::seats::seats;
use crate::server::Server;
use pfl_base::{Input, Output};
use pfl_doors::{Doors, Screened, Sides};
use pfl_run::{Ended, EngineFault, RunFault};
use pfl_serve::{Closing, EndedSeat, Gate, Lab, Opened, Seat, ServeFault, Service, Which};
use std::alloc::Global;
use std::sync::Wait;
use std::thread::Threads;

/// How the sessions of a lab ended.
#[derive(Clone, Copy, Debug, PartialEq, Eq)]
pub(crate) struct ServedSessions {
    /// The entries of the journal.
    pub(crate) entries: usize,
    /// The fault of the first session that had one.
    pub(crate) fault: Option<EngineFault>,
    /// How many of them were browsers.
    pub(crate) browsers: u32,
}

/// The first fault, once one more session has ended.
fn first_of(fault: Option<EngineFault>, ended: Result<Ended, EngineFault>) -> Option<EngineFault>
    ensures { result ≡ first_of fault (fault_in ended) }
{
    match (fault, ended) {
        (Some(why), _) => Some(why),
        (None, Err(why)) => Some(why),
        (None, Ok(_)) => None,
    }
}

/// The number of browsers, once one more session has ended.
fn counted(browsers: u32, is_browser: bool) -> u32
    ensures { result ≤ browsers + 1 }
{
    if is_browser {
        browsers.saturating_add(1)
    } else {
        browsers
    }
}

/// How a session ended, whether it was a browser, and what is left of its connection.
fn end_of<I: Input, O: Output>(
    seat: EndedSeat<Screened<I>, O>,
) -> (Result<Ended, EngineFault>, bool, Sides<I, O>)
    ensures result { result.0 ≡ seat.result }
    ensures back { CameBack I.Input seat result.2 }
{
    let EndedSeat {
        reader,
        writer,
        result,
    } = seat;
    let screened = reader.into_inner();
    let is_browser = screened.turned();
    let reader = screened.into_inner();
    (result, is_browser, Sides { reader, writer })
}

/// How sessions ended: the fault of the first one that had one, how many were browsers, and what is left of their connections.
#[derive(Drop)]
struct Ends<I, O> {
    fault: Option<EngineFault>,
    browsers: u32,
    sides: Vec<Sides<I, O>>,
}

/// How the sessions of these seats ended. The list has room for what is left of the connections.
fn ends_of<I: Input + Drop, O: Output + Drop>(
    ended: Vec<EndedSeat<Screened<I>, O>>,
    mut sides: Vec<Sides<I, O>>,
) -> Ends<I, O>
    requires none { sides.items ≡ [] }
    requires room { length ended.items ≤ vec_capacity sides }
    ensures fault { result.fault ≡ first_fault (map (λ e. e.result) ended.items) }
    ensures browsers { result.browsers ≤ length ended.items }
    ensures back { CameBackAll I.Input ended.items result.sides.items }
{
    let mut fault = None;
    let mut browsers: u32 = 0;
    for seat in ended {
        let (end, is_browser, one) = end_of(seat);
        fault = first_of(fault, end);
        browsers = counted(browsers, is_browser);
        sides.push_reserved(one);
    }
    Ends {
        fault,
        browsers,
        sides,
    }
}

/// Why the sessions were not served, as a fault of the run.
fn lab_fault(why: ServeFault) -> RunFault
    ensures { result ≡ of_serve why }
{
    match why {
        ServeFault::NoThread => RunFault::NoThread,
        ServeFault::NoMemory => RunFault::NoMemory,
    }
}

impl<G: Gate + Sync, R: Threads + Wait + Sync> Server<'_, G, R> {
    /// Serves the seats, and closes the lab.
    fn serve_seats<J: Which + Send + Sync, D: Doors + Sync>(
        &self,
        lab: Lab<J, Global>,
        doors: &D,
        seats: Vec<Seat<Global, Screened<D::Reader>, D::Writer>>,
    ) -> Result<Closing<Global, Screened<D::Reader>, D::Writer>, RunFault>
        requires lab { AllByRecursion (λ s. IsPassOf J.publisher J.tallies s.pass) seats.items }
        ensures service { IfOk result (λ s. IsService J.Which D.Writer.Output D.heard seats.items s.closed.timeline s.closed.journal.items s.ended.items) }
        ensures fault { IfErr result (λ f. (f ≡ fault.NoThread) ⊎ (f ≡ fault.NoMemory)) }
    {
        let service = Service {
            rt: self.rt,
            alloc: self.alloc,
            gate: &Lobby::new(self.gate, doors),
        };
        match service.serve_and_close(lab, seats) {
            Ok(closing) => Ok(closing),
            Err(why) => Err(lab_fault(why)),
        }
    }

    /// Serves a session over each connection that the doors gave, closes the lab, and gives the doors back what is left of the connections.
    pub(crate) fn serve_given<J: Which + Send + Sync, D: Doors + Sync>(
        &self,
        opened: Opened<Global>,
        doors: &mut D,
        given: Vec<Sides<D::Reader, D::Writer>>,
    ) -> Result<ServedSessions, RunFault>
        requires tables { (opened.publisher ≡ J.publisher) × (opened.tallies ≡ J.tallies) }
        requires opening { (opened.opening ≡ J.opening) × (opened.setup ≡ J.setup) × (opened.limit ≡ J.limit) }
        requires all { length given.items ≡ length J.tallies }
        requires unfailed { AreUnfailed D.Reader.has_failed D.Writer.has_failed given.items }
        ensures serves { IfOk result (λ o. ServesAll D.Reader.Input D.Writer.Output D.heard J.Which given.items (D.returned doors.new) o.fault o.entries) }
        ensures doors { (D.listens doors.new ≡ D.listens doors.old) × (D.given doors.new ≡ D.given doors.old) × (D.turned doors.new ≡ D.turned doors.old) }
        ensures browsers { IfOk result (λ o. o.browsers ≤ length J.tallies) }
        ensures fault { IfErr result (λ f. (f ≡ fault.NoThread) ⊎ (f ≡ fault.NoMemory)) }
    {
        let (lab, passes) = opened.named::<J>();
        let Ok(room) = Vec::with_capacity(self.alloc, given.len()) else {
            return Err(RunFault::NoMemory);
        };
        let seats = seats(self.alloc, passes, given)?;
        let Closing { closed, ended } = self.serve_seats(lab, &*doors, seats)?;
        let Ends {
            fault,
            browsers,
            sides,
        } = ends_of(ended, room);
        doors.take_back(sides);
        Ok(ServedSessions {
            entries: closed.journal.len(),
            fault,
            browsers,
        })
    }
}
