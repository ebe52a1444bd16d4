//! The seats of sessions that came through doors.

ghost use Rattle.std.specs.Prelude.{◌≡◌, false, length, map, IfOk, IfErr};
ghost use Rattle.std.specs.Option.{option_map};
ghost use Rattle.pfl_doors.specs.Screens.{screened};
ghost use Rattle.pfl_run.specs.declared.fault.RunFault.TheVariants as fault;
ghost use Rattle.pfl_host.specs.Servers.{AreUnfailed, SitAt, SitsAt};

use pfl_base::{Input, Output};
use pfl_doors::{Screened, Sides};
use pfl_run::{LineReader, RunFault};
use pfl_serve::{Pass, Seat};
use std::alloc::Global;

/// The seat of the pass over the connection. Of what a browser sends its reader gives nothing.
fn seat_of<I: Input, O: Output>(
    pass: Pass<Global>,
    sides: Sides<I, O>,
) -> Seat<Global, Screened<I>, O>
    requires unfailed { (I.has_failed sides.reader ≡ false) × (O.has_failed sides.writer ≡ false) }
    ensures pass { result.pass ≡ pass }
    ensures over { SitsAt I.left O.Output sides result }
{
    let Sides { reader, writer } = sides;
    Seat {
        pass,
        reader: LineReader::new(Screened::new(reader)),
        writer,
    }
}

/// A seat for each pass, in their order, each over the connection in its place.
pub(crate) fn seats<I: Input + Drop, O: Output + Drop>(
    alloc: Global,
    passes: Vec<Pass<Global>>,
    given: Vec<Sides<I, O>>,
) -> Result<Vec<Seat<Global, Screened<I>, O>>, RunFault>
    requires as_many { length given.items ≡ length passes.items }
    requires unfailed { AreUnfailed I.has_failed O.has_failed given.items }
    ensures passes { IfOk result (λ seats. map (λ s. s.pass) seats.items ≡ passes.items) }
    ensures over { IfOk result (λ seats. SitAt I.left O.Output given.items seats.items) }
    ensures fault { IfErr result (λ f. f ≡ fault.NoMemory) }
{
    let Ok(mut seats) = Vec::with_capacity(alloc, passes.len()) else {
        return Err(RunFault::NoMemory);
    };
    let mut connections = given.into_iter();
    for pass in passes {
        let Some(sides) = connections.next() else {
            unreachable!();
        };
        seats.push_reserved(seat_of(pass, sides));
    }
    Ok(seats)
}
