//! Who is let in.

ghost use Rattle.std.specs.Prelude.{◌≡◌, ◌⊎◌, [], ◌∷◌, ◌++◌, length, IfOk, IfErr};
ghost use Rattle.std.specs.List.{AllByRecursion};
ghost use Rattle.pfl_run.specs.declared.fault.RunFault.TheVariants as fault;
ghost use Rattle.pfl_host.specs.Reports.{NotesBrowsers};
ghost use Rattle.pfl_host.specs.Servers.{of_door, AreUnfailed};

use crate::reports::report_browser;
use pfl_base::Output;
use pfl_doors::{DoorFault, Doors, Sides, Visit};
use pfl_run::RunFault;
use std::alloc::Global;
use std::sync::Wait;

/// Why nobody came, as a fault of the run.
pub(crate) fn door_fault(why: DoorFault) -> RunFault
    ensures { result ≡ of_door why }
{
    match why {
        DoorFault::Network => RunFault::Network,
        DoorFault::NoMemory => RunFault::NoMemory,
    }
}

/// Waits for the connection of the next session. Each browser that comes before is reported.
fn admit<D: Doors, F: Output, R: Wait>(
    rt: &R,
    doors: &mut D,
    faults: &mut F,
) -> Result<Sides<D::Reader, D::Writer>, RunFault>
    ensures given { IfOk result (λ sides. D.given doors.new ≡ D.given doors.old ++ sides ∷ []) }
    ensures unfailed { IfOk result (λ s. AreUnfailed D.Reader.has_failed D.Writer.has_failed (s ∷ [])) }
    ensures port { D.listens doors.new ≡ D.listens doors.old }
    ensures noted { NotesBrowsers (D.turned doors.old) (D.turned doors.new)
        (F.written faults.old) (F.written faults.new) (F.has_failed faults.old) (F.has_failed faults.new) }
    ensures fault { IfErr result (λ f. (f ≡ fault.Network) ⊎ (f ≡ fault.NoMemory)) }
{
    for _ in rt.forever() {
        match doors.accept() {
            Ok(Visit::Session(sides)) => return Ok(sides),
            Ok(Visit::Browser) => report_browser(faults),
            Err(why) => return Err(door_fault(why)),
        }
    }
    unreachable!()
}

/// Waits for the connections of so many sessions, one after another, through doors that were just opened.
pub(crate) fn admit_all<D: Doors, F: Output, R: Wait>(
    rt: &R,
    alloc: Global,
    doors: &mut D,
    count: u32,
    faults: &mut F,
) -> Result<Vec<Sides<D::Reader, D::Writer>>, RunFault>
    requires none { D.given doors.old ≡ [] }
    ensures given { IfOk result (λ all. D.given doors.new ≡ all.items) }
    ensures unfailed { IfOk result (λ all. AreUnfailed D.Reader.has_failed D.Writer.has_failed all.items) }
    ensures count { IfOk result (λ all. length all.items ≡ count) }
    ensures port { D.listens doors.new ≡ D.listens doors.old }
    ensures noted { NotesBrowsers (D.turned doors.old) (D.turned doors.new)
        (F.written faults.old) (F.written faults.new) (F.has_failed faults.old) (F.has_failed faults.new) }
    ensures fault { IfErr result (λ f. (f ≡ fault.Network) ⊎ (f ≡ fault.NoMemory)) }
{
    let Ok(mut all) = Vec::with_capacity(alloc, count as usize) else {
        return Err(RunFault::NoMemory);
    };
    for _ in 0..count {
        all.push_reserved(admit(rt, doors, faults)?);
    }
    Ok(all)
}
