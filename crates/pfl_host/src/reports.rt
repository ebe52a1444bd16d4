//! What a server reports on its standard error.

ghost use Rattle.std.specs.Prelude.{◌≡◌, ◌+◌, ◌++◌};
ghost use Rattle.pfl_run.specs.Faults.{fault_status, fault_text};
ghost use Rattle.pfl_host.specs.Reports.{browser_lines, browser_text, first_status, first_text, PrintsOn};

use pfl_base::Output;
use pfl_run::{EngineFault, RunFault, print_text, report_fault};

/// The line for a browser that was turned away.
const BROWSER: &str = "pfl_lab: a browser was turned away\n";

/// Reports that a browser was turned away, unless the device has failed.
pub(crate) fn report_browser<F: Output>(faults: &mut F)
    ensures { PrintsOn browser_text (F.written faults.old) (F.written faults.new) (F.has_failed faults.old) (F.has_failed faults.new) }
{
    if !faults.failed() {
        print_text(faults, BROWSER.as_bytes());
    }
}

/// Reports that so many browsers were turned away, by a line each.
fn report_browsers<F: Output>(count: u32, faults: &mut F)
    ensures { PrintsOn (browser_lines count) (F.written faults.old) (F.written faults.new) (F.has_failed faults.old) (F.has_failed faults.new) }
{
    for _ in 0..count {
        report_browser(faults);
    }
}

/// Reports why the server stopped, unless the device has failed, and returns the exit status.
pub(crate) fn report_stop<F: Output>(fault: RunFault, faults: &mut F) -> u8
    ensures printed { PrintsOn (fault_text fault) (F.written faults.old) (F.written faults.new) (F.has_failed faults.old) (F.has_failed faults.new) }
    ensures status { result ≡ fault_status fault }
{
    if faults.failed() {
        fault.status()
    } else {
        report_fault(fault, faults)
    }
}

/// Reports the browsers that had taken a seat, and then the first fault of the sessions, if one had any, and returns the exit status.
pub(crate) fn conclude<F: Output>(browsers: u32, first: Option<EngineFault>, faults: &mut F) -> u8
    ensures printed { PrintsOn (browser_lines browsers ++ first_text first) (F.written faults.old) (F.written faults.new)
        (F.has_failed faults.old) (F.has_failed faults.new) }
    ensures status { result ≡ first_status first }
{
    report_browsers(browsers, faults);
    match first {
        Some(fault) => report_stop(RunFault::from(fault), faults),
        None => 0,
    }
}
