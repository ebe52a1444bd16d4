//! Reports why words ask for no mode.

ghost use Rattle.std.specs.Prelude.{◌≡◌, ◌<◌, IfSome, length, string_bytes};
ghost use Rattle.clap.specs.Values.{kind_of};
ghost use Rattle.pfl_run.specs.Modes.{words_status};
ghost use Rattle.pfl_host.specs.Obeys.{seen, ReportsKind, ReportsNoMemory, ReportsWords};

use clap::Error;
use clap::error::ErrorKind;
use pfl_base::Output;
use pfl_run::{RunFault, WordsFault, print_text, report_fault};
use std::alloc::Global;
use std::fmt::Display;

/// What the error's `Display` writes, where there is memory for it and it is not empty. No text of `clap` is empty.
fn text_of<E: Display>(alloc: Global, error: &E) -> Option<String>
    ensures some { IfSome result (λ text. 0 < length (string_bytes text)) }
    ensures shown { IfSome result (λ text. IfSome (E.output error.now) (λ bytes. string_bytes text ≡ bytes)) }
{
    match format!(in alloc; "{error}") {
        Ok(text) if !text.is_empty() => Some(text),
        _ => None,
    }
}

/// Reports want of memory.
fn report_no_memory<F: Output>(faults: &mut F)
    ensures { ReportsNoMemory (seen F.written F.has_failed faults.old faults.new) }
{
    report_fault(RunFault::NoMemory, faults);
}

/// Writes the text of `clap`'s error: a call for help or for the version to the writer, any other to `faults`.
fn report_error<O: Output, F: Output>(error: &Error, text: &[u8], writer: &mut O, faults: &mut F)
    requires some { 0 < length text.now }
    ensures { ReportsKind (kind_of error.now) (seen O.written O.has_failed writer.old writer.new)
        (seen F.written F.has_failed faults.old faults.new) }
{
    match error.kind() {
        ErrorKind::DisplayHelp | ErrorKind::DisplayVersion => print_text(writer, text),
        _ => print_text(faults, text),
    }
}

/// Reports why words ask for no mode, and returns the exit status. Where there is no memory for the text, that is reported, and the
/// status stays.
pub(crate) fn report_words<O: Output, F: Output>(
    alloc: Global,
    fault: &WordsFault,
    writer: &mut O,
    faults: &mut F,
) -> u8
    ensures reports { ReportsWords fault.now (seen O.written O.has_failed writer.old writer.new)
        (seen F.written F.has_failed faults.old faults.new) }
    ensures status { result ≡ words_status fault.now }
{
    match fault {
        WordsFault::Words(error) => match text_of(alloc, error) {
            Some(text) => report_error(error, text.as_str().as_bytes(), writer, faults),
            None => report_no_memory(faults),
        },
        WordsFault::NoMemory => report_no_memory(faults),
    }
    fault.status()
}
