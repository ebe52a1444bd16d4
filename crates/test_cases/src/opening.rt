//! How a case opens its pair: by its setup alone, or with the next numbers that it gives.

ghost use Rattle.std.specs.Prelude.{◌≡◌};

use pfl_base::{Input, Output};
use pfl_edits::NoMemory;
use pfl_run::{
    LineReader, RunFault, Setup, Timeline, World, WorldFault, read_setup, report_fault, run_lab,
    run_lines, set_up,
};
use std::alloc::Allocator;

/// The mark in front of the numbers.
const MARK: &str = "#@ ";

/// How a case opens its pair.
#[derive(Clone, Copy)]
pub enum Opening {
    /// As the program does.
    First,
    /// With these as the next ids, queueing numbers, ticket and boot number.
    Late(u32),
}

/// Opens a pair by the first lines of the reader with these next numbers. They are beyond those of the two first boots.
fn set_up_late<A: Allocator + Copy, R: Input>(
    alloc: A,
    reader: &mut LineReader<R>,
    start: u32,
) -> Result<Timeline<A>, RunFault> {
    let Setup {
        limits,
        rules_a,
        rules_b,
        ..
    } = read_setup(alloc, reader)?;
    let line = reader.lines();
    match World::new_at(alloc, limits, rules_a, rules_b, start.max(3)) {
        Ok(world) => match Timeline::new(alloc, world) {
            Ok(timeline) => Ok(timeline),
            Err(NoMemory) => Err(RunFault::NoMemory),
        },
        Err(WorldFault::NoMemory) => Err(RunFault::NoMemory),
        Err(fault) => Err(RunFault::World(line, fault)),
    }
}

impl Opening {
    /// What the script says of it.
    pub fn of(script: &str) -> Opening {
        let told = script.lines().find_map(|line| line.strip_prefix(MARK));
        match told.and_then(|number| number.parse().ok()) {
            Some(start) => Opening::Late(start),
            None => Opening::First,
        }
    }

    /// Opens the pair by the first lines of the reader.
    pub fn set_up<A: Allocator + Copy, R: Input>(
        self,
        alloc: A,
        reader: &mut LineReader<R>,
    ) -> Result<Timeline<A>, RunFault>
        requires fresh { reader.old.lines ≡ 0 }
    {
        match self {
            Opening::First => set_up(alloc, reader),
            Opening::Late(start) => set_up_late(alloc, reader, start),
        }
    }

    /// Runs a script as the program does, but for the numbers.
    pub fn run<A: Allocator + Copy, R: Input, W: Output, F: Output>(
        self,
        alloc: A,
        reader: &mut R,
        writer: &mut W,
        faults: &mut F,
    ) -> u8 {
        let Opening::Late(start) = self else {
            return run_lab(alloc, reader, writer, faults);
        };
        let mut lines = LineReader::new(reader);
        match set_up_late(alloc, &mut lines, start) {
            Ok(mut timeline) => match run_lines(alloc, &mut lines, writer, &mut timeline) {
                Ok(ended) => u8::from(ended.bad > 0),
                Err(fault) => report_fault(RunFault::from(fault), faults),
            },
            Err(fault) => report_fault(fault, faults),
        }
    }
}
