//! Runs and checks worked cases: scripts of the laboratory, below whose lines stand the replies that are expected. The words of
//! the command line name folders; each of their files `*.pfl` is a case.
#![tactic(auto)]

mod difference;
mod expected;
mod opening;
mod script;
mod standing;
mod trial;
mod wanting;

use anyhow::{Context, Result};
use difference::Difference;
use std::process::ExitCode;
use std::{env, fs};
use trial::{Action, Trial};
use wanting::{Unlike, first_unlike};

/// The folder of cases that make too many requests of memory for a run without each of them.
const LONG: &str = "long/";

/// Reports the first difference of a case, and returns whether there is none.
fn passes(rt: &HostRuntime, path: &str) -> Result<bool> {
    let script = fs::read_to_string(rt, path).context(format_args!("reading {path}"))?;
    let run = Trial::of(rt.alloc(), rt.alloc(), Action::Run, script.as_str())?;
    let check = Trial::of(rt.alloc(), rt.alloc(), Action::Check, script.as_str())?;
    if let Some(difference) = Difference::first(rt.alloc(), script.as_str(), &run, &check)? {
        eprintln!(rt; "{path}{difference}")?;
        return Ok(false);
    }
    if path.starts_with(LONG) {
        return Ok(true);
    }
    match first_unlike(rt.alloc(), script.as_str(), &run) {
        None => Ok(true),
        Some(Unlike::Run(n)) => {
            eprintln!(rt; "{path}: its run without request {n} of memory")?;
            Ok(false)
        }
        Some(Unlike::Line(line)) => {
            eprintln!(rt; "{path}:{line}: without one of its requests of memory")?;
            Ok(false)
        }
    }
}

/// Adds the paths of a folder's cases.
fn add_cases(rt: &HostRuntime, folder: &str, paths: &mut Vec<String>) -> Result<()> {
    for entry in fs::read_dir(rt, folder).context(format_args!("opening {folder}"))? {
        let entry = entry?;
        if entry.file_name().ends_with(".pfl") {
            paths.push(format!(in rt.alloc(); "{folder}/{}", entry.file_name())?)?;
        }
    }
    Ok(())
}

/// The paths of the cases in all folders that the command line names, in order.
fn case_paths(rt: &HostRuntime) -> Result<Vec<String>> {
    let mut paths = Vec::new(rt.alloc());
    for folder in env::args(rt)?.skip(1) {
        add_cases(rt, folder.as_str(), &mut paths)?;
    }
    paths.sort()?;
    Ok(paths)
}

/// How many of the cases fail.
fn failures(rt: &HostRuntime, paths: &[String]) -> Result<usize> {
    let mut failed = 0usize;
    for path in paths {
        if !passes(rt, path.as_str())? {
            failed = failed.saturating_add(1);
        }
    }
    Ok(failed)
}

fn main(rt: HostRuntime) -> Result<ExitCode> {
    let paths = case_paths(&rt)?;
    let failed = failures(&rt, paths.as_slice())?;
    let count = paths.len();
    if failed == 0 && count > 0 {
        println!(rt; "{count} cases passed")?;
        return Ok(ExitCode::SUCCESS);
    }
    println!(rt; "{failed} of {count} cases failed")?;
    Ok(ExitCode::FAILURE)
}
