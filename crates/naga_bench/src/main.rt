//! Does the jobs that users wait for on made inputs, to time them: see docs/PERF.md.
//!
//! `naga_bench JOB COUNT SEED` does a job on so many inputs, which follow from the seed, and prints how many of
//! them were accepted and refused and a digest of all results. `naga_bench check` does each job on a few small
//! inputs, and prints only the numbers.
#![tactic(auto)]

mod awkward;
mod build;
mod functions;
mod interfaces;
mod modules_in_words;
mod packing;
mod passes;
mod random;
mod reports;
mod ring;
mod shaders;
mod totals;
mod types;
mod values;

use crate::awkward::validate_awkward;
use crate::interfaces::declare_many;
use crate::modules_in_words::check_many;
use crate::packing::pack_many;
use crate::passes::ask_many;
use crate::random::Random;
use crate::reports::report_many;
use crate::shaders::{validate_large, validate_many};
use crate::totals::Totals;
use anyhow::{Context, Result, bail};
use std::alloc::Global;
use std::env;
use std::rt::Env;

/// Does a job on so many inputs.
fn run(
    alloc: Global,
    job: &str,
    count: u32,
    random: &mut Random,
    totals: &mut Totals,
) -> Result<()> {
    match job {
        "shaders" => validate_many(alloc, count, random, totals)?,
        "large" => validate_large(alloc, count, random, totals)?,
        "reports" => report_many(alloc, count, 200_000, random, totals)?,
        "short" => report_many(alloc, count, 80, random, totals)?,
        "words" => check_many(alloc, count, 200_000, random, totals)?,
        "items" => check_many(alloc, count, 80, random, totals)?,
        "packing" => pack_many(alloc, count, random, totals)?,
        "passes" => ask_many(alloc, count, random, totals)?,
        "awkward" => validate_awkward(alloc, count, random, totals)?,
        "interfaces" => declare_many(alloc, count, random, totals)?,
        _ => bail!("there is no job {job}"),
    }
    Ok(())
}

/// Does a job, and prints what it came to.
fn print(rt: &(impl AllocGlobal + Print), job: &str, count: u32, seed: u64) -> Result<()> {
    let mut totals = Totals::default();
    run(rt.alloc(), job, count, &mut Random::new(seed), &mut totals)?;
    let (accepted, refused) = (totals.accepted, totals.refused);
    let digest = totals.digest.value();
    println!(rt; "{job}: {accepted} accepted, {refused} refused, {digest:016x}")?;
    Ok(())
}

/// Does each job on a few inputs, and prints how many were accepted and refused.
fn check(rt: &(impl AllocGlobal + Print)) -> Result<()> {
    for (job, count) in [
        ("shaders", 8),
        ("short", 8),
        ("items", 8),
        ("packing", 1),
        ("passes", 1),
        ("interfaces", 4),
    ] {
        let mut totals = Totals::default();
        run(rt.alloc(), job, count, &mut Random::new(1), &mut totals)?;
        let (accepted, refused) = (totals.accepted, totals.refused);
        println!(rt; "{job}: {accepted} accepted, {refused} refused")?;
    }
    Ok(())
}

fn main(rt: HostRuntime) -> Result<()> {
    let words: Vec<String> = env::args(&rt)?.skip(1).collect(rt.alloc())?;
    match words.as_slice() {
        [job, count, seed] => {
            let count = count
                .as_str()
                .parse::<u32>()
                .context(format_args!("the count"))?;
            let seed = seed
                .as_str()
                .parse::<u64>()
                .context(format_args!("the seed"))?;
            print(&rt, job.as_str(), count, seed)
        }
        _ => check(&rt),
    }
}
