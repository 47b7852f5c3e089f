//! Goes through example cases, and prints each with what it gave and whether that is what it should be.
#![tactic(auto)]

mod calls;
mod drafts;
mod fit_cases;
mod fits;
mod holders;
mod jobs;
mod large;
mod loads;
mod tally;
mod verdicts;

use fits::Bench;
use std::io;
use std::process::ExitCode;
use tally::Tally;

fn main(rt: HostRuntime) -> io::Result<ExitCode> {
    let mut tally = Tally::default();
    verdicts::verdicts(&rt, &mut tally)?;
    holders::readings(&rt, &mut tally)?;
    holders::tables(&rt, &mut tally)?;
    loads::loads(&rt, &mut tally)?;
    drafts::drafts(&rt, &mut tally)?;
    let mut bench = Bench::new(rt.alloc())?;
    fits::fits(&rt, &mut tally, &mut bench)?;
    large::large(&rt, &mut tally, &mut bench)?;
    calls::calls(&rt, &mut tally)?;
    let Tally { cases, wrong } = tally;
    println!(rt; "{cases} cases, {wrong} wrong")?;
    Ok(if wrong == 0 {
        ExitCode::SUCCESS
    } else {
        ExitCode::FAILURE
    })
}
