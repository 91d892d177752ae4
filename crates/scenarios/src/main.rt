// Reads a file of cases from standard input, runs each on a fresh venue, and prints which of them
// differ (docs/LINES.md, section 3).
#![tactic(auto)]

mod case;
mod case_run;
mod report;

use case::Case;
use report::{Counts, report};
use std::io;

fn main(rt: HostRuntime) -> anyhow::Result<()> {
    run(&rt)
}

fn run(rt: &HostRuntime) -> anyhow::Result<()> {
    let heap = rt.alloc();
    let text = io::read_to_string(heap, rt.stdin())?;
    let mut counts = Counts::default();
    let mut case = Case::new(heap, "");
    for line in text.as_str().split('\n') {
        if let Some(name) = line.strip_prefix("case ") {
            report(rt, &case, &mut counts)?;
            case = Case::new(heap, name);
        } else {
            case.take_line(heap, line)?;
        }
    }
    report(rt, &case, &mut counts)?;
    let cases = counts.cases;
    let differ = counts.differ;
    println!(rt; "{cases} cases, {differ} differ")?;
    Ok(())
}
