// Reads a table of sheets from standard input, reads each sheet, and prints which of them are not
// answered as the table says.
#![tactic(auto)]

mod outcome;
mod table;

use outcome::Outcome;
use std::alloc::Global;
use std::io;
use table::Case;

fn main(rt: HostRuntime) -> anyhow::Result<()> {
    run(&rt)
}

fn run(rt: &HostRuntime) -> anyhow::Result<()> {
    let heap = rt.alloc();
    let text = io::read_to_string(heap, rt.stdin())?;
    let mut sheets: u32 = 0;
    let mut differ: u32 = 0;
    for line in text.as_str().split('\n') {
        if line.is_empty() || line.starts_with('#') {
            continue;
        }
        let case = Case::read(heap, line)?;
        sheets = sheets.saturating_add(1);
        if !agrees(heap, &case)? {
            differ = differ.saturating_add(1);
            let name = case.name;
            println!(rt; "{name}: another answer")?;
        }
    }
    println!(rt; "{sheets} sheets, {differ} differ")?;
    Ok(())
}

// Whether the sheet of a case is answered as the case says.
fn agrees(heap: Global, case: &Case) -> anyhow::Result<bool> {
    let outcome = Outcome::of(heap, case.sheet.as_slice())?;
    Ok(
        case.expected
            .as_ref()
            .is_some_and(|expected| *expected == outcome),
    )
}
