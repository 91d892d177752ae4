// Reads a text from standard input, a line for each row, and writes the bytes of the sheet
// (docs/LINES.md, section 2).
#![tactic(auto)]

use std::io::{Read, Write};
use std::process::ExitCode;
use text_sheets::refused::{Refused, Why};
use text_sheets::sheet::make_sheet;

fn main(rt: HostRuntime) -> anyhow::Result<ExitCode> {
    run(&rt)
}

fn run(rt: &HostRuntime) -> anyhow::Result<ExitCode> {
    let heap = rt.alloc();
    let mut text = Vec::new(heap);
    rt.stdin().read_to_end(&mut text)?;
    match make_sheet(heap, text.as_slice())? {
        Ok(sheet) => {
            rt.stdout().write_all(sheet.as_slice())?;
            Ok(ExitCode::SUCCESS)
        }
        Err(refused) => {
            print_refused(rt, text.as_slice(), refused)?;
            Ok(ExitCode::FAILURE)
        }
    }
}

// Prints the line that is refused, the word to blame, and why.
fn print_refused(rt: &HostRuntime, text: &[u8], refused: Refused) -> anyhow::Result<()> {
    let line = refused.line;
    let word = String::from_utf8_lossy(rt.alloc(), refused.word(text))?;
    let why = match refused.why {
        Why::Word => "",
        Why::Rows => ": a sheet has at most 512 rows",
        Why::Bytes => ": a sheet has at most 65535 bytes",
    };
    eprintln!(rt; "sheetmake: line {line}: cannot take \"{word}\"{why}")?;
    Ok(())
}
