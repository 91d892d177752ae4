// The report on each case: as expected, or where it first differs.
use crate::case::Case;
use crate::case_run::run_case;

// The word for a line that is not there; a line that is expected and has this word agrees with it.
const ABSENT: &str = "nothing";

/// How many cases were run, and how many of them differ.
#[derive(Default, Drop)]
pub struct Counts {
    pub cases: u32,
    pub differ: u32,
}

/// Runs a case and prints whether it went as expected, or where it first differs. The lines before
/// the first case make one without a name, which is passed over.
pub fn report(rt: &HostRuntime, case: &Case, counts: &mut Counts) -> anyhow::Result<()> {
    let name = case.name;
    if name.is_empty() {
        return Ok(());
    }
    let got = run_case(rt.alloc(), case)?;
    counts.cases = counts.cases.saturating_add(1);
    match first_difference(case, got.as_slice()) {
        Some(i) => {
            let want = expected_at(case, i).unwrap_or(ABSENT);
            let have = got_at(got.as_slice(), i).unwrap_or(ABSENT);
            counts.differ = counts.differ.saturating_add(1);
            println!(rt; "{name}: expected {want}, got {have}")?;
        }
        None => println!(rt; "ok {name}")?,
    }
    Ok(())
}

// The first line, from 0, where what was expected and what was given differ.
fn first_difference(case: &Case, got: &[String]) -> Option<usize> {
    (0..case.expected.len().max(got.len())).find(|i| {
        expected_at(case, *i).unwrap_or(ABSENT) != got_at(got, *i).unwrap_or(ABSENT)
    })
}

// The line that is expected at a position.
fn expected_at<'a>(case: &Case<'a>, i: usize) -> Option<&'a str> {
    case.expected.get(i).copied()
}

// The line that was given at a position.
fn got_at(got: &[String], i: usize) -> Option<&str> {
    got.get(i).map(|text| text.as_str())
}
