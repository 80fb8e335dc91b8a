// Runs a file of cases, and tells how many it ran and which failed. A case is a name, an input and
// what is expected of it; each of these parts has its length before it in 4 bytes, the lowest first.
#![tactic(auto)]

ghost use Rattle.std.specs.Prelude.{◌≡◌, ◌<◌, ◌≤◌, IfSome, length};
ghost use Rattle.test_replayer.specs.Passes.{Says};
ghost use Rattle.test_runner.specs.Cases.{Ends, CaseOut, InOrder, counted, StepIs, Tallied, Loads, RunOf};

use helpers::le_u32;
use std::fs::File;
use std::io::Read;
use std::rt::Files;
use std::{io, str};
use test_replayer::{Against, passes};

// Where the three parts of a case end.
#[derive(Clone, Copy)]
pub struct Case {
    pub name_end: usize,
    pub input_end: usize,
    pub end: usize,
}

// The cases that were run, those of them that failed, and whether the file was whole.
#[derive(Clone, Copy)]
pub struct Summary {
    pub run: u64,
    pub failed: u64,
    pub whole: bool,
}

// Why a file was not run: it is as long as the buffer or longer, or it was not read.
#[derive(Clone, Copy)]
pub enum NotRun {
    TooLong,
    Failed,
}

// Where the part at `at` ends, if the file has it as a whole.
fn part_end(cases: &[u8], at: usize) -> Option<usize>
    ensures { Ends cases.now at result }
{
    let (length, start) = le_u32(cases, at).ok()?;
    let count = length as usize;
    if cases.len() - start < count {
        return None;
    }
    Some(start + count)
}

// The case at `at`, if the file has it as a whole.
fn case_at(cases: &[u8], at: usize) -> Option<Case>
    ensures case_out { CaseOut cases.now at result }
    ensures in_order { IfSome result (InOrder cases.now at) }
{
    let name_end = part_end(cases, at)?;
    let input_end = part_end(cases, name_end)?;
    let end = part_end(cases, input_end)?;
    Some(Case {
        name_end,
        input_end,
        end,
    })
}

// Runs the case at `at`, and says whether it passed.
fn run_case(against: Against, cases: &[u8], at: usize) -> Option<(bool, Case)>
    ensures step_is { StepIs (Says against) cases.now at result }
    ensures in_order { IfSome result (λ p. InOrder cases.now at p.1) }
{
    let case = case_at(cases, at)?;
    let input = &cases[case.name_end + 4..case.input_end];
    let expected = &cases[case.input_end + 4..case.end];
    let passed = passes(against, input, expected);
    Some((passed, case))
}

fn tell_failed(rt: &impl Print, name: &[u8]) -> io::Result<()> {
    rt.print("failed: ")?;
    rt.write_all(name)?;
    rt.println("")
}

// One case more; one that failed is named. A name that could not be written stops nothing: the case
// counts as failed all the same.
fn count(rt: &impl Print, tally: Summary, passed: bool, name: &[u8]) -> Summary
    requires { (tally.run < 18446744073709551615) × (tally.failed ≤ tally.run) }
    ensures { result ≡ counted tally passed }
{
    if passed {
        return Summary {
            run: tally.run + 1,
            ..tally
        };
    }
    let _ = tell_failed(rt, name);
    Summary {
        run: tally.run + 1,
        failed: tally.failed + 1,
        ..tally
    }
}

// Runs all cases of the file, and names each that fails.
pub fn run(rt: &impl Print, against: Against, cases: &[u8]) -> Summary
    ensures { Tallied (Says against) cases.now result }
{
    // where a case ends shows only as it is read
    let mut at = 0;
    let mut tally = Summary {
        run: 0,
        failed: 0,
        whole: true,
    };
    while at < cases.len() {
        let Some((passed, case)) = run_case(against, cases, at) else {
            return Summary {
                whole: false,
                ..tally
            };
        };
        tally = count(rt, tally, passed, &cases[at + 4..case.name_end]);
        at = case.end;
    }
    tally
}

// Reads until the buffer is full, the file ends or a read fails, and says how many bytes it put at
// the buffer's start.
fn fill(file: &mut impl Read, buf: &mut [u8]) -> usize
    ensures { result ≤ length buf.new }
{
    // how much a read brings is not known before it
    let mut done = 0;
    while done < buf.len() {
        let Ok(more) = file.read(&mut buf[done..]) else {
            return done;
        };
        if more == 0 {
            return done;
        }
        done += more;
    }
    done
}

// Whether the file has ended. A read that fails is no end, and one into no room tells nothing.
fn is_at_end(file: &mut impl Read, buf: &mut [u8]) -> bool {
    matches!(file.read(buf), Ok(0))
}

// The file at a path, where the system opens it. A path of std is text.
fn open<R: Files>(rt: &R, path: &[u8]) -> Option<R::File> {
    let text = str::from_utf8(path).ok()?;
    File::open(rt, text).ok()
}

// The bytes of the file at a path. A byte of the buffer must stay free, so that a file that does
// not fit is told apart, and the read after the last byte must answer the file's end.
fn load(rt: &impl Files, path: &[u8], buf: &mut [u8]) -> Result<usize, NotRun>
    ensures { Loads result buf.new }
{
    let mut file = open(rt, path).ok_or(NotRun::Failed)?;
    let n = fill(&mut file, buf);
    if n == buf.len() {
        return Err(NotRun::TooLong);
    }
    if !is_at_end(&mut file, &mut buf[n..]) {
        return Err(NotRun::Failed);
    }
    Ok(n)
}

// Runs the cases of the file at a path, by way of a buffer that is longer than it.
pub fn run_file(
    rt: &(impl Files + Print),
    against: Against,
    path: &[u8],
    buf: &mut [u8],
) -> Result<Summary, NotRun>
    ensures { RunOf (Says against) buf.new result }
{
    let n = load(rt, path, buf)?;
    Ok(run(rt, against, &buf[..n]))
}

fn tell_count(rt: &impl Print, s: Summary) -> io::Result<()> {
    let run = s.run;
    let failed = s.failed;
    print!(rt; "{run} run, {failed} failed")?;
    if !s.whole {
        rt.print(", file damaged")?;
    }
    rt.println("")
}

fn tell_not_run(rt: &impl Print, path: &[u8], why: &str) -> io::Result<()> {
    rt.write_all(path)?;
    rt.println(why)
}

// Writes the last line of a run. It yields nothing but a failed write's error, and no contract speaks
// of what is written.
pub fn tell(rt: &impl Print, path: &[u8], outcome: Result<Summary, NotRun>) -> io::Result<()> {
    match outcome {
        Ok(s) => tell_count(rt, s),
        Err(NotRun::TooLong) => tell_not_run(rt, path, " does not fit"),
        Err(NotRun::Failed) => tell_not_run(rt, path, " was not read"),
    }
}
