// Runs the plain files of the file `files` against their listings, the headers of the file `cases`
// against theirs, those of the file `messages` against their reports and those of the file `numbers`
// against their numbers, and the bytes of the file `sums` against their sums, names each that fails,
// and says how many of each it ran.
#![tactic(auto)]

use std::io;
use test_replayer::Against;
use test_runner::{run_file, tell};

// Runs one file, and writes the last line of its run.
fn report(rt: &HostRuntime, against: Against, path: &[u8], buf: &mut [u8]) -> io::Result<()> {
    tell(rt, path, run_file(rt, against, path, buf))
}

fn run_files(rt: &HostRuntime, buf: &mut [u8]) -> io::Result<()> {
    report(rt, Against::Listing, b"files", buf)?;
    report(rt, Against::HeaderListing, b"cases", buf)?;
    report(rt, Against::Report, b"messages", buf)?;
    report(rt, Against::Numbers, b"numbers", buf)?;
    report(rt, Against::Sum, b"sums", buf)
}

fn main(rt: HostRuntime) -> io::Result<()> {
    let mut buf = [0u8; 4194304];
    run_files(&rt, &mut buf)
}
