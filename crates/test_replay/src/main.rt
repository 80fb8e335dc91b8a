// Replays the answers of the file `answers`, names each that fails, and says how many it ran.
#![tactic(auto)]

use std::io;
use test_replayer::Against;
use test_runner::{run_file, tell};

fn replay_answers(rt: &HostRuntime, buf: &mut [u8]) -> io::Result<()> {
    let answers = run_file(rt, Against::Report, b"answers", buf);
    tell(rt, b"answers", answers)
}

fn main(rt: HostRuntime) -> io::Result<()> {
    let mut buf = [0u8; 4194304];
    replay_answers(&rt, &mut buf)
}
