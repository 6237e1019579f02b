// The session program: lines from standard input, one reply for each on standard output.
#![tactic(auto)]

use session::sizes::LONGEST_REPLY;
use session::turn::Progress;
use std::io;
use std::io::{Read, Write};

const CHUNK: usize = 65536;

// Reads to the end of the input. Nothing is done after a reply that could not be printed, or a read that failed.
fn main(rt: HostRuntime) -> io::Result<()> {
    let mut input = rt.stdin();
    let mut output = rt.stdout();
    let mut progress = Progress::start();
    let mut text = [0u8; LONGEST_REPLY];
    let mut chunk = [0u8; CHUNK];
    // Kept: a count of reads, more than any input takes, since a loop has to end.
    for _ in 0..u64::MAX {
        let n = input.read(&mut chunk)?;
        if n == 0 {
            let k = progress.end(&mut text);
            return output.write_all(&text[..k]);
        }
        let mut left = &chunk[..n];
        // Kept: no `for`, since a turn takes as many characters as the line has.
        while !left.is_empty() {
            let taken = progress.turn(left, &mut text);
            output.write_all(&text[..taken.printed])?;
            left = &left[taken.consumed..];
        }
    }
    Ok(())
}
