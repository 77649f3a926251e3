// Reads an alignment file from standard input and prints its list, or the refusal that turns it away.

#![tactic(auto)]

use std::io;
use std::io::Read;

// A read that failed may have been interrupted: it is tried once more.
#[derive(Drop)]
struct Retrying<R>(R);

impl<R: Read> Read for Retrying<R> {
    ghost remaining = { λ r. R.remaining r.0 };

    fn read(&mut self, buffer: &mut [u8]) -> io::Result<usize> {
        match self.0.read(buffer) {
            Ok(count) => Ok(count),
            Err(_) => self.0.read(buffer),
        }
    }
}

// Prints the list of the file that standard input has; the line that says what failed, where something did.
fn run(rt: &HostRuntime) -> Result<(), &'static str> {
    // one byte more than a file may have tells that it is too long
    let mut file = [0u8; 8193];
    let count = streams::fill(&mut Retrying(rt.stdin()), &mut file).map_err(
        |_| "list: standard input cannot be read\n",
    )?;
    list_output::print_list(&mut rt.stdout(), &file[..count]).map_err(
        |_| "list: the list was not written whole\n",
    )
}

fn main(rt: HostRuntime) {
    if let Err(line) = run(&rt) {
        // no macro: it tries an interrupted write again
        let _ = streams::write_whole(&mut rt.stderr(), line.as_bytes());
    }
}
