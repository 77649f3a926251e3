// Prints the lists and refusals of the vectors: files one behind another on standard input, each after its length.

#![tactic(auto)]

use std::io::Write;

// Prints the list of each file of the input; one that is not written whole does not hold up the next.
fn print_lists<W: Write>(output: &mut W, input: &[u8]) {
    let mut rest = input;
    while !rest.is_empty() {
        let (file, behind) = cases::part_or_empty(rest);
        let _ = list_output::print_list(output, file);
        rest = behind;
    }
}

fn main(rt: HostRuntime) {
    let mut space = cases::room();
    let count = streams::read_full(&mut rt.stdin(), &mut space);
    print_lists(&mut rt.stdout(), &space[..count]);
}
