//! The program: reads a netlist and its specification, and prints the report on them.
#![tactic(auto)]

mod report;
mod rows;

use report::report;
use std::{fs, io};

// The bytes of a file. One that is missing counts as empty, and not as the end of all files as in the program crosscheck.
fn read_file(rt: &HostRuntime, path: &str) -> io::Result<Vec<u8>> {
    match fs::read(rt, path) {
        Err(error) if error.kind() == io::ErrorKind::NotFound => Ok(Vec::new(rt.alloc())),
        read => read,
    }
}

fn main(rt: HostRuntime) -> io::Result<()> {
    let netlist = read_file(&rt, "netlist.txt")?;
    let specification = read_file(&rt, "spec.txt")?;
    let text = report(rt.alloc(), netlist.as_slice(), specification.as_slice())?;
    print!(rt; "{text}")
}
