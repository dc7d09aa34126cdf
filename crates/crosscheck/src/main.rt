//! Many designs through the libraries. What they answer is compared with a plain evaluation of truth tables.
#![tactic(auto)]

#[cfg(test)]
mod examples;
mod tables;

use anyhow::Context;
use circuits::{Counts, Design};
use std::alloc::{AllocError, Global};
use std::{fs, io};
use texts::{ReadFault, Reader, TextFault};

// The file's bytes, or none where there is no such file: the cases end there.
fn find(rt: &HostRuntime, path: &str) -> io::Result<Option<Vec<u8>>> {
    match fs::read(rt, path) {
        Ok(bytes) => Ok(Some(bytes)),
        Err(error) if error.kind() == io::ErrorKind::NotFound => Ok(None),
        Err(error) => Err(error),
    }
}

// The bits that are told, assignment by assignment, up to the first of which none is.
fn bits<F: Fn(usize) -> Option<bool>>(heap: Global, bit_at: F) -> Result<String, AllocError>
    requires { F.IsAlwaysCallable bit_at }
{
    let mut bits = String::new(heap);
    for bit in (0..16).map_while(bit_at) {
        bits.push(if bit { '1' } else { '0' })?;
    }
    Ok(bits)
}

// Each line with its bits, by its number and back: the numbers are what is asked for, here and below.
fn print_lines(rt: &HostRuntime, design: &Design) -> anyhow::Result<()> {
    for line in 0..332 {
        let Some(place) = design.place(line) else {
            break;
        };
        let number = design.line(place).context("a place without a line")?;
        let bits = bits(rt.alloc(), |assignment| design.carry(line, assignment))?;
        println!(rt; "line,{number},{bits}")?;
    }
    Ok(())
}

// Each output with its bits, and whether it meets its rows.
fn print_outputs(rt: &HostRuntime, design: &Design) -> anyhow::Result<()> {
    for output in 0..16 {
        let Some(met) = design.meets(output) else {
            break;
        };
        let bits = bits(rt.alloc(), |assignment| design.output(output, assignment))?;
        let word = if met { "met" } else { "missed" };
        println!(rt; "out,{output},{bits},{word}")?;
    }
    Ok(())
}

fn print_design(rt: &HostRuntime, design: &Design) -> anyhow::Result<()> {
    let Counts {
        inputs,
        gates,
        outputs,
    } = design.counts();
    let misses = design.misses();
    println!(rt; "job,{inputs},{gates},{outputs},{misses}")?;
    if inputs <= 4 {
        print_lines(rt, design)?;
        print_outputs(rt, design)?;
    }
    Ok(())
}

// A row like that of the program rectify, which this one does not lean on: it tests the libraries alone.
fn print_fault(rt: &HostRuntime, fault: ReadFault) -> anyhow::Result<()> {
    let ReadFault::Text(
        TextFault {
            cause,
            text,
            record,
            place,
            length,
        },
    ) = fault;
    let number = cause.number();
    println!(rt; "stop,{number},{text},{record},{place},{length}")?;
    Ok(())
}

// The texts, pair by pair.
fn print_texts(rt: &HostRuntime) -> anyhow::Result<()> {
    let heap = rt.alloc();
    let mut reader = Reader::new(heap)?;
    let mut design = Design::new(heap)?;
    for case in 1..10_000u32 {
        let netlist_path = format!(in heap; "{case}.netlist")?;
        let Some(netlist) = find(rt, netlist_path.as_str())? else {
            break;
        };
        let spec_path = format!(in heap; "{case}.spec")?;
        let Some(spec) = find(rt, spec_path.as_str())? else {
            break;
        };
        println!(rt; "case,{case}")?;
        match reader.read(netlist.as_slice(), spec.as_slice(), &mut design) {
            Ok(()) => print_design(rt, &design)?,
            Err(fault) => print_fault(rt, fault)?,
        }
    }
    Ok(())
}

// The calls of a word store, table by table: each over as many words as its name says.
fn print_calls(rt: &HostRuntime) -> anyhow::Result<()> {
    for places in [0, 1, 2, 5, 12, 4096] {
        let path = format!(in rt.alloc(); "{places}.calls")?;
        // stderr has these words alone, without the cause
        let table = fs::read_to_string(rt, path.as_str())
            .ok()
            .context("a table is missing")?;
        println!(rt; "words,{places}")?;
        tables::run_table(rt, places, table.as_str())?;
    }
    Ok(())
}

fn main(rt: HostRuntime) -> anyhow::Result<()> {
    print_texts(&rt)?;
    print_calls(&rt)
}
