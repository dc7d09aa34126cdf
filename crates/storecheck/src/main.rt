//! Tables of store calls through the function stores. What they answer is compared with lists of truth tables, and what
//! memos over them answer with the bare stores.
#![tactic(auto)]

mod counting;
mod tables;

use counting::Counting;
use diagram::{Diagram, Row};
use memo::Memo;
use std::fs;
use stores::Words;

// A table over words: the bare store, one memo, and how many calls reach the store below the memo.
fn print_words(rt: &HostRuntime, places: usize) -> anyhow::Result<()> {
    let heap = rt.alloc();
    let path = format!(in heap; "words-{places}.calls")?;
    let table = fs::read_to_string(rt, path.as_str())?;
    println!(rt; "words,{places}")?;
    let mut words = vec![in heap; 0u64; places]?;
    let mut bare = Words::new(words.as_mut_slice());
    let told = tables::run_table(heap, &mut bare, table.as_str())?;
    print!(rt; "{told}")?;
    let mut more_words = vec![in heap; 0u64; places]?;
    let below = Counting {
        below: Words::new(more_words.as_mut_slice()),
        calls: 0,
    };
    let mut memo = Memo::new(below);
    let same = tables::run_table(heap, &mut memo, table.as_str())? == told;
    let reached = memo.below().calls;
    println!(rt; "memo,{same},{reached}")?;
    Ok(())
}

// A table over rows: the bare store, one memo, and two on top of each other. Not one function with the table over words:
// each compares with other memos.
fn print_diagram(rt: &HostRuntime, case: usize, places: usize) -> anyhow::Result<()> {
    let heap = rt.alloc();
    let path = format!(in heap; "diagram-{case}.calls")?;
    let table = fs::read_to_string(rt, path.as_str())?;
    println!(rt; "diagram,{places}")?;
    let mut rows = vec![in heap; Row::BLANK; places]?;
    let mut bare = Diagram::new(rows.as_mut_slice());
    let told = tables::run_table(heap, &mut bare, table.as_str())?;
    print!(rt; "{told}")?;
    let mut more_rows = vec![in heap; Row::BLANK; places]?;
    let mut memo = Memo::new(Diagram::new(more_rows.as_mut_slice()));
    let one = tables::run_table(heap, &mut memo, table.as_str())? == told;
    let mut other_rows = vec![in heap; Row::BLANK; places]?;
    let mut pile = Memo::new(Memo::new(Diagram::new(other_rows.as_mut_slice())));
    let two = tables::run_table(heap, &mut pile, table.as_str())? == told;
    println!(rt; "memo,{one},{two}")?;
    Ok(())
}

fn main(rt: HostRuntime) -> anyhow::Result<()> {
    for places in [0, 1, 2, 5, 12, 4096] {
        print_words(&rt, places)?;
    }
    // the number of rows of each table
    let sizes = fs::read_to_string(&rt, "diagrams.rows")?;
    for (case, size) in sizes.as_str().lines().enumerate() {
        // a line that is no number stands for no rows
        print_diagram(&rt, case, size.parse::<usize>().unwrap_or(0))?;
    }
    Ok(())
}
