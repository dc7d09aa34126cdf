//! Sequences of store calls, as a table.
use calls::Request;
use std::alloc::Global;
use stores::Store;

// A number that tells a held function's truth table, point by point: a bit is a digit of it, and assignments are numbers.
fn digest<S: Store>(store: &S, h: usize, inputs: usize) -> u64 {
    let mut digest = 7u64;
    for e in [false, true] {
        for a in 0..1usize << inputs.min(12) {
            let bit = match store.value(h, e, a) {
                Ok(true) => 2,
                Ok(false) => 1,
                Err(_) => 0,
            };
            digest = digest.wrapping_mul(31).wrapping_add(bit);
        }
    }
    digest
}

// A number of a line: after `h` the number itself, after `r` what the line of that number answered.
fn operand(kind: Option<&str>, word: Option<&str>, answers: &[usize]) -> usize {
    // the number that the word writes, or 0
    let n = word.unwrap_or("").parse::<usize>().unwrap_or(0);
    match kind {
        Some("r") => answers.get(n).copied().unwrap_or(0),
        _ => n,
    }
}

// What the calls of a table answer, a line for each. A call that yields a function is told by the length of the list and
// the function's truth table, since the order of what one call gains is the store's own; any other by its answer. The
// program crosscheck writes its numbers and tells its answers in another way.
pub(crate) fn run_table<S: Store>(
    heap: Global,
    store: &mut S,
    table: &str,
) -> anyhow::Result<String> {
    let mut told = String::new(heap);
    let mut answers = Vec::new(heap);
    let mut inputs = 0;
    for line in table.lines() {
        let mut fields = line.split(' ');
        let name = fields.next().unwrap_or("");
        let mut numbers = [0; 3];
        for number in &mut numbers {
            *number = operand(fields.next(), fields.next(), answers.as_slice());
        }
        // any other word asks for the length
        let request = Request::named(name, numbers).unwrap_or(Request::Length);
        let answer = request.run(store);
        answers.push(answer.unwrap_or(0))?;
        match (request, answer) {
            (_, Err(fault)) => {
                let stop = fault.number();
                writeln!(told, "stop {stop}")?;
            }
            (Request::Start(n), Ok(answer)) => {
                inputs = n;
                writeln!(told, "{answer}")?;
            }
            (Request::Yield(_) | Request::Majority(..), Ok(h)) => {
                let length = store.length();
                let digest = digest(store, h, inputs);
                writeln!(told, "{length} {digest}")?;
            }
            (_, Ok(answer)) => writeln!(told, "{answer}")?,
        }
    }
    Ok(told)
}
