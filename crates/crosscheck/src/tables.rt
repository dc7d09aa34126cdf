//! Sequences of calls of a word store, as a table.
use calls::Request;
use stores::Words;

// Runs the calls of a table, a line for each, over this many words. A line is a call's name and its numbers.
pub(crate) fn run_table(rt: &HostRuntime, places: usize, table: &str) -> anyhow::Result<()> {
    let mut words = vec![in rt.alloc(); 0u64; places]?;
    let mut store = Words::new(words.as_mut_slice());
    for line in table.lines() {
        let mut fields = line.split(' ');
        let name = fields.next().unwrap_or("");
        let mut numbers = [0; 3];
        for number in &mut numbers {
            // the number that the word writes, or 0
            *number = fields.next().unwrap_or("").parse::<usize>().unwrap_or(0);
        }
        // Any other word asks for the length; so does a majority, which these tables do not have.
        let request = match Request::named(name, numbers) {
            None | Some(Request::Majority(..)) => Request::Length,
            Some(request) => request,
        };
        match request.run(&mut store) {
            Ok(answer) => println!(rt; "{answer}")?,
            Err(fault) => {
                let stop = fault.number();
                println!(rt; "stop {stop}")?;
            }
        }
    }
    Ok(())
}
