// Prints the source file of the queue's constant table, crates/queue/src/table.rt: for each value its realtime bucket and its timeshare offset.
#![tactic(auto)]

mod rule;

use rule::{offset, realtime_bucket};
use std::io;

fn table(stdout: &impl Print) -> io::Result<()> {
    println!(stdout;
        "// Two numbers for each value from 0 to 127: its realtime bucket, then its timeshare offset. The program priority_table prints this file."
    )?;
    println!(stdout; "pub const TABLE: [u64; 256] = [")?;
    for value in 0..128 {
        let bucket = realtime_bucket(value);
        let offset = offset(value);
        println!(stdout; "    {bucket}, // bucket of value {value}")?;
        println!(stdout; "    {offset}, // offset of value {value}")?;
    }
    println!(stdout; "];")
}

fn main(rt: HostRuntime) {
    if table(&rt.stdout()).is_err() {
        let stderr = rt.stderr();
        let _ = println!(stderr; "priority_table: standard output cannot be written");
    }
}
