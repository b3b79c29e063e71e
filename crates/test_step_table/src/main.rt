// Prints the step table, one number a line, kind 0 first: tests/step_table.py prints what it must be.
#![tactic(auto)]

fn main(rt: HostRuntime) {
    for place in 0..210 {
        let _ = println!(rt; "{}", steps::after(place / 105, place % 105));
    }
}
