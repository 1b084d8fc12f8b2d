// Runs published examples on the library and prints each result beside its name. The file stdout has the published values.
#![tactic(auto)]

mod fips180;
mod fips197;
mod hex;
mod rfc2202;
mod rfc3711;

use std::io;

fn main(rt: HostRuntime) -> io::Result<()> {
    fips197::run(&rt)?;
    fips180::run(&rt)?;
    rfc2202::run(&rt)?;
    rfc3711::run(&rt)
}
