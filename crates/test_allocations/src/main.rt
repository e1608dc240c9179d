//! Scenarios that a program in C cannot reach, in which any one allocation may be refused: a graph, a
//! header, a list of commands and a shared table of Rattle. Each call that may need memory is made; if
//! it was refused, all that can be asked is compared with its state before, and the call is retried and
//! must succeed. A call that takes no memory is made once. So the output is the same whichever
//! allocation is refused: a line for each scenario, as expected.
#![tactic(auto)]

mod bill;
mod graphs;
mod headers;
mod lists;
mod shares;
mod watch;

use crate::bill::Bill;
use std::process::ExitCode;

fn main(rt: HostRuntime) -> ExitCode {
    let mut bill = Bill::new(&rt);
    graphs::run(&mut bill);
    headers::run(&mut bill);
    lists::run(&mut bill);
    shares::run(&rt, &mut bill);
    ExitCode::from(bill.status())
}
