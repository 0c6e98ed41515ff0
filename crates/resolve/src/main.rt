// The program: thin, over the library. With no argument it shows the library at work on embedded examples. A refusal is a line that a script can
// read, on standard error; whatever else goes wrong is a message there. Both end with status 1.
#![tactic(auto)]

mod ask;
mod check;
mod compare;
mod failure;
mod folder;
mod listed;
mod lists;
mod network;
mod pack;
mod piles;
mod print;
mod session;
mod show;
mod sources;

use crate::failure::Failure;
use std::env;
use std::process::ExitCode;

fn run(rt: &HostRuntime) -> Result<(), Failure> {
    let arguments: Vec<String> = env::args(rt)?.skip(1).collect(rt.alloc())?;
    let words: Vec<&str> = arguments.iter().map(|a| a.as_str()).collect(rt.alloc())?;
    match words.as_slice() {
        [] => show::show(rt),
        ["tour"] => network::show(rt),
        ["list", manifest, sources @ ..] => lists::list(rt, manifest, sources),
        ["graph", manifest, sources @ ..] => lists::graph(rt, manifest, sources),
        ["why", manifest, path, sources @ ..] => lists::why(rt, manifest, path, sources),
        ["run", sources @ ..] => session::run(rt, sources),
        ["check", file] => check::check(rt, file),
        ["compare", a, b] => compare::compare(rt, a, b),
        ["show", path, version, sources @ ..] => ask::show(rt, path, version, sources),
        ["versions", path, sources @ ..] => ask::versions(rt, path, sources),
        ["pack", dir, file] => pack::pack(rt, dir, file),
        _ => Err(Failure::Usage),
    }
}

// An answer that refuses stands alone on its line, so that a script can read it; what else went wrong stands behind the program's name.
fn main(rt: HostRuntime) -> ExitCode {
    match run(&rt) {
        Ok(()) => ExitCode::SUCCESS,
        Err(failure) => {
            let front = if failure.is_answer() { "" } else { "resolve: " };
            let _ = eprintln!(rt; "{front}{failure}");
            ExitCode::FAILURE
        }
    }
}
