//! The program `convexd`: it checks a module's text, or plays the script that stands behind one.
#![tactic(auto)]

ghost use Rattle.std.specs.Prelude.{◌≡◌};
ghost use Rattle.std.specs.Process.{exit_status};
ghost use Rattle.convexd.specs.Exits.{status_of};

mod check;
#[cfg(test)]
mod check_tests;
mod command;
#[cfg(test)]
mod error_tests;
mod exit;
mod laws;
mod lines;
mod replay;
#[cfg(test)]
mod tests;

pub use command::{check_main, replay_main, run};
use cv_outside::{StdSink, StdSource};
pub use exit::{Exit, ModuleFault};
pub use laws::{
    accepted_modules_end, answers_exclude_each_other, checks_exclude_each_other, good_inputs_end,
};
pub use lines::{Parts, cut};
use std::process::ExitCode;
use std::{env, io};

fn report(rt: &impl Eprint, exit: Exit) -> ExitCode
    ensures { exit_status result ≡ status_of exit }
{
    let (status, told) = match exit {
        Exit::Done => (0, Ok(())),
        Exit::Usage => (1, eprintln!(rt; "usage: convexd replay | check")),
        Exit::Module(ModuleFault::Syntax(fault)) => {
            (2, eprintln!(rt; "module {} {:?}", fault.at, fault.why))
        }
        Exit::Module(ModuleFault::Check(fault)) => {
            (2, eprintln!(rt; "module {} {:?}", fault.at, fault.kind))
        }
        Exit::Script { line } => (3, eprintln!(rt; "script {line}")),
        Exit::Read => (4, eprintln!(rt; "read")),
        Exit::Write => (5, eprintln!(rt; "write")),
        Exit::Memory => (6, eprintln!(rt; "memory")),
        Exit::TooLarge => (7, eprintln!(rt; "too large")),
    };
    // The status tells the same where standard error can't be written.
    let _ = told;
    ExitCode::from(status)
}

fn main(rt: HostRuntime) -> ExitCode {
    let alloc = rt.alloc();
    let args = match env::args(&rt) {
        Ok(args) => args,
        Err(error) if error.kind() == io::ErrorKind::OutOfMemory => {
            return report(&rt, Exit::Memory);
        }
        Err(_) => return report(&rt, Exit::Usage),
    };
    let mut words = Vec::new(alloc);
    for word in args.skip(1) {
        if words.push(word).is_err() {
            return report(&rt, Exit::Memory);
        }
    }
    let mut input = StdSource::new(rt.reader());
    let mut out = StdSink::new(io::writer(&rt));
    let exit = run(alloc, &words, &mut input, &mut out);
    report(&rt, exit)
}
