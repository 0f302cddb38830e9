// The script on standard input is answered on standard output, to its end. The exit status says how that went.
#![tactic(auto)]

use jobs::Ending;
use std::process::ExitCode;

// What a shell says of a program that a broken pipe has ended.
const BROKEN_PIPE: u8 = 141;

fn main(rt: HostRuntime) -> ExitCode {
    match jobs::run(rt.stdin(), rt.stdout(), rt.stderr()) {
        Ending::Whole => ExitCode::SUCCESS,
        Ending::CutOff => ExitCode::FAILURE,
        Ending::Unwanted => ExitCode::from(BROKEN_PIPE),
    }
}
