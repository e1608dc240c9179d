//! `glpicture`: draws the final state of a script of lock commands, from standard input to standard
//! output.
#![tactic(auto)]

use gl_interpreter::{PictureFault, RunFault, complain_of_picture, draw_script};
use std::env;
use std::process::ExitCode;

fn main(rt: HostRuntime) -> ExitCode {
    let mut faults = rt.stderr();
    let Ok(args) = env::args(&rt) else {
        return ExitCode::from(complain_of_picture(PictureFault::Words, &mut faults));
    };
    let Ok(words) = args.skip(1).collect::<Vec<String>>(rt.alloc()) else {
        let fault = PictureFault::Run(RunFault::Memory);
        return ExitCode::from(complain_of_picture(fault, &mut faults));
    };
    let (mut reader, mut writer) = (rt.stdin(), rt.stdout());
    ExitCode::from(draw_script(
        rt.alloc(),
        words.as_slice(),
        &mut reader,
        &mut writer,
        &mut faults,
    ))
}
