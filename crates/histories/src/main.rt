// Bench files with other settings and other ends than the bench program's own, since a receiver takes one client ready: for each
// file that an argument names its name, and the lines of its entries, fed to a fresh receiver.
#![tactic(auto)]

ghost use Rattle.std.specs.Prelude.{◌≤◌};
ghost use Rattle.report.specs.Report.{Enough};

use std::env::FillError;
use std::fs::File;
use std::os::fd::AsRawFd;
use std::rt::Env;

// Standard output, as the system numbers it.
const STANDARD_OUTPUT: i32 = 1;

// The lines of a file that is open: what is lent suffices for any.
fn print_opened(
    input: i32,
    space: &mut [u8],
    answers: &mut [u32],
    output: &mut [u8],
    page: &mut [u8],
) -> u64
    requires { Enough space.old answers.old output.old page.old }
    ensures { 1 ≤ result }
{
    report::print_file(input, space, answers, output, page)
}

// Prints the name of a file and the lines of its entries; of one that cannot be opened standard error is told.
fn print_named(
    rt: &HostRuntime,
    name: &str,
    space: &mut [u8],
    answers: &mut [u32],
    output: &mut [u8],
    page: &mut [u8],
)
    requires { Enough space.old answers.old output.old page.old }
{
    match File::open(rt, name) {
        Ok(file) => {
            let path = name.as_bytes();
            io::write_all(STANDARD_OUTPUT, path);
            io::write_all(STANDARD_OUTPUT, b"\n");
            print_opened(file.as_raw_fd(), space, answers, output, page);
        }
        Err(error) => {
            let _ = eprintln!(rt; "{name}: {error}");
        }
    }
}

// One argument's file, and whether there is such an argument. A name that is no text, or longer than any path, names no file that can be opened.
fn print_argument(
    rt: &HostRuntime,
    i: usize,
    space: &mut [u8],
    answers: &mut [u32],
    output: &mut [u8],
    page: &mut [u8],
) -> bool
    requires { Enough space.old answers.old output.old page.old }
{
    let mut path = io::buffer();
    match rt.arg(i, &mut path) {
        Ok(n) => match str::from_utf8(&path[..n]) {
            Ok(name) => print_named(rt, name, space, answers, output, page),
            Err(_) => {
                let _ = eprintln!(rt; "argument {i}: not UTF-8");
            }
        },
        Err(FillError::TooLong) => {
            let _ = eprintln!(rt; "argument {i}: File name too long");
        }
        Err(FillError::NotPresent) => return false,
    }
    true
}

// Argument 0 is the program's own name.
fn run(rt: &HostRuntime, space: &mut [u8], answers: &mut [u32], output: &mut [u8], page: &mut [u8])
    requires { Enough space.old answers.old output.old page.old }
{
    for i in 1..usize::MAX {
        if !print_argument(rt, i, space, answers, output, page) {
            return;
        }
    }
}

fn main(rt: HostRuntime) {
    let mut space = [0u8; 131072];
    let mut answers = [0u32; 3072];
    let mut output = [0u8; 2 * receiver::OUTPUT_MOST];
    let mut page = [0u8; 65536];
    run(&rt, &mut space, &mut answers, &mut output, &mut page);
}
