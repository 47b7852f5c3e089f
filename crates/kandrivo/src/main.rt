//! The record fitter at the command line.
#![tactic(auto)]

mod calling;
mod checking;
mod drafting;
mod files;
mod fits;
mod listing;
mod outlining;
mod picking;
mod records;
mod sources;
mod taking;
mod words;

use calling::run_calls;
use checking::check_file;
use listing::list_fits;
use outlining::print_record;
use picking::pick_fit;
use std::process::ExitCode;
use std::{env, io};
use taking::print_book;
use words::number;

const USAGE: &str = "usage: kandrivo check FILE...
       kandrivo tree RECORD...
       kandrivo book FILE
       kandrivo list BOOK RECORD
       kandrivo pick BOOK RECORD K
       kandrivo run BOOK RECORD
       kandrivo help";

// Tells how the program is called, where it was called in another way.
fn tell_usage(rt: &HostRuntime) -> io::Result<bool> {
    eprintln!(rt; "{USAGE}")?;
    Ok(false)
}

// Does something with each name, with those behind one that went wrong too, and says whether all went well.
fn for_each<F: Fn(&HostRuntime, &str) -> io::Result<bool>>(
    rt: &HostRuntime,
    names: &[&str],
    act: F,
) -> io::Result<bool>
    requires { F.IsAlwaysCallable act }
{
    let mut went_well = true;
    for name in names {
        went_well &= act(rt, name)?;
    }
    Ok(went_well)
}

// Does what the words of a call ask for, and says whether all went well.
fn carry_out(rt: &HostRuntime, words: &[&str]) -> io::Result<bool> {
    match words {
        ["check", files @ ..] if !files.is_empty() => for_each(rt, files, check_file),
        ["tree", records @ ..] if !records.is_empty() => for_each(rt, records, print_record),
        ["book", book] => print_book(rt, book),
        ["list", book, record] => list_fits(rt, book, record),
        ["pick", book, record, k] => match number(k) {
            Some(number) => pick_fit(rt, book, record, number),
            None => tell_usage(rt),
        },
        ["run", book, record] => run_calls(rt, book, record),
        ["help"] => {
            println!(rt; "{USAGE}")?;
            Ok(true)
        }
        _ => tell_usage(rt),
    }
}

// A refusal, an unreadable file and a wrong call are told where they are met, so the status alone tells of them;
// an `Err` is told as the program ends.
fn main(rt: HostRuntime) -> io::Result<ExitCode> {
    let args: Vec<String> = env::args(&rt)?.skip(1).collect(rt.alloc())?;
    let words: Vec<&str> = args.iter().map(|arg| arg.as_str()).collect(rt.alloc())?;
    if carry_out(&rt, words.as_slice())? {
        Ok(ExitCode::SUCCESS)
    } else {
        Ok(ExitCode::FAILURE)
    }
}
