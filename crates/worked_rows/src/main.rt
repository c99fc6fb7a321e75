//! Worked rows, which are data. The program reads the pages that standard input names, computes the
//! answer to each row in them, and writes a line for each row. The line is the row's name, or the
//! difference of its answer from the page. README.md has the format of a page.
#![tactic(auto)]

mod answers;
mod bytes;
mod calls;
mod checks;
mod ends;
mod pages;
mod rows;
mod runs;

use pages::Pages;
use std::process::ExitCode;
use std::{fs, io};

fn main(rt: HostRuntime) -> io::Result<ExitCode> {
    let alloc = rt.alloc();
    let mut pages = Pages::new(alloc);
    for name in rt.lines(alloc) {
        let name = name?;
        let page = fs::read_to_string(&rt, name.as_str())?;
        pages.try_page(&rt, alloc, name.as_str(), page.as_str())?;
    }
    Ok(if pages.all_hold() {
        ExitCode::SUCCESS
    } else {
        ExitCode::FAILURE
    })
}
