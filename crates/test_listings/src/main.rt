// Lists the sheets whose files its arguments name, each under a line with the name.
#![tactic(auto)]

use std::env::{Env, FillError};
use std::rt::Files;
use std::{fs, io};

fn main(rt: HostRuntime) -> io::Result<()> {
    // Names by their index, since `env::args` ends at one that is not UTF-8, and each is to be printed as it stands.
    for i in 1..usize::MAX {
        let mut name = [0u8; 4096];
        match rt.arg(i, &mut name) {
            Ok(n) => list_named(&rt, &name[..n])?,
            Err(FillError::TooLong) => list_named(&rt, &[])?,
            Err(FillError::NotPresent) => break,
        }
    }
    Ok(())
}

// Lists the sheet in the file of a name.
fn list_named<R: Files + Print>(rt: &R, name: &[u8]) -> io::Result<()> {
    rt.write_all(name)?;
    println!(rt)?;
    let Ok(path) = std::str::from_utf8(name) else {
        return println!(rt; "no such file");
    };
    match fs::open(rt, path) {
        Ok(mut file) => console::list_from(rt, &mut file),
        Err(_) => println!(rt; "no such file"),
    }
}
