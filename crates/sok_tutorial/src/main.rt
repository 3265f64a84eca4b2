//! Compares the tutorial's page with the session that the tests play: the commands in its blocks,
//! and what is shown under each. The collection that it types lies beside it as a file.
#![tactic(auto)]

use sok_sketch::tutorial::{FILES, SESSION};
use std::alloc::{AllocError, Global};
use std::process::ExitCode;
use std::{fs, io};

fn main(rt: HostRuntime) -> io::Result<ExitCode> {
    let page = text_at(&rt, "TUTORIAL.md")?;
    let shown = shown(rt.alloc(), page.as_str())?;
    let session = session(rt.alloc())?;
    let (path, typed) = FILES[0];
    if text_at(&rt, path)?.as_str() != typed {
        println!(rt; "The file {path} should be:\n{typed}")?;
        return Ok(ExitCode::from(1));
    }
    if shown.as_str() == session.as_str() {
        println!(rt; "The tutorial shows the session that the tests play.")?;
        return Ok(ExitCode::from(0));
    }
    println!(rt; "The blocks of the tutorial should be:\n{session}")?;
    Ok(ExitCode::from(1))
}

/// A file of the tutorial, which lies in this folder or in its folder `data`.
fn text_at(rt: &HostRuntime, name: &str) -> io::Result<String> {
    match fs::read_to_string(rt, name) {
        Ok(text) => Ok(text),
        Err(_) => fs::read_to_string(rt, format!(in rt.alloc(); "data/{name}")?.as_str()),
    }
}

/// The lines of the page's blocks, each between two lines of three backquotes.
fn shown(alloc: Global, page: &str) -> Result<String, AllocError> {
    let mut text = String::new(alloc);
    let mut in_block = false;
    for line in page.lines() {
        if line.starts_with("```") {
            in_block = !in_block;
        } else if in_block {
            text.push_str(line)?;
            text.push_str("\n")?;
        }
    }
    Ok(text)
}

/// What is typed in the session, and what is printed.
fn session(alloc: Global) -> Result<String, AllocError> {
    let mut text = String::new(alloc);
    for &(path, typed) in &FILES {
        for &part in &["$ cat > ", path, " << 'END'\n", typed, "END\n"] {
            text.push_str(part)?;
        }
    }
    for &(line, out, err, _status) in &SESSION {
        for &part in &["$ ", line, "\n", out, err] {
            text.push_str(part)?;
        }
    }
    Ok(text)
}
