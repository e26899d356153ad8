//! Commands. A row is a list of arguments after the name of the program, with a blank between two;
//! an empty row has none. What command they are is said.

use base::NoMemory;
use cc_command::{Command, parse_command};
use s_linear::CodeForm;
use std::alloc::Global;

fn arguments_of(alloc: Global, row: &str) -> Result<Vec<String>, NoMemory> {
    let mut arguments = Vec::new(alloc);
    arguments.push(String::from_str(alloc, "rvcc")?)?;
    if row.is_empty() {
        return Ok(arguments);
    }
    for argument in row.split(' ') {
        arguments.push(String::from_str(alloc, argument)?)?;
    }
    Ok(arguments)
}

// A form that is not plain.
fn said(form: CodeForm) -> &'static str {
    match form {
        CodeForm::Plain => "",
        CodeForm::Tight => " tight",
    }
}

fn say_one(out: &mut String, command: Command<'_>) -> Result<(), NoMemory> {
    match command {
        Command::Accept => out.push_str("accept\n")?,
        Command::Build {
            source,
            image,
            recipe,
            workers,
            report,
            form,
        } => {
            let report = report.unwrap_or("-");
            write!(out, "from {source} to {image} workers {workers} ")?;
            write!(out, "recipe {recipe} report {report}{}\n", said(form))?;
        }
        Command::Run { image, steps } => write!(out, "run {image} steps {steps}\n")?,
        Command::Generate {
            start,
            functions,
            out: image,
        } => write!(out, "generate {functions} from {start} to {image}\n")?,
        Command::Check {
            source,
            log,
            image,
            form,
        } => write!(out, "check {source} by {log} for {image}{}\n", said(form))?,
        Command::Session {
            source,
            image,
            recipe,
            workers,
            form,
        } => {
            write!(
                out,
                "edit {source} to {image} workers {workers} recipe {recipe}{}\n",
                said(form)
            )?
        }
        Command::Interpret { source, bound } => write!(out, "interpret {source} bound {bound}\n")?,
    }
    Ok(())
}

/// Says the command of a row.
pub fn say_command(out: &mut String, row: &str) -> Result<(), NoMemory> {
    let alloc = *out.allocator();
    let arguments = arguments_of(alloc, row)?;
    match parse_command(alloc, &arguments) {
        Ok(Some(command)) => say_one(out, command),
        Ok(None) => Ok(out.push_str("usage\n")?),
        Err(_) => Err(NoMemory),
    }
}
