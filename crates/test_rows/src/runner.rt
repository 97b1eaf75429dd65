//! Runs the cases of the files that the arguments name, and compares their results.
use crate::case::{Case, CaseError, CaseResult};
use crate::outcome::case_outcome;
use crate::values::{Definition, Scope};
use perfdata_base::raw::Endianness;
use std::process::ExitCode;
use std::{env, fs};

// The definitions so far, and the numbers of cases and of those with another result.
#[derive(Drop)]
struct Runner<'a> {
    is_update: bool,
    definitions: Vec<Definition<'a>>,
    cases: u64,
    differing: u64,
}

// A block without the comments before it.
fn without_comments(block: &str) -> &str {
    let mut size = 0usize;
    for line in block.split('\n') {
        if !line.is_empty() && !line.starts_with('#') {
            break;
        }
        size = size.saturating_add(line.len()).saturating_add(1);
    }
    let (_, text) = block.split_at_checked(size).unwrap_or((block, ""));
    text.trim_end_matches('\n')
}

impl<'a> Runner<'a> {
    fn run_case(&mut self, rt: &HostRuntime, case: Case<'_>) -> CaseResult {
        let scope = Scope {
            alloc: rt.alloc(),
            definitions: &self.definitions,
            endian: Endianness::LittleEndian,
            turn: 0,
        };
        let outcome = match case_outcome(case, scope) {
            Ok(outcome) => outcome,
            Err(CaseError::OutOfMemory) => {
                String::from_str(rt.alloc(), "invalid case: out of memory\n")?
            }
            Err(CaseError::Invalid(reason)) => format!(in rt.alloc(); "invalid case: {reason}\n")?,
        };
        let is_expected = outcome.trim_end_matches('\n') == case.expected;
        self.cases = self.cases.saturating_add(1);
        self.differing = self.differing.saturating_add(u64::from(!is_expected));
        if self.is_update {
            print!(rt; "----\n{outcome}")?;
        } else if !is_expected {
            let (call, options, input) = (case.call, case.options, case.input);
            print!(rt; "{call} {options}\n{input}\n---- result:\n{outcome}")?;
            println!(rt; "---- expected:\n{}", case.expected)?;
        }
        Ok(())
    }

    // Runs a block of a file: definitions, a case or comments.
    fn run_block(&mut self, rt: &HostRuntime, block: &'a str) -> CaseResult {
        if self.is_update {
            let (text, _) = block.split_once("\n----").unwrap_or((block, ""));
            println!(rt; "{}", text.trim_matches('\n'))?;
        }
        let text = without_comments(block);
        match text.strip_prefix("let ") {
            Some(definitions) => {
                for definition in definitions.split("\nlet ") {
                    self.definitions.push(Definition::parse(definition)?)?;
                }
            }
            None if text.is_empty() => {}
            None => self.run_case(rt, Case::parse(text)?)?,
        }
        if self.is_update {
            println!(rt; "")?;
        }
        Ok(())
    }

    fn run_file(&mut self, rt: &HostRuntime, text: &'a str) -> CaseResult {
        for block in text.split("\n\n") {
            self.run_block(rt, block)?;
        }
        Ok(())
    }
}

// Runs the cases of all files. Returns whether all results are as expected.
fn run_files(rt: &HostRuntime) -> CaseResult<bool> {
    let mut is_update = false;
    let mut files = Vec::new(rt.alloc());
    for path in env::args(rt)?.skip(1) {
        match path.as_str() {
            "--update" => is_update = true,
            path => files.push(fs::read_to_string(rt, path)?)?,
        }
    }
    let mut run = Runner {
        is_update,
        definitions: Vec::new(rt.alloc()),
        cases: 0,
        differing: 0,
    };
    for text in files.iter() {
        run.run_file(rt, text)?;
    }
    if !is_update {
        println!(rt; "{} cases, {} differ", run.cases, run.differing)?;
    }
    Ok(run.differing == 0)
}

/// Runs the cases of the files that the arguments of the program name, and prints those with another result
/// than expected. The last line says how many cases there are, and how many differ. The exit status is 1 if
/// any differs, and 2 if a file can't be read.
///
/// A definition holds in its file and those after it. With the argument `--update` the files are printed with
/// the results in place of the expected ones.
pub fn run(rt: &HostRuntime) -> ExitCode {
    match run_files(rt) {
        Ok(is_expected) => ExitCode::from(u8::from(!is_expected)),
        Err(CaseError::OutOfMemory) => ExitCode::from(2),
        Err(CaseError::Invalid(reason)) => {
            let _ = eprintln!(rt; "{reason}");
            ExitCode::from(2)
        }
    }
}
