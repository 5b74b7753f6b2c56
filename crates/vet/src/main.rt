//! Vets contract.bin in the current folder: `vet [DAY]`.
#![tactic(auto)]

use anyhow::{Context, ensure};
use contract_file::FILE_BYTES;
use std::fs::File;
use std::io::{ErrorKind, Read};
use std::process::ExitCode;
use std::{env, io};

/// The contract file of the current folder.
const CONTRACT: &str = "contract.bin";

/// The signing day that the arguments give, 0 if they give none.
fn signing_day(rt: &HostRuntime) -> anyhow::Result<u32> {
    let mut args = env::args(rt)?.skip(1);
    let day = match args.next() {
        Some(text) => lines::number(text.as_bytes()).context(
            "DAY has to be a number of 1 to 10 digits that fits 32 bits, as in: vet 100",
        )?,
        None => 0,
    };
    ensure!(
        args.next().is_none(),
        "too many arguments: vet takes one at the most, the signing day, as in: vet 100"
    );
    Ok(day)
}

/// The bytes of the contract file, none if there is no such file.
/// One byte more than the longest file has is enough to tell that a file is too long.
fn contract(rt: &HostRuntime) -> io::Result<Vec<u8>> {
    let mut bytes = Vec::new(rt.alloc());
    match File::open(rt, CONTRACT) {
        Ok(file) => {
            file.take(FILE_BYTES as u64 + 1).read_to_end(&mut bytes)?;
            Ok(bytes)
        }
        Err(e) if e.kind() == ErrorKind::NotFound => Ok(bytes),
        Err(e) => Err(e),
    }
}

fn run(rt: &HostRuntime) -> anyhow::Result<()> {
    let day = signing_day(rt)?;
    let bytes = contract(rt).context(CONTRACT)?;
    let report = vetting::report(rt.alloc(), &bytes, day)?;
    rt.print(report)?;
    Ok(())
}

fn main(rt: HostRuntime) -> anyhow::Result<ExitCode> {
    match run(&rt) {
        Ok(()) => Ok(ExitCode::SUCCESS),
        Err(e) => {
            eprintln!(rt; "vet: {e:#}")?;
            Ok(ExitCode::FAILURE)
        }
    }
}
