//! Does a job that users of this software wait for, on documents that it makes itself, and prints a digest of what
//! comes of them: what `bench/run` times. Its arguments are the job (`all`: each of them), a seed below 2^32, and how
//! many documents; each seed makes others.
#![tactic(auto)]

mod digest;
mod jobs;
mod pieces;
mod random;
mod recording;

use command_line::{failed, misused};
use jobs::{JOBS, Job};
use std::process::ExitCode;
use std::rt::Env;
use std::{env, io};

/// The name at the front of what the program says of failures.
const PROGRAM: &str = "workloads";

/// What the arguments say.
#[derive(Drop)]
struct Words {
    name: String,
    seed: u32,
    documents: u32,
}

fn main(rt: HostRuntime) -> ExitCode {
    let Ok(words) = read_words(&rt) else {
        return failed(&rt, PROGRAM, "arguments not read");
    };
    let Some(words) = words else {
        return misused(&rt, "usage: workloads JOB|all SEED DOCUMENTS");
    };
    let all = words.name.as_str() == "all";
    for job in JOBS {
        if all || words.name.as_str() == job.name() {
            if let Err(status) = run(rt, job, &words) {
                return status;
            }
        }
    }
    ExitCode::SUCCESS
}

/// Does a job, and prints its digest.
fn run(rt: HostRuntime, job: Job, words: &Words) -> Result<(), ExitCode> {
    let Ok(sum) = job.run(rt.alloc(), words.seed, words.documents) else {
        return Err(failed(&rt, PROGRAM, "out of memory"));
    };
    match println!(rt; "{} {sum}", job.name()) {
        Ok(()) => Ok(()),
        Err(_) => Err(failed(&rt, PROGRAM, "write failed")),
    }
}

/// The arguments, where they are a name and two numbers.
fn read_words(rt: &(impl Env + AllocGlobal)) -> io::Result<Option<Words>> {
    let mut arguments = env::args(rt)?;
    let _program = arguments.next();
    let (Some(name), Some(seed), Some(documents)) = (
        arguments.next(),
        arguments.next(),
        arguments.next(),
    ) else {
        return Ok(None);
    };
    let (Ok(seed), Ok(documents), None) = (
        seed.as_str().parse::<u32>(),
        documents.as_str().parse::<u32>(),
        arguments.next(),
    ) else {
        return Ok(None);
    };
    Ok(Some(Words {
        name,
        seed,
        documents,
    }))
}
