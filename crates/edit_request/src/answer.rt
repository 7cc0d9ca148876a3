//! Answers a request.
ghost use Rattle.std.specs.Prelude.{◌≤◌, IfOk};

use crate::error::RequestError;
use crate::fields::{
    changed_manifests, write_edits, write_error, write_lookups, write_manifests, write_message,
    write_messages, write_number,
};
use crate::request::{Request, read_request};
use edit_program::{RunFolders, try_run};
use edit_steps::RunResult;
use edit_store::MemoryStore;
use json::Writer;
use std::alloc::{AllocError, Global};

/// The response to a request.
#[derive(Drop)]
pub struct Response {
    /// The exit status: 0 where the request was carried out, 1 for an error of the plan, 2 for a malformed
    /// request or wrong options.
    pub status: u8,
    /// One line of JSON.
    pub text: String,
}

/// What a run of the program printed, and its result.
#[derive(Drop)]
struct Run {
    result: RunResult<u8>,
    out: Vec<u8>,
    err: Vec<u8>,
}

/// Runs the program over the files of a request.
fn run_over(alloc: Global, request: &mut Request) -> Result<Run, AllocError> {
    let args: Vec<&str> = request.args.iter().map(|arg| arg.as_str()).collect(alloc)?;
    let place = RunFolders {
        current: request.root.as_str(),
        cargo_home: None,
    };
    let mut out = Vec::new(alloc);
    let mut err = Vec::new(alloc);
    let result = try_run(
        alloc,
        &args,
        &place,
        &mut request.store,
        MemoryStore::new(alloc),
        &mut out,
        &mut err,
    );
    Ok(Run { result, out, err })
}

/// The text of bytes that were printed.
fn text_of(bytes: &[u8]) -> &str {
    std::str::from_utf8(bytes).unwrap_or("")
}

/// The exit status of a run: at most 2.
fn status_of(run: &Run) -> u8
    ensures { result ≤ 2 }
{
    match run.result {
        Ok(0) => 0,
        Ok(2) => 2,
        Ok(_) | Err(_) => 1,
    }
}

/// Writes the member `error` of a run: `null` where there was none.
fn write_run_error(alloc: Global, out: &mut Writer, run: &Run) -> Result<(), AllocError> {
    match &run.result {
        Err(failure) => write_error(alloc, out, failure),
        Ok(2) => write_message(out, text_of(&run.err)),
        Ok(_) => {
            out.key("error")?;
            out.null()
        }
    }
}

/// The text that was written.
fn written_text(out: Writer) -> Result<String, AllocError> {
    match String::from_utf8(out.into_inner()) {
        Ok(text) => Ok(text),
        Err(_) => Err(AllocError),
    }
}

/// The response to a request that was run. Its members are in the order of their keys.
fn respond(
    alloc: Global,
    request: &mut Request,
    run: &Run,
    status: u8,
) -> Result<String, AllocError> {
    let is_lookup = request
        .args
        .first()
        .is_some_and(|arg| arg.as_str() == "looks");
    let changed = changed_manifests(alloc, &mut request.store, &request.manifests)?;
    let mut out = Writer::new(Vec::new(alloc));
    out.begin_object()?;
    if !is_lookup {
        write_edits(alloc, &mut out, &changed)?;
    }
    write_run_error(alloc, &mut out, run)?;
    out.key("log")?;
    out.string(text_of(&run.err))?;
    if is_lookup {
        write_lookups(&mut out, text_of(&run.out))?;
    } else {
        write_manifests(&mut out, &changed)?;
        write_messages(alloc, &mut out, text_of(&run.out))?;
    }
    write_number(&mut out, "status", status as u64)?;
    write_number(&mut out, "version", 1)?;
    out.end_object()?;
    written_text(out)
}

/// The response to a malformed request.
fn respond_malformed(alloc: Global, message: &str) -> Result<String, AllocError> {
    let mut out = Writer::new(Vec::new(alloc));
    out.begin_object()?;
    write_message(&mut out, message)?;
    write_number(&mut out, "status", 2)?;
    write_number(&mut out, "version", 1)?;
    out.end_object()?;
    written_text(out)
}

/// Answers a request, a JSON document of this form (docs/PLAN.md has all members): the texts of manifests,
/// configurations and an index, with the options of `upgrade`, `looks` or `set-version`. The response has the
/// new texts and the messages of the run, or the error. No file is read or written.
pub fn answer_request(alloc: Global, request: &[u8]) -> Result<Response, AllocError>
    ensures status { IfOk result (λ a. a.status ≤ 2) }
{
    let mut request = match read_request(alloc, request) {
        Ok(request) => request,
        Err(RequestError::Memory) => return Err(AllocError),
        Err(RequestError::Malformed(message)) => {
            let text = respond_malformed(alloc, message.as_str())?;
            return Ok(Response { status: 2, text });
        }
    };
    let run = run_over(alloc, &mut request)?;
    let status = status_of(&run);
    let text = respond(alloc, &mut request, &run, status)?;
    Ok(Response { status, text })
}
