//! The program: serves a small tree of files to whoever speaks FUSE on its standard input and output, writes messages to
//! send to it, or serves these from memory and says what that came to.
#![tactic(auto)]

ghost use Rattle.std.specs.Prelude.{◌≡◌, ◌⊎◌, IfNone, IfSome, map};
ghost use Rattle.fuse_program.specs.Form.{form_of};

use fuse_device::{DeviceReader, FrameWriter};
use fuse_program::{failure_status, run, serve_form};
use fuse_session::SessionError;
use fuse_wire::consts::BUFFER_SIZE;
use std::alloc::{AllocError, Global};
use std::io::{BufReader, Read, Write};
use std::process::ExitCode;
use std::rt::Env;
use std::sync::Wait;
use std::thread::Threads;
use std::{env, io};

/// How many bytes of the input are read ahead, so that a small message costs no read of the system's.
const READ_AHEAD: usize = 65536;

/// How many are for these words: none where the input is not read, so that no memory is asked for.
fn read_ahead(words: &[&[u8]]) -> usize
    ensures read { IfSome (form_of (map (λ word. word.now) words.now)) (λ form. result ≡ 65536) }
    ensures unread { IfNone (form_of (map (λ word. word.now) words.now)) (result ≡ 0) }
{
    match serve_form(words) {
        Some(_) => READ_AHEAD,
        None => 0,
    }
}

/// The arguments of the process, without its own name.
fn words_of<R: Env + AllocGlobal>(rt: &R) -> io::Result<Vec<String>> {
    let mut words = Vec::new(rt.alloc());
    for word in env::args(rt)?.skip(1) {
        words.push(word)?;
    }
    Ok(words)
}

/// Their bytes.
fn bytes_of(alloc: Global, words: &[String]) -> Result<Vec<&[u8]>, AllocError> {
    let mut arguments = Vec::new(alloc);
    for word in words {
        arguments.push(word.as_bytes())?;
    }
    Ok(arguments)
}

/// How many bytes are read ahead of this input: so many, or room for the longest message where a read gives a whole one.
fn room_for<I: Read>(input: &mut DeviceReader<I>, ahead: usize) -> usize
    ensures { (result ≡ ahead) ⊎ (result ≡ 16781312) }
{
    if input.gives_whole_messages() {
        BUFFER_SIZE
    } else {
        ahead
    }
}

/// Runs on an input that is read, which may be the kernel's device. The error is that there was no memory for the input's
/// buffer or for a header that is held back.
fn run_device<R: Threads + Wait + AllocGlobal + Sync, I: Read + Drop, O: Write + Send + Drop>(
    rt: &R,
    arguments: &[&[u8]],
    ahead: usize,
    input: I,
    output: O,
) -> io::Result<u8> {
    let mut input = DeviceReader::new(input);
    let room = room_for(&mut input, ahead);
    let input = BufReader::with_capacity(rt.alloc(), room, input)?;
    let output = FrameWriter::new(rt.alloc(), output)?;
    Ok(run(rt, arguments, input, output))
}

/// The same on the arguments of the process, with the input read ahead where it is read. The error is that there was no
/// memory for the arguments or the input's buffer, and then nothing is read, or that the arguments can't be had.
fn run_process<
    R: Env + Threads + Wait + AllocGlobal + Sync,
    I: Read + Drop,
    O: Write + Send + Drop,
>(rt: &R, input: I, output: O) -> io::Result<u8> {
    let words = words_of(rt)?;
    let arguments = bytes_of(rt.alloc(), &words)?;
    match read_ahead(&arguments) {
        0 => Ok(run(rt, &arguments, input, output)),
        ahead => run_device(rt, &arguments, ahead, input, output),
    }
}

fn main(rt: HostRuntime) -> ExitCode {
    match run_process(&rt, rt.stdin(), rt.stdout()) {
        Ok(status) => ExitCode::from(status),
        Err(error) if error.kind() == io::ErrorKind::OutOfMemory => {
            ExitCode::from(failure_status(&SessionError::Memory))
        }
        Err(_) => ExitCode::from(2),
    }
}
