// What the program does with its words, its input and its output.
ghost use Rattle.std.specs.Prelude.{◌≡◌, ◌≢◌, ◌↔◌, ◌⊎◌, ◌<◌, ◌≤◌, map, IfSome};
ghost use Rattle.fuse_program.specs.Form.{IsNoForm, form_of, gen_form_of, load_form_of};
ghost use Rattle.fuse_program.specs.Generated.{Generates};
ghost use Rattle.fuse_program.specs.Load.{Loads, WritesOneLine};
ghost use Rattle.fuse_program.specs.Program.{AnsweredInOrder, ByteExchange, EachAnswered, InputWell, Still, UntoldSession};
ghost use Rattle.fuse_program.specs.Status.{IsExit, IsGenStatus, IsLoadStatus, IsSessionStatus};

use crate::arguments::{GenForm, LoadForm, ServeForm, gen_form, load_form, serve_form};
use crate::load::summary_line;
use crate::status::{failure_status, status_of};
use fuse_config::Config;
use fuse_hello::{Hello, write_stream};
use fuse_session::{Ended, mount};
use fuse_wire::{ByteSink, ByteSource, StdSink, StdSource, StreamSink, StreamSource, write_all};
use std::io::{Read, Write};
use std::sync::Wait;
use std::thread::Threads;

/// How the program ended. It hands back its input and its output.
#[derive(Debug, Drop)]
pub struct Served<I, O> {
    /// The exit status: 0, or why not.
    pub status: u8,
    /// The input, after what was read.
    pub input: I,
    /// The output, after what was written.
    pub output: O,
}

/// Serves the tree.
fn serve_tree<R: Threads + Wait + AllocGlobal + Sync, I: ByteSource, O: ByteSink + Send>(
    rt: &R,
    form: ServeForm,
    input: I,
    output: O,
) -> Served<I, O>
    requires { 0 < form.page }
    ensures statuses { IsSessionStatus result.status }
    ensures untouched { result.status ≡ 9 → (result.input ≡ input) × (result.output ≡ output) }
    ensures answered { result.status ≡ 0 →
        EachAnswered form (I.told input) (I.told result.input) (O.told output) (O.told result.output) }
    ensures in_order { result.status ≡ 0 → form.threads ≤ 1 →
        AnsweredInOrder form (I.told input) (I.told result.input) (O.told output) (O.told result.output) }
    ensures session { result.status ≢ 9 →
        ByteExchange form result.status (I.told input) (I.told result.input) (O.told output) (O.told result.output) }
    ensures complete { InputWell form (I.told input) (I.told result.input) (O.told output) (O.told result.output) →
        (result.status ≡ 0) ⊎ (result.status ≡ 9) }
{
    let mut config = Config::new(rt.alloc());
    config.acl = form.acl;
    config.n_threads = Some(form.threads);
    let Ended {
        filesystem: _,
        source,
        sink,
        outcome,
        transcript,
    } = mount(
        rt,
        Hello,
        StreamSource::new(input),
        StreamSink::new(output),
        form.owner,
        form.page,
        &config,
    );
    let broken = sink.broken();
    Served {
        status: status_of(&outcome, transcript.lost, broken),
        input: source.into_inner(),
        output: sink.into_inner(),
    }
}

/// Writes the messages of `gen`. The input is not read.
fn generate<I, O: ByteSink>(form: GenForm, input: I, mut output: O) -> Served<I, O>
    ensures unread { result.input ≡ input }
    ensures generated { Generates form result.status (O.told output) (O.told result.output) }
{
    let whole = write_stream(&mut output, form.seed, form.count);
    Served {
        status: if whole { 0 } else { 8 },
        input,
        output,
    }
}

/// Serves the messages of `load`, and writes the line of what that came to. The input is not read.
fn load<R: Threads + Wait + AllocGlobal + Sync, I, O: ByteSink>(
    rt: &R,
    form: LoadForm,
    input: I,
    mut output: O,
) -> Served<I, O>
    ensures unread { result.input ≡ input }
    ensures loaded { Loads form result.status (O.told output) (O.told result.output) }
    ensures untouched { (result.status ≡ 9) ⊎ (result.status ≡ 10) → result.output ≡ output }
{
    let status = match summary_line(rt, form) {
        Ok(line) if write_all(&mut output, line.as_bytes()) => 0,
        Ok(_) => 8,
        Err(error) => failure_status(&error),
    };
    Served {
        status,
        input,
        output,
    }
}

/// Does what the words say, which stand after the program's own name: `serve THREADS ACL OWNER PAGE` serves the tree,
/// `gen SEED COUNT` writes messages that the seed gives, and `load SEED COUNT THREADS` serves these from memory.
pub fn serve<R: Threads + Wait + AllocGlobal + Sync, I: ByteSource, O: ByteSink + Send>(
    rt: &R,
    words: &[&[u8]],
    input: I,
    output: O,
) -> Served<I, O>
    // The status 2 comes exactly where the words are no form.
    ensures form { (result.status ≡ 2) ↔ IsNoForm (map (λ w. w.now) words.now) }

    // No status but these comes.
    ensures statuses { IsExit result.status }

    // With 2, and with 9 for want of memory, nothing is read or written.
    ensures untouched { (result.status ≡ 2) ⊎ (result.status ≡ 9) →
        (result.input ≡ input) × (result.output ≡ output) }

    // For `serve`: with 0 each message that was read has its one reply: see `EachAnswered`.
    ensures answered { result.status ≡ 0 → IfSome (form_of (map (λ w. w.now) words.now)) (λ form.
        EachAnswered form (I.told input) (I.told result.input) (O.told output) (O.told result.output)) }

    // On one thread these are in the order of the messages: see `AnsweredInOrder`.
    ensures in_order { result.status ≡ 0 → IfSome (form_of (map (λ w. w.now) words.now)) (λ form. form.threads ≤ 1 →
        AnsweredInOrder form (I.told input) (I.told result.input) (O.told output) (O.told result.output)) }

    // But for 2 and 9: what was read, written and lost, and why it ended so: see `ByteExchange`.
    ensures session { result.status ≢ 9 → IfSome (form_of (map (λ w. w.now) words.now)) (λ form.
        ByteExchange form result.status (I.told input) (I.told result.input) (O.told output) (O.told result.output)) }

    // Where nothing is amiss it ends with 0, or for want of memory.
    ensures complete { IfSome (form_of (map (λ w. w.now) words.now)) (λ form.
        InputWell form (I.told input) (I.told result.input) (O.told output) (O.told result.output) →
        (result.status ≡ 0) ⊎ (result.status ≡ 9)) }

    // For `gen`: nothing is read, and what is written are the first bytes of the stream, or all of them: see `Generates`.
    ensures generated { IfSome (gen_form_of (map (λ w. w.now) words.now)) (λ form.
        (result.input ≡ input) × Generates form result.status (O.told output) (O.told result.output)) }

    // Where the output did not fail, these are all.
    ensures all_generated { IfSome (gen_form_of (map (λ w. w.now) words.now)) (λ form.
        Still (O.told output).faults (O.told result.output).faults → result.status ≡ 0) }

    // For `load`: nothing is read, and what is written is the line of what the stream comes to, or a part: see `Loads`.
    ensures loaded { IfSome (load_form_of (map (λ w. w.now) words.now)) (λ form.
        (result.input ≡ input) × Loads form result.status (O.told output) (O.told result.output)) }

    // With 0 that line is the one that the stream has, on however many threads it is served: see `WritesOneLine`.
    ensures one_line { result.status ≡ 0 → IfSome (load_form_of (map (λ w. w.now) words.now)) (λ form.
        WritesOneLine form (O.told output) (O.told result.output)) }

    // Where no thread is to serve it, nothing is written.
    ensures unserved { result.status ≡ 10 → IfSome (load_form_of (map (λ w. w.now) words.now)) (λ form.
        result.output ≡ output) }

    // Where the output did not fail, and some thread is to serve, the whole line is, but for want of memory.
    ensures all_loaded { IfSome (load_form_of (map (λ w. w.now) words.now)) (λ form. 0 < form.threads →
        Still (O.told output).faults (O.told result.output).faults → (result.status ≡ 0) ⊎ (result.status ≡ 9)) }
{
    if let Some(form) = serve_form(words) {
        return serve_tree(rt, form, input, output);
    }
    if let Some(form) = gen_form(words) {
        return generate(form, input, output);
    }
    match load_form(words) {
        Some(form) => load(rt, form, input, output),
        None => Served {
            status: 2,
            input,
            output,
        },
    }
}

/// The same over these streams of std, of which nothing is told: the exit status.
pub fn run<R: Threads + Wait + AllocGlobal + Sync, I: Read + Drop, O: Write + Send + Drop>(
    rt: &R,
    words: &[&[u8]],
    input: I,
    output: O,
) -> u8
    ensures form { (result ≡ 2) ↔ IsNoForm (map (λ w. w.now) words.now) }
    ensures statuses { IsExit result }

    // For `serve`, but for 9: it is that of the outcome of a session: see `UntoldSession`.
    ensures session { result ≢ 9 → IfSome (form_of (map (λ w. w.now) words.now)) (λ form. UntoldSession form result) }
    ensures generated { IfSome (gen_form_of (map (λ w. w.now) words.now)) (λ form. IsGenStatus result) }
    ensures loaded { IfSome (load_form_of (map (λ w. w.now) words.now)) (λ form. IsLoadStatus form.threads result) }
{
    serve(rt, words, StdSource::new(input), StdSink::new(output)).status
}
