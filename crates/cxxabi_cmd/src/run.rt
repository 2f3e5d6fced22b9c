//! The whole program as one call.

ghost use Rattle.std.specs.Prelude.{ℕ, ◌≡◌, ◌+◌, ◌↔◌, ◌≤◌, ◌<◌, ◌⊎◌, ◌∷◌, ◌++◌, [], List, Some, None, IsTrue, IfSome, IfOk, IfErr, IsSome, MatchOption, OnOk, take, drop, length, string_bytes};
ghost use Rattle.std.specs.Option.{option_map};
ghost use Rattle.cxxabi_streams.specs.Streams.{Rose, AddsFrontOf};
ghost use Rattle.cxxabi_words.specs.Commands.{Says, IsCommand};
ghost use Rattle.cxxabi_cmd.specs.Commands.{ReadsSource, TellsSource, input_of, divided_input};
ghost use Rattle.cxxabi_cmd.specs.Divided.{undivided_rule};
ghost use Rattle.cxxabi_cmd.specs.Output.{texts_of, Output, Answer, WritesAnswer, BreaksOff, IsAnswerWritten, IsSilent};
ghost use Rattle.cxxabi_cmd.specs.invariants.Replies.{as_answer, machine_of, IsReadToLimit};
ghost use Rattle.cxxabi_words.specs.invariants.Few.{HasFew};
ghost use Rattle.cxxabi_cmd.specs.Handed.{HandsOut, seen_machine};
ghost use Rattle.foundation.specs.Limits.{source_limit};

use crate::answer::answer;
use crate::reply::{Reply, line_alone, stopped};
use crate::status::{InputRule, Status};
use crate::verdict::judge;
use abi_cookie::{one_answer, some_answer};
use abi_foreign::{listing_or_refusal, one_listing, one_refusal};
use abi_inspect::{one_reading, some_reading};
use abi_tables::{one_tables, some_tables};
use byte_machine::Machine;
use byte_memory::PageMemory;
use cxx_gen::generate;
use cxx_hierarchy::LimitNo;
use cxx_typing::programs_are_typed;
use cxxabi_input::{Parts, divide, line_count};
use cxxabi_streams::{ReadStop, Sink, Source, read_source, write_text};
use cxxabi_words::{Command, command_of};
use foundation::{NoMemory, SOURCE_LIMIT};
use path_model::runs_are_typed;
use std::alloc::Global;

// The parts of the input of a command.
fn parts_of<'a>(command: &Command, input: &'a [u8]) -> Option<Parts<'a>>
    ensures { MatchOption result (divided_input command.now input.now ≡ None) (λ parts. divided_input command.now input.now ≡ Some (parts.front.now, parts.source.now)) }
{
    match command {
        Command::Inspect | Command::Foreign(_) => divide(input),
        _ => Some(Parts {
            front: &input[..0],
            source: input,
        }),
    }
}

// The rule on an input that no line divides.
fn undivided_rule(command: &Command) -> InputRule
    ensures { result ≡ undivided_rule command.now }
{
    match command {
        Command::Foreign(_) => InputRule::F1,
        _ => InputRule::I2,
    }
}

// What a command answers to the bytes of an input.
fn reply_to(alloc: Global, command: &Command, bytes: &[u8]) -> Result<Reply, NoMemory>
    requires short { length bytes.now ≤ source_limit }
    requires few { HasFew command.now }
    ensures output { IfOk result (λ reply. (words : List (List ℕ)) (given : List ℕ) → Says words command.now → bytes.now ≡ input_of command.now given → Output words given (as_answer reply)) }
    ensures machine { IfOk result (λ reply. (words : List (List ℕ)) (given : List ℕ) → Says words command.now → bytes.now ≡ input_of command.now given → HandsOut words given (machine_of reply)) }
    ensures answered { IfOk result (λ reply. IsAnswerWritten reply.status) }
{
    let Some(parts) = parts_of(command, bytes) else {
        let line = line_count(bytes) + 1;
        return line_alone(
            alloc,
            Status::BadInput(undivided_rule(command), line as usize),
        );
    };
    match judge(alloc, parts.source) {
        Ok(accepted) => {
            let size = parts.source.len() as u32;
            answer(alloc, command, parts.front, size, &accepted)
        }
        Err(stop) => stopped(alloc, stop),
    }
}

// What a command answers to what was read of its source, up to one byte past the limit.
fn reply_within(alloc: Global, command: &Command, bytes: &[u8]) -> Result<Reply, NoMemory>
    requires few { HasFew command.now }
    ensures output { IfOk result (λ reply. (words : List (List ℕ)) (given : List ℕ) → Says words command.now → IsReadToLimit bytes.now (input_of command.now given) → Output words given (as_answer reply)) }
    ensures machine { IfOk result (λ reply. (words : List (List ℕ)) (given : List ℕ) → Says words command.now → IsReadToLimit bytes.now (input_of command.now given) → HandsOut words given (machine_of reply)) }
    ensures answered { IfOk result (λ reply. IsAnswerWritten reply.status) }
{
    if bytes.len() > SOURCE_LIMIT {
        return line_alone(alloc, Status::Limit(LimitNo::L1));
    }
    reply_to(alloc, command, bytes)
}

// The source that a command treats: what `gen` makes, or what is read, up to one byte past the limit.
fn source_for<S: Source>(
    alloc: Global,
    command: &Command,
    source: &mut S,
) -> Result<Vec<u8>, ReadStop>
    ensures read { IfOk result (λ bytes. (given : List ℕ) → (ReadsSource command.now → S.remaining source.old ≡ Some given) → IsReadToLimit bytes.items (input_of command.now given)) }
    ensures left { OnOk result (ReadsSource command.now → IfSome (S.remaining source.old) (λ bytes. S.remaining source.new ≡ Some (drop (source_limit + 1) bytes))) }
    ensures kept { (ReadsSource command.now → ⊥) → source.new ≡ source.old }
    ensures fault { IfErr result (λ stop. stop ≡ ReadStop.Fault → Rose (S.fault_count source.old) (S.fault_count source.new)) }
{
    if let Command::Gen(n) = command {
        return Ok(generate(alloc, *n)?);
    }
    read_source(alloc, source)
}

// What is answered to the words, after the source was read where they are a command that reads it.
fn respond<S: Source>(alloc: Global, words: &[String], source: &mut S) -> Result<Reply, ReadStop>
    ensures output { IfOk result (λ reply. (bytes : List ℕ) → TellsSource (texts_of words.now) (S.remaining source.old) bytes →
        Output (texts_of words.now) bytes (as_answer reply)) }
    ensures machine { IfOk result (λ reply. (bytes : List ℕ) → TellsSource (texts_of words.now) (S.remaining source.old) bytes →
        HandsOut (texts_of words.now) bytes (machine_of reply)) }
    ensures answered { IfOk result (λ reply. IsAnswerWritten reply.status) }
    ensures read { OnOk result ((command : Command) → Says (texts_of words.now) command → ReadsSource command → IfSome (S.remaining source.old) (λ bytes. S.remaining source.new ≡ Some (drop (source_limit + 1) bytes))) }
    ensures kept { ((command : Command) → Says (texts_of words.now) command → ReadsSource command → ⊥) → source.new ≡ source.old }
    ensures fault { IfErr result (λ stop. stop ≡ ReadStop.Fault → Rose (S.fault_count source.old) (S.fault_count source.new)) }
{
    let Some(command) = command_of(alloc, words)? else {
        return Ok(line_alone(alloc, Status::Usage)?);
    };
    let bytes = source_for(alloc, &command, source)?;
    Ok(reply_within(alloc, &command, &bytes)?)
}

// Writes a text and says how the call ended.
fn deliver<K: Sink>(sink: &mut K, text: &[u8], status: Status) -> Status
    requires { IsAnswerWritten status }
    ensures either { (result ≡ status) ⊎ (result ≡ Status.WriteFault) }
    ensures whole { result ≡ status → IfSome (K.contents sink.old) (λ taken. K.contents sink.new ≡ Some (taken ++ text.now)) }
    ensures part { result ≡ Status.WriteFault → IfSome (K.contents sink.old) (λ taken. AddsFrontOf taken text.now (K.contents sink.new)) }
    ensures fault { result ≡ Status.WriteFault → Rose (K.fault_count sink.old) (K.fault_count sink.new) }
{
    if write_text(sink, text) {
        status
    } else {
        Status::WriteFault
    }
}

/// Does all that the program does: reads the source where the words are a command that reads it, and writes the answer.
///
/// `last` is set in every call: to the byte machine of what `run`, `gen` or `foreign` ran, or to None where there was no such run.
pub fn run_cxxabi<S: Source, K: Sink>(
    alloc: Global,
    words: &[String],
    source: &mut S,
    sink: &mut K,
    last: &mut Option<Machine<PageMemory>>,
) -> Status
    // The text and the status are those of the words and of the source's bytes.
    ensures answered { (bytes : List ℕ) → TellsSource (texts_of words.now) (S.remaining source.old) bytes → IsAnswerWritten result →
        WritesAnswer (texts_of words.now) bytes (K.contents sink.old) (K.contents sink.new) result }
    // Where the sink fails, it has a front of that text.
    ensures breaks_off { (bytes : List ℕ) → TellsSource (texts_of words.now) (S.remaining source.old) bytes → result ≡ Status.WriteFault →
        BreaksOff (texts_of words.now) bytes (K.contents sink.old) (K.contents sink.new) }
    // A fault comes only where the count of the object that was handed in rose.
    ensures read_fault { result ≡ Status.ReadFault → Rose (S.fault_count source.old) (S.fault_count source.new) }
    ensures write_fault { result ≡ Status.WriteFault → Rose (K.fault_count sink.old) (K.fault_count sink.new) }
    // After a fault of the source, or without memory, the sink is as it was.
    ensures silent { IsSilent result → sink.new ≡ sink.old }
    // The machine that is handed out is that of the run: its own turns made the text, and unless that passed the limit it has ended as the run did.
    ensures last { (bytes : List ℕ) → TellsSource (texts_of words.now) (S.remaining source.old) bytes → (IsSilent result → ⊥) →
        HandsOut (texts_of words.now) bytes (option_map (λ m. seen_machine m) last.new) }
    ensures no_machine { IsSilent result → last.new ≡ None }
    // The source was read to its end, or to one byte past the limit; where the words are no command that reads it, it is as it was.
    ensures read { (command : Command) → Says (texts_of words.now) command → ReadsSource command → (IsSilent result → ⊥) → IfSome (S.remaining source.old) (λ bytes. S.remaining source.new ≡ Some (drop (source_limit + 1) bytes)) }
    ensures kept { ((command : Command) → Says (texts_of words.now) command → ReadsSource command → ⊥) → source.new ≡ source.old }
{
    *last = None;
    let reply = match respond(alloc, words, source) {
        Ok(reply) => reply,
        Err(ReadStop::Fault) => return Status::ReadFault,
        Err(ReadStop::NoMemory) => return Status::NoMemory,
    };
    let status = deliver(sink, &reply.text, reply.status);
    *last = reply.machine;
    status
}

/// Words and the bytes of a source have one answer, as a law for readers of `Output`. It does nothing.
pub fn one_output()
    ensures { (words : List (List ℕ)) (bytes : List ℕ) (a b : Answer) → Output words bytes a → Output words bytes b → a ≡ b }
{
    one_tables();
    one_answer();
    one_reading();
    one_listing();
    one_refusal();
}

/// Words and the bytes of a source have an answer, as a law for readers of `Output`. It does nothing.
pub fn some_output()
    ensures { (words : List (List ℕ)) (bytes : List ℕ) → (answer : Answer) × Output words bytes answer }
{
    some_tables();
    some_answer();
    some_reading();
    listing_or_refusal();
    programs_are_typed();
    runs_are_typed();
}
