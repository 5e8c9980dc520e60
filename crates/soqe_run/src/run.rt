//! From words and source to a reply, and from the reply to the sink.
ghost use Rattle.std.specs.Prelude.{◌≡◌, ◌≢◌, ◌≤◌, map, string_bytes, IfOk, IsTrue};
ghost use Rattle.soqe_io.specs.Faults.{Rose};
ghost use Rattle.soqe_io.specs.Read.{IsReadWithin};
ghost use Rattle.soqe_run.specs.Answer.{Replies};
ghost use Rattle.soqe_run.specs.Plan.{the_plan};
ghost use Rattle.soqe_run.specs.Working.{Works};
ghost use Rattle.soqe_run.specs.Headline.{IsSolved};
ghost use Rattle.soqe_run.specs.Outcome.{EndsAs, IsDelivered, IsDue, most_read, says_no_read_failed};

use crate::reply::{read_fault, too_long, usage};
use crate::respond::respond;
use crate::{Plan, Reply, Status, read_plan};
use soqe_flow::Wanted;
use soqe_io::{Failed, Mem, ReadError, Sink, Source, read_up_to, write_whole};
use std::alloc::{AllocError, Global};

/// The most bytes of a problem text.
const MAX_BYTES: u64 = 1_048_576;

/// Takes the words, the program's name first, and the source's bytes to a text on the sink and a status.
///
/// Where the words are taken it reads the source, then builds the whole text, and then writes it in pieces of at most
/// 4,096 bytes. From the first write on it takes no memory. The order of refusals is: words, read fault, too long,
/// syntax, names, sorts, a stop of the method; a failed write is answered in place of any of them. Want of memory may come
/// at any step before the first write. Each status that says that no read failed, or that no write failed, comes only
/// where the count is as before.
pub fn run<S: Source, O: Sink>(alloc: Global, words: &[String], src: &mut S, out: &mut O) -> Status
    requires source_open { S.IsOpen src.old }
    requires sink_open { O.IsOpen out.old }
    ensures headline { result ≡ Status.Done
        → IsSolved (S.left src.old) (S.left src.new) (O.taken out.old) (O.taken out.new) }
    ensures ways { EndsAs
        (IsDue (map string_bytes words.now)
        (S.left src.old) (S.left src.new) (S.faults src.old) (S.faults src.new))
        (O.taken out.old) (O.taken out.new) (O.faults out.old) (O.faults out.new) result }
    ensures read { result ≡ Status.ReadFault → Rose (S.faults src.old) (S.faults src.new) }
    ensures write { result ≡ Status.WriteFault → Rose (O.faults out.old) (O.faults out.new) }
    ensures no_read_fault { IsTrue (says_no_read_failed result) → S.faults src.new ≡ S.faults src.old }
    ensures no_write_fault { result ≢ Status.WriteFault → O.faults out.new ≡ O.faults out.old }
    ensures within { IsReadWithin (most_read (the_plan (map string_bytes words.now)))
        (S.left src.old) (S.left src.new) }
    ensures source_later { S.faults src.old ≤ S.faults src.new }
    ensures sink_later { O.faults out.old ≤ O.faults out.new }
{
    match prepare(alloc, words, src) {
        Ok(reply) => deliver(&reply, out),
        Err(AllocError) => Status::Memory,
    }
}

/// What is to be written, and with which status.
fn prepare<S: Source>(alloc: Global, words: &[String], src: &mut S) -> Mem<Reply>
    requires { S.IsOpen src.old }
    ensures due { IfOk result (λ reply. IsDue (map string_bytes words.now)
        (S.left src.old) (S.left src.new) (S.faults src.old) (S.faults src.new)
        reply.status reply.text.items) }
    ensures within { IsReadWithin (most_read (the_plan (map string_bytes words.now)))
        (S.left src.old) (S.left src.new) }
    ensures later { S.faults src.old ≤ S.faults src.new }
{
    match read_plan(words) {
        Some(plan) => Ok(follow(alloc, plan, src)?),
        None => Ok(usage(alloc)?),
    }
}

/// What is to be written for a plan, and with which status.
fn follow<S: Source>(alloc: Global, plan: Plan, src: &mut S) -> Mem<Reply>
    requires { S.IsOpen src.old }
    ensures { Works S.left S.faults plan src.old src.new result }
{
    match plan {
        Plan::Elim(wanted) => elim(alloc, wanted, src),
    }
}

fn elim<S: Source>(alloc: Global, wanted: Wanted, src: &mut S) -> Mem<Reply>
    requires { S.IsOpen src.old }
    ensures { Works S.left S.faults (Plan.Elim wanted) src.old src.new result }
{
    match read_up_to(alloc, src, MAX_BYTES + 1) {
        Ok(bytes) => Ok(reply_to(alloc, wanted, bytes.as_slice())?),
        Err(ReadError::Fault) => read_fault(alloc),
        Err(ReadError::Memory) => Err(AllocError),
    }
}

/// The reply to all the bytes of a problem text, or to one more than it may have.
fn reply_to(alloc: Global, wanted: Wanted, bytes: &[u8]) -> Mem<Reply>
    ensures { IfOk result (λ reply. Replies (Plan.Elim wanted) bytes.now reply.status reply.text.items) }
{
    if bytes.len() as u64 > MAX_BYTES {
        return Ok(too_long(alloc)?);
    }
    Ok(respond(alloc, wanted, bytes)?)
}

/// Writes the text, and answers its status or the fault of the sink. It takes no memory.
fn deliver<O: Sink>(reply: &Reply, out: &mut O) -> Status
    requires { O.IsOpen out.old }
    ensures ways { IsDelivered reply.now.status reply.now.text.items
        (O.taken out.old) (O.taken out.new) (O.faults out.old) (O.faults out.new) result }
    ensures later { O.faults out.old ≤ O.faults out.new }
{
    match write_whole(out, &reply.text) {
        Ok(()) => reply.status,
        Err(Failed) => Status::WriteFault,
    }
}
