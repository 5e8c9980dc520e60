//! From the bytes of a problem text to a reply.
ghost use Rattle.std.specs.Prelude.{◌≡◌, ◌++◌, ℕ, List, IfOk, IsTrue};
ghost use Rattle.std.specs.Fmt.{decimal};
ghost use Rattle.soqe_text.specs.Spelled.{Spells};
ghost use Rattle.soqe_text.specs.Sorted.{IsSorted};
ghost use Rattle.soqe_deriv.specs.Text.{document_text};
ghost use Rattle.soqe_run.specs.Reply.{IsFixed, is_reply, line};
ghost use Rattle.soqe_run.specs.Responds.{Responds, status_of};

use crate::{Reply, Status};
use soqe_deriv::{Document, Stop, write_document};
use soqe_flow::{FlowEnd, Wanted, elim};
use soqe_io::Mem;
use soqe_text::{Command, Problem, TextFault, read_problem};
use std::alloc::{AllocError, Global};

/// The engine: the reply to a text that isn't over its limit. The one error is want of memory.
pub(crate) fn respond(alloc: Global, wanted: Wanted, bytes: &[u8]) -> Mem<Reply>
    ensures responds { IfOk result (λ reply. Responds wanted bytes.now reply.status reply.text.items) }
    ensures status { IfOk result (λ reply. IsTrue (is_reply reply.status)) }
{
    match read_problem(alloc, Command::Elim, bytes) {
        Ok(problem) => Ok(derive(alloc, wanted, problem)?),
        Err(TextFault::Syntax(at)) => Ok(refused_at(alloc, Status::Syntax, "syntax at ", at)?),
        Err(TextFault::Names(at)) => Ok(refused_at(alloc, Status::Names, "names at ", at)?),
        Err(TextFault::Sorts(at)) => Ok(refused_at(alloc, Status::Sorts, "sorts at ", at)?),
        Err(TextFault::Memory) => Err(AllocError),
    }
}

/// The reply to a text that spells the problem: its derivation, with a result or with a stop.
fn derive(alloc: Global, wanted: Wanted, problem: Problem) -> Mem<Reply>
    requires { IsSorted problem }
    ensures responds { IfOk result (λ reply. (bytes : List ℕ) → Spells bytes problem
        → Responds wanted bytes reply.status reply.text.items) }
    ensures status { IfOk result (λ reply. IsTrue (is_reply reply.status)) }
{
    match elim(alloc, problem, wanted) {
        Ok(FlowEnd::Done(document)) => Ok(written(alloc, Status::Done, document)?),
        Ok(FlowEnd::Stopped { document, stop }) => {
            Ok(written(alloc, stop_status(stop), document)?)
        }
        Err(AllocError) => Err(AllocError),
    }
}

/// The status of a stop.
fn stop_status(stop: Stop) -> Status
    ensures { result ≡ status_of stop }
{
    match stop {
        Stop::Mixed { .. } => Status::Mixed,
        Stop::NotReached(_) => Status::NotReached,
    }
}

/// The reply with the text of a document.
fn written(alloc: Global, status: Status, document: Document) -> Mem<Reply>
    ensures { IfOk result (λ reply. IsFixed status (document_text document) reply.status reply.text.items) }
{
    let text = write_document(alloc, &document)?;
    Ok(Reply {
        status,
        text,
        document: Some(document),
    })
}

/// The reply to a text that is refused, with the words in front of the offset.
fn refused_at(alloc: Global, status: Status, words: &str, at: u64) -> Mem<Reply>
    ensures { IfOk result (λ reply. IsFixed status (line (words.now ++ decimal at)) reply.status reply.text.items) }
{
    let text = format!(in alloc; "{words}{at}\n")?;
    Ok(Reply {
        status,
        text: text.into_bytes(),
        document: None,
    })
}
