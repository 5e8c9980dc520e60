//! A status and the text that goes with it.
ghost use Rattle.std.specs.Prelude.{IfOk, codes};
ghost use Rattle.soqe_run.specs.Reply.{IsFixed, line};

use crate::Status;
use soqe_deriv::Document;
use soqe_io::Mem;
use std::alloc::Global;

/// A status and the text that goes with it. The document that the text is of, where there is one, is held until the text has gone:
/// a large block that is given back behind many small ones costs the allocator a walk over all of these.
#[derive(Drop)]
pub struct Reply {
    pub status: Status,
    pub text: Vec<u8>,
    pub document: Option<Document>,
}

/// The reply to words that aren't taken.
pub(crate) fn usage(alloc: Global) -> Mem<Reply>
    ensures { IfOk result (λ reply. IsFixed Status.Usage (line (codes "usage: soqe COMMAND [OPTIONS]"))
        reply.status reply.text.items) }
{
    fixed(alloc, Status::Usage, "usage: soqe COMMAND [OPTIONS]\n")
}

/// The reply to a text that is over its limit.
pub(crate) fn too_long(alloc: Global) -> Mem<Reply>
    ensures { IfOk result (λ reply. IsFixed Status.TooLong (line (codes "too long")) reply.status reply.text.items) }
{
    fixed(alloc, Status::TooLong, "too long\n")
}

/// The reply where a read failed.
pub(crate) fn read_fault(alloc: Global) -> Mem<Reply>
    ensures { IfOk result (λ reply. IsFixed Status.ReadFault (line (codes "read fault")) reply.status reply.text.items) }
{
    fixed(alloc, Status::ReadFault, "read fault\n")
}

/// A reply with a fixed text. The one error is want of memory.
fn fixed(alloc: Global, status: Status, text: &str) -> Mem<Reply>
    ensures { IfOk result (λ reply. IsFixed status text.now reply.status reply.text.items) }
{
    let text = text.as_bytes().to_vec(alloc)?;
    Ok(Reply {
        status,
        text,
        document: None,
    })
}
