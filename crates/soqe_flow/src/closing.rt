//! The lines that open and close a block.
ghost use Rattle.std.specs.Prelude.{◌≡◌, ◌∷◌, [], ◌++◌, IfOk};
ghost use Rattle.soqe_deriv.specs.declared.document.Line.TheVariants.{Block as BlockLine, Close};
ghost use Rattle.soqe_form.specs.Found.{seen};
ghost use Rattle.soqe_form.specs.declared.form.Pred.TheVariants.{Bound};

use soqe_deriv::{Line, Lines, Method};
use soqe_form::{BlockRef, Form, Pred, copy_boxed};
use soqe_number::Mem;
use sqlite_items::Boxed;
use std::alloc::Global;

/// The line that opens a block by the method.
pub(crate) fn block_line(method: Method, block: &BlockRef) -> Line
    ensures { result ≡ BlockLine method (Bound (seen block.now).pred.num) }
{
    Line::Block {
        method,
        pred: Pred::Bound(block.pred.num),
    }
}

/// The line with the formula that takes the block's place, which is copied.
pub(crate) fn write_close(alloc: Global, lines: &mut Lines, closed: &Boxed<Form>) -> Mem<()>
    ensures { IfOk result (λ u. lines.new ≡ lines.old ++ Close closed.now ∷ []) }
{
    let line = copy_boxed(alloc, closed)?;
    lines.push(Line::Close(line))?;
    Ok(())
}
