//! The lines of a block whose predicate is replaced by a truth value.
ghost use Rattle.std.specs.Prelude.{◌≡◌, ◌++◌, ℕ, Option, Some, None, true, is_some, IfOk};
ghost use Rattle.soqe_form.specs.Found.{seen};
ghost use Rattle.soqe_form.specs.declared.form.Form.{Form as Formula};
ghost use Rattle.soqe_form.specs.Places.{first_block as block_of};
ghost use Rattle.soqe_norm.specs.Valued.{value_for as value_of};
ghost use Rattle.soqe_norm.specs.Passes.{capped};
ghost use Rattle.soqe_flow.specs.declared.derivation.Wanted.TheVariants as wanted;
ghost use Rattle.soqe_flow.specs.Ordered.{replaced as replaced_of, closed as closed_of, sign_lines};
ghost use Rattle.soqe_flow.specs.Running.{WritesBlock, IsMixed, mixed_lines};

use crate::blocks::BlockEnd;
use crate::closing::{block_line, write_close};
use crate::simplifying::simplified;
use soqe_deriv::{Line, Lines, Method, Stop};
use soqe_form::{BlockRef, Form, Pred, copy_boxed};
use soqe_norm::signs::first_signs;
use soqe_norm::valued::{value_for, valued};
use soqe_number::{Mem, Nums};
use soqe_tidy::tidy_owned;
use sqlite_items::Boxed;
use std::alloc::{AllocError, Global};

/// The lines of a formula's first block, and what they come to.
pub(crate) fn write_sign_block(
    alloc: Global,
    lines: &mut Lines,
    block: BlockRef<'_>,
    keep: &Nums,
) -> Mem<BlockEnd>
    ensures { IfOk result (λ end. (f : Formula) → block_of f ≡ Some (seen block.entry) → WritesBlock keep.now wanted.Sign f lines.old lines.new end) }
{
    match value_for(&block) {
        None => {
            let stop = write_mixed(lines, &block)?;
            Ok(BlockEnd::Stopped(stop))
        }
        Some(value) => {
            let part = write_sign(alloc, lines, &block, value, keep)?;
            Ok(BlockEnd::Closed {
                place: block.place,
                part,
            })
        }
    }
}

/// The lines of a block whose predicate is replaced by a truth value, and the formula that takes its place.
fn write_sign(
    alloc: Global,
    lines: &mut Lines,
    block: &BlockRef,
    value: bool,
    keep: &Nums,
) -> Mem<Boxed<Form>>
    ensures lines { IfOk result (λ f. lines.new ≡ lines.old ++ sign_lines keep.now (seen block.now) value) }
    ensures part { IfOk result (λ f. f ≡ closed_of keep.now (seen block.now) value) }
{
    let due = replaced(alloc, block, value, keep)?;
    let copy = copy_boxed(alloc, &due)?;
    let closed = simplified(alloc, copy, keep)?;
    lines.push(block_line(Method::Sign, block))?;
    lines.push(Line::Replace { value, form: due })?;
    write_close(alloc, lines, &closed)?;
    Ok(closed)
}

/// A block's body with a truth value for its predicate, tidy.
fn replaced(alloc: Global, block: &BlockRef, value: bool, keep: &Nums) -> Mem<Boxed<Form>>
    ensures { IfOk result (λ f. f ≡ replaced_of keep.now (seen block.now) value) }
{
    let form = valued(alloc, block.body, block.pred.num, value)?;
    tidy_owned(alloc, form, keep)
}

/// The last lines of a block that has both signs, and its stop.
fn write_mixed(lines: &mut Lines, block: &BlockRef) -> Mem<Stop>
    requires { value_of (seen block.now) ≡ None }
    ensures lines { IfOk result (λ stop. lines.new ≡ lines.old ++ mixed_lines (seen block.now) stop) }
    ensures places { IfOk result (λ stop. IsMixed (seen block.now) stop) }
{
    let stop = mixed(block)?;
    lines.push(block_line(Method::Sign, block))?;
    lines.push(Line::Stopped(stop))?;
    lines.push(Line::End)?;
    Ok(stop)
}

/// The places where the block's predicate first has each sign.
fn mixed(block: &BlockRef) -> Mem<Stop>
    requires { value_of (seen block.now) ≡ None }
    ensures { IfOk result (λ stop. IsMixed (seen block.now) stop) }
{
    let first = first_signs(block.body, &Pred::Bound(block.pred.num));
    let pos = exact(first.pos)?;
    let neg = exact(first.neg)?;
    Ok(Stop::Mixed { pos, neg })
}

/// The place itself. The search caps a place at the greatest number of 64 bits, so that number is refused; no memory holds so
/// many atoms.
fn exact(place: Option<u64>) -> Mem<u64>
    requires { is_some place ≡ true }
    ensures { IfOk result (λ n. (o : Option ℕ) → place ≡ capped o → o ≡ Some n) }
{
    match place {
        Some(u64::MAX) => Err(AllocError),
        Some(n) => Ok(n),
        None => unreachable!(),
    }
}
