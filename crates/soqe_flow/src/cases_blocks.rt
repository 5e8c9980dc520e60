//! The lines of a block by cases: the normal form, the steps of its cases, and what they come to.
ghost use Rattle.std.specs.Prelude.{◌≡◌, ◌++◌, map, Some, IfOk};
ghost use Rattle.soqe_form.specs.Found.{seen};
ghost use Rattle.soqe_form.specs.declared.form.Form.{Form as Formula};
ghost use Rattle.soqe_form.specs.Places.{first_block as block_of};
ghost use Rattle.soqe_deriv.specs.declared.document.Line.TheVariants as line;
ghost use Rattle.soqe_flow.specs.declared.derivation.Wanted.TheVariants as wanted;
ghost use Rattle.soqe_flow.specs.Ordered.{normal as normal_of, closed_by as closed_of, answered, cases_lines, lost_lines};
ghost use Rattle.soqe_flow.specs.Running.{WritesBlock};

use crate::blocks::BlockEnd;
use crate::closing::{block_line, write_close};
use crate::simplifying::simplified;
use soqe_deriv::{Line, Lines, Method, Stop};
use soqe_dls::{DlsEnd, DlsSteps, dls};
use soqe_form::{BlockRef, Form};
use soqe_norm::nnf::nnf;
use soqe_number::{Mem, Nums};
use soqe_tidy::tidy_owned;
use sqlite_items::Boxed;
use std::alloc::Global;

/// The lines of a formula's first block, and what they come to. They cost what the cases do.
pub(crate) fn write_cases_block(
    alloc: Global,
    lines: &mut Lines,
    block: BlockRef<'_>,
    keep: &Nums,
) -> Mem<BlockEnd>
    ensures { IfOk result (λ end. (f : Formula) → block_of f ≡ Some (seen block.entry) → WritesBlock keep.now wanted.Dls f lines.old lines.new end) }
{
    let normal = normal(alloc, &block, keep)?;
    match dls(alloc, normal.get(), block.pred, keep)? {
        DlsEnd::Done {
            steps,
            form: answer,
        } => {
            write_cases(lines, &block, normal, steps)?;
            let part = closed_by(alloc, &block, answer, keep)?;
            write_close(alloc, lines, &part)?;
            Ok(BlockEnd::Closed {
                place: block.place,
                part,
            })
        }
        DlsEnd::NotReached { steps, case } => {
            write_cases(lines, &block, normal, steps)?;
            write_lost(lines, case)?;
            Ok(BlockEnd::Stopped(Stop::NotReached(case)))
        }
    }
}

/// The normal form of the block's body, or of its negation where its quantifier is universal, tidy.
fn normal(alloc: Global, block: &BlockRef, keep: &Nums) -> Mem<Boxed<Form>>
    ensures { IfOk result (λ f. f ≡ normal_of keep.now (seen block.now)) }
{
    let form = nnf(alloc, block.body, !block.exists)?;
    tidy_owned(alloc, form, keep)
}

/// What takes the block's place where its cases have come to the answer.
fn closed_by(alloc: Global, block: &BlockRef, answer: Boxed<Form>, keep: &Nums) -> Mem<Boxed<Form>>
    ensures { IfOk result (λ f. f ≡ closed_of keep.now (seen block.now) answer) }
{
    let form = turned(alloc, block, answer)?;
    simplified(alloc, form, keep)
}

/// The answer itself for an existential quantifier, the normal form of its negation for a universal one.
fn turned(alloc: Global, block: &BlockRef, answer: Boxed<Form>) -> Mem<Boxed<Form>>
    ensures { IfOk result (λ f. f ≡ answered (seen block.now) answer) }
{
    if block.exists {
        Ok(answer)
    } else {
        nnf(alloc, answer.get(), true)
    }
}

/// The lines of a block up to the end of its steps, which are moved.
fn write_cases(lines: &mut Lines, block: &BlockRef, normal: Boxed<Form>, steps: DlsSteps) -> Mem<()>
    ensures { IfOk result (λ u. lines.new ≡ lines.old ++ cases_lines (seen block.now) normal steps) }
{
    lines.push(block_line(Method::Dls, block))?;
    lines.push(Line::Nnf(normal))?;
    write_steps(lines, steps)
}

/// The steps of the cases, each as a line.
#[tactic(auto, using(std::proofs::Common::append_assoc))]
fn write_steps(lines: &mut Lines, steps: DlsSteps) -> Mem<()>
    ensures { IfOk result (λ u. lines.new ≡ lines.old ++ map line.Dls steps) }
{
    for step in steps.into_vec() {
        lines.push(Line::Dls(step))?;
    }
    Ok(())
}

/// The last lines of a block with a case that no try reaches.
fn write_lost(lines: &mut Lines, case: u64) -> Mem<()>
    ensures { IfOk result (λ u. lines.new ≡ lines.old ++ lost_lines case) }
{
    lines.push(Line::Stopped(Stop::NotReached(case)))?;
    lines.push(Line::End)?;
    Ok(())
}
