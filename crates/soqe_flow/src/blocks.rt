//! The blocks of what stands, one after another.
ghost use Rattle.std.specs.Prelude.{◌≡◌, ◌∷◌, [], ◌++◌, None, IfOk};
ghost use Rattle.soqe_form.specs.Places.{first_block as block_of};
ghost use Rattle.soqe_form.specs.declared.form.Form.{Form as Formula};
ghost use Rattle.soqe_deriv.specs.declared.document.Line.TheVariants.{Start, Result, End};
ghost use Rattle.soqe_deriv.specs.Valid.{simplified as simplified_of};
ghost use Rattle.soqe_flow.specs.Ordered.{stands_with as stands_of};
ghost use Rattle.soqe_flow.specs.Running.{HasRun, Leads, WritesFirst};

use crate::cases_blocks::write_cases_block;
use crate::derivation::Wanted;
use crate::sign_blocks::write_sign_block;
use crate::simplifying::simplified;
use soqe_deriv::{Line, Lines, Stop};
use soqe_form::{Form, copy_boxed, find_block, put_beside, put_in};
use soqe_number::{Mem, Nums};
use sqlite_items::Boxed;
use std::alloc::Global;

/// The lines of a derivation, and its stop where it has one.
#[derive(Drop)]
pub(crate) struct Run {
    pub lines: Lines,
    pub stop: Option<Stop>,
}

/// What the lines of a block come to: the formula that takes its place, or the stop of a block that the method refused.
#[derive(Drop)]
pub(crate) enum BlockEnd {
    Closed { place: Nums, part: Boxed<Form> },
    Stopped(Stop),
}

/// The lines of the derivation of a goal. No binder of its formulas gets a number of `keep`. It ends, since each block takes a
/// quantifier of a predicate away and none is new. The formula that it starts with is lent to its first block, and then moved into
/// its line.
pub(crate) fn run_blocks(alloc: Global, goal: &Form, keep: &Nums, wanted: Wanted) -> Mem<Run>
    ensures { IfOk result (λ run. HasRun keep.now wanted (simplified_of keep.now goal.now) run.lines run.stop) }
{
    let start = started(alloc, goal, keep)?;
    let mut lines = Lines::new(alloc);
    match write_first(alloc, &mut lines, start.get(), wanted, keep)? {
        None => without_blocks(alloc, start),
        Some(BlockEnd::Closed { place, part }) => {
            let now = stands_beside(alloc, start.get(), &place, part, keep)?;
            let lines = begun(alloc, start, lines)?;
            go_on(alloc, lines, now, wanted, keep)
        }
        Some(BlockEnd::Stopped(stop)) => {
            let lines = begun(alloc, start, lines)?;
            Ok(Run {
                lines,
                stop: Some(stop),
            })
        }
    }
}

/// The formula that the derivation of a goal starts with. The goal is copied.
fn started(alloc: Global, goal: &Form, keep: &Nums) -> Mem<Boxed<Form>>
    ensures { IfOk result (λ f. f ≡ simplified_of keep.now goal.now) }
{
    let goal = goal.copy(alloc)?;
    let goal = Boxed::new(alloc, goal)?;
    let start = simplified(alloc, goal, keep)?;
    Ok(start)
}

/// The line of the formula that a derivation starts with, and other lines behind it. All are moved.
fn begun(alloc: Global, start: Boxed<Form>, more: Lines) -> Mem<Lines>
    ensures { IfOk result (λ lines. lines ≡ Start start ∷ more) }
{
    let mut lines = Lines::new(alloc);
    lines.push(Line::Start(start))?;
    lines.append(more)?;
    Ok(lines)
}

/// The run of a formula without blocks, which is copied once.
fn without_blocks(alloc: Global, start: Boxed<Form>) -> Mem<Run>
    requires { block_of start ≡ None }
    ensures { IfOk result (λ run. (run.lines ≡ Start start ∷ Result start ∷ End ∷ []) × (run.stop ≡ None)) }
{
    let mut lines = Lines::new(alloc);
    let line = copy_boxed(alloc, &start)?;
    lines.push(Line::Start(line))?;
    write_result(&mut lines, start)?;
    Ok(Run { lines, stop: None })
}

/// The lines of a derivation that has come to a formula, which goes on from there.
fn go_on(alloc: Global, begun: Lines, form: Boxed<Form>, wanted: Wanted, keep: &Nums) -> Mem<Run>
    ensures { IfOk result (λ run. (g : Formula) → Leads keep.now wanted g begun form → HasRun keep.now wanted g run.lines run.stop) }
{
    let mut lines = begun;
    let mut now = form;
    loop {
        match write_first(alloc, &mut lines, now.get(), wanted, keep)? {
            None => {
                write_result(&mut lines, now)?;
                return Ok(Run { lines, stop: None });
            }
            Some(BlockEnd::Closed { place, part }) => {
                now = stands(alloc, now, &place, part, keep)?;
            }
            Some(BlockEnd::Stopped(stop)) => {
                return Ok(Run {
                    lines,
                    stop: Some(stop),
                });
            }
        }
    }
}

/// What stands with a part at a place. All is moved.
fn stands(
    alloc: Global,
    form: Boxed<Form>,
    place: &Nums,
    part: Boxed<Form>,
    keep: &Nums,
) -> Mem<Boxed<Form>>
    ensures { IfOk result (λ f. f ≡ stands_of keep.now form place.now part) }
{
    let next = put_in(alloc, form, place.as_slice(), part)?;
    simplified(alloc, next, keep)
}

/// The same beside the formula: what stands around the place is copied.
fn stands_beside(
    alloc: Global,
    form: &Form,
    place: &Nums,
    part: Boxed<Form>,
    keep: &Nums,
) -> Mem<Boxed<Form>>
    ensures { IfOk result (λ f. f ≡ stands_of keep.now form.now place.now part) }
{
    let next = put_beside(alloc, form, place.as_slice(), part)?;
    simplified(alloc, next, keep)
}

/// The last lines behind a formula without blocks.
fn write_result(lines: &mut Lines, form: Boxed<Form>) -> Mem<()>
    ensures { IfOk result (λ u. lines.new ≡ lines.old ++ Result form ∷ End ∷ []) }
{
    lines.push(Line::Result(form))?;
    lines.push(Line::End)?;
    Ok(())
}

/// The lines of the formula's first block by the method that is asked for, and what they come to; none where it has no block.
fn write_first(
    alloc: Global,
    lines: &mut Lines,
    form: &Form,
    wanted: Wanted,
    keep: &Nums,
) -> Mem<Option<BlockEnd>>
    ensures { IfOk result (λ end. WritesFirst keep.now wanted form.now lines.old lines.new end) }
{
    match find_block(alloc, form)? {
        None => Ok(None),
        Some(block) => {
            let end = match wanted {
                Wanted::Sign => write_sign_block(alloc, lines, block, keep)?,
                Wanted::Dls => write_cases_block(alloc, lines, block, keep)?,
            };
            Ok(Some(end))
        }
    }
}
