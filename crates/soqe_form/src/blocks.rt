//! The first block of a formula: the leftmost quantifier of a predicate whose body has none.
#![tactic(auto, unfolding(crate::specs::Boxes::boxes))]

ghost use Rattle.std.specs.Prelude.{◌≡◌, IfOk, [], reverse, Some};
ghost use Rattle.soqe_form.specs.Places.{first_block as first_block_of, within, leftmost};
ghost use Rattle.soqe_form.specs.Found.{upward, further, seen, seen_in};

use crate::form::{Block, Form, PVar};
use soqe_number::{Mem, Nums};
use sqlite_items::Boxed;
use std::alloc::Global;

/// A quantifier of a predicate as it stands in a formula, which is lent: a `Block` whose predicate and body are not copied.
#[derive(Drop)]
pub struct BlockRef<'a> {
    pub place: Nums,
    pub exists: bool,
    pub pred: &'a PVar,
    pub body: &'a Form,
}

impl<'a> BlockRef<'a> {
    /// The block by itself. It copies the predicate and the body.
    fn copied(self, alloc: Global) -> Mem<Block>
        ensures { IfOk result (λ b. b ≡ seen self.entry) }
    {
        let pred = self.pred.copy(alloc)?;
        let body = self.body.copy(alloc)?;
        let body = Boxed::new(alloc, body)?;
        Ok(Block {
            place: self.place,
            exists: self.exists,
            pred,
            body,
        })
    }
}

/// The leftmost quantifier of a predicate whose body has none, with its place, or none where the formula has no
/// quantifier of a predicate. It copies the body.
pub fn first_block(alloc: Global, form: &Form) -> Mem<Option<Block>>
    ensures { IfOk result (λ r. r ≡ first_block_of form.now) }
{
    match find_block(alloc, form)? {
        None => Ok(None),
        Some(block) => {
            let block = block.copied(alloc)?;
            Ok(Some(block))
        }
    }
}

/// The same block where it stands in the formula. It takes memory for the place alone.
#[tactic(auto, using(crate::proofs::Found::upward_twice), unfolding(crate::specs::Boxes::boxes))]
pub fn find_block(alloc: Global, form: &Form) -> Mem<Option<BlockRef<'_>>>
    ensures { IfOk result (λ r. seen_in r ≡ first_block_of form.now) }
{
    let block = find(alloc, form)?;
    turned(alloc, block)
}

/// The block with its place read from the end.
fn turned<'a>(alloc: Global, block: Option<BlockRef<'a>>) -> Mem<Option<BlockRef<'a>>>
    ensures { IfOk result (λ r. seen_in r ≡ upward (seen_in block.entry)) }
{
    match block {
        None => Ok(None),
        Some(block) => {
            let place = reversed(alloc, &block.place)?;
            Ok(Some(BlockRef {
                place,
                exists: block.exists,
                pred: block.pred,
                body: block.body,
            }))
        }
    }
}

/// The first block, its place from the block up to the root.
#[cycle(find)]
fn find(alloc: Global, form: &Form) -> Mem<Option<BlockRef<'_>>>
    ensures { IfOk result (λ r. seen_in r ≡ upward (first_block_of form.now)) }
{
    match form {
        Form::True => Ok(None),
        Form::False => Ok(None),
        Form::Equal(_, _) => Ok(None),
        Form::Atom(_, _) => Ok(None),
        Form::Not(f) => find_below(alloc, f),
        Form::And(f, g) => {
            let left = find_below(alloc, f)?;
            find_right(alloc, left, g)
        }
        Form::Or(f, g) => {
            let left = find_below(alloc, f)?;
            find_right(alloc, left, g)
        }
        Form::Imp(f, g) => {
            let left = find_below(alloc, f)?;
            find_right(alloc, left, g)
        }
        Form::Iff(f, g) => {
            let left = find_below(alloc, f)?;
            find_right(alloc, left, g)
        }
        Form::All(_, f) => find_below(alloc, f),
        Form::Ex(_, f) => find_below(alloc, f),
        Form::All2(p, f) => {
            let inner = find_below(alloc, f)?;
            inner_or(alloc, inner, false, p, f)
        }
        Form::Ex2(p, f) => {
            let inner = find_below(alloc, f)?;
            inner_or(alloc, inner, true, p, f)
        }
    }
}

/// The first block of an only or first child.
#[cycle(find)]
fn find_below(alloc: Global, form: &Boxed<Form>) -> Mem<Option<BlockRef<'_>>>
    ensures { IfOk result (λ r. seen_in r ≡ upward (within 0 (first_block_of form.now))) }
{
    let block = find(alloc, form.get())?;
    lengthened(block, 0)
}

/// The block found on the left, or else the first block of the second child.
#[cycle(find)]
fn find_right<'a>(
    alloc: Global,
    left: Option<BlockRef<'a>>,
    right: &'a Boxed<Form>,
) -> Mem<Option<BlockRef<'a>>>
    ensures { IfOk result (λ r. seen_in r ≡ leftmost (seen_in left.entry) (upward (within 1 (first_block_of right.now)))) }
{
    match left {
        Some(block) => Ok(Some(block)),
        None => {
            let block = find(alloc, right.get())?;
            lengthened(block, 1)
        }
    }
}

/// The block one child further down; the place is read from the end.
fn lengthened<'a>(block: Option<BlockRef<'a>>, child: u64) -> Mem<Option<BlockRef<'a>>>
    ensures { IfOk result (λ r. seen_in r ≡ further child (seen_in block.entry)) }
{
    match block {
        None => Ok(None),
        Some(block) => {
            let mut place = block.place;
            place.push(child)?;
            Ok(Some(BlockRef {
                place,
                exists: block.exists,
                pred: block.pred,
                body: block.body,
            }))
        }
    }
}

/// The block found in the body, or else the quantifier itself.
fn inner_or<'a>(
    alloc: Global,
    inner: Option<BlockRef<'a>>,
    exists: bool,
    pred: &'a PVar,
    body: &'a Boxed<Form>,
) -> Mem<Option<BlockRef<'a>>>
    ensures { IfOk result (λ r. seen_in r ≡ leftmost (seen_in inner.entry) (Some (record { place = []; exists = exists; pred = pred.now; body = body.now }))) }
{
    match inner {
        Some(block) => Ok(Some(block)),
        None => Ok(Some(BlockRef {
            place: Nums::new(alloc),
            exists,
            pred,
            body: body.get(),
        })),
    }
}

/// The numbers from last to first.
fn reversed(alloc: Global, nums: &Nums) -> Mem<Nums>
    ensures { IfOk result (λ r. r ≡ reverse nums.now) }
{
    let mut items: Vec<u64> = Vec::from_slice(alloc, nums.as_slice())?;
    items.reverse();
    Ok(Nums::from_vec(items))
}
