//! Formulas, held by boxes, and their copies.
ghost use Rattle.std.specs.Prelude.{◌≡◌, IfOk};

use soqe_number::{Mem, Nums, Sorts};
use soqe_term::{Term, Terms, Var, copy_term};
use sqlite_items::Boxed;
use std::alloc::Global;

/// A predicate: declared by the signature, or bound by a quantifier.
#[derive(Clone, Copy, Debug, PartialEq, Eq)]
pub enum Pred {
    Decl(u32),
    Bound(u64),
}

/// A bound predicate with the sorts of its arguments.
#[derive(Drop)]
pub struct PVar {
    pub num: u64,
    pub args: Sorts,
}

impl PVar {
    /// A bound predicate that equals this one.
    pub fn copy(&self, alloc: Global) -> Mem<PVar>
        ensures { IfOk result (λ copy. copy ≡ self.now) }
    {
        let args = self.args.copy(alloc)?;
        Ok(PVar {
            num: self.num,
            args,
        })
    }
}

/// A formula. It is held by boxes that contracts see as the formulas in them.
#[derive(Drop)]
pub enum Form {
    True,
    False,
    Equal(Boxed<Term>, Boxed<Term>),
    Atom(Pred, Terms),
    Not(Boxed<Form>),
    And(Boxed<Form>, Boxed<Form>),
    Or(Boxed<Form>, Boxed<Form>),
    Imp(Boxed<Form>, Boxed<Form>),
    Iff(Boxed<Form>, Boxed<Form>),
    All(Var, Boxed<Form>),
    Ex(Var, Boxed<Form>),
    All2(PVar, Boxed<Form>),
    Ex2(PVar, Boxed<Form>),
}

/// A quantifier of a predicate with its body, and its place: the children that lead to it from the root, 0 the first
/// and 1 the second.
#[derive(Drop)]
pub struct Block {
    pub place: Nums,
    pub exists: bool,
    pub pred: PVar,
    pub body: Boxed<Form>,
}

impl Block {
    /// A block that equals this one. It allocates each node of the body anew, and recurses as deep as the body.
    pub fn copy(&self, alloc: Global) -> Mem<Block>
        ensures { IfOk result (λ copy. copy ≡ self.now) }
    {
        let place = self.place.copy(alloc)?;
        let pred = self.pred.copy(alloc)?;
        let body = copy_boxed(alloc, &self.body)?;
        Ok(Block {
            place,
            exists: self.exists,
            pred,
            body,
        })
    }
}

impl Form {
    /// A formula that equals this one. It allocates each node anew.
    #[cycle(copy)]
    pub fn copy(&self, alloc: Global) -> Mem<Form>
        ensures { IfOk result (λ copy. copy ≡ self.now) }
    {
        match self {
            Form::True => Ok(Form::True),
            Form::False => Ok(Form::False),
            Form::Equal(s, t) => {
                let s = copy_term(alloc, s)?;
                let t = copy_term(alloc, t)?;
                Ok(Form::Equal(s, t))
            }
            Form::Atom(p, ts) => {
                let ts = ts.copy(alloc)?;
                Ok(Form::Atom(*p, ts))
            }
            Form::Not(f) => {
                let f = copy_boxed(alloc, f)?;
                Ok(Form::Not(f))
            }
            Form::And(f, g) => {
                let f = copy_boxed(alloc, f)?;
                let g = copy_boxed(alloc, g)?;
                Ok(Form::And(f, g))
            }
            Form::Or(f, g) => {
                let f = copy_boxed(alloc, f)?;
                let g = copy_boxed(alloc, g)?;
                Ok(Form::Or(f, g))
            }
            Form::Imp(f, g) => {
                let f = copy_boxed(alloc, f)?;
                let g = copy_boxed(alloc, g)?;
                Ok(Form::Imp(f, g))
            }
            Form::Iff(f, g) => {
                let f = copy_boxed(alloc, f)?;
                let g = copy_boxed(alloc, g)?;
                Ok(Form::Iff(f, g))
            }
            Form::All(x, f) => {
                let f = copy_boxed(alloc, f)?;
                Ok(Form::All(*x, f))
            }
            Form::Ex(x, f) => {
                let f = copy_boxed(alloc, f)?;
                Ok(Form::Ex(*x, f))
            }
            Form::All2(p, f) => {
                let f = copy_boxed(alloc, f)?;
                let p = p.copy(alloc)?;
                Ok(Form::All2(p, f))
            }
            Form::Ex2(p, f) => {
                let f = copy_boxed(alloc, f)?;
                let p = p.copy(alloc)?;
                Ok(Form::Ex2(p, f))
            }
        }
    }

    /// Lets go of the formula. A loop goes through negations, bodies and right sides, so that it takes a frame of the call stack for
    /// each left side within a left side, where a formula that goes out of scope takes one for each node on a path.
    #[cycle(let_go)]
    pub fn let_go(self) {
        let mut rest = self;
        loop {
            rest = match rest {
                Form::True => return,
                Form::False => return,
                Form::Equal(_left, _right) => return,
                Form::Atom(_pred, _args) => return,
                Form::Not(f) => f.into_inner(),
                Form::And(f, g) => let_go_of_left(f, g),
                Form::Or(f, g) => let_go_of_left(f, g),
                Form::Imp(f, g) => let_go_of_left(f, g),
                Form::Iff(f, g) => let_go_of_left(f, g),
                Form::All(_x, f) => f.into_inner(),
                Form::Ex(_x, f) => f.into_inner(),
                Form::All2(_p, f) => f.into_inner(),
                Form::Ex2(_p, f) => f.into_inner(),
            };
        }
    }
}

/// Lets go of a left side. What is left is the right side.
#[cycle(let_go)]
fn let_go_of_left(left: Boxed<Form>, right: Boxed<Form>) -> Form
    ensures { result ≡ right }
{
    left.into_inner().let_go();
    right.into_inner()
}

/// The boxed form of `copy`.
#[cycle(copy)]
pub fn copy_boxed(alloc: Global, f: &Boxed<Form>) -> Mem<Boxed<Form>>
    ensures { IfOk result (λ r. r ≡ f.now) }
{
    let f = f.get().copy(alloc)?;
    Boxed::new(alloc, f)
}
