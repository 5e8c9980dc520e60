//! Documents and their lines.
ghost use Rattle.std.specs.Prelude.{◌≡◌, ◌∷◌, [], ◌++◌, IfOk, OnOk, OnErr};

use soqe_ack::DlsStep;
use soqe_form::{Form, Pred, copy_boxed};
use soqe_number::Mem;
use soqe_text::Problem;
use sqlite_items::Boxed;
use std::alloc::Global;
use std::marker::Model;

/// How a block's predicate is eliminated.
#[derive(Clone, Copy, Debug, PartialEq, Eq)]
pub enum Method {
    /// By a truth value, where the predicate occurs with one sign alone.
    Sign,
    /// By the cases of the body's normal form, each by what its guards say of the predicate.
    Dls,
}

/// Why a derivation stopped.
#[derive(Clone, Copy, Debug, PartialEq, Eq)]
pub enum Stop {
    /// The block's predicate occurs with both signs: the first atom with a positive occurrence and the first with a
    /// negative one, counted from 1.
    Mixed { pos: u64, neg: u64 },
    /// No try reaches the case with this number: for each sign, some conjunct has the sign and is no guard of it.
    NotReached(u64),
}

/// A line behind the lines of the problem.
#[derive(Drop)]
pub enum Line {
    /// The formula that the derivation starts with.
    Start(Boxed<Form>),
    /// The first block of what stands is opened.
    Block { method: Method, pred: Pred },
    /// The block's predicate is replaced by a truth value.
    Replace { value: bool, form: Boxed<Form> },
    /// The body of a block by cases, or its negation where the quantifier is universal, in normal form.
    Nnf(Boxed<Form>),
    /// A step of a block by cases.
    Dls(DlsStep),
    /// The block's formula takes its place.
    Close(Boxed<Form>),
    /// The formula without blocks that the derivation has come to.
    Result(Boxed<Form>),
    /// The method refused the first block, and why.
    Stopped(Stop),
    /// The last line.
    End,
}

impl Line {
    /// A line that equals this one. It allocates each node of its formulas anew.
    pub fn copy(&self, alloc: Global) -> Mem<Line>
        ensures { IfOk result (λ copy. copy ≡ self.now) }
    {
        match self {
            Line::Start(form) => Ok(Line::Start(copy_boxed(alloc, form)?)),
            Line::Block { method, pred } => Ok(Line::Block {
                method: *method,
                pred: *pred,
            }),
            Line::Replace { value, form } => {
                let form = copy_boxed(alloc, form)?;
                Ok(Line::Replace {
                    value: *value,
                    form,
                })
            }
            Line::Nnf(form) => Ok(Line::Nnf(copy_boxed(alloc, form)?)),
            Line::Dls(step) => Ok(Line::Dls(step.copy(alloc)?)),
            Line::Close(form) => Ok(Line::Close(copy_boxed(alloc, form)?)),
            Line::Result(form) => Ok(Line::Result(copy_boxed(alloc, form)?)),
            Line::Stopped(stop) => Ok(Line::Stopped(*stop)),
            Line::End => Ok(Line::End),
        }
    }
}

/// Lines, in order. Contracts see their list.
#[derive(Drop)]
pub struct Lines {
    items: Vec<Line>,
}

impl Model for Lines {
    ghost use Rattle.std.specs.Prelude.{List};
    ghost use Rattle.std.specs.Coded.{codes};
    ghost use Rattle.soqe_form.specs.contracts.form.Form as form;
    ghost use Rattle.soqe_deriv.specs.declared.document.Line.{Line};

    ghost Value = { List Line };

    ghost coded = { Prim.hlevel (codes, form.the_row.coded) };

    ghost view = { λ s. s.items.items };
}

impl Lines {
    /// No lines. It takes no memory.
    pub fn new(alloc: Global) -> Lines
        ensures { result ≡ [] }
    {
        Lines {
            items: Vec::new(alloc),
        }
    }

    /// The lines as a slice. It takes no memory.
    pub fn as_slice(&self) -> &[Line]
        ensures { result.now ≡ self.now }
    {
        self.items.as_slice()
    }

    /// Adds a line at the end. After want of memory nothing has changed.
    pub fn push(&mut self, line: Line) -> Mem<()>
        ensures ok { OnOk result (self.new ≡ self.old ++ line ∷ []) }
        ensures err { OnErr result (self.new ≡ self.old) }
    {
        self.items.push(line)?;
        Ok(())
    }

    /// Adds lines behind these. They are moved.
    pub fn append(&mut self, more: Lines) -> Mem<()>
        ensures { OnOk result (self.new ≡ self.old ++ more) }
    {
        let mut items = more.items;
        self.items.append(&mut items)?;
        Ok(())
    }

    /// Lines that equal these. It allocates each node of their formulas anew.
    pub fn copy(&self, alloc: Global) -> Mem<Lines>
        ensures { IfOk result (λ copy. copy ≡ self.now) }
    {
        let mut copy = Lines::new(alloc);
        for line in self.items.as_slice() {
            copy.push(line.copy(alloc)?)?;
        }
        Ok(copy)
    }
}

/// A derivation: the problem, and the lines behind its own.
#[derive(Drop)]
pub struct Document {
    pub problem: Problem,
    pub lines: Lines,
}

impl Document {
    /// A document that equals this one. It allocates each name and each node anew.
    pub fn copy(&self, alloc: Global) -> Mem<Document>
        ensures { IfOk result (λ copy. copy ≡ self.now) }
    {
        let problem = self.problem.copy(alloc)?;
        let lines = self.lines.copy(alloc)?;
        Ok(Document { problem, lines })
    }
}
