//! What the words ask for.

ghost use Rattle.std.specs.Prelude.{◌≡◌, map, string_bytes};
ghost use Rattle.soqe_calls.specs.Words.{shape_named, asking_named, making_named, call_named, list_plan, formula_plan, other_plan, shape_plan, plan_named, IsPlanOf};

/// A call on a formula.
#[derive(Clone, Copy, Debug, PartialEq, Eq)]
pub enum Call {
    /// No call: the formula is made alone.
    Nothing,
    /// Its nodes are counted.
    Nodes,
    /// Its free variables are listed.
    FreeVars,
    /// It is copied.
    Copy,
    /// It is compared with its copy.
    Same,
    /// It is made tidy.
    Tidy,
    /// A term for the free variable of all parts, which no binder catches.
    Subst,
    /// A term in its place that binders of the formula would catch, so they are renamed.
    SubstRenaming,
    /// Its bound variables are made distinct.
    Apart,
    /// Its normal form is made.
    Nnf,
    /// It is made simple.
    Simplify,
}

/// A call on a problem or on its text.
#[derive(Clone, Copy, Debug, PartialEq, Eq)]
pub enum TextCall {
    /// No call: the problem is made alone.
    Problem,
    /// The problem is printed.
    Print,
    /// The text that was printed is read.
    Read,
}

/// What a formula looks like.
#[derive(Clone, Copy, Debug, PartialEq, Eq)]
pub enum Shape {
    /// A conjunction of parts of ten nodes each.
    Wide,
    /// Quantifiers before an atom.
    Deep,
    /// Quantifiers before a conjunction of parts.
    Mixed,
    /// Negations before an atom.
    Negations,
    /// A conjunction of rows of negations, each before an atom.
    NegationRows,
    /// A conjunction of chains of atoms without arguments.
    ChainRows,
}

/// What the words ask for.
#[derive(Clone, Copy, Debug, PartialEq, Eq)]
pub enum Plan {
    /// Make a list of so many numbers.
    Numbers(u32),
    /// Make it, and look for the least number that it lacks.
    LeastUnused(u32),
    /// Make a formula of a shape and about so many nodes, and call.
    Formula(Call, Shape, u32),
    /// Make the formula, and the cases of it for the predicate of all parts.
    Cases(Shape, u32),
    /// Make a problem with that goal, and call.
    Text(TextCall, Shape, u32),
}

/// The plan of the words, the program's name first, or nothing where they aren't taken. It takes no memory.
#[tactic(auto, unfolding(crate::specs::Words::IsPlanOf))]
pub fn read_plan(words: &[String]) -> Option<Plan>
    ensures { IsPlanOf (map string_bytes words.now) result }
{
    match words {
        [_, call, shape, size] => {
            let Ok(size) = size.as_str().parse::<u32>() else {
                return None;
            };
            plan_of(call.as_str(), shape.as_str(), size)
        }
        _ => None,
    }
}

/// The plan of the names of a call and a shape, and of a size.
fn plan_of(call: &str, shape: &str, size: u32) -> Option<Plan>
    ensures { result ≡ plan_named call.now shape.now size }
{
    if shape == "list" {
        read_list(call, size)
    } else {
        read_on_shape(call, shape, size)
    }
}

/// The plan of the name of a call on a list.
fn read_list(call: &str, size: u32) -> Option<Plan>
    ensures { result ≡ list_plan call.now size }
{
    if call == "none" {
        Some(Plan::Numbers(size))
    } else if call == "least_unused" {
        Some(Plan::LeastUnused(size))
    } else {
        None
    }
}

/// The plan of the name of a call on a shape.
fn read_on_shape(call: &str, shape: &str, size: u32) -> Option<Plan>
    ensures { result ≡ shape_plan call.now (shape_named shape.now) size }
{
    match read_shape(shape) {
        Some(shape) => read_on_formula(call, shape, size),
        None => None,
    }
}

/// The plan of a call on a formula, or else another one.
fn read_on_formula(call: &str, shape: Shape, size: u32) -> Option<Plan>
    ensures { result ≡ formula_plan (call_named call.now) (other_plan call.now shape size) shape size }
{
    match read_call(call) {
        Some(call) => Some(Plan::Formula(call, shape, size)),
        None => read_other(call, shape, size),
    }
}

/// The plan of the name of a call that gives cases, or on a problem or its text.
fn read_other(call: &str, shape: Shape, size: u32) -> Option<Plan>
    ensures { result ≡ other_plan call.now shape size }
{
    if call == "cases" {
        Some(Plan::Cases(shape, size))
    } else if call == "problem" {
        Some(Plan::Text(TextCall::Problem, shape, size))
    } else if call == "print" {
        Some(Plan::Text(TextCall::Print, shape, size))
    } else if call == "read" {
        Some(Plan::Text(TextCall::Read, shape, size))
    } else {
        None
    }
}

/// The call of this name.
fn read_call(name: &str) -> Option<Call>
    ensures { result ≡ call_named name.now }
{
    match read_asking(name) {
        Some(call) => Some(call),
        None => read_making(name),
    }
}

/// The shape of this name.
fn read_shape(name: &str) -> Option<Shape>
    ensures { result ≡ shape_named name.now }
{
    if name == "wide" {
        Some(Shape::Wide)
    } else if name == "deep" {
        Some(Shape::Deep)
    } else if name == "mixed" {
        Some(Shape::Mixed)
    } else if name == "negations" {
        Some(Shape::Negations)
    } else if name == "negation_rows" {
        Some(Shape::NegationRows)
    } else if name == "chain_rows" {
        Some(Shape::ChainRows)
    } else {
        None
    }
}

/// The call of this name, of those that make no new formula.
fn read_asking(name: &str) -> Option<Call>
    ensures { result ≡ asking_named name.now }
{
    if name == "none" {
        Some(Call::Nothing)
    } else if name == "nodes" {
        Some(Call::Nodes)
    } else if name == "free_vars" {
        Some(Call::FreeVars)
    } else if name == "same" {
        Some(Call::Same)
    } else {
        None
    }
}

/// The call of this name, of those that make a new formula.
fn read_making(name: &str) -> Option<Call>
    ensures { result ≡ making_named name.now }
{
    if name == "copy" {
        Some(Call::Copy)
    } else if name == "tidy" {
        Some(Call::Tidy)
    } else if name == "subst" {
        Some(Call::Subst)
    } else if name == "subst_renaming" {
        Some(Call::SubstRenaming)
    } else if name == "apart" {
        Some(Call::Apart)
    } else if name == "nnf" {
        Some(Call::Nnf)
    } else if name == "simplify" {
        Some(Call::Simplify)
    } else {
        None
    }
}
