//! Formulas by themselves: from the bytes of a text to a formula with numbers, or to the place where the text is refused.
ghost use Rattle.std.specs.Prelude.{◌≡◌, None, Some, true, IfOk, OnOk};
ghost use Rattle.soqe_signature.specs.Scope.{sorting_for};
ghost use Rattle.soqe_form.specs.Sorted.{sorted};
ghost use Rattle.soqe_parse.specs.Formulas.{HasForm, IsFormFaultAt};
ghost use Rattle.soqe_syntax.specs.Shapes.{view};
ghost use Rattle.soqe_text.specs.FormTables.{tables_of};
ghost use Rattle.soqe_text.specs.Lexing.{OnTextSyntax};
ghost use Rattle.soqe_text.specs.Refused.{OnRefusedAt};
ghost use Rattle.soqe_text.specs.Spelled.{OnNames, OnSorts};
ghost use Rattle.soqe_text.specs.SpelledForm.{SpellsForm, SpellsFormBy, HasFormNameFault, HasFormSortFault, tables, refused_form, wrong_form, numbered_form};

use crate::form_naming::check_names;
use crate::form_tables::{FormTables, bound_preds, pred_sorts, variable_sorts, variables};
use crate::lexing::TextFault;
use crate::lookup::Lookup;
use crate::numbering::numbered;
use crate::refused::Refused;
use soqe_form::{Form, PVars};
use soqe_parse::{ShapeError, read_form_shape};
use soqe_signature::{Signature, SkolemSigs};
use soqe_syntax::Shape;
use soqe_term::Vars;
use sqlite_items::Boxed;
use std::alloc::Global;

/// That no name of a formula's shape is refused. The error is the first that is.
fn check_form_names(
    alloc: Global,
    bytes: &[u8],
    given: &FormTables,
    shape: &Shape,
) -> Result<(), Refused>
    ensures ok { OnOk result (refused_form bytes.now (tables_of given.now) (view shape.now) ≡ None) }
    ensures refused { OnRefusedAt result (λ at. refused_form bytes.now (tables_of given.now) (view shape.now) ≡ Some at) }
{
    let mut vars = variables(alloc, given.free.as_slice())?;
    let mut preds = bound_preds(alloc, given.preds.as_slice())?;
    let look = Lookup::Form(given.sig, given.skolems);
    check_names(bytes, &look, &mut vars, &mut preds, shape)
}

/// The formula of a shape whose names are known. The error is the first wrong use of a name.
#[tactic(auto, using(crate::proofs::SameNames::wrong_in_form, crate::proofs::SameNames::numbered_in_form))]
fn form_numbered(
    alloc: Global,
    bytes: &[u8],
    given: &FormTables,
    shape: &Shape,
) -> Result<Boxed<Form>, Refused>
    ensures right { OnOk result (wrong_form bytes.now (tables_of given.now) (view shape.now) ≡ None) }
    ensures form { IfOk result (λ f. f ≡ numbered_form bytes.now (tables_of given.now) (view shape.now)) }
    ensures refused { OnRefusedAt result (λ at. wrong_form bytes.now (tables_of given.now) (view shape.now) ≡ Some at) }
{
    let mut vars = variable_sorts(alloc, given.free.as_slice())?;
    let mut preds = pred_sorts(alloc, given.preds.as_slice())?;
    let look = Lookup::Form(given.sig, given.skolems);
    numbered(alloc, bytes, &look, &mut vars, &mut preds, shape)
}

/// The formula of a shape.
fn form_of(
    alloc: Global,
    bytes: &[u8],
    given: &FormTables,
    shape: &Shape,
) -> Result<Boxed<Form>, TextFault>
    requires { HasForm bytes.now (view shape.now) }
    ensures found { IfOk result (λ f. SpellsFormBy (tables_of given.now) bytes.now f) }
    ensures syntax { OnTextSyntax result (λ at. IsFormFaultAt bytes.now at) }
    ensures names { OnNames result (λ at. HasFormNameFault (tables_of given.now) bytes.now at) }
    ensures sorts { OnSorts result (λ at. HasFormSortFault (tables_of given.now) bytes.now at) }
{
    match check_form_names(alloc, bytes, given, shape) {
        Ok(()) => match form_numbered(alloc, bytes, given, shape) {
            Ok(form) => Ok(form),
            Err(Refused::At(at)) => Err(TextFault::Sorts(at)),
            Err(Refused::Memory) => Err(TextFault::Memory),
        },
        Err(Refused::At(at)) => Err(TextFault::Names(at)),
        Err(Refused::Memory) => Err(TextFault::Memory),
    }
}

/// The formula that a text spells by itself, by the declarations and names of a problem, Skolem functions, free variables
/// and free bound predicates; of several entries with one number the first counts. A tagged name stands for the variable,
/// the bound predicate or the Skolem function of its number, the first two where no name has that number.
///
/// `Syntax` comes where the text has no formula's shape, or something behind it; `Names` where it has one and a name is
/// refused, with the first such place; `Sorts` where no name is refused and one is used wrongly or an equation is between
/// two sorts, with the first such place; `Memory` where memory runs out. It allocates the tree, the formula and tables of
/// the numbers that were met; the recursion is as deep as the formula.
pub fn read_form(
    alloc: Global,
    sig: &Signature,
    skolems: &SkolemSigs,
    free: &Vars,
    preds: &PVars,
    bytes: &[u8],
) -> Result<Boxed<Form>, TextFault>
    ensures found { IfOk result (λ f. SpellsForm sig.now skolems.now free.now preds.now bytes.now f) }
    ensures sorted { IfOk result (λ f. sorted (sorting_for sig.now skolems.now free.now preds.now) f ≡ true) }
    ensures syntax { OnTextSyntax result (λ at. IsFormFaultAt bytes.now at) }
    ensures names { OnNames result (λ at. HasFormNameFault (tables sig.now skolems.now free.now preds.now) bytes.now at) }
    ensures sorts { OnSorts result (λ at. HasFormSortFault (tables sig.now skolems.now free.now preds.now) bytes.now at) }
{
    let given = FormTables {
        sig,
        skolems,
        free,
        preds,
    };
    match read_form_shape(alloc, bytes) {
        Ok(shape) => form_of(alloc, bytes, &given, &shape),
        Err(ShapeError::Syntax(at)) => Err(TextFault::Syntax(at)),
        Err(ShapeError::Memory) => Err(TextFault::Memory),
    }
}
