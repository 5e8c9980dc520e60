//! A formula taken apart whose root is known.
#![tactic(auto, unfolding(soqe_form::specs::Boxes::boxes))]

ghost use Rattle.std.specs.Prelude.{◌≡◌, true};
ghost use Rattle.soqe_form.specs.declared.form.Form.{Not, Imp};
ghost use Rattle.soqe_simp.specs.Stepped.{is_negation, is_implication};

use soqe_form::Form;
use sqlite_items::Boxed;

/// C and D of C -> D.
#[derive(Drop)]
pub struct Implication {
    pub condition: Boxed<Form>,
    pub conclusion: Boxed<Form>,
}

/// A of ~A.
pub fn denied(form: Boxed<Form>) -> Boxed<Form>
    requires { is_negation form ≡ true }
    ensures { form ≡ Not result }
{
    match form.into_inner() {
        Form::Not(a) => a,
        _ => unreachable!(),
    }
}

/// C and D of C -> D.
pub fn implication_parts(form: Boxed<Form>) -> Implication
    requires { is_implication form ≡ true }
    ensures { form ≡ Imp result.condition result.conclusion }
{
    match form.into_inner() {
        Form::Imp(condition, conclusion) => Implication {
            condition,
            conclusion,
        },
        _ => unreachable!(),
    }
}
