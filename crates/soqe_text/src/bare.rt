//! What stands within negations and parentheses: a loop, so that no nesting of these is paid with the call stack.
ghost use Rattle.soqe_syntax.specs.Shapes.{view};
ghost use Rattle.soqe_text.specs.Bare.{Wraps};

use soqe_syntax::Shape;

/// What stands within the negations and parentheses that a shape begins with, and how many negations they are. It takes
/// no memory.
pub(crate) fn bare(shape: &Shape) -> (u64, &Shape)
    ensures { Wraps (view shape.now) result.0 (view result.1.now) }
{
    let mut negations: u64 = 0;
    let mut inner = shape;
    loop {
        match inner {
            Shape::Paren(body) => inner = body,
            Shape::Not(body) => {
                let Some(more) = negations.checked_add(1) else {
                    return (negations, inner);
                };
                negations = more;
                inner = body;
            }
            _ => return (negations, inner),
        }
    }
}
