//! Laws of printed texts.
ghost use Rattle.soqe_show.specs.Back.{PrintedIsLevelled, PrintedHasWords, SpellsBack, ReadsBack};
ghost use Rattle.soqe_show.specs.FormBack.{FormPrintedIsLevelled, FormPrintedHasWords, FormSpellsBack, FormReadsBack, FormSpelledIsReadable, FormReadsBackWhereSome, ProblemIsUsual};
ghost use Rattle.soqe_show.specs.Placed.{FormulaHasShape, FormulaHasTexts, ProblemHasShape, ProblemHasTexts};

use soqe_text::spelled_form_sorted;

/// A printed formula falls into tokens, whose pieces have the shape that was printed; at each place of a name or of the
/// sign of an equation stands its text.
pub fn printed_formula()
    ensures shape { FormulaHasShape }
    ensures texts { FormulaHasTexts }
{}

/// A printed problem falls into tokens, whose pieces have the shape that was printed; at each place of a name or of the
/// sign of an equation stands its text.
pub fn printed_problem()
    ensures shape { ProblemHasShape }
    ensures texts { ProblemHasTexts }
{}

/// The printed text of a problem is read back as that problem, wherever some text spells it: its tree needs no further
/// parentheses, its names are words, and a text that has a shape with these names spells the problem.
pub fn read_back()
    ensures levelled { PrintedIsLevelled }
    ensures words { PrintedHasWords }
    ensures places { SpellsBack }
    ensures text { ReadsBack }
{}

/// The printed text of a formula by itself is read back as that formula, wherever the formula can be read: it is well
/// sorted by the tables, and its binders have declared sorts. Its tree needs no further parentheses, its names are words,
/// and a text that has a shape with these names spells the formula.
pub fn form_read_back()
    ensures levelled { FormPrintedIsLevelled }
    ensures words { FormPrintedHasWords }
    ensures places { FormSpellsBack }
    ensures text { FormReadsBack }
{}

/// A formula by itself that some text spells can be read, and its printed text spells it, where its names can be read. The
/// names of a problem that some text spells are ordinary, and the binders of its goal are known.
pub fn spelled_form_back()
    ensures readable { FormSpelledIsReadable }
    ensures text { FormReadsBackWhereSome }
    ensures problem { ProblemIsUsual }
{
    spelled_form_sorted();
}
