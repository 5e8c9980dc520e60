//! The law of answers.
ghost use Rattle.soqe_run.specs.AnswerLaws.{OneAnswer};

use soqe_text::one_spelled;

/// Words and bytes have one answer: each status is answered exactly where its cause holds.
pub fn answers()
    ensures { OneAnswer }
{
    one_spelled();
}
