//! What holds of printed orders, as a call that does nothing.
ghost use Rattle.session_laws.specs.Rearranged.{JobsAnswerAlike, StepsAnswerAlike, StepsComeInTurn};

/// The same steps, taken in the order that is printed behind them, lead to the same state, and each
/// session has the same replies. It holds where no step was out of memory. A job may name the printed
/// order as its own.
pub fn the_printed_order_answers_alike()
    ensures turns { StepsComeInTurn }
    ensures steps { StepsAnswerAlike }
    ensures jobs { JobsAnswerAlike }
{}
