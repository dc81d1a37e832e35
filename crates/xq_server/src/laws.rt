//! Laws about what the contracts speak of.
ghost use Rattle.xq_server.specs.Answer.{AnswersOnce};

use xq_queries::reads_at_most_once;

/// A request has no two answers over the same documents: `run` and `answer` leave no choice but
/// that of a want.
pub fn answers_once()
    ensures { AnswersOnce }
{
    reads_at_most_once();
}
