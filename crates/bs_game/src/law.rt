//! Laws of all answers and courses, as contracts.
ghost use Rattle.bs_game.specs.Law.{AnswerLaw, CourseLaw};

/// States that `answer` on a view agrees with the definition of a game's answers: it gives the same
/// reply, and its effect leaves the records of the boards that the definition gives. These are a
/// game within its quota again, and an added record fits into the quota. Does nothing.
#[tactic(auto, using(crate::proofs::AnswerLaw::answers_the_game))]
pub fn answer_law()
    ensures { AnswerLaw }
{}

/// States that any list of fit commands, from the start of a game on, leaves a game within its
/// quota and gives a reply to each command. Does nothing.
#[tactic(auto, using(crate::proofs::Courses::course_law))]
pub fn course_law()
    ensures { CourseLaw }
{}
