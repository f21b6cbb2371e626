//! What questions mean. None of it does anything when it runs.

ghost use Rattle.pg_ask.specs.Means.{QuestionsAre, AssignmentsShow, AnswersShow, AnswersName, PairsHaveAssignments, CausesKeepQuestions, QuestionsExact};

use pg_ast::Desc;

/// A question is of a circuit: its root, the unknowns and the number of usable cells are there, of their widths, and the
/// touched cells are over it.
pub fn questions_are_circuits(desc: &Desc)
    ensures { QuestionsAre desc.now }
{}

/// Whatever the inputs are: where the root is true, the values stand for pairs that show the kind. The touched cells do not
/// contradict each other, both states have as many usable cells as is said, and every storage that has the words of the touched
/// cells makes a pair that shows the kind.
pub fn assignments_show(desc: &Desc)
    ensures { AssignmentsShow desc.now }
{}

/// The same of an assignment that makes all clauses of the question true, of whatever length: place k has the value of node k,
/// and nodes past its end are false.
pub fn answers_show(desc: &Desc)
    ensures { AnswersShow desc.now }
{}

/// So the words of the touched cells alone, with zeros in all other cells, make a pair that shows the kind.
pub fn answers_name_pairs(desc: &Desc)
    ensures { AnswersName desc.now }
{}

/// A pair that shows the kind is one of some inputs under which the root is true.
pub fn pairs_have_assignments(desc: &Desc)
    ensures { PairsHaveAssignments desc.now }
{}

/// Questions do not depend on whether traps tell their causes.
pub fn causes_keep_questions(desc: &Desc)
    ensures { CausesKeepQuestions desc.now }
{}

/// *questions-exact*: the clauses of a question can all be true exactly where two states show the kind.
pub fn questions_are_exact(desc: &Desc)
    ensures { QuestionsExact desc.now }
{}
