//! Kinds of questions.

/// What a question asks for: whether one access is allowed, or several; or who or what is.
#[derive(Clone, Copy, Debug, PartialEq, Eq)]
pub enum QuestionKind {
    Evaluation,
    Evaluations,
    SubjectSearch,
    ActionSearch,
    ResourceSearch,
}
