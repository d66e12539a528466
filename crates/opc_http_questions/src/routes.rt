//! The routes of `decide`.
ghost use Rattle.std.specs.Prelude.{◌≡◌};
ghost use Rattle.opc_http_questions.specs.DecideRoutes.{is_path_of, kind_of, method_of, path_of, route_of};

use opc_decide_present::kind::QuestionKind;
use opc_http_requests::refusal::Method;

/// Where clients find out the other paths.
pub const CONFIGURATION: &str = "/.well-known/authzen-configuration";

/// What a request asks for, by its path: a question, or where questions are asked.
#[derive(Clone, Copy, Debug, PartialEq, Eq)]
pub enum DecideRoute {
    Ask(QuestionKind),
    Configuration,
}

/// The path of the questions of a kind.
pub fn path_of(kind: QuestionKind) -> &'static str
    ensures { result.now ≡ path_of kind }
{
    match kind {
        QuestionKind::Evaluation => "/access/v1/evaluation",
        QuestionKind::Evaluations => "/access/v1/evaluations",
        QuestionKind::SubjectSearch => "/access/v1/search/subject",
        QuestionKind::ActionSearch => "/access/v1/search/action",
        QuestionKind::ResourceSearch => "/access/v1/search/resource",
    }
}

fn is_path_of(kind: QuestionKind, path: &[u8]) -> bool
    ensures { result ≡ is_path_of kind path.now }
{
    path == path_of(kind).as_bytes()
}

/// The kind of the questions that have this path.
fn kind_of(path: &[u8]) -> Option<QuestionKind>
    ensures { result ≡ kind_of path.now }
{
    if is_path_of(QuestionKind::Evaluation, path) {
        Some(QuestionKind::Evaluation)
    } else if is_path_of(QuestionKind::Evaluations, path) {
        Some(QuestionKind::Evaluations)
    } else if is_path_of(QuestionKind::SubjectSearch, path) {
        Some(QuestionKind::SubjectSearch)
    } else if is_path_of(QuestionKind::ActionSearch, path) {
        Some(QuestionKind::ActionSearch)
    } else if is_path_of(QuestionKind::ResourceSearch, path) {
        Some(QuestionKind::ResourceSearch)
    } else {
        None
    }
}

/// The route of a path, if it has one.
pub fn route_of(path: &[u8]) -> Option<DecideRoute>
    ensures { result ≡ route_of path.now }
{
    if path == CONFIGURATION.as_bytes() {
        return Some(DecideRoute::Configuration);
    }
    match kind_of(path) {
        Some(kind) => Some(DecideRoute::Ask(kind)),
        None => None,
    }
}

/// The one method of a route.
pub(crate) fn method_of(route: DecideRoute) -> Method
    ensures { result ≡ method_of route }
{
    match route {
        DecideRoute::Ask(_) => Method::Post,
        DecideRoute::Configuration => Method::Get,
    }
}
