//! Where questions are asked: the document that clients look for.
ghost use Rattle.std.specs.Prelude.{◌≡◌, ◌++◌, IfOk, string_bytes};
ghost use Rattle.serde_json.specs.View.{view};
ghost use Rattle.serde_json.specs.Written.{compact_text};
ghost use Rattle.opc_http_questions.specs.DecideRoutes.{path_of};
ghost use Rattle.opc_http_decide.specs.Configurations.{configuration, document, local_base};

use opc_decide_present::kind::QuestionKind;
use opc_http_questions::routes::path_of;
use serde_json::{Value, json};
use std::alloc::{AllocError, Global};

/// The URL before the paths at a port of this computer.
pub fn local_base(alloc: Global, port: u16) -> Result<String, AllocError>
    ensures { IfOk result (λ base. string_bytes base ≡ local_base port) }
{
    format!(in alloc; "http://127.0.0.1:{port}")
}

/// The URL of the questions of a kind.
fn url_of(alloc: Global, base: &str, kind: QuestionKind) -> Result<String, AllocError>
    ensures { IfOk result (λ url. string_bytes url ≡ base.now ++ path_of kind) }
{
    let mut url = String::from_str(alloc, base)?;
    url.push_str(path_of(kind))?;
    Ok(url)
}

fn document(
    alloc: Global,
    base: &str,
    evaluation: &str,
    evaluations: &str,
    subject: &str,
    action: &str,
    resource: &str,
) -> Result<Value, AllocError>
    ensures { IfOk result (λ value. view value
        ≡ document base.now evaluation.now evaluations.now subject.now action.now resource.now) }
{
    json!(in alloc; {
        "access_evaluation_endpoint": evaluation,
        "access_evaluations_endpoint": evaluations,
        "policy_decision_point": base,
        "search_action_endpoint": action,
        "search_resource_endpoint": resource,
        "search_subject_endpoint": subject
    })
}

fn configuration_value(alloc: Global, base: &str) -> Result<Value, AllocError>
    ensures { IfOk result (λ value. view value ≡ configuration base.now) }
{
    let evaluation = url_of(alloc, base, QuestionKind::Evaluation)?;
    let evaluations = url_of(alloc, base, QuestionKind::Evaluations)?;
    let subject = url_of(alloc, base, QuestionKind::SubjectSearch)?;
    let action = url_of(alloc, base, QuestionKind::ActionSearch)?;
    let resource = url_of(alloc, base, QuestionKind::ResourceSearch)?;
    document(
        alloc,
        base,
        evaluation.as_str(),
        evaluations.as_str(),
        subject.as_str(),
        action.as_str(),
        resource.as_str(),
    )
}

/// The document, by the URL that its URLs begin with.
pub(crate) fn configuration_text(alloc: Global, base: &str) -> Result<String, AllocError>
    ensures { IfOk result (λ text. string_bytes text ≡ compact_text (configuration base.now)) }
{
    let value = configuration_value(alloc, base)?;
    value.to_string(alloc)
}
