//! Questions about a policy, with how their answers are written.
use crate::source::NamedPolicy;
use opc_answers::question::Question;
use opc_check::form::Form;
use opc_names::name::{ConsoleName, UserId};

/// A question, and whether the answer is text or JSON.
#[derive(Clone, Copy)]
pub struct Ask<'a> {
    pub question: Question<'a>,
    pub form: Form,
}

/// Which notes on a policy are allowed, by their codes with commas between them; and whether the lines are text or
/// JSON.
#[derive(Clone, Copy)]
pub struct PolicyCheck<'a> {
    pub allowed: Option<&'a str>,
    pub form: Form,
}

/// What a user may do, at a console if one is named: all that is said of it, or that alone which is allowed; and
/// whether the answer is text or JSON.
#[derive(Clone, Copy)]
pub struct MayQuestion {
    pub user: UserId,
    pub console: Option<ConsoleName>,
    pub allowed: bool,
    pub form: Form,
}

/// A question to `explain`, `who`, `check` or `may`; or the page that `sheet` prints, which names the policy so.
#[derive(Clone, Copy)]
pub enum PolicyQuestion<'a> {
    Ask(Ask<'a>),
    Check(PolicyCheck<'a>),
    May(MayQuestion),
    Sheet(&'a str),
}

/// What changes from one policy to another, as text or as JSON.
#[derive(Clone, Copy)]
pub struct Comparison<'a> {
    pub old: NamedPolicy<'a>,
    pub new: NamedPolicy<'a>,
    pub form: Form,
}
