//! The keys of a request.
ghost use Rattle.std.specs.Prelude.{◌≡◌};
ghost use Rattle.opc_decide_requests.specs.RequestKeys.{key_path, key_text};

/// A key that is read.
#[derive(Clone, Copy)]
pub enum RequestKey {
    Subject,
    SubjectType,
    SubjectId,
    Action,
    ActionName,
    Resource,
    ResourceType,
    ResourceId,
    Context,
    Console,
    Taken,
    Evaluations,
    Options,
    Semantic,
    Page,
    Limit,
    Token,
}

impl RequestKey {
    /// The key as it is written in its object.
    pub fn text(self) -> &'static str
        ensures { result.now ≡ key_text self }
    {
        match self {
            RequestKey::Subject => "subject",
            RequestKey::Action => "action",
            RequestKey::Resource => "resource",
            RequestKey::SubjectType | RequestKey::ResourceType => "type",
            RequestKey::SubjectId | RequestKey::ResourceId => "id",
            RequestKey::ActionName => "name",
            RequestKey::Context => "context",
            RequestKey::Console => "console",
            RequestKey::Taken => "as",
            RequestKey::Evaluations => "evaluations",
            RequestKey::Options => "options",
            RequestKey::Semantic => "evaluations_semantic",
            RequestKey::Page => "page",
            RequestKey::Limit => "limit",
            RequestKey::Token => "token",
        }
    }

    /// The same after the key of its object, if that has one.
    pub fn path(self) -> &'static str
        ensures { result.now ≡ key_path self }
    {
        match self {
            RequestKey::SubjectType => "subject.type",
            RequestKey::SubjectId => "subject.id",
            RequestKey::ActionName => "action.name",
            RequestKey::ResourceType => "resource.type",
            RequestKey::ResourceId => "resource.id",
            RequestKey::Console => "context.console",
            RequestKey::Taken => "context.as",
            RequestKey::Semantic => "options.evaluations_semantic",
            RequestKey::Limit => "page.limit",
            RequestKey::Token => "page.token",
            RequestKey::Subject
            | RequestKey::Action
            | RequestKey::Resource
            | RequestKey::Context
            | RequestKey::Evaluations
            | RequestKey::Options
            | RequestKey::Page => self.text(),
        }
    }
}
