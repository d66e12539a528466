//! Keys of the JSON object that is a body.
ghost use Rattle.std.specs.Prelude.{◌≡◌};
ghost use Rattle.opc_http_requests.specs.BodyKeys.{key_text};

/// A key of a command or of an operation.
#[derive(Clone, Copy, Debug, PartialEq, Eq)]
pub enum BodyKey {
    Text,
    Op,
    Id,
    Special,
    Auditor,
    Revoked,
    Digest,
    Restricted,
    Name,
    User,
    Group,
    Class,
    Pattern,
    Owner,
    Uacc,
    Warning,
    Level,
    When,
    Active,
    Auth,
    Mode,
}

impl BodyKey {
    /// The key as it is written.
    pub fn text(self) -> &'static str
        ensures { result.now ≡ key_text self }
    {
        match self {
            BodyKey::Text => "text",
            BodyKey::Op => "op",
            BodyKey::Id => "id",
            BodyKey::Special => "special",
            BodyKey::Auditor => "auditor",
            BodyKey::Revoked => "revoked",
            BodyKey::Digest => "digest",
            BodyKey::Restricted => "restricted",
            BodyKey::Name => "name",
            BodyKey::User => "user",
            BodyKey::Group => "group",
            BodyKey::Class => "class",
            BodyKey::Pattern => "pattern",
            BodyKey::Owner => "owner",
            BodyKey::Uacc => "uacc",
            BodyKey::Warning => "warning",
            BodyKey::Level => "level",
            BodyKey::When => "when",
            BodyKey::Active => "active",
            BodyKey::Auth => "auth",
            BodyKey::Mode => "mode",
        }
    }
}
