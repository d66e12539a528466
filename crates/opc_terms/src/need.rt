//! What a command needs.
use opc_names::group::Group;
use opc_names::level::Level;
use opc_names::name::Resource;

/// The resource that a command names, the level that it needs on it, and its command group.
#[derive(Clone, Copy, PartialEq, Eq)]
pub struct Need {
    pub resource: Resource,
    pub level: Level,
    pub group: Group,
}
