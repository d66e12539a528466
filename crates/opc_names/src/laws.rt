//! The laws of covering, of the order of patterns, their sort keys and their heads, and of the names of groups.
ghost use Rattle.opc_names.specs.Laws.{
  CoversComputes,
  NoneIsBeforeItself,
  BeforeIsTransitive,
  OneIsBefore,
  KeysAreInOrder,
  KeysDiffer,
  KeysAreShort,
  HeadsArePrefixes,
  LongerHeadsComeFirst,
  GroupNamesReadAsUsers,
};

/// The function that computes what a pattern covers is true if and only if the pattern covers.
pub fn covers_computes()
    ensures { CoversComputes }
{}

/// The order of patterns is strict and total.
pub fn patterns_are_ordered()
    ensures irreflexive { NoneIsBeforeItself }
    ensures transitive { BeforeIsTransitive }
    ensures total { OneIsBefore }
{}

/// Sort keys order patterns as the patterns are ordered, and are distinct.
pub fn keys_order_patterns()
    ensures in_order { KeysAreInOrder }
    ensures differ { KeysDiffer }
    ensures short { KeysAreShort }
{}

/// The head of a pattern that covers a name is a prefix of that name.
pub fn heads_are_prefixes()
    ensures { HeadsArePrefixes }
{}

/// Of two patterns that cover a name, one with a longer head comes before the other.
pub fn longer_heads_come_first()
    ensures { LongerHeadsComeFirst }
{}

/// Every group's name is a valid user id, so an entry of an access list reads the name of its holder by the rule of
/// users.
pub fn group_names_read_as_users()
    ensures { GroupNamesReadAsUsers }
{}
