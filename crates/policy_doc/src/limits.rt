//! How long the parts of a policy may be.

/// How many rules, of `acls` and of `grants` together, and how many hosts, there may be.
pub const RULE_LIMIT: usize = 512;

/// How many groups, tags, entries of `grants`, routes and tests there may be.
pub const ENTRY_LIMIT: usize = 256;

/// How many elements a list of an entry may have.
pub const LIST_LIMIT: usize = 256;
