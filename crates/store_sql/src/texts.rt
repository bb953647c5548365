//! The statements: the one place where their texts stand. Definitions cite them.

/// Makes the table `meta`.
pub const CREATE_META: &str = "CREATE TABLE meta (k INTEGER PRIMARY KEY, version INTEGER NOT NULL,
  next_user INTEGER NOT NULL, next_key INTEGER NOT NULL,
  next_pending INTEGER NOT NULL, next_machine INTEGER NOT NULL)";

/// Makes the table `users`.
pub const CREATE_USERS: &str =
    "CREATE TABLE users (id INTEGER PRIMARY KEY, login TEXT NOT NULL UNIQUE)";

/// Makes the table `auth_keys`.
pub const CREATE_AUTH_KEYS: &str =
    "CREATE TABLE auth_keys (id INTEGER PRIMARY KEY, secret TEXT NOT NULL UNIQUE,
  user INTEGER NOT NULL, reusable INTEGER NOT NULL, ephemeral INTEGER NOT NULL,
  used INTEGER NOT NULL, expiry INTEGER, tags TEXT NOT NULL)";

/// Makes the table `pending`.
pub const CREATE_PENDING: &str =
    "CREATE TABLE pending (id INTEGER PRIMARY KEY, secret TEXT NOT NULL UNIQUE,
  machine BLOB NOT NULL UNIQUE, node BLOB NOT NULL, host TEXT NOT NULL,
  routes TEXT NOT NULL, tags TEXT NOT NULL, ephemeral INTEGER NOT NULL,
  expiry INTEGER, made INTEGER NOT NULL)";

/// Makes the table `machines`.
pub const CREATE_MACHINES: &str =
    "CREATE TABLE machines (id INTEGER PRIMARY KEY, user INTEGER NOT NULL,
  machine BLOB NOT NULL UNIQUE, node BLOB NOT NULL UNIQUE, disco BLOB NOT NULL,
  host TEXT NOT NULL, name TEXT NOT NULL UNIQUE, v4 INTEGER NOT NULL UNIQUE,
  v6 BLOB NOT NULL UNIQUE, endpoints TEXT NOT NULL, derp INTEGER NOT NULL,
  routes TEXT NOT NULL, approved TEXT NOT NULL, tags TEXT NOT NULL,
  ephemeral INTEGER NOT NULL, expiry INTEGER, created INTEGER NOT NULL)";

/// Makes the table `extras`.
pub const CREATE_EXTRAS: &str = "CREATE TABLE extras (place INTEGER PRIMARY KEY, name TEXT NOT NULL,
  addr TEXT NOT NULL)";

/// Makes the table `policy`.
pub const CREATE_POLICY: &str = "CREATE TABLE policy (k INTEGER PRIMARY KEY, body TEXT NOT NULL)";

/// Shows the names of all tables, indexes and views, in a database of whatever tables.
pub const SELECT_SCHEMA: &str = "SELECT name FROM sqlite_schema";

/// Shows all rows of `meta`, by their keys.
pub const SELECT_META: &str =
    "SELECT k, version, next_user, next_key, next_pending, next_machine FROM meta ORDER \
     BY k";

/// Shows all rows of `users`, by their keys.
pub const SELECT_USERS: &str = "SELECT id, login FROM users ORDER BY id";

/// Shows all rows of `auth_keys`, by their keys.
pub const SELECT_AUTH_KEYS: &str =
    "SELECT id, secret, user, reusable, ephemeral, used, expiry, tags FROM auth_keys \
     ORDER BY id";

/// Shows all rows of `pending`, by their keys.
pub const SELECT_PENDING: &str =
    "SELECT id, secret, machine, node, host, routes, tags, ephemeral, expiry, made FROM \
     pending ORDER BY id";

/// Shows all rows of `machines`, by their keys.
pub const SELECT_MACHINES: &str =
    "SELECT id, user, machine, node, disco, host, name, v4, v6, endpoints, derp, routes, \
     approved, tags, ephemeral, expiry, created FROM machines ORDER BY id";

/// Shows all rows of `extras`, by their keys.
pub const SELECT_EXTRAS: &str = "SELECT place, name, addr FROM extras ORDER BY place";

/// Shows all rows of `policy`, by their keys.
pub const SELECT_POLICY: &str = "SELECT k, body FROM policy ORDER BY k";

/// Adds a row to `meta`.
pub const INSERT_META: &str =
    "INSERT INTO meta (k, version, next_user, next_key, next_pending, next_machine) \
     VALUES (?1, ?2, ?3, ?4, ?5, ?6)";

/// Adds a row to `users`.
pub const INSERT_USERS: &str = "INSERT INTO users (id, login) VALUES (?1, ?2)";

/// Adds a row to `auth_keys`.
pub const INSERT_AUTH_KEYS: &str =
    "INSERT INTO auth_keys (id, secret, user, reusable, ephemeral, used, expiry, tags) \
     VALUES (?1, ?2, ?3, ?4, ?5, ?6, ?7, ?8)";

/// Adds a row to `pending`.
pub const INSERT_PENDING: &str =
    "INSERT INTO pending (id, secret, machine, node, host, routes, tags, ephemeral, \
     expiry, made) VALUES (?1, ?2, ?3, ?4, ?5, ?6, ?7, ?8, ?9, ?10)";

/// Adds a row to `machines`.
pub const INSERT_MACHINES: &str =
    "INSERT INTO machines (id, user, machine, node, disco, host, name, v4, v6, endpoints, \
     derp, routes, approved, tags, ephemeral, expiry, created) VALUES (?1, ?2, ?3, ?4, \
     ?5, ?6, ?7, ?8, ?9, ?10, ?11, ?12, ?13, ?14, ?15, ?16, ?17)";

/// Adds a row to `extras`.
pub const INSERT_EXTRAS: &str = "INSERT INTO extras (place, name, addr) VALUES (?1, ?2, ?3)";

/// Adds a row to `policy`.
pub const INSERT_POLICY: &str = "INSERT INTO policy (k, body) VALUES (?1, ?2)";

/// Replaces the row of `meta` that has this key.
pub const UPDATE_META: &str =
    "UPDATE meta SET version = ?2, next_user = ?3, next_key = ?4, next_pending = ?5, \
     next_machine = ?6 WHERE k = ?1";

/// Replaces the row of `users` that has this key.
pub const UPDATE_USERS: &str = "UPDATE users SET login = ?2 WHERE id = ?1";

/// Replaces the row of `auth_keys` that has this key.
pub const UPDATE_AUTH_KEYS: &str =
    "UPDATE auth_keys SET secret = ?2, user = ?3, reusable = ?4, ephemeral = ?5, used = \
     ?6, expiry = ?7, tags = ?8 WHERE id = ?1";

/// Replaces the row of `pending` that has this key.
pub const UPDATE_PENDING: &str =
    "UPDATE pending SET secret = ?2, machine = ?3, node = ?4, host = ?5, routes = ?6, \
     tags = ?7, ephemeral = ?8, expiry = ?9, made = ?10 WHERE id = ?1";

/// Replaces the row of `machines` that has this key.
pub const UPDATE_MACHINES: &str =
    "UPDATE machines SET user = ?2, machine = ?3, node = ?4, disco = ?5, host = ?6, name \
     = ?7, v4 = ?8, v6 = ?9, endpoints = ?10, derp = ?11, routes = ?12, approved = ?13, \
     tags = ?14, ephemeral = ?15, expiry = ?16, created = ?17 WHERE id = ?1";

/// Replaces the row of `policy` that has this key.
pub const UPDATE_POLICY: &str = "UPDATE policy SET body = ?2 WHERE k = ?1";

/// Takes the row of an id out of `users`.
pub const DELETE_USERS: &str = "DELETE FROM users WHERE id = ?1";

/// Takes the row of an id out of `auth_keys`.
pub const DELETE_AUTH_KEYS: &str = "DELETE FROM auth_keys WHERE id = ?1";

/// Takes the row of an id out of `pending`.
pub const DELETE_PENDING: &str = "DELETE FROM pending WHERE id = ?1";

/// Takes the row of an id out of `machines`.
pub const DELETE_MACHINES: &str = "DELETE FROM machines WHERE id = ?1";

/// Takes all rows out of `extras`.
pub const CLEAR_EXTRAS: &str = "DELETE FROM extras";
