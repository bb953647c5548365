//! The rules that settings and tables keep.
ghost use Rattle.std.specs.Prelude.{◌≡◌, None};
ghost use Rattle.net_rows.specs.Damage.{damage};
ghost use Rattle.settings.specs.Settings.{AreSettings};

use crate::life::Snapshot;

/// Hands out what settings and tables keep at all times, for proofs. It does nothing.
pub fn keep_rules(at: &Snapshot<'_>)
    ensures settings { AreSettings at.now.settings }
    ensures tables { damage at.now.rows ≡ None }
{
    let _fields = at.settings.fields();
    let _rows = at.tables.users();
}
