//! Laws of the definitions. None of these functions does anything: each states a law.
ghost use Rattle.std.specs.Prelude.{◌≡◌, is_ok, ℕ, List};
ghost use Rattle.std.specs.List.{list_all};
ghost use Rattle.policy_doc.specs.Document.{policy_of_text};
ghost use Rattle.policy_laws.specs.Checks.{fault_in, first_failing, is_met};
ghost use Rattle.policy_laws.specs.TextChecks.{checks_of_text};

/// The fault of a text is that of the first check that fails, of the one list of all checks of the whole
/// text, in the order of reading and each with its place; there is a policy exactly where none fails.
pub fn first_failing_checks_count()
    ensures first { (text : List ℕ) → fault_in (policy_of_text text)
        ≡ first_failing (checks_of_text text) }
    ensures policy { (text : List ℕ) → is_ok (policy_of_text text)
        ≡ list_all is_met (checks_of_text text) }
{}
