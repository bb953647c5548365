//! Laws of the definitions. None of these functions does anything: each states a law.
ghost use Rattle.std.specs.Prelude.{◌≡◌, ◌≤◌, ◌++◌, ◌∷◌, [], true, codes, ℕ, List, Option, Some, None, Result, Ok, Err};
ghost use Rattle.serde_json.specs.Data.{Data, Items, Members};
ghost use Rattle.serde_json.specs.Find.{as_array};
ghost use Rattle.policy_rows.specs.declared.fault.PolicyFault.{PolicyFault};
ghost use Rattle.policy_rows.specs.declared.names.Names.{Names};
ghost use Rattle.policy_rows.specs.declared.policy.Policy.{Policy};
ghost use Rattle.policy_rows.specs.declared.rule.Rule.{Rule};
ghost use Rattle.policy_doc.specs.declared.limits.TheConstants.{ENTRY_LIMIT, LIST_LIMIT, RULE_LIMIT};
ghost use Rattle.policy_doc.specs.Document.{policy_of_text, rules_section};
ghost use Rattle.policy_doc.specs.FirstFault.{IsFirstFault, IsFirstFaultyGrant};
ghost use Rattle.policy_doc.specs.Grants.{grants_at};
ghost use Rattle.policy_doc.specs.Keys.{keys_of, lacks_key, section};
ghost use Rattle.policy_doc.specs.Rules.{rule_at};
ghost use Rattle.policy_doc.specs.Sound.{IsSound};
ghost use Rattle.policy_doc.specs.Walks.{items_count, list_of, optional};

/// Each policy that is read is sound: what its selectors name has entries, each stands where one of
/// its kind may, and nothing is longer than its limit.
pub fn policies_are_sound()
    ensures sound { (text : List ℕ) (p : Policy) → policy_of_text text ≡ Ok p → IsSound p }
{}

/// A list that is no longer than its limit and has a fault has it at an element, and each element
/// before that one is read without a fault.
pub fn first_faults_count<T>()
    ensures first { (most : ℕ) (read : List ℕ → Data → Result T PolicyFault) (place : List ℕ)
        (d : Data) (ds : Items) (fault : PolicyFault) → as_array d ≡ Some ds → items_count ds ≤ most
        → list_of most read place d ≡ Err fault → IsFirstFault read place ds fault }
{}

/// A list of `grants` that is no longer than its limit and has a fault has it at an entry, read behind
/// the rules of the entries before it, which are read without a fault.
pub fn first_faulty_grants_count()
    ensures first { (names : Names) (before : List Rule) (place : List ℕ) (d : Data) (ds : Items)
        (fault : PolicyFault) → as_array d ≡ Some ds → items_count ds ≤ ENTRY_LIMIT
        → grants_at names before place d ≡ Err fault
        → IsFirstFaultyGrant names before place ds fault }
{}

/// A text without `grants`, in any case of its letters, reads as it did when the key wasn't supported: an
/// object without a key is judged alike whether that key is known or unsupported, the section isn't
/// there, and without it the rules are those of `acls`.
pub fn texts_without_grants_read_as_before()
    ensures keys { (place name : List ℕ) (front back unsupported seen : List (List ℕ))
        (ms : Members) → lacks_key name ms ≡ true
        → keys_of place (front ++ name ∷ back) unsupported seen ms
        ≡ keys_of place (front ++ back) (name ∷ unsupported) seen ms }
    ensures absent { (ms : Members) → lacks_key (codes "grants") ms ≡ true
        → section (codes "grants") ms ≡ None }
    ensures rules { (names : Names) (acls : Option Data) → rules_section names acls None
        ≡ optional (list_of RULE_LIMIT (rule_at names) (codes "acls")) acls }
{}

/// How much a policy may hold: rules of `acls` and `grants` together, groups, tags, entries of `grants`,
/// routes and tests, and elements of a list of an entry.
pub fn the_numbers_are_these()
    ensures rules { RULE_LIMIT ≡ 512 }
    ensures entries { ENTRY_LIMIT ≡ 256 }
    ensures list { LIST_LIMIT ≡ 256 }
{}
