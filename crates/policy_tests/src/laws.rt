//! Laws of the definitions. None of these functions does anything: each states a law.
ghost use Rattle.std.specs.Prelude.{◌≡◌, ℕ, List, None, Option, [], true};
ghost use Rattle.policy_rows.specs.declared.dest.Dest.{Dest};
ghost use Rattle.policy_rows.specs.declared.policy.Policy.{Policy};
ghost use Rattle.policy_rows.specs.declared.test.Test.{Test};
ghost use Rattle.policy_sites.specs.Grants.{grants};
ghost use Rattle.policy_sites.specs.declared.end.End.{End};
ghost use Rattle.policy_sites.specs.declared.site.Site.{Site};
ghost use Rattle.policy_tests.specs.Lasting.{AcceptsLast, StandsFor, lasts};
ghost use Rattle.policy_tests.specs.Tests.{first_failure, is_accepted};

/// Whatever grants a phantom grants each machine's end that it stands for, at either side.
pub fn phantoms_stand_for_machines()
    ensures sources { (policy : Option Policy) (phantom s d : End) (proto port : ℕ)
        → StandsFor phantom s → grants policy phantom d proto port ≡ true
        → grants policy s d proto port ≡ true }
    ensures dests { (policy : Option Policy) (s phantom d : End) (proto port : ℕ)
        → StandsFor phantom d → grants policy s phantom proto port ≡ true
        → grants policy s d proto port ≡ true }
{}

/// An accept entry between users, groups and tags passes exactly where its phantoms pass: over any
/// machines as over none.
pub fn an_accept_is_by_phantoms()
    ensures same { (policy : Policy) (sites : List Site) (t : Test) (e : Dest)
        → lasts t e ≡ true → is_accepted policy sites t e ≡ is_accepted policy [] t e }
{}

/// Of a policy that passes its tests over some machines each accept entry between users, groups and tags
/// passes whatever machines there are.
pub fn passed_tests_last()
    ensures last { (policy : Policy) (sites : List Site)
        → first_failure policy sites ≡ None → AcceptsLast policy }
{}
