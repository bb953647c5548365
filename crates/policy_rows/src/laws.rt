//! Laws of the definitions. None of these functions does anything: each states a law.
ghost use Rattle.std.specs.Prelude.{◌≡◌, ◌∷◌, [], codes, map};
ghost use Rattle.net_addr.specs.PrefixTexts.{prefix_text};
ghost use Rattle.policy_rows.specs.Internet.{internet_nets, not_internet};

/// The prefixes in which the internet lies, and those in them that aren't public, as texts.
pub fn the_numbers_are_these()
    ensures internet { map prefix_text internet_nets ≡ codes "0.0.0.0/0" ∷ codes "2000::/3" ∷ [] }
    ensures private { map prefix_text not_internet
        ≡ codes "10.0.0.0/8" ∷ codes "172.16.0.0/12" ∷ codes "192.168.0.0/16"
        ∷ codes "169.254.0.0/16" ∷ codes "100.64.0.0/10" ∷ [] }
{}
