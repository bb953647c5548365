//! Laws of the definitions. None of these functions does anything: each states a law.
ghost use Rattle.std.specs.Prelude.{◌≡◌, ◌<◌, ◌^◌, ℕ, List, Ok, true};
ghost use Rattle.port_sets.specs.declared.range.PortRange.{PortRange};
ghost use Rattle.port_sets.specs.PortTexts.{ports_of_text};
ghost use Rattle.port_sets.specs.Ranges.{IsPorts, holds};

/// What a text of ports is read as has a range, and its ranges stand apart.
pub fn read_ports_are_some()
    ensures some { (text : List ℕ) (ranges : List PortRange) → ports_of_text text ≡ Ok ranges
        → IsPorts ranges }
{}

/// A set of ports holds a port.
pub fn ports_hold_one()
    ensures one { (ranges : List PortRange) → IsPorts ranges
        → (port : ℕ) × (port < 2 ^ 16) × (holds ranges port ≡ true) }
{}
